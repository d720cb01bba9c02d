// Fees and losses as costs.
use crate::samples::NONE;
use costs::{CostKind, Fees, Losses, line_cost};
use figures::open_line;
use nets::Line;

#[test]
fn start_and_none(rt: HostRuntime) {
    assert_eq!(rt;
        (<Fees as CostKind>::start(), <Fees as CostKind>::none()),
        (0, NONE)
    );
    assert_eq!(rt;
        (<Losses as CostKind>::start(), <Losses as CostKind>::none()),
        (0, NONE)
    );
}

#[test]
fn fees_add_up_to_none(rt: HostRuntime) {
    for (a, b, sum) in [
        (0, 0, 0),
        (3, 4, 7),
        (0, NONE, NONE),
        (NONE, NONE, NONE),
        (4_294_967_040, 254, 4_294_967_294),
        (4_294_967_040, 255, NONE),
        (4_294_967_040, 256, NONE),
        (NONE - 1, 1, NONE),
        (NONE - 1, NONE - 1, NONE),
    ] {
        assert_eq!(rt; <Fees as CostKind>::join(a, b), sum);
        assert_eq!(rt; <Fees as CostKind>::join(b, a), sum);
    }
}

#[test]
fn losses_join_to_the_greater(rt: HostRuntime) {
    for (a, b, greater) in [
        (0, 0, 0),
        (3, 4, 4),
        (7, 6, 7),
        (65_535, 1, 65_535),
        (NONE, 5, NONE),
    ] {
        assert_eq!(rt; <Losses as CostKind>::join(a, b), greater);
        assert_eq!(rt; <Losses as CostKind>::join(b, a), greater);
    }
}

#[test]
fn costs_are_in_the_order_of_numbers(rt: HostRuntime) {
    for (a, b, at_most) in [
        (0, 0, true),
        (3, 4, true),
        (4, 3, false),
        (NONE, NONE, true),
        (NONE, 0, false),
    ] {
        assert_eq!(rt; <Fees as CostKind>::at_most(a, b), at_most);
        assert_eq!(rt; <Losses as CostKind>::at_most(a, b), at_most);
    }
}

#[test]
fn a_line_costs_its_fee_or_its_loss(rt: HostRuntime) {
    let open = open_line(1, 2, 30, 4);
    assert_eq!(rt; <Fees as CostKind>::of_price(30, 4), 30);
    assert_eq!(rt; <Losses as CostKind>::of_price(30, 4), 4);
    assert_eq!(rt; line_cost::<Fees>(open), 30);
    assert_eq!(rt; line_cost::<Losses>(open), 4);
}

#[test]
fn a_shut_line_costs_none(rt: HostRuntime) {
    let shut = Line {
        open: false,
        ..open_line(1, 2, 0, 0)
    };
    assert_eq!(rt; line_cost::<Fees>(shut), NONE);
    assert_eq!(rt; line_cost::<Losses>(shut), NONE);
}
