// Sheets that are false, most of them in one place, for every reason that there is.
use crate::samples::{NONE, fee_rows, judged, replace, row};
use costs::Fees;
use figures::{five_lines, open_line};
use nets::ListNet;
use sheets::Row;

// The right sheet of the five-line example with one row replaced.
fn with_row(v: usize, other: Row<u32>) -> [Row<u32>; 5] {
    let mut rows = fee_rows();
    replace(&mut rows, v, other);
    rows
}

#[test]
fn one_row_is_false(rt: HostRuntime) {
    let mut records = five_lines();
    let net = ListNet::new(5, &mut records);
    for (v, other, reason) in [
        (0, row(1, None), "the gateway does not cost start"),
        (0, row(NONE, None), "the gateway costs none"),
        (0, row(0, Some(0)), "the gateway has a via"),
        (4, row(NONE, Some(3)), "cost none with a via"),
        (4, row(12, None), "cut off, and yet a cost"),
        (4, row(9, Some(3)), "cut off, and yet a via"),
        (1, row(7, None), "a cost without a via"),
        (1, row(7, Some(5)), "the via is just beyond the lines"),
        (1, row(7, Some(usize::MAX)), "the via is the largest number"),
        (1, row(7, Some(3)), "the via leads into another station"),
        (1, row(7, Some(0)), "the via costs more"),
        (1, row(8, Some(2)), "the via costs less"),
        (1, row(6, Some(2)), "cheaper than any route"),
        (1, row(10, Some(0)), "a route costs less"),
        (3, row(NONE, None), "reached, and yet cost none"),
    ] {
        assert_eq!(rt;
            judged::<Fees>(&net, 0, &with_row(v, other)),
            Ok(false),
            "{}",
            reason
        );
    }
    assert_eq!(rt;
        judged::<Fees>(&net, 0, &with_row(1, row(7, Some(2)))),
        Ok(true)
    );
}

// Every via fits and leads back, and yet a cheaper route leads over line 2.
#[test]
fn a_dearer_route_throughout(rt: HostRuntime) {
    let mut records = five_lines();
    let rows = [
        row(0, None),
        row(10, Some(0)),
        row(3, Some(1)),
        row(12, Some(3)),
        row(NONE, None),
    ];
    assert_eq!(rt;
        judged::<Fees>(&ListNet::new(5, &mut records), 0, &rows),
        Ok(false)
    );
}

#[test]
fn by_a_shut_line(rt: HostRuntime) {
    let mut records = five_lines();
    records[3].open = false;
    let net = ListNet::new(5, &mut records);
    assert_eq!(rt; judged::<Fees>(&net, 0, &fee_rows()), Ok(false));
    let by_line_4 = with_row(3, row(15, Some(4)));
    assert_eq!(rt; judged::<Fees>(&net, 0, &by_line_4), Ok(true));
}

// Two stations beside the gateway with free lines to each other, and no line from the gateway: every via fits.
#[test]
fn a_ring_of_free_lines(rt: HostRuntime) {
    let mut records = [open_line(1, 2, 0, 0), open_line(2, 1, 0, 0)];
    let net = ListNet::new(3, &mut records);
    let ring = [row(0, None), row(7, Some(1)), row(7, Some(0))];
    assert_eq!(rt; judged::<Fees>(&net, 0, &ring), Ok(false));
    let cut_off = [row(0, None), row(NONE, None), row(NONE, None)];
    assert_eq!(rt; judged::<Fees>(&net, 0, &cut_off), Ok(true));
}

// Every cost is right and every via fits, but the vias of the ring do not lead back.
#[test]
fn a_ring_with_the_right_costs(rt: HostRuntime) {
    let mut records = [
        open_line(0, 1, 7, 0),
        open_line(1, 2, 0, 0),
        open_line(2, 1, 0, 0),
    ];
    let net = ListNet::new(3, &mut records);
    let ring = [row(0, None), row(7, Some(2)), row(7, Some(1))];
    assert_eq!(rt; judged::<Fees>(&net, 0, &ring), Ok(false));
    let right = [row(0, None), row(7, Some(0)), row(7, Some(1))];
    assert_eq!(rt; judged::<Fees>(&net, 0, &right), Ok(true));
}

#[test]
fn a_free_line_to_itself(rt: HostRuntime) {
    let mut records = [
        open_line(0, 1, 5, 0),
        open_line(1, 1, 0, 0),
        open_line(0, 0, 0, 0),
    ];
    let net = ListNet::new(2, &mut records);
    for (gateway, via, right) in [
        (None, Some(0), true),
        (None, Some(1), false),
        (Some(2), Some(0), false),
    ] {
        let rows = [row(0, gateway), row(5, via)];
        assert_eq!(rt; judged::<Fees>(&net, 0, &rows), Ok(right));
    }
}
