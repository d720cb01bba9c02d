// Levels, and heavy and light costs.
use crate::samples::NONE;
use costs::{Banding, Fees, Losses, Whole, Width};
use nets::Refusal;
use std::process::Abort;
use std::test::Fail;

#[test]
fn a_width_of_0_is_refused(rt: HostRuntime) {
    assert!(rt; matches!(Width::new(0).map_err(Refusal::number), Err(15)));
    assert!(rt; Width::new(1).is_ok() && Width::new(u32::MAX).is_ok());
}

// What a banding answers for costs of a kind: the cost, its level, and whether it is heavy.
type Band = (u32, u32, bool);

fn check_bands<B: Banding<Fees>>(rt: &impl Abort, banding: &B, bands: &[Band]) {
    for (cost, level, heavy) in bands {
        assert_eq!(rt;
            (banding.level(*cost), banding.heavy(*cost)),
            (*level, *heavy),
            "{}",
            *cost
        );
    }
}

#[test]
fn width_5(rt: HostRuntime) -> Result<(), Fail> {
    let bands = [
        (0, 0, false),
        (4, 0, false),
        (5, 1, false),
        (6, 1, true),
        (9, 1, true),
        (10, 2, true),
        (NONE - 1, 858_993_458, true),
    ];
    check_bands(&rt, &Width::new(5)?, &bands);
    Ok(())
}

#[test]
fn the_least_and_the_largest_width(rt: HostRuntime) -> Result<(), Fail> {
    let least = [(0, 0, false), (1, 1, false), (2, 2, true)];
    check_bands(&rt, &Width::new(1)?, &least);
    let largest = [(0, 0, false), (NONE - 1, 0, false)];
    check_bands(&rt, &Width::new(u32::MAX)?, &largest);
    Ok(())
}

#[test]
fn whole_has_one_level_over_every_kind(rt: HostRuntime) {
    let bands = [(0, 0, false), (6, 0, false), (NONE - 1, 0, false)];
    check_bands(&rt, &Whole, &bands);
    for (loss, level, heavy) in bands {
        let banding: &Whole = &Whole;
        assert_eq!(rt; <Whole as Banding<Losses>>::level(banding, loss), level);
        assert_eq!(rt; <Whole as Banding<Losses>>::heavy(banding, loss), heavy);
    }
}
