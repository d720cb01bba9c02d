// The check over random nets: yes for the sheet of a plain Bellman-Ford, no where one cost or one via of it is another.
use crate::bellman_ford::bellman_ford;
use crate::random_nets::Shape;
use crate::samples::{judged, replace, row};
use costs::{CostKind, Fees, Losses};
use nets::{ListNet, Net};
use random::Random;
use sheets::Row;
use std::alloc::AllocGlobal;
use std::process::Abort;
use std::test::Fail;

// One station, parallel lines, free lines only, few and many lines, and the most that a net may have.
fn shapes() -> [Shape; 7] {
    [
        Shape::new(1, 4, 3, 0),
        Shape::new(2, 12, 2, 1),
        Shape::new(6, 9, 1, 0),
        Shape::new(8, 40, 4, 2),
        Shape::new(20, 25, 100, 1),
        Shape::new(40, 300, 60_000, 1),
        Shape::new(512, 2_048, 60_000, 1),
    ]
}

// The row with another cost, or with a via in the place of none and none in the place of one.
fn other_rows(right: Row<u32>) -> [Row<u32>; 3] {
    let via = right.via.xor(Some(0));
    [
        row(right.cost.wrapping_add(1), right.via),
        row(right.cost.wrapping_sub(1), right.via),
        row(right.cost, via),
    ]
}

fn check_net<K: CostKind<Cost = u32>>(
    rt: &(impl Abort + AllocGlobal),
    net: &impl Net,
    gateway: usize,
) -> Result<(), Fail> {
    let right = bellman_ford::<K>(rt.alloc(), net, gateway)?;
    assert_eq!(rt; judged::<K>(net, gateway, right.as_slice()), Ok(true));
    let mut rows = right.clone()?;
    for (v, right_row) in right.iter().enumerate() {
        for other in other_rows(*right_row) {
            replace(rows.as_mut_slice(), v, other);
            assert_eq!(rt;
                judged::<K>(net, gateway, rows.as_slice()),
                Ok(false),
                "{}",
                v
            );
        }
        replace(rows.as_mut_slice(), v, *right_row);
    }
    Ok(())
}

// A random net of a shape, by fees and by losses.
fn check_shape(
    rt: &(impl Abort + AllocGlobal),
    shape: Shape,
    random: &mut Random,
) -> Result<(), Fail> {
    let mut records = shape.records(rt.alloc(), random)?;
    let net = ListNet::new(shape.stations as usize, records.as_mut_slice());
    let gateway = random.below(shape.stations) as usize;
    check_net::<Fees>(rt, &net, gateway)?;
    check_net::<Losses>(rt, &net, gateway)
}

#[test]
fn random_nets_of_each_shape(rt: HostRuntime) -> Result<(), Fail> {
    let mut random = Random::new(1);
    for shape in shapes() {
        for _ in 0..10 {
            check_shape(&rt, shape, &mut random)?;
        }
    }
    Ok(())
}
