// A right sheet by the plainest method: every line is relaxed as often as there are stations (Bellman-Ford).
use crate::samples::row;
use costs::{CostKind, line_cost};
use nets::{Line, Lines, Net};
use sheets::Row;
use std::alloc::Global;
use std::test::Fail;

// The station that line k leads to takes its request where that is below its cost.
fn relax<K: CostKind<Cost = u32>>(rows: &mut [Row<u32>], k: usize, line: Line) {
    let Some(from) = rows.get(line.from as usize).copied() else {
        return;
    };
    let request = K::join(from.cost, line_cost::<K>(line));
    if let Some(to) = rows.get_mut(line.to as usize) {
        if !K::at_most(to.cost, request) {
            *to = row(request, Some(k));
        }
    }
}

pub(crate) fn bellman_ford<K: CostKind<Cost = u32>>(
    heap: Global,
    net: &impl Net,
    gateway: usize,
) -> Result<Vec<Row<u32>>, Fail> {
    let mut rows = vec![in heap; row(K::none(), None); net.stations()]?;
    if let Some(start) = rows.get_mut(gateway) {
        start.cost = K::start();
    }
    for _ in 0..net.stations() {
        for (k, line) in Lines::of(net).enumerate() {
            relax::<K>(rows.as_mut_slice(), k, line);
        }
    }
    Ok(rows)
}
