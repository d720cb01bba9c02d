// Long chains of stations: the longest walk back, and a route that costs none.
use crate::samples::{NONE, judged, row};
use costs::Fees;
use figures::open_line;
use nets::{Line, ListNet, MAX_FEE, MAX_STATIONS};
use sheets::Row;
use std::alloc::{AllocError, Global};
use std::iter;
use std::test::Fail;

// So many lines of one fee, each from a station to the next.
fn chain(heap: Global, lines: u32, fee: u32) -> Result<Vec<Line>, AllocError> {
    (0..lines)
        .map(|k| open_line(k, k.saturating_add(1), fee, 0))
        .collect(heap)
}

// The rows of the chain from its first station.
fn chain_rows(heap: Global, lines: u32, fee: u32) -> Result<Vec<Row<u32>>, AllocError> {
    let reached = (0..lines).map(|k| {
        let cost = fee.saturating_mul(k.saturating_add(1));
        row(cost, Some(k as usize))
    });
    iter::once(row(0, None)).chain(reached).collect(heap)
}

#[test]
fn as_long_as_stations_allow(rt: HostRuntime) -> Result<(), Fail> {
    let mut records = chain(rt.alloc(), 511, 0)?;
    let mut rows = chain_rows(rt.alloc(), 511, 0)?;
    let net = ListNet::new(MAX_STATIONS, records.as_mut_slice());
    assert_eq!(rt; judged::<Fees>(&net, 0, rows.as_slice()), Ok(true));
    // the last station's via is now the line before, into another station
    let _ = rows.pop();
    rows.push(row(0, Some(509)))?;
    assert_eq!(rt; judged::<Fees>(&net, 0, rows.as_slice()), Ok(false));
    Ok(())
}

// 256 lines at the largest fee cost 4,294,967,040: with 254 more that is a cost, with 255 it is none, and none is no route.
#[test]
fn up_to_the_cost_none(rt: HostRuntime) -> Result<(), Fail> {
    for (fee, cost, via) in [
        (254, 4_294_967_294, Some(256)),
        (255, NONE, None),
        (256, NONE, None),
    ] {
        let mut records = chain(rt.alloc(), 256, MAX_FEE)?;
        records.push(open_line(256, 257, fee, 0))?;
        let mut rows = chain_rows(rt.alloc(), 256, MAX_FEE)?;
        rows.push(row(cost, via))?;
        let net = ListNet::new(258, records.as_mut_slice());
        assert_eq!(rt; judged::<Fees>(&net, 0, rows.as_slice()), Ok(true));
        // a via where there is no route, or none where there is one
        let _ = rows.pop();
        let other = via.xor(Some(256));
        rows.push(row(cost, other))?;
        assert_eq!(rt; judged::<Fees>(&net, 0, rows.as_slice()), Ok(false));
    }
    Ok(())
}
