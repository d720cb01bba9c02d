// Nets worked out from rows and columns.
use crate::checks::check_lines;
use crate::samples::{lattice, line};
use figures::{LATTICE_FEES, LATTICE_LOSS};
use nets::{LatticeFees, LatticeNet, Line, MAX_FEE, MAX_LOSS, Net, Refusal};
use std::test::*;

// The lines of two rows of three, of each station east, south, west and north.
fn two_by_three() -> [Line; 24] {
    [
        line(0, 1, 10, 300, true),
        line(0, 3, 200, 300, true),
        line(0, 0, 70_000, 300, false),
        line(0, 0, MAX_FEE, 300, false),
        line(1, 2, 10, 300, true),
        line(1, 4, 200, 300, true),
        line(1, 0, 70_000, 300, true),
        line(1, 1, MAX_FEE, 300, false),
        line(2, 2, 10, 300, false),
        line(2, 5, 200, 300, true),
        line(2, 1, 70_000, 300, true),
        line(2, 2, MAX_FEE, 300, false),
        line(3, 4, 10, 300, true),
        line(3, 3, 200, 300, false),
        line(3, 3, 70_000, 300, false),
        line(3, 0, MAX_FEE, 300, true),
        line(4, 5, 10, 300, true),
        line(4, 4, 200, 300, false),
        line(4, 3, 70_000, 300, true),
        line(4, 1, MAX_FEE, 300, true),
        line(5, 5, 10, 300, false),
        line(5, 5, 200, 300, false),
        line(5, 4, 70_000, 300, true),
        line(5, 2, MAX_FEE, 300, true),
    ]
}

// Rows and columns, with their product where it is within the limits.
const SIZES: [(usize, usize, Option<usize>); 14] = [
    (1, 1, Some(1)),
    (512, 1, Some(512)),
    (1, 512, Some(512)),
    (16, 32, Some(512)),
    (0, 3, None),
    (3, 0, None),
    (0, usize::MAX, None),
    (513, 1, None),
    (1, 513, None),
    (27, 19, None),
    (usize::MAX, 1, None),
    (usize::MAX, usize::MAX, None),
    // 2^64, and 2^64 + 2
    (0x1_0000_0000, 0x1_0000_0000, None),
    (2, 0x8000_0000_0000_0001, None),
];

#[test]
fn two_rows_of_three(rt: HostRuntime) -> Result<(), Fail> {
    let net = lattice(2, 3)?;
    assert_eq!(rt; (net.stations(), net.line_count()), (6, 24));
    check_lines(&rt, &net, &two_by_three());
    Ok(())
}

#[test]
fn sizes_on_both_sides_of_the_limits(rt: HostRuntime) -> Result<(), Fail> {
    for (rows, columns, stations) in SIZES {
        let want = stations.ok_or(16);
        let got = LatticeNet::new(rows, columns, LATTICE_FEES, LATTICE_LOSS)
            .map(|net| net.stations())
            .map_err(Refusal::number);
        assert_eq!(rt; got, want, "{rows} rows, {columns} columns");
    }
    Ok(())
}

#[test]
fn prices_at_the_limits(rt: HostRuntime) -> Result<(), Fail> {
    let fees = LatticeFees {
        east: MAX_FEE,
        south: MAX_FEE,
        west: MAX_FEE,
        north: MAX_FEE,
    };
    let net = LatticeNet::new(1, 1, fees, MAX_LOSS)?;
    assert_eq!(rt; net.line(0), Some(line(0, 0, MAX_FEE, MAX_LOSS, false)));
    Ok(())
}

// The number by which a lattice is refused.
fn refusal(rows: usize, columns: usize, fees: LatticeFees, loss: u32) -> Option<u8> {
    LatticeNet::new(rows, columns, fees, loss)
        .err()
        .map(Refusal::number)
}

#[test]
fn prices_beyond_the_limits(rt: HostRuntime) -> Result<(), Fail> {
    let over = MAX_FEE + 1;
    let excesses = [
        LatticeFees {
            east: over,
            ..LATTICE_FEES
        },
        LatticeFees {
            south: over,
            ..LATTICE_FEES
        },
        LatticeFees {
            west: over,
            ..LATTICE_FEES
        },
        LatticeFees {
            north: over,
            ..LATTICE_FEES
        },
    ];
    for fees in excesses {
        assert_eq!(rt; refusal(2, 3, fees, LATTICE_LOSS), Some(16));
    }
    assert_eq!(rt; refusal(2, 3, LATTICE_FEES, MAX_LOSS + 1), Some(16));
    Ok(())
}
