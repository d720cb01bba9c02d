// Lines, rows and sheets that the tests begin with, and what the check answers for them.
use costs::CostKind;
use nets::{Net, Refusal};
use sheets::{Row, check};

// The cost none of fees and of losses.
pub(crate) const NONE: u32 = 4_294_967_295;

pub(crate) fn row(cost: u32, via: Option<usize>) -> Row<u32> {
    Row { cost, via }
}

// The right sheet of the five-line example from gateway 0, by fees.
pub(crate) fn fee_rows() -> [Row<u32>; 5] {
    [
        row(0, None),
        row(7, Some(2)),
        row(3, Some(1)),
        row(9, Some(3)),
        row(NONE, None),
    ]
}

// The right sheet of the five-line example from gateway 0, by losses.
pub(crate) fn loss_rows() -> [Row<u32>; 5] {
    [
        row(0, None),
        row(3, Some(0)),
        row(9, Some(1)),
        row(7, Some(3)),
        row(NONE, None),
    ]
}

// Puts a row in the place of that of station v, where there is one.
pub(crate) fn replace(rows: &mut [Row<u32>], v: usize, other: Row<u32>) {
    if let Some(place) = rows.get_mut(v) {
        *place = other;
    }
}

// What the check answers for a sheet, with the number of its refusal.
pub(crate) fn judged<K: CostKind<Cost = u32>>(
    net: &impl Net,
    gateway: usize,
    rows: &[Row<u32>],
) -> Result<bool, u8> {
    check::<_, K>(net, gateway, rows).map_err(Refusal::number)
}
