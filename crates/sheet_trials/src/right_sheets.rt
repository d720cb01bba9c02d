// Sheets that are right, over each kind of net.
use crate::samples::{NONE, fee_rows, judged, loss_rows, row};
use costs::{Fees, Losses};
use figures::{LATTICE_FEES, LATTICE_LOSS, five_lines, open_line};
use nets::{EditableNet, LatticeNet, ListNet, PatchedNet};
use std::test::Fail;

#[test]
fn a_list_net_by_each_kind(rt: HostRuntime) {
    let mut records = five_lines();
    let net = ListNet::new(5, &mut records);
    assert_eq!(rt; judged::<Fees>(&net, 0, &fee_rows()), Ok(true));
    assert_eq!(rt; judged::<Losses>(&net, 0, &loss_rows()), Ok(true));
    assert_eq!(rt; judged::<Fees>(&net, 0, &loss_rows()), Ok(false));
    assert_eq!(rt; judged::<Losses>(&net, 0, &fee_rows()), Ok(false));
}

#[test]
fn for_its_own_gateway_only(rt: HostRuntime) {
    let mut records = five_lines();
    let net = ListNet::new(5, &mut records);
    let from_2 = [
        row(NONE, None),
        row(4, Some(2)),
        row(0, None),
        row(6, Some(3)),
        row(NONE, None),
    ];
    for gateway in 0..5 {
        assert_eq!(rt; judged::<Fees>(&net, gateway, &from_2), Ok(gateway == 2));
        assert_eq!(rt;
            judged::<Fees>(&net, gateway, &fee_rows()),
            Ok(gateway == 0)
        );
    }
}

#[test]
fn either_of_two_equal_lines(rt: HostRuntime) {
    let mut records = [
        open_line(0, 1, 6, 0),
        open_line(0, 1, 6, 0),
        open_line(0, 1, 7, 0),
    ];
    let net = ListNet::new(2, &mut records);
    for (via, right) in [(0, true), (1, true), (2, false)] {
        let rows = [row(0, None), row(6, Some(via))];
        assert_eq!(rt; judged::<Fees>(&net, 0, &rows), Ok(right));
    }
}

#[test]
fn one_station(rt: HostRuntime) {
    let net = ListNet::new(1, &mut []);
    assert_eq!(rt; judged::<Fees>(&net, 0, &[row(0, None)]), Ok(true));
    assert_eq!(rt; judged::<Fees>(&net, 0, &[row(NONE, None)]), Ok(false));
}

// Two rows of three: stations 0 1 2 and 3 4 5.
#[test]
fn a_lattice(rt: HostRuntime) -> Result<(), Fail> {
    let net = LatticeNet::new(2, 3, LATTICE_FEES, LATTICE_LOSS)?;
    let from_0 = [
        row(0, None),
        row(10, Some(0)),
        row(20, Some(4)),
        row(200, Some(1)),
        row(210, Some(12)),
        row(220, Some(9)),
    ];
    assert_eq!(rt; judged::<Fees>(&net, 0, &from_0), Ok(true));
    let from_5 = [
        row(16_917_215, Some(6)),
        row(16_847_215, Some(19)),
        row(16_777_215, Some(23)),
        row(140_000, Some(18)),
        row(70_000, Some(22)),
        row(0, None),
    ];
    assert_eq!(rt; judged::<Fees>(&net, 5, &from_5), Ok(true));
    assert_eq!(rt; judged::<Fees>(&net, 5, &from_0), Ok(false));
    Ok(())
}

#[test]
fn a_lattice_by_losses(rt: HostRuntime) -> Result<(), Fail> {
    let net = LatticeNet::new(2, 3, LATTICE_FEES, LATTICE_LOSS)?;
    let rows = [
        row(300, Some(6)),
        row(0, None),
        row(300, Some(4)),
        row(300, Some(18)),
        row(300, Some(5)),
        row(300, Some(16)),
    ];
    assert_eq!(rt; judged::<Losses>(&net, 1, &rows), Ok(true));
    Ok(())
}

#[test]
fn a_patched_net_before_and_after_edits(rt: HostRuntime) -> Result<(), Fail> {
    let mut records = five_lines();
    let mut net = PatchedNet::new(ListNet::new(5, &mut records));
    assert_eq!(rt; judged::<Fees>(&net, 0, &fee_rows()), Ok(true));
    net.set_price(2, 8, 1)?;
    assert_eq!(rt; judged::<Fees>(&net, 0, &fee_rows()), Ok(false));
    let repriced = [
        row(0, None),
        row(10, Some(0)),
        row(3, Some(1)),
        row(12, Some(3)),
        row(NONE, None),
    ];
    assert_eq!(rt; judged::<Fees>(&net, 0, &repriced), Ok(true));
    net.set_open(1, false)?;
    assert_eq!(rt; judged::<Fees>(&net, 0, &repriced), Ok(false));
    let [gateway, first, _, third, fourth] = repriced;
    let shut = [gateway, first, row(NONE, None), third, fourth];
    assert_eq!(rt; judged::<Fees>(&net, 0, &shut), Ok(true));
    Ok(())
}

#[test]
fn the_same_lines_in_another_order(rt: HostRuntime) {
    let [a, b, c, d, e] = five_lines();
    let mut records = [e, d, c, b, a];
    let net = ListNet::new(5, &mut records);
    let rows = [
        row(0, None),
        row(7, Some(2)),
        row(3, Some(3)),
        row(9, Some(1)),
        row(NONE, None),
    ];
    assert_eq!(rt; judged::<Fees>(&net, 0, &rows), Ok(true));
}
