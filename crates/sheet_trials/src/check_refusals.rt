// What the check refuses, and in which order.
use crate::samples::{fee_rows, judged, row};
use costs::{Fees, Losses};
use figures::five_lines;
use nets::ListNet;
use sheets::Row;

#[test]
fn a_gateway_that_is_not_a_station(rt: HostRuntime) {
    let mut records = five_lines();
    let net = ListNet::new(5, &mut records);
    for gateway in [5, 6, 512, usize::MAX] {
        assert_eq!(rt; judged::<Fees>(&net, gateway, &fee_rows()), Err(10));
        assert_eq!(rt; judged::<Losses>(&net, gateway, &[]), Err(10));
    }
}

#[test]
fn a_table_without_one_row_for_each_station(rt: HostRuntime) {
    let mut records = five_lines();
    let net = ListNet::new(5, &mut records);
    let none: [Row<u32>; 0] = [];
    assert_eq!(rt; judged::<Fees>(&net, 0, &none), Err(11));
    assert_eq!(rt; judged::<Fees>(&net, 4, &fee_rows()[..4]), Err(11));
    assert_eq!(rt; judged::<Fees>(&net, 0, &[row(0, None); 6]), Err(11));
}
