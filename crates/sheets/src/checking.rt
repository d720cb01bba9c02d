ghost use Rattle.std.specs.Prelude.{◌≡◌};
ghost use Rattle.sheets.specs.Check.{checked, Tells};

use crate::admitted::Admitted;
use crate::row::Row;
use costs::CostKind;
use nets::{Net, Refusal};

// Judges a sheet from elsewhere: yes exactly for a right sheet, whatever the rows hold. Refused where the gateway is not a
// station, then where there is not one row for each station.
pub fn check<N: Net, K: CostKind>(
    net: &N,
    gateway: usize,
    rows: &[Row<K::Cost>],
) -> Result<bool, Refusal>
    ensures answer { result ≡ checked K.CostKind (N.Net.meant net.now) gateway rows.now }
    ensures tells { Tells K.CostKind (N.Net.meant net.now) gateway rows.now result }
{
    Ok(Admitted::<N, K>::admit(net, gateway, rows)?.holds())
}
