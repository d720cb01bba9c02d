ghost use Rattle.std.specs.Prelude.{◌≡◌};
ghost use Rattle.costs.specs.Amounts.{amount, fees};
ghost use Rattle.costs.specs.AmountLaws.{fee_laws};

use crate::amount::{Amount, LARGEST};
use crate::kind::CostKind;

// A line costs its fee. Fees add, and a sum of the largest number or more is none.
pub struct Fees;

impl CostKind for Fees {
    type Cost = u32;

    type Value = Amount;

    ghost value = { amount };

    ghost ops = { fees };

    ghost lawful = { fee_laws };

    fn start() -> u32 {
        0
    }

    fn none() -> u32 {
        LARGEST
    }

    fn at_most(a: u32, b: u32) -> bool {
        a <= b
    }

    #[tactic(auto, using(crate::specs::AmountLaws::same_amount))]
    fn join(a: u32, b: u32) -> u32 {
        a.saturating_add(b)
    }

    fn of_price(fee: u32, _loss: u32) -> u32 {
        fee
    }
}
