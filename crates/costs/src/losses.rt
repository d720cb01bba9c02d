ghost use Rattle.std.specs.Prelude.{◌≡◌};
ghost use Rattle.costs.specs.Amounts.{amount, losses};
ghost use Rattle.costs.specs.AmountLaws.{loss_laws};

use crate::amount::{Amount, LARGEST};
use crate::kind::CostKind;

// A line costs its loss. Losses join to the greater. Six of the ten items of this impl read as those of fees. A generic kind over a rule
// for the other four would be longer than the six lines, with a trait of rules, two rules and names for the two kinds.
pub struct Losses;

impl CostKind for Losses {
    type Cost = u32;

    type Value = Amount;

    ghost value = { amount };

    ghost ops = { losses };

    ghost lawful = { loss_laws };

    fn start() -> u32 {
        0
    }

    fn none() -> u32 {
        LARGEST
    }

    fn at_most(a: u32, b: u32) -> bool {
        a <= b
    }

    #[tactic(auto, using(crate::specs::AmountLaws::same_amount))]
    fn join(a: u32, b: u32) -> u32 {
        a.max(b)
    }

    fn of_price(_fee: u32, loss: u32) -> u32 {
        loss
    }
}
