ghost use Rattle.costs.specs.Bands.{whole_bands};

use crate::banding::Banding;
use crate::kind::CostKind;

// One level, and only light costs: over every cost kind.
#[derive(Clone, Copy)]
pub struct Whole;

impl<K: CostKind> Banding<K> for Whole {
    ghost bands = { λ _. whole_bands };

    fn level(&self, _cost: K::Cost) -> u32 {
        0
    }

    fn heavy(&self, _cost: K::Cost) -> bool {
        false
    }
}
