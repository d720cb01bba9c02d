ghost use Rattle.std.specs.Prelude.{◌≡◌};
ghost use Rattle.costs.specs.Bands.{Bands, BandLaws};

use crate::kind::CostKind;

// A banding: in the field's words, the buckets of delta-stepping. It gives every cost but none a level, the number of
// its bucket, and calls a cost heavy or light. A banding keeps two laws, which name the operations of the cost kind and so
// stand in what both functions promise.
pub trait Banding<K: CostKind> {
    // The levels, and the heavy costs.
    ghost bands: { Self → Bands K.Value };

    // The level of a cost. What is answered for none is never used.
    fn level(&self, cost: K::Cost) -> u32
        ensures value { result ≡ (bands self.now).level (K.CostKind.value cost) }
        ensures lawful { BandLaws K.CostKind.ops (bands self.now) };

    // Whether a cost is heavy. If not, it is light.
    fn heavy(&self, cost: K::Cost) -> bool
        ensures value { result ≡ (bands self.now).heavy (K.CostKind.value cost) }
        ensures lawful { BandLaws K.CostKind.ops (bands self.now) };
}
