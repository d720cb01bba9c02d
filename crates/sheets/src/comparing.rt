ghost use Rattle.std.specs.Prelude.{◌≡◌};
ghost use Rattle.sheets.specs.Verdict.{same_cost, is_none};

use costs::CostKind;

// Whether two costs mean the same: each is at most the other. It is no `==`, since the order and the equality are those of what costs
// mean, where several stored costs may mean the same.
pub(crate) fn same_cost<K: CostKind>(a: K::Cost, b: K::Cost) -> bool
    ensures { result ≡ same_cost K.CostKind.ops (K.CostKind.value a) (K.CostKind.value b) }
{
    K::at_most(a, b) && K::at_most(b, a)
}

// Whether a cost means none: none is at most it.
pub(crate) fn is_none<K: CostKind>(cost: K::Cost) -> bool
    ensures { result ≡ is_none K.CostKind.ops (K.CostKind.value cost) }
{
    K::at_most(K::none(), cost)
}
