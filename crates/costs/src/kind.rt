ghost use Rattle.std.specs.Prelude.{◌≡◌};
ghost use Rattle.costs.specs.Kind.{Costs, Laws};

// A cost kind: in the field's words, a totally ordered commutative monoid with a greatest element. `start` is the unit,
// `none` is the greatest and absorbs, and `join` adds up a route line by line.
pub trait CostKind {
    // What rows store.
    type Cost: Copy;

    // What a cost means. No code makes a value of it, and nothing is known of it but the laws.
    type Value;

    // What a stored cost means. Several stored costs may mean the same.
    ghost value: { Self.Cost → Self.Value };

    // The operations, on what costs mean.
    ghost ops: { Costs Self.Value };

    // The cost of a route without lines.
    fn start() -> Self::Cost
        ensures { value result ≡ ops.start };

    // The cost of what can't be reached.
    fn none() -> Self::Cost
        ensures { value result ≡ ops.none };

    // Whether a is at most b. The order is that of what costs mean, where several stored costs may mean the same, so `Ord` and its laws
    // of equal values don't fit.
    fn at_most(a: Self::Cost, b: Self::Cost) -> bool
        ensures { result ≡ ops.at_most (value a) (value b) };

    // The cost of a followed by b.
    fn join(a: Self::Cost, b: Self::Cost) -> Self::Cost
        ensures { value result ≡ ops.join (value a) (value b) };

    // The cost of an open line with that fee and loss.
    fn of_price(fee: u32, loss: u32) -> Self::Cost
        ensures { value result ≡ ops.of_price fee loss };

    // What every kind keeps.
    ghost lawful: { Laws ops };
}
