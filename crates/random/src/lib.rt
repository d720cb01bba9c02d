// Random numbers for tests: the same ones in every run.
#![tactic(auto)]

ghost use Rattle.std.specs.Prelude.{◌≡◌, max, ◌/◌, ◌%◌};
ghost use Rattle.random.specs.Random.{next};

// A linear congruential generator.
#[derive(Drop)]
pub struct Random {
    state: u32,
}

impl Random {
    pub fn new(seed: u32) -> Random
        ensures { result.state ≡ seed }
    {
        Random { state: seed }
    }

    // A number below n, or 0 where n is 0.
    pub fn below(&mut self, n: u32) -> u32
        ensures state { self.new.state ≡ next self.old.state }
        ensures value { result ≡ self.new.state / 256 % max n 1 }
    {
        self.state = self
            .state
            .wrapping_mul(1_664_525)
            .wrapping_add(1_013_904_223);
        (self.state >> 8) % n.max(1)
    }
}
