ghost use Rattle.std.specs.Prelude.{◌≡◌, drop, length};
ghost use Rattle.std.specs.Iterator.{YieldsFirst, item_count};

use crate::line::Line;
use crate::net::Net;

// The lines of a net, in the order of their numbers.
#[derive(Drop)]
pub struct Lines<'a, N> {
    net: &'a N,
    next: usize,
}

impl<'a, N: Net> Lines<'a, N> {
    // All lines of a net.
    pub fn of(net: &'a N) -> Lines<'a, N>
        ensures net { result.net.now ≡ net.now }
        ensures next { result.next ≡ 0 }
    {
        Lines { net, next: 0 }
    }
}

impl<'a, N: Net> Iterator for Lines<'a, N> {
    type Item = Line;

    ghost next_gives = { YieldsFirst (λ s. drop s.next (N.Net.meant s.net.now).lines) };

    ghost remaining = { item_count (λ s. drop s.next (N.Net.meant s.net.now).lines) };

    #[tactic(auto, using(crate::proofs::SliceGet::line_steps))]
    fn next(&mut self) -> Option<Line> {
        let line = self.net.line(self.next)?;
        self.next += 1;
        Some(line)
    }
}
