ghost use Rattle.std.specs.Prelude.{◌≡◌, ℕ, true, length, is_err};
ghost use Rattle.std.specs.List.{slice_get};
ghost use Rattle.nets.specs.Model.{Model, Sound};
ghost use Rattle.nets.specs.Edits.{price_answer, priced, open_answer, opened};

use crate::line::Line;
use crate::refusal::Refusal;

// A net: in the field's words, a directed multigraph whose edges have two weights. Stations and lines
// are numbered from 0.
pub trait Net {
    // What the net means, by which every question is answered.
    ghost meant: { Self → Model };

    // The meaning keeps the limits.
    ghost sound: { (n : Self) → Sound (meant n) };

    fn stations(&self) -> usize
        ensures { result ≡ (meant self.now).stations };

    fn line_count(&self) -> usize
        ensures { result ≡ length (meant self.now).lines };

    // Line k, or `None` exactly where there is none.
    fn line(&self, k: usize) -> Option<Line>
        ensures { result ≡ slice_get (meant self.now).lines k };
}

// A net that takes edits. An accepted edit replaces the fields that it names of line k in the meaning,
// and nothing else; a refused one leaves the net equal to what it was.
pub trait EditableNet: Net {
    // What an edit of line k may do to the net's own tables: `only k before after`.
    ghost only: { ℕ → Self → Self → Type 0 };

    // Sets the fee and the loss of line k.
    fn set_price(&mut self, k: usize, fee: u32, loss: u32) -> Result<(), Refusal>
        ensures answer { result ≡ price_answer (Self.Net.meant self.old) k fee loss }
        ensures after { Self.Net.meant self.new ≡ priced (Self.Net.meant self.old) k fee loss }
        ensures only { only k self.old self.new }
        ensures refused { is_err result ≡ true → self.new ≡ self.old };

    // Opens or shuts line k.
    fn set_open(&mut self, k: usize, open: bool) -> Result<(), Refusal>
        ensures answer { result ≡ open_answer (Self.Net.meant self.old) k }
        ensures after { Self.Net.meant self.new ≡ opened (Self.Net.meant self.old) k «open» }
        ensures only { only k self.old self.new }
        ensures refused { is_err result ≡ true → self.new ≡ self.old };
}
