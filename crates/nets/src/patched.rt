ghost use Rattle.std.specs.Prelude.{◌≡◌, ◌<◌, length, slice_index_or};
ghost use Rattle.nets.specs.Model.{max_lines};
ghost use Rattle.nets.specs.Only.{OnlyChange};
ghost use Rattle.nets.specs.Patches.{patch_line, ChangesNothing, change_price, change_open, patched};
ghost use Rattle.nets.specs.PatchesSound.{sound_patched};

use crate::judging::{judge_open, judge_price};
use crate::limits::{MAX_FEE, MAX_LINES, MAX_LOSS};
use crate::line::Line;
use crate::net::{EditableNet, Net};
use crate::refusal::Refusal;

// What is changed of a line. A fee or a loss beyond its limit reads as unchanged, and so does an absent `open`. The table of changes has no
// invariant, so every number in it reads somehow: an Option of a number would need the same rule.
#[derive(Clone, Copy)]
pub struct Change {
    fee: u32,
    loss: u32,
    open: Option<bool>,
}

impl Change {
    // A change of nothing.
    fn none() -> Change
        ensures { ChangesNothing result }
    {
        Change {
            fee: MAX_FEE + 1,
            loss: MAX_LOSS + 1,
            open: None,
        }
    }

    // This change with another fee and loss.
    fn with_price(self, fee: u32, loss: u32) -> Change
        ensures { result ≡ change_price fee loss self }
    {
        Change { fee, loss, ..self }
    }

    // This change with a line opened or shut.
    fn with_open(self, open: bool) -> Change
        ensures { result ≡ change_open «open» self }
    {
        Change {
            open: Some(open),
            ..self
        }
    }

    // The line with this change.
    fn apply(self, l: Line) -> Line
        ensures { result ≡ patch_line self l }
    {
        Line {
            fee: if self.fee <= MAX_FEE { self.fee } else { l.fee },
            loss: if self.loss <= MAX_LOSS {
                self.loss
            } else {
                l.loss
            },
            open: self.open.unwrap_or(l.open),
            ..l
        }
    }
}

// A change for each line that a net may have: a table of one size, without an invariant, so that a patched net needs no heap.
#[derive(Drop)]
pub struct PatchTable {
    changes: [Change; MAX_LINES],
}

// Any net, with a change for each of its lines. The net beneath stays as it is.
#[derive(Drop)]
pub struct PatchedNet<N> {
    net: N,
    table: PatchTable,
}

impl<N: Net> PatchedNet<N> {
    // The net with no change yet.
    pub fn new(net: N) -> PatchedNet<N>
        ensures net { result.net ≡ net }
        ensures meaning { patched result.table.changes (N.Net.meant result.net) ≡ N.Net.meant net }
    {
        let changes = [Change::none(); MAX_LINES];
        PatchedNet {
            net,
            table: PatchTable { changes },
        }
    }
}

impl<N: Net> Net for PatchedNet<N> {
    ghost meant = { λ p. patched p.table.changes (N.Net.meant p.net) };

    ghost sound = { λ p. sound_patched p.table.changes (N.Net.meant p.net) (N.Net.sound p.net) };

    fn stations(&self) -> usize {
        self.net.stations()
    }

    #[tactic(auto, using(crate::proofs::Changes::patched_lengths))]
    fn line_count(&self) -> usize {
        self.net.line_count()
    }

    fn line(&self, k: usize) -> Option<Line> {
        let line = self.net.line(k)?;
        Some(self.table.changes[k].apply(line))
    }
}

impl<N: Net> EditableNet for PatchedNet<N> {
    ghost only = { OnlyChange };

    fn set_price(&mut self, k: usize, fee: u32, loss: u32) -> Result<(), Refusal> {
        judge_price(self, k, fee, loss)?;
        let change = &mut self.table.changes[k];
        *change = change.with_price(fee, loss);
        Ok(())
    }

    fn set_open(&mut self, k: usize, open: bool) -> Result<(), Refusal> {
        judge_open(self, k)?;
        let change = &mut self.table.changes[k];
        *change = change.with_open(open);
        Ok(())
    }
}
