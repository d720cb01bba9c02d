ghost use Rattle.std.specs.Prelude.{◌≡◌, ◌/◌, ◌<◌, IfOk, nat_lt};
ghost use Rattle.std.specs.Result.{result_err};
ghost use Rattle.costs.specs.Bands.{width_bands, width_refusal};

use crate::banding::Banding;
use crate::fees::Fees;
use nets::Refusal;

// Levels of one width, over fees: the level is the whole quotient of the cost by the width, and just the costs above the width are
// heavy. There is no such banding of losses, so none is written: a loss above the width would be heavy, and yet it need
// not lift a cost to a higher level, since losses join to the greater: at width 5, 7 joined with the heavy 6 is 7.
#[derive(Clone, Copy)]
pub struct Width {
    width: u32,
    ghost some: { 0 < width },
}

impl Width {
    // Refused at 0.
    pub fn new(width: u32) -> Result<Width, Refusal>
        ensures answer { result_err result ≡ width_refusal width }
        ensures width { IfOk result (λ w. w.width ≡ width) }
    {
        if width == 0 {
            return Err(Refusal::WidthZero);
        }
        Ok(Width { width })
    }
}

impl Banding<Fees> for Width {
    ghost bands = { λ w. width_bands w.width };

    #[tactic(auto, using(crate::proofs::WidthLaws::width_laws))]
    fn level(&self, cost: u32) -> u32 {
        cost / self.width
    }

    #[tactic(auto, using(crate::proofs::WidthLaws::width_laws))]
    fn heavy(&self, cost: u32) -> bool {
        cost > self.width
    }
}
