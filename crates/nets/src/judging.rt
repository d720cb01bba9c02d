// The refusals of the two edits, once for every net. A fee and a loss go side by side, as in the calls: a struct of both would be made at
// each call to be taken apart in the next.
ghost use Rattle.std.specs.Prelude.{◌≡◌};
ghost use Rattle.nets.specs.Edits.{price_answer, open_answer};

use crate::line::price_fits;
use crate::net::Net;
use crate::refusal::Refusal;

// Refuses to open or shut a line that is not there.
pub(crate) fn judge_open<N: Net>(net: &N, k: usize) -> Result<(), Refusal>
    ensures { result ≡ open_answer (N.Net.meant net.now) k }
{
    if k >= net.line_count() {
        return Err(Refusal::NoSuchLine);
    }
    Ok(())
}

// Refuses to reprice a line that is not there, and then a fee or a loss over its limit.
pub(crate) fn judge_price<N: Net>(net: &N, k: usize, fee: u32, loss: u32) -> Result<(), Refusal>
    ensures { result ≡ price_answer (N.Net.meant net.now) k fee loss }
{
    judge_open(net, k)?;
    if !price_fits(fee, loss) {
        return Err(Refusal::PriceLimit);
    }
    Ok(())
}
