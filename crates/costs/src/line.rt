ghost use Rattle.std.specs.Prelude.{◌≡◌};
ghost use Rattle.costs.specs.LineCost.{line_cost};

use crate::kind::CostKind;
use nets::Line;

// What a line costs: the cost of its fee and loss, or none where it is shut.
pub fn line_cost<K: CostKind>(line: Line) -> K::Cost
    ensures { K.CostKind.value result ≡ line_cost K.CostKind.ops line }
{
    if line.open {
        K::of_price(line.fee, line.loss)
    } else {
        K::none()
    }
}
