// The numbers of a book's parts: of the head, and of a line's record.
ghost use Rattle.std.specs.Prelude.{◌≡◌};
ghost use Rattle.books.specs.Book.{head_numbers};
ghost use Rattle.books.specs.Records.{line_numbers};

use crate::reader::EDITION;
use nets::{Line, Net};

pub(crate) fn line_numbers(line: &Line) -> [u32; 5]
    ensures { result ≡ line_numbers line.now }
{
    [
        line.from,
        line.to,
        line.fee,
        line.loss,
        u32::from(line.open),
    ]
}

pub(crate) fn head_numbers<N: Net>(net: &N) -> [u32; 3]
    ensures { result ≡ head_numbers (N.Net.meant net.now) }
{
    [EDITION, net.stations() as u32, net.line_count() as u32]
}
