// The book of a net, written to the front of an output.
ghost use Rattle.std.specs.Prelude.{◌≡◌, ◌+◌, ◌≤◌, ◌++◌, length, take, drop, IfOk};
ghost use Rattle.std.specs.List.{flat_map};
ghost use Rattle.books.specs.Book.{book_of, length_answer, output_after};
ghost use Rattle.books.specs.Number.{encoding};
ghost use Rattle.books.specs.OneBook.{ReadsAs, OneBook};
ghost use Rattle.books.specs.Records.{line_bytes};

use crate::number::number_length;
use crate::parts::{head_numbers, line_numbers};
use crate::writer::Writer;
use nets::{Line, Lines, Net, Refusal};

// The lengths stand beside the writing, since a book is measured before it is written: an output that is
// too short stays as it was. One walk for both would need a trait of a sink with its laws and two
// implementations, in place of these sums and the table of a number's lengths.

// How many bytes a few numbers take.
fn numbers_length(numbers: &[u32]) -> usize
    requires { length numbers.now ≤ 5 }
    ensures { result ≡ length (flat_map encoding numbers.now) }
{
    numbers.iter().map(|n| number_length(*n)).sum()
}

#[tactic(auto, unfolding(crate::specs::Records::line_bytes))]
fn line_length(line: &Line) -> usize
    ensures { result ≡ length (line_bytes line.now) }
{
    numbers_length(&line_numbers(line))
}

// How many bytes the records of a net's lines take.
fn lines_length<N: Net>(net: &N) -> usize
    ensures { result ≡ length (flat_map line_bytes (N.Net.meant net.now).lines) }
{
    Lines::of(net).map(|line| line_length(&line)).sum()
}

// How many bytes the book of a net takes.
#[tactic(auto, using(crate::proofs::BookWritten::length_steps))]
fn book_length<N: Net>(net: &N) -> usize
    ensures length { result ≡ length (book_of (N.Net.meant net.now)) }
    ensures one { OneBook (N.Net.meant net.now) }
{
    numbers_length(&head_numbers(net)) + lines_length(net)
}

// Writes the book of a net to the front of the output, leaves the bytes beyond it, and answers its length.
#[tactic(auto, using(crate::proofs::BookReadBack::written_back, crate::proofs::BookWritten::front_written))]
pub fn write_book<N: Net>(net: &N, out: &mut [u8]) -> Result<usize, Refusal>
    ensures answer { result ≡ length_answer (book_of (N.Net.meant net.now)) out.old }
    ensures output { out.new ≡ output_after (book_of (N.Net.meant net.now)) out.old }
    ensures back { IfOk result (λ n. ReadsAs (take n out.new) (N.Net.meant net.now)) }
    ensures one { OneBook (N.Net.meant net.now) }
{
    let length = book_length(net);
    if length > out.len() {
        return Err(Refusal::OutputShort);
    }
    let mut writer = Writer { out, at: 0 };
    writer.book(net);
    Ok(length)
}
