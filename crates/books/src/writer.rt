// A writer over an output, with a cursor: each method writes at the cursor and leaves it behind what it wrote.
// It is not the library's `Cursor`, whose `write` may write less and answers a `Result`: here there is
// always room, which the contracts say.
ghost use Rattle.std.specs.Prelude.{[], ◌∷◌};
ghost use Rattle.std.specs.List.{flat_map};
ghost use Rattle.books.specs.Book.{book_of};
ghost use Rattle.books.specs.Number.{encoding};
ghost use Rattle.books.specs.Records.{line_bytes};
ghost use Rattle.books.specs.Writing.{HasRoom, Writes};

use crate::parts::{head_numbers, line_numbers};
use nets::{Line, Lines, Net};

// The output, and the place in it of the next byte to be written.
#[derive(Drop)]
pub(crate) struct Writer<'a> {
    pub out: &'a mut [u8],
    pub at: usize,
}

impl<'a> Writer<'a> {
    #[tactic(auto, using(crate::proofs::Writing::byte_written))]
    fn byte(&mut self, byte: u8)
        requires { HasRoom (byte ∷ []) self.old }
        ensures { Writes (byte ∷ []) self.old self.new }
    {
        self.out[self.at] = byte;
        self.at += 1;
    }

    fn number(&mut self, n: u32)
        requires { HasRoom (encoding n) self.old }
        ensures { Writes (encoding n) self.old self.new }
    {
        let mut left = n;
        while left >= 128 {
            self.byte((left % 128) as u8 + 128);
            left /= 128;
        }
        self.byte(left as u8);
    }

    // Numbers one behind another.
    fn numbers(&mut self, numbers: &[u32])
        requires { HasRoom (flat_map encoding numbers.now) self.old }
        ensures { Writes (flat_map encoding numbers.now) self.old self.new }
    {
        for &n in numbers {
            self.number(n);
        }
    }

    // The record of a line.
    #[tactic(auto, unfolding(crate::specs::Records::line_bytes))]
    fn line(&mut self, line: &Line)
        requires { HasRoom (line_bytes line.now) self.old }
        ensures { Writes (line_bytes line.now) self.old self.new }
    {
        self.numbers(&line_numbers(line));
    }

    // The records of a net's lines.
    fn lines<N: Net>(&mut self, net: &N)
        requires { HasRoom (flat_map line_bytes (N.Net.meant net.now).lines) self.old }
        ensures { Writes (flat_map line_bytes (N.Net.meant net.now).lines) self.old self.new }
    {
        for line in Lines::of(net) {
            self.line(&line);
        }
    }

    // The book of a net.
    pub(crate) fn book<N: Net>(&mut self, net: &N)
        requires { HasRoom (book_of (N.Net.meant net.now)) self.old }
        ensures { Writes (book_of (N.Net.meant net.now)) self.old self.new }
    {
        self.numbers(&head_numbers(net));
        self.lines(net);
    }
}
