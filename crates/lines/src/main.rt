// Lists the net of a line book. Reads the book from standard input, of which it keeps at most the first
// 32,768 bytes, and writes the counts of stations and lines and then each line, or why the book is refused.
#![tactic(auto)]

use books::{BookFault, read_book};
use nets::{BLANK_LINE, Line, Lines, ListNet, MAX_LINES, Net};
use std::io::Read;
use std::{fmt, io};

const MAX_BYTES: u64 = 32_768;

// A line as it is listed, with its number.
#[derive(Clone, Copy)]
struct Listed {
    number: usize,
    line: Line,
}

impl fmt::Display for Listed {
    fn fmt<W: fmt::Write>(&self, f: &mut fmt::Formatter<W>) -> fmt::Result {
        let number = self.number;
        let Line {
            from,
            to,
            fee,
            loss,
            open,
        } = self.line;
        let standing = if open { "open" } else { "shut" };
        write!(f, "{number} {from} {to} {fee} {loss} {standing}")
    }
}

// A refusal as it is written.
#[derive(Clone, Copy)]
struct Refused(BookFault);

impl fmt::Display for Refused {
    fn fmt<W: fmt::Write>(&self, f: &mut fmt::Formatter<W>) -> fmt::Result {
        let number = self.0.refusal().number();
        let place = self.0.place();
        write!(f, "refused {number} at {place}")
    }
}

fn list_net<N: Net>(rt: &HostRuntime, net: &N) -> io::Result<()> {
    let stations = net.stations();
    let lines = net.line_count();
    println!(rt; "stations {stations}")?;
    println!(rt; "lines {lines}")?;
    for (number, line) in Lines::of(net).enumerate() {
        rt.println(Listed { number, line })?;
    }
    Ok(())
}

fn main(rt: HostRuntime) -> io::Result<()> {
    let mut book = Vec::new(rt.alloc());
    rt.stdin().take(MAX_BYTES).read_to_end(&mut book)?;
    let mut records = vec![in rt.alloc(); BLANK_LINE; MAX_LINES]?;
    match read_book(book.as_slice(), records.as_mut_slice()) {
        Ok(head) => {
            records.truncate(head.lines);
            list_net(&rt, &ListNet::new(head.stations, records.as_mut_slice()))
        }
        Err(fault) => rt.println(Refused(fault)),
    }
}

#[cfg(test)]
mod tests {
    use super::*;
    use std::test::Fail;

    #[test]
    fn a_refusal_has_number_and_place(rt: HostRuntime) -> Result<(), Fail> {
        let mut records = [BLANK_LINE; 2];
        match read_book(b"\x01\x05\x02\x00\x01\x80\x00", &mut records) {
            Ok(_) => Err(Fail::new("accepted")),
            Err(fault) => {
                let text = Refused(fault).to_string(rt.alloc())?;
                assert_eq!(rt; text.as_str(), "refused 3 at 5");
                Ok(())
            }
        }
    }

    #[test]
    fn a_shut_line_says_so(rt: HostRuntime) -> Result<(), Fail> {
        let listed = Listed {
            number: 7,
            line: Line {
                fee: 12,
                ..BLANK_LINE
            },
        };
        assert_eq!(rt; listed.to_string(rt.alloc())?.as_str(), "7 0 0 12 0 shut");
        Ok(())
    }
}
