// A reader over a book's bytes, with a cursor. A method that accepts leaves the cursor behind what it
// read, and one that refuses leaves it at the number at fault.
ghost use Rattle.std.specs.Prelude.{◌≡◌, ◌+◌, drop};
ghost use Rattle.books.specs.Faults.{record_place, fault_place, place_of};
ghost use Rattle.books.specs.Reading.{number_at};
ghost use Rattle.books.specs.Cursor.{Reads, Takes};
ghost use Rattle.books.specs.Book.{edition_at, stations_at, lines_at, head_at, end_at};
ghost use Rattle.books.specs.Records.{station_at, limited_at, ends_at, open_at, fields_at, record_at};

use crate::fault::{BookFault, NumberFault, RecordError, RecordFault};
use crate::head::Head;
use crate::number::read_number;
use nets::{Line, MAX_FEE, MAX_LINES, MAX_LOSS, MAX_STATIONS};

// The edition that this reader takes, and the writer writes.
pub(crate) const EDITION: u32 = 1;

// The book, and the place in it of the next byte to be read, which may lie beyond the end. A slice with a place, and no `Cursor`: callers
// set the place themselves, and a refusal leaves it at the number at fault.
#[derive(Drop)]
pub struct Reader<'a> {
    pub book: &'a [u8],
    pub at: usize,
}

impl<'a> Reader<'a> {
    // A reader at the book's beginning.
    pub fn new(book: &'a [u8]) -> Reader<'a>
        ensures book { result.book.now ≡ book.now }
        ensures at { result.at ≡ 0 }
    {
        Reader { book, at: 0 }
    }

    // What is left of the book.
    #[tactic(auto, using(std::proofs::lemmas::List::drop_all, std::proofs::lemmas::List::take_rest))]
    fn rest(&self) -> &'a [u8]
        ensures { result.now ≡ drop self.now.at self.now.book.now }
    {
        self.book.get(self.at..).unwrap_or(&[])
    }

    // The number at the cursor with the place after it; the cursor stays.
    #[tactic(auto, using(crate::proofs::NumberRead::place_fits))]
    fn peek(&self) -> Result<(u32, usize), NumberFault>
        ensures { result ≡ number_at self.now.book.now self.now.at }
    {
        let place = self.at;
        read_number(self.rest())
            .map(|(value, count)| (value, place + count))
            .map_err(|error| NumberFault { place, error })
    }

    // Takes the number at the cursor as what it is judged to be, and otherwise answers the fault and leaves the cursor at it.
    fn number<T, E: From<NumberFault>, F: FnOnce(u32) -> Result<T, E>>(
        &mut self,
        judge: F,
    ) -> Result<T, E>
        requires { F.IsAlwaysCallable judge }
        ensures { Takes E.From.from_gives (F.post judge) self.old self.new result }
    {
        let (number, next) = self.peek()?;
        let judged = judge(number);
        if judged.is_ok() {
            self.at = next;
        }
        judged
    }

    fn edition(&mut self) -> Result<u32, BookFault>
        ensures { Reads place_of edition_at self.old self.new result }
    {
        let place = self.at;
        self.number(|n| {
            if n == EDITION {
                Ok(n)
            } else {
                Err(BookFault::Edition { place })
            }
        })
    }

    fn stations(&mut self) -> Result<usize, BookFault>
        ensures { Reads place_of stations_at self.old self.new result }
    {
        let place = self.at;
        self.number(|n| {
            if (1..=MAX_STATIONS).contains(&(n as usize)) {
                Ok(n as usize)
            } else {
                Err(BookFault::HeadLimit { place })
            }
        })
    }

    fn lines(&mut self, room: usize) -> Result<usize, BookFault>
        ensures { Reads place_of (lines_at room) self.old self.new result }
    {
        let place = self.at;
        self.number(|n| {
            let lines = n as usize;
            if lines > MAX_LINES {
                Err(BookFault::HeadLimit { place })
            } else if lines > room {
                Err(BookFault::TableShort { place })
            } else {
                Ok(lines)
            }
        })
    }

    // The head, for a table with room for so many records.
    #[tactic(auto, unfolding(crate::specs::Book::head_at))]
    pub fn head(&mut self, room: usize) -> Result<Head, BookFault>
        ensures { Reads place_of (head_at room) self.old self.new result }
    {
        self.edition()?;
        Ok(Head {
            stations: self.stations()?,
            lines: self.lines(room)?,
        })
    }

    // Refuses where bytes are left.
    pub fn end(&self) -> Result<(), BookFault>
        ensures { result ≡ end_at self.now.book.now self.now.at }
    {
        if self.at < self.book.len() {
            return Err(BookFault::BytesLeft { place: self.at });
        }
        Ok(())
    }

    fn station(&mut self, stations: usize) -> Result<u32, RecordError>
        ensures { Reads record_place (station_at stations) self.old self.new result }
    {
        let place = self.at;
        self.number(|n| {
            if (n as usize) < stations {
                Ok(n)
            } else {
                Err(RecordError::Station { place })
            }
        })
    }

    fn limited(&mut self, most: u32) -> Result<u32, RecordError>
        ensures { Reads record_place (limited_at most) self.old self.new result }
    {
        let place = self.at;
        self.number(|n| {
            if n <= most {
                Ok(n)
            } else {
                Err(RecordError::Limit { place })
            }
        })
    }

    // From and to: a method of its own, since all five numbers in one leave the check no margin.
    fn ends(&mut self, stations: usize) -> Result<(u32, u32), RecordError>
        ensures { Reads record_place (ends_at stations) self.old self.new result }
    {
        Ok((self.station(stations)?, self.station(stations)?))
    }

    // Whether the line is open.
    fn open(&mut self) -> Result<bool, RecordError>
        ensures { Reads record_place open_at self.old self.new result }
    {
        let place = self.at;
        self.number(|n| match n {
            0 => Ok(false),
            1 => Ok(true),
            _ => Err(RecordError::Limit { place }),
        })
    }

    #[tactic(auto, unfolding(crate::specs::Records::fields_at))]
    fn fields(&mut self, stations: usize) -> Result<Line, RecordError>
        ensures { Reads record_place (fields_at stations) self.old self.new result }
    {
        let (from, to) = self.ends(stations)?;
        Ok(Line {
            from,
            to,
            fee: self.limited(MAX_FEE)?,
            loss: self.limited(MAX_LOSS)?,
            open: self.open()?,
        })
    }

    // The record of a line, in a book of so many stations.
    #[tactic(auto, unfolding(crate::specs::Records::record_at))]
    pub fn record(&mut self, line: usize, stations: usize) -> Result<Line, RecordFault>
        ensures { Reads fault_place (record_at line stations) self.old self.new result }
    {
        self.fields(stations)
            .map_err(|error| RecordFault { line, error })
    }
}
