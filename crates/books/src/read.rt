// A whole book read into a table of records: first judged to its end, and then filled in.
ghost use Rattle.std.specs.Prelude.{◌≡◌, length, IfOk, Ok, Err, MatchResult};
ghost use Rattle.books.specs.Book.{reading, head_of, table_after};
ghost use Rattle.books.specs.Cursor.{Reads};
ghost use Rattle.books.specs.Faults.{fault_place};
ghost use Rattle.books.specs.OneBook.{Accepted};
ghost use Rattle.books.specs.Judging.{Judged, passed};
ghost use Rattle.books.specs.Records.{records_at};

use crate::fault::{BookFault, RecordFault};
use crate::head::Head;
use crate::reader::Reader;
use nets::Line;

// Reads the records of a head's lines, and keeps none. The loop counts lines, since k is the number of
// the line that a fault tells; one loop for both passes would say less of each.
#[tactic(auto, using(crate::proofs::RecordsRead::judging_steps))]
fn judge_records(reader: &mut Reader, head: Head) -> Result<(), RecordFault>
    ensures { Reads fault_place (λ book p. passed (records_at head.lines 0 head.stations book p)) reader.old reader.new result }
{
    for k in 0..head.lines {
        reader.record(k, head.stations)?;
    }
    Ok(())
}

// Judges a book for a table with room for so many records: its head, and the place of its first record.
#[tactic(auto, using(crate::proofs::BookRead::judged), unfolding(crate::specs::Book::reading))]
fn judge_book(book: &[u8], room: usize) -> Result<(Head, usize), BookFault>
    ensures { MatchResult result (λ x. Judged room book.now x.0 x.1) (λ e. reading room book.now ≡ Err e) }
{
    let mut reader = Reader::new(book);
    let head = reader.head(room)?;
    let start = reader.at;
    judge_records(&mut reader, head)?;
    reader.end()?;
    Ok((head, start))
}

// Fills the first of the records from a book that was judged, where no record can be at fault any more.
#[tactic(auto, using(crate::proofs::RecordsRead::filling_steps))]
fn fill_records(
    book: &[u8],
    head: Head,
    start: usize,
    records: &mut [Line],
) -> Result<(), RecordFault>
    requires { Judged (length records.old) book.now head start }
    ensures done { result ≡ Ok tt }
    ensures table { records.new ≡ table_after (reading (length records.old) book.now) records.old }
{
    let mut reader = Reader { book, at: start };
    for (k, record) in records[..head.lines].iter_mut().enumerate() {
        *record = reader.record(k, head.stations)?;
    }
    Ok(())
}

// Reads a book into the first records of the table, and leaves the others; on a refusal the whole
// table stays as it was. Each field is judged before the next is read.
#[tactic(auto, using(crate::proofs::BookAccepted::filled_accepted))]
pub fn read_book(book: &[u8], records: &mut [Line]) -> Result<Head, BookFault>
    ensures answer { result ≡ head_of (reading (length records.old) book.now) }
    ensures table { records.new ≡ table_after (reading (length records.old) book.now) records.old }
    ensures accepted { IfOk result (λ head. Accepted (length records.old) book.now head records.new) }
{
    let (head, start) = judge_book(book, records.len())?;
    fill_records(book, head, start, records)?;
    Ok(head)
}
