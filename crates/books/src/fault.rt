// The faults of a book in three layers, number inside record inside book. Each keeps the fault of the
// layer beneath it whole, and a record's adds the line being read.
ghost use Rattle.std.specs.Prelude.{◌≡◌};
ghost use Rattle.books.specs.Faults.{refusal_of, place_of, layer_of, record_refusal, record_place, record_layer, number_refusal};
ghost use Rattle.books.specs.declared.fault.RecordError.TheVariants.{Number};
ghost use Rattle.books.specs.declared.fault.BookFault.TheVariants.{HeadNumber, Record};

use crate::number::NumberError;
use nets::Refusal;

// A number at fault, with the place of its first byte.
#[derive(Clone, Copy, Debug, PartialEq, Eq)]
pub struct NumberFault {
    pub place: usize,
    pub error: NumberError,
}

// What can be wrong with a record; each place is that of the number at fault.
#[derive(Clone, Copy, Debug, PartialEq, Eq)]
pub enum RecordError {
    Number(NumberFault),
    // a from or to station not below the count
    Station { place: usize },
    // a fee, a loss or an open beyond its limit
    Limit { place: usize },
}

// A record at fault, with the line being read.
#[derive(Clone, Copy, Debug, PartialEq, Eq)]
pub struct RecordFault {
    pub line: usize,
    pub error: RecordError,
}

// What can be wrong with a book; each place is that of the number at fault.
#[derive(Clone, Copy, Debug, PartialEq, Eq)]
pub enum BookFault {
    HeadNumber(NumberFault),
    // the edition is not 1
    Edition { place: usize },
    // stations or lines beyond the limits of a net
    HeadLimit { place: usize },
    // more lines than the table has records
    TableShort { place: usize },
    Record(RecordFault),
    // bytes behind the last record, of which this is the first
    BytesLeft { place: usize },
}

// The layer in which a fault arises.
#[derive(Clone, Copy, Debug, PartialEq, Eq)]
pub enum Layer {
    Number,
    Record,
    Book,
}

impl From<NumberFault> for RecordError {
    ghost from_gives = { λ e r. r ≡ Number e };

    fn from(fault: NumberFault) -> RecordError {
        RecordError::Number(fault)
    }
}

impl From<NumberFault> for BookFault {
    ghost from_gives = { λ e r. r ≡ HeadNumber e };

    fn from(fault: NumberFault) -> BookFault {
        BookFault::HeadNumber(fault)
    }
}

impl From<RecordFault> for BookFault {
    ghost from_gives = { λ e r. r ≡ Record e };

    fn from(fault: RecordFault) -> BookFault {
        BookFault::Record(fault)
    }
}

// Methods and no `From`: a fault answers three questions, its refusal, its place and its layer, and they read alike.
impl NumberError {
    pub(crate) fn refusal(self) -> Refusal
        ensures { result ≡ number_refusal self }
    {
        match self {
            NumberError::Cut => Refusal::NumberCut,
            NumberError::TooLarge => Refusal::NumberTooLarge,
            NumberError::Padded => Refusal::NumberPadded,
        }
    }
}

impl RecordError {
    fn refusal(self) -> Refusal
        ensures { result ≡ record_refusal self }
    {
        match self {
            RecordError::Number(fault) => fault.error.refusal(),
            RecordError::Station { .. } => Refusal::RecordStation,
            RecordError::Limit { .. } => Refusal::RecordLimit,
        }
    }

    fn place(self) -> usize
        ensures { result ≡ record_place self }
    {
        match self {
            RecordError::Number(fault) => fault.place,
            RecordError::Station { place } | RecordError::Limit { place } => place,
        }
    }

    fn layer(self) -> Layer
        ensures { result ≡ record_layer self }
    {
        match self {
            RecordError::Number(_) => Layer::Number,
            RecordError::Station { .. } | RecordError::Limit { .. } => Layer::Record,
        }
    }
}

impl BookFault {
    // The refusal that the fault is, and by it the number.
    pub fn refusal(self) -> Refusal
        ensures { result ≡ refusal_of self }
    {
        match self {
            BookFault::HeadNumber(fault) => fault.error.refusal(),
            BookFault::Edition { .. } => Refusal::Edition,
            BookFault::HeadLimit { .. } => Refusal::HeadLimit,
            BookFault::TableShort { .. } => Refusal::TableShort,
            BookFault::Record(fault) => fault.error.refusal(),
            BookFault::BytesLeft { .. } => Refusal::BytesLeft,
        }
    }

    // The place in the book where the number at fault begins.
    pub fn place(self) -> usize
        ensures { result ≡ place_of self }
    {
        match self {
            BookFault::HeadNumber(fault) => fault.place,
            BookFault::Edition { place }
            | BookFault::HeadLimit { place }
            | BookFault::TableShort { place }
            | BookFault::BytesLeft { place } => place,
            BookFault::Record(fault) => fault.error.place(),
        }
    }

    pub fn layer(self) -> Layer
        ensures { result ≡ layer_of self }
    {
        match self {
            BookFault::HeadNumber(_) => Layer::Number,
            BookFault::Record(fault) => fault.error.layer(),
            _ => Layer::Book,
        }
    }
}
