ghost use Rattle.std.specs.Prelude.{◌≡◌};
ghost use Rattle.nets.specs.Refusals.{number_of};

// Why a call is refused. Every refusal of the library is one of these, and each has a fixed number.
#[derive(Clone, Copy, Debug, PartialEq, Eq)]
pub enum Refusal {
    // a number in a book
    NumberCut,
    NumberTooLarge,
    NumberPadded,
    // a book's head
    Edition,
    HeadLimit,
    TableShort,
    // a book's records
    RecordStation,
    RecordLimit,
    // a book's end
    BytesLeft,
    // a call on a sheet
    NoSuchGateway,
    TableLength,
    // a call on a sheet, or an edit
    NoSuchLine,
    PriceLimit,
    // a reprice, a shut or an open
    SheetNotRight,
    // the making of a banding or a net, or the judging before it
    WidthZero,
    NetLimit,
    // the writing of a book
    OutputShort,
}

impl Refusal {
    // The fixed number by which a call is refused, 1 to 17: what users are told, and part of the library's promise.
    pub fn number(self) -> u8
        ensures { result ≡ number_of self }
    {
        match self {
            Refusal::NumberCut => 1,
            Refusal::NumberTooLarge => 2,
            Refusal::NumberPadded => 3,
            Refusal::Edition => 4,
            Refusal::HeadLimit => 5,
            Refusal::TableShort => 6,
            Refusal::RecordStation => 7,
            Refusal::RecordLimit => 8,
            Refusal::BytesLeft => 9,
            Refusal::NoSuchGateway => 10,
            Refusal::TableLength => 11,
            Refusal::NoSuchLine => 12,
            Refusal::PriceLimit => 13,
            Refusal::SheetNotRight => 14,
            Refusal::WidthZero => 15,
            Refusal::NetLimit => 16,
            Refusal::OutputShort => 17,
        }
    }
}
