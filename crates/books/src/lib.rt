// The line book: a net as a run of bytes, read and written.
#![tactic(auto)]

mod fault;
mod head;
mod number;
mod parts;
mod read;
mod reader;
mod write;
mod writer;

pub use fault::{BookFault, Layer, NumberFault, RecordError, RecordFault};
pub use head::Head;
pub use number::{NumberError, read_number};
pub use read::read_book;
pub use reader::Reader;
pub use write::write_book;
