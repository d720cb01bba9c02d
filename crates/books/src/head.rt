// What a book's head tells of its net: the counts of stations and lines.
#[derive(Clone, Copy, Debug, PartialEq, Eq)]
pub struct Head {
    pub stations: usize,
    pub lines: usize,
}
