// The limits of a net. A count of stations begins at 1, all other numbers at 0.
pub const MAX_STATIONS: usize = 512;

pub const MAX_LINES: usize = 2_048;
// In thousandths of a cent for a gigabyte.
pub const MAX_FEE: u32 = 16_777_215;
// In packets lost of a hundred thousand.
pub const MAX_LOSS: u32 = 65_535;
