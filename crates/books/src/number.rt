// Numbers in groups of seven bits, lowest first; every byte but the last has its top bit set.
ghost use Rattle.std.specs.Prelude.{◌≡◌, length};
ghost use Rattle.books.specs.Number.{number, encoding};

// What can be wrong with the bytes of a number.
#[derive(Clone, Copy, Debug, PartialEq, Eq)]
pub enum NumberError {
    // the bytes end before the number does
    Cut,
    // the fifth byte is above 15, so the number is beyond 32 bits
    TooLarge,
    // the number has several bytes and the last is 0, so a shorter form exists
    Padded,
}

const MAX_FIFTH_BYTE: u8 = 15;

// The number at the front of `bytes`, with the count of its bytes.
#[tactic(auto, using(crate::proofs::NumberRead::number_steps))]
pub fn read_number(bytes: &[u8]) -> Result<(u32, usize), NumberError>
    ensures { result ≡ number bytes.now }
{
    let mut low: u32 = 0;
    let mut scale: u32 = 1;
    for (k, &byte) in bytes.iter().enumerate() {
        if k == 4 && byte > MAX_FIFTH_BYTE {
            return Err(NumberError::TooLarge);
        }
        if byte < 128 {
            if k > 0 && byte == 0 {
                return Err(NumberError::Padded);
            }
            return Ok((low + byte as u32 * scale, k + 1));
        }
        low += (byte as u32 - 128) * scale;
        scale *= 128;
    }
    Err(NumberError::Cut)
}

// How many bytes a number takes.
#[tactic(auto, unfolding(crate::specs::Number::encoding))]
pub(crate) fn number_length(n: u32) -> usize
    ensures { result ≡ length (encoding n) }
{
    match n {
        0..=0x7f => 1,
        0x80..=0x3fff => 2,
        0x4000..=0x1f_ffff => 3,
        0x20_0000..=0xfff_ffff => 4,
        _ => 5,
    }
}
