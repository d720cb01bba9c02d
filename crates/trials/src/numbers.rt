// The numbers of a line book.
use books::{NumberError, read_number};
use std::test::*;

// Numbers on both sides of each limit of their length, each with its bytes.
const WHOLE: [(&[u8], u32); 13] = [
    (&[0x00], 0),
    (&[0x01], 1),
    (&[0x7F], 127),
    (&[0x80, 0x01], 128),
    (&[0xAC, 0x02], 300),
    (&[0xFF, 0x7F], 16_383),
    (&[0x80, 0x80, 0x01], 16_384),
    (&[0xFF, 0xFF, 0x7F], 2_097_151),
    (&[0x80, 0x80, 0x80, 0x01], 2_097_152),
    (&[0xFF, 0xFF, 0xFF, 0x7F], 268_435_455),
    (&[0x80, 0x80, 0x80, 0x80, 0x01], 268_435_456),
    (&[0x80, 0x80, 0x80, 0x80, 0x0F], 4_026_531_840),
    (&[0xFF, 0xFF, 0xFF, 0xFF, 0x0F], 4_294_967_295),
];

// Bytes that begin with no number, each with the reason.
const FAULTY: [(&[u8], NumberError); 11] = [
    (&[], NumberError::Cut),
    (&[0x80], NumberError::Cut),
    (&[0xAC, 0x82], NumberError::Cut),
    (&[0xFF, 0xFF, 0xFF, 0xFF], NumberError::Cut),
    (&[0xFF, 0xFF, 0xFF, 0xFF, 0x10], NumberError::TooLarge),
    (&[0x80, 0x80, 0x80, 0x80, 0x10], NumberError::TooLarge),
    (&[0x80, 0x80, 0x80, 0x80, 0x80], NumberError::TooLarge),
    (&[0x80, 0x00], NumberError::Padded),
    (&[0xFF, 0x00], NumberError::Padded),
    (&[0x80, 0x80, 0x80, 0x00], NumberError::Padded),
    (&[0x80, 0x80, 0x80, 0x80, 0x00], NumberError::Padded),
];

#[test]
fn whole_numbers_are_read(rt: HostRuntime) -> Result<(), Fail> {
    for (bytes, value) in WHOLE {
        assert_eq!(rt; read_number(bytes), Ok((value, bytes.len())));
    }
    Ok(())
}

#[test]
fn faulty_numbers_are_refused(rt: HostRuntime) -> Result<(), Fail> {
    for (bytes, why) in FAULTY {
        assert_eq!(rt; read_number(bytes), Err(why), "{bytes:?}");
    }
    Ok(())
}

#[test]
fn bytes_behind_a_number_are_not_read(rt: HostRuntime) -> Result<(), Fail> {
    assert_eq!(rt; read_number(&[0xAC, 0x02, 0xFF]).ok(), Some((300, 2)));
    assert_eq!(rt; read_number(&[0x00, 0x00]).ok(), Some((0, 1)));
    Ok(())
}
