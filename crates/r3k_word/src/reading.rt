//! Fields at the front of bytes that may end early.

ghost use Rattle.std.specs.Prelude.{◌≡◌, length, IfOk};
ghost use Rattle.r3k_word.specs.Reading.{ReadsAs, bytes_at, number_at};

use byteorder::{ByteOrder, LittleEndian};

/// `count` bytes, and the bytes after them, or else this fault.
pub fn read_bytes<E: Drop>(short: E, count: usize, bytes: &[u8]) -> Result<(&[u8], &[u8]), E>
    ensures value { ReadsAs (λ x. (x.0.now, x.1.now)) result (bytes_at short count bytes.now) }
    ensures len { IfOk result (λ x. length x.0.now ≡ count) }
{
    bytes.split_at_checked(count).ok_or(short)
}

/// A number of 32 bits, little-endian, and the bytes after it, or else this fault.
pub fn read_number<E: Drop>(short: E, bytes: &[u8]) -> Result<(u32, &[u8]), E>
    ensures { ReadsAs (λ x. (x.0, x.1.now)) result (number_at short bytes.now) }
{
    let (number, rest) = read_bytes(short, 4, bytes)?;
    Ok((LittleEndian::read_u32(number), rest))
}
