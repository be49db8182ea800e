ghost use Rattle.std.specs.Prelude.{◌≡◌, ◌+◌, ◌-◌, ◌*◌};
ghost use Rattle.numerals.specs.Numerals.{Next, Scanned};

use crate::range::Range;

// The number after one more byte of a numeral, unless no numeral of the range goes on so. `written` is the number that
// the digits before the byte write, if there are any.
fn next_number(written: Option<u32>, byte: u8, range: Range) -> Option<u32>
    ensures next_number { Next written byte range result }
{
    if !byte.is_ascii_digit() || written == Some(0) {
        return None;
    }
    let number = written
        .unwrap_or(0)
        .checked_mul(10)?
        .checked_add(u32::from(byte - b'0'))?;
    if !range.numbers().contains(&number) {
        return None;
    }
    Some(number)
}

// How many bytes at the front go on to a numeral of the range, and the number that they write.
pub fn digits(text: &[u8], range: Range) -> (usize, u32)
    ensures longest_front { Scanned range text.now result.0 result.1 }
{
    let mut written = None;
    for (count, byte) in text.iter().enumerate() {
        let Some(number) = next_number(written, *byte, range) else {
            return (count, written.unwrap_or(0));
        };
        written = Some(number);
    }
    (text.len(), written.unwrap_or(0))
}
