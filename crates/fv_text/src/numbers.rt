//! Numbers in decimal or hexadecimal digits.

ghost use Rattle.std.specs.Prelude.{◌≤◌, decimal, length};
ghost use Rattle.fv_text.specs.HexText.{four_digits, two_digits};

use fv_base::Sink;
use itoa::Buffer;

/// Puts a number into the sink in decimal digits, at most 20 of them. Allocates no memory.
pub fn put_decimal<S: Sink>(out: &mut S, number: u64)
    ensures text { S.takes out.old (decimal number) out.new }
    ensures short { length (decimal number) ≤ 20 }
{
    let mut buffer = Buffer::new();
    out.put(buffer.format(number).as_bytes());
}

/// Puts a byte into the sink as two lower-case hexadecimal digits.
pub fn put_two_digits<S: Sink>(out: &mut S, byte: u8)
    ensures { S.takes out.old (two_digits byte) out.new }
{
    let mut text = [0u8; 2];
    let bytes = [byte];
    let Ok(()) = hex::encode_to_slice(&bytes[..], &mut text) else {
        unreachable!()
    };
    out.put(&text);
}

/// Puts a number into the sink as four lower-case hexadecimal digits.
pub fn put_four_digits<S: Sink>(out: &mut S, number: u16)
    ensures { S.takes out.old (four_digits number) out.new }
{
    let mut text = [0u8; 4];
    let bytes = [(number / 256) as u8, (number % 256) as u8];
    let Ok(()) = hex::encode_to_slice(&bytes[..], &mut text) else {
        unreachable!()
    };
    out.put(&text);
}
