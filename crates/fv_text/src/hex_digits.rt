//! Hexadecimal digits, decoded in pairs.

ghost use Rattle.std.specs.Option.{option_to_list};
ghost use Rattle.std.specs.List.{All};
ghost use Rattle.std.specs.Prelude.{◌≡◌, ◌≤◌, ◌+◌, ◌/◌, ◌%◌, ◌++◌, ℕ, List, true, false, length, map, take, vec_len};
ghost use Rattle.std.specs.Prelude.{IfOk, OnOk};
ghost use Rattle.fv_text.specs.inner.HexDecoding.{IsNibble, SpellsNothing, joined_pairs, value_or_16};
ghost use Rattle.fv_text.specs.HexIn.{DigitsSpell};

use std::alloc::AllocError;

/// Removes the last digit and returns it, if the number of digits is odd.
pub(crate) fn take_odd(digits: &mut Vec<u8>) -> Option<u8>
    ensures items { digits.old.items ≡ digits.new.items ++ option_to_list result }
    ensures even { vec_len digits.new % 2 ≡ 0 }
    ensures room { vec_len digits.new ≤ vec_len digits.old }
{
    if digits.len() % 2 == 1 {
        digits.pop()
    } else {
        None
    }
}

// Returns the value of a digit, in upper or lower case, or 16 if the byte is not a digit. The
// function has no branch that random digits would mispredict.
fn digit_value(byte: u8) -> u8
    ensures { result ≡ value_or_16 byte }
{
    let mut value = 16;
    if b'0' <= byte && byte <= b'9' {
        value = byte - b'0';
    }
    if b'A' <= byte && byte <= b'F' {
        value = byte - b'A' + 10;
    }
    if b'a' <= byte && byte <= b'f' {
        value = byte - b'a' + 10;
    }
    value
}

// Replaces each digit by its value, and any other byte by 16. Returns whether all of them are
// digits.
fn take_values(digits: &mut [u8]) -> bool
    ensures values { digits.new ≡ map value_or_16 digits.old }
    ensures right { result ≡ true → All IsNibble digits.new }
    ensures wrong { result ≡ false → SpellsNothing digits.old }
{
    let mut most = 0;
    for i in 0..digits.len() {
        let value = digit_value(digits[i]);
        most = value.max(most);
        digits[i] = value;
    }
    most < 16
}

// Writes the bytes that pairs of values make into the room, from `start` up to its end. The first
// value of a pair is the high one.
fn join_pairs(values: &[u8], room: &mut [u8], start: usize)
    requires even { length values.now % 2 ≡ 0 }
    requires small { All IsNibble values.now }
    requires fits { start + length values.now / 2 ≡ length room.old }
    ensures { room.new ≡ take start room.old ++ joined_pairs values.now }
{
    let (pairs, _) = values.as_chunks::<2>();
    for i in 0..values.len() / 2 {
        let pair = pairs[i];
        room[start + i] = pair[0] * 16 + pair[1];
    }
}

/// Appends the bytes that pairs of digits spell. If a pair is not two digits, returns false and
/// appends nothing. The digits are replaced by their values.
///
/// # Errors
///
/// AllocError if memory runs out.
pub(crate) fn push_pairs(digits: &mut [u8], bytes: &mut Vec<u8>) -> Result<bool, AllocError>
    requires even { length digits.old % 2 ≡ 0 }
    ensures read { IfOk result (λ all. all ≡ true → (more : List ℕ) × DigitsSpell digits.old more
        × (bytes.new.items ≡ bytes.old.items ++ more)) }
    ensures wrong { IfOk result (λ all. all ≡ false → SpellsNothing digits.old) }
    ensures room { OnOk result (vec_len bytes.new ≤ vec_len bytes.old + length digits.old / 2) }
{
    if !take_values(digits) {
        return Ok(false);
    }
    let start = bytes.len();
    bytes.resize(start + digits.len() / 2, 0)?;
    join_pairs(digits, bytes, start);
    Ok(true)
}
