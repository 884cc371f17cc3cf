//! Removing white space from hexadecimal text.

ghost use Rattle.fv_text.specs.HexIn.{is_space, squeezed};
ghost use Rattle.fv_text.specs.inner.HexDecoding.{IsPutKept};
ghost use Rattle.std.specs.Prelude.{◌≡◌, ◌≤◌, ◌+◌, ◌++◌, if◌then◌else◌, length, true, OnOk};

use crate::copying::copy_to;
use fv_base::field::bytes_from;
use std::alloc::AllocError;

/// The number of bytes that are tested together.
const WINDOW: usize = 16;

// 0 for each byte that is white space, 1 for every other byte.
const KEPT: [u8; 256] = [
    1, 1, 1, 1, 1, 1, 1, 1, 1, 0, 0, 1, 1, 0, 1, 1, 1, 1, 1, 1, 1, 1, 1, 1, 1, 1, 1, 1, 1, 1, 1, 1,
    0, 1, 1, 1, 1, 1, 1, 1, 1, 1, 1, 1, 1, 1, 1, 1, 1, 1, 1, 1, 1, 1, 1, 1, 1, 1, 1, 1, 1, 1, 1, 1,
    1, 1, 1, 1, 1, 1, 1, 1, 1, 1, 1, 1, 1, 1, 1, 1, 1, 1, 1, 1, 1, 1, 1, 1, 1, 1, 1, 1, 1, 1, 1, 1,
    1, 1, 1, 1, 1, 1, 1, 1, 1, 1, 1, 1, 1, 1, 1, 1, 1, 1, 1, 1, 1, 1, 1, 1, 1, 1, 1, 1, 1, 1, 1, 1,
    1, 1, 1, 1, 1, 1, 1, 1, 1, 1, 1, 1, 1, 1, 1, 1, 1, 1, 1, 1, 1, 1, 1, 1, 1, 1, 1, 1, 1, 1, 1, 1,
    1, 1, 1, 1, 1, 1, 1, 1, 1, 1, 1, 1, 1, 1, 1, 1, 1, 1, 1, 1, 1, 1, 1, 1, 1, 1, 1, 1, 1, 1, 1, 1,
    1, 1, 1, 1, 1, 1, 1, 1, 1, 1, 1, 1, 1, 1, 1, 1, 1, 1, 1, 1, 1, 1, 1, 1, 1, 1, 1, 1, 1, 1, 1, 1,
    1, 1, 1, 1, 1, 1, 1, 1, 1, 1, 1, 1, 1, 1, 1, 1, 1, 1, 1, 1, 1, 1, 1, 1, 1, 1, 1, 1, 1, 1, 1, 1,
];

// Returns the number of bytes that this byte adds to the text without white space: 0 if it is a
// tab, a line feed, a carriage return or a space, otherwise 1.
fn kept(byte: u8) -> usize
    ensures { result ≡ (if is_space byte then 0 else 1) }
{
    usize::from(KEPT[usize::from(byte)])
}

// Returns whether all bytes are greater than a space: then none of them is white space.
fn is_dense(window: &[u8]) -> bool
    ensures { result ≡ true → squeezed window.now ≡ window.now }
{
    let mut least = u8::MAX;
    for byte in window {
        least = least.min(*byte);
    }
    least > b' '
}

// Writes the bytes of a text that are not white space into the room, from `start` on. Returns the
// offset after them.
fn put_kept(text: &[u8], room: &mut [u8], start: usize) -> usize
    requires { start + length text.now ≤ length room.old }
    ensures { IsPutKept text.now start room.old room.new result }
{
    let mut end = start;
    for i in 0..text.len() {
        room[end] = text[i];
        end += kept(text[i]);
    }
    end
}

// Does the same as `put_kept`, for a text with little white space: a window without any is copied
// at once.
fn put_windows(text: &[u8], room: &mut [u8], start: usize) -> usize
    requires { start + length text.now ≤ length room.old }
    ensures { IsPutKept text.now start room.old room.new result }
{
    let mut end = start;
    for i in 0..text.len() / WINDOW {
        let window = &text[WINDOW * i..WINDOW * i + WINDOW];
        if is_dense(window) {
            copy_to(room, end, window);
            end += WINDOW;
        } else {
            end = put_kept(window, room, end);
        }
    }
    put_kept(bytes_from(text, text.len() / WINDOW * WINDOW), room, end)
}

/// Appends the text, without its white space, to the digits.
///
/// # Errors
///
/// AllocError if memory runs out.
pub(crate) fn squeeze(text: &[u8], digits: &mut Vec<u8>) -> Result<(), AllocError>
    ensures { OnOk result (digits.new.items ≡ digits.old.items ++ squeezed text.now) }
{
    let start = digits.len();
    digits.resize(start + text.len(), 0)?;
    let end = put_windows(text, digits, start);
    digits.truncate(end);
    Ok(())
}
