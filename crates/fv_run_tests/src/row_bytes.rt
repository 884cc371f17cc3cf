//! The bytes that the rows of the tables spell.
//!
//! Digits, stars and spaces have the same meaning as in the tables of fv_tests. A name means the
//! words of the row with this name in the tables of `volumes.rt`. The rows have names because
//! the input of a command, and often its expected output, is a whole volume or list.

use crate::volumes::{parts, text_named, volumes};
use fv_base::Port;
use fv_text::read_hex;
use std::alloc::{AllocError, Global};

/// Returns the number that decimal digits spell.
pub(crate) fn number_of(digits: &str) -> Option<u64> {
    digits.parse().ok()
}

// Appends a word and a space. If the word names a line of the table, the words of this line take
// its place.
fn push_expanded(words: &mut String, table: &str, word: &str) -> Option<()> {
    words
        .push_str(text_named(table, word).unwrap_or(word))
        .ok()?;
    words.push(' ').ok()
}

// Returns the words, with each name of a line of the table replaced by the words of this line.
fn expanded(alloc: Global, table: &str, text: &str) -> Option<String> {
    let mut words = String::new(alloc);
    for word in text.split_whitespace() {
        push_expanded(&mut words, table, word)?;
    }
    Some(words)
}

// Appends the part `count` times.
fn push_repeated(bytes: &mut Vec<u8>, part: &[u8], count: u64) -> Option<()> {
    for _ in 0..count {
        bytes.extend_from_slice(part).ok()?;
    }
    Some(())
}

// Appends the bytes that a word of digits spells, as often as the number after its star states.
fn push_word(alloc: Global, bytes: &mut Vec<u8>, word: &str) -> Option<()> {
    let (digits, number) = word.split_once('*').unwrap_or((word, "1"));
    let count = number_of(number)?;
    let part = read_hex(alloc, &mut Port::new(digits.as_bytes())).ok()?;
    push_repeated(bytes, &part, count)
}

// Returns the bytes that words of digits spell.
fn spelled_bytes(alloc: Global, text: &str) -> Option<Vec<u8>> {
    let mut bytes = Vec::new(alloc);
    for word in text.split_whitespace() {
        push_word(alloc, &mut bytes, word)?;
    }
    Some(bytes)
}

/// Returns the bytes that words of digits and names of the tables spell.
pub(crate) fn bytes_of(alloc: Global, text: &str) -> Option<Vec<u8>> {
    let mut words = String::from_str(alloc, text).ok()?;
    for table in [volumes(), parts()] {
        words = expanded(alloc, table, words.as_str())?;
    }
    spelled_bytes(alloc, words.as_str())
}

/// Returns the bytes that words spell. If the first try fails, tries once more:
/// `tests/program/test_memory.py` refuses only one allocation in a run, so memory does not run out
/// in both tries.
pub(crate) fn bytes_in_two_tries(alloc: Global, words: &str) -> Option<Vec<u8>> {
    match bytes_of(alloc, words) {
        None => bytes_of(alloc, words),
        bytes => bytes,
    }
}

// Appends the digits as lines of 64 digits, each with a line feed.
fn push_lines(lines: &mut Vec<u8>, digits: &[u8]) -> Result<(), AllocError> {
    for line in digits.chunks(64) {
        lines.extend_from_slice(line)?;
        lines.push(b'\n')?;
    }
    Ok(())
}

/// Returns the bytes as lines of digits, with 32 bytes per line.
pub(crate) fn lines_of(alloc: Global, bytes: &[u8]) -> Option<Vec<u8>> {
    let digits = hex::encode(alloc, bytes).ok()?;
    let mut lines = Vec::new(alloc);
    push_lines(&mut lines, digits.as_bytes()).ok()?;
    Some(lines)
}
