//! Bytes that are joined from parts.

use std::alloc::{AllocError, Global};

// Appends the parts to the bytes.
fn append_parts(bytes: &mut Vec<u8>, parts: &[&[u8]]) -> Result<(), AllocError> {
    for part in parts {
        bytes.extend_from_slice(part)?;
    }
    Ok(())
}

/// Returns the parts, followed by more parts, joined.
pub(crate) fn joined(
    alloc: Global,
    parts: &[&[u8]],
    more: &[&[u8]],
) -> Result<Vec<u8>, AllocError> {
    let mut bytes = Vec::new(alloc);
    append_parts(&mut bytes, parts)?;
    append_parts(&mut bytes, more)?;
    Ok(bytes)
}

/// Writes a part over the bytes from an offset on, as far as there is room.
pub(crate) fn overwrite(bytes: &mut [u8], at: usize, part: &[u8]) {
    let room = bytes.len().saturating_sub(at);
    for i in 0..part.len().min(room) {
        bytes[at + i] = part[i];
    }
}
