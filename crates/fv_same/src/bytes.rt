//! Bytes of a row.

ghost use Rattle.std.specs.Prelude.{◌≡◌, slice_index};
ghost use Rattle.fv_base.specs.Words.{field};

/// Returns the bytes of a field: `size` bytes from the offset `at` on, or fewer, if there are fewer.
pub(crate) fn cut(bytes: &[u8], at: usize, size: usize) -> &[u8]
    ensures { result.now ≡ field at size bytes.now }
{
    let rest = &bytes[at.min(bytes.len())..];
    &rest[..size.min(rest.len())]
}

/// Returns the byte at an offset, or 0 past the end.
pub(crate) fn byte_at(bytes: &[u8], at: usize) -> u8
    ensures { result ≡ slice_index bytes.now at }
{
    match bytes.get(at) {
        Some(byte) => *byte,
        None => 0,
    }
}
