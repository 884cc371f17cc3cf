//! Counts how many bytes at the start have one value.

ghost use Rattle.std.specs.Prelude.{◌≡◌, ◌≤◌, length};
ghost use Rattle.fv_file.specs.FileChecks.{leading_count};

// Returns how many bytes at the start have the value `byte`, up to the first byte with another
// value.
pub(crate) fn leading_count(bytes: &[u8], byte: u8) -> usize
    ensures run { result ≡ leading_count byte bytes.now }
    ensures bound { result ≤ length bytes.now }
{
    let mut at = 0;
    while at < bytes.len() && bytes[at] == byte {
        at += 1;
    }
    at
}
