//! Offsets in bytes: the field at an offset, the number in it, and the first multiple of 8 at or
//! after it.

ghost use Rattle.std.specs.Prelude.{◌≡◌, ◌+◌, ◌<◌, ◌≤◌, ◌^◌, length, drop};
ghost use Rattle.fv_base.specs.Value.{field, le_at, up_to_8};

/// Returns the bytes of a field: `size` bytes from the offset `at` on. The field must lie within
/// `bytes`.
pub fn field(bytes: &[u8], at: usize, size: usize) -> &[u8]
    requires { at + size ≤ length bytes.now }
    ensures bytes { result.now ≡ field at size bytes.now }
    ensures length { length result.now ≡ size }
{
    &bytes[at..at + size]
}

/// Returns the bytes from the offset `at` on. `at` is at most the number of bytes.
pub fn bytes_from(bytes: &[u8], at: usize) -> &[u8]
    requires { at ≤ length bytes.now }
    ensures { result.now ≡ drop at bytes.now }
{
    &bytes[at..]
}

/// Returns the little-endian 2-byte number at the offset `at`. The number must lie within `bytes`.
pub fn u16_at(bytes: &[u8], at: usize) -> u16
    requires { at + 2 ≤ length bytes.now }
    ensures { result ≡ le_at at 2 bytes.now }
{
    let part = field(bytes, at, 2);
    u16::from_le_bytes([part[0], part[1]])
}

/// Returns the little-endian 4-byte number at the offset `at`. The number must lie within `bytes`.
pub fn u32_at(bytes: &[u8], at: usize) -> u32
    requires { at + 4 ≤ length bytes.now }
    ensures { result ≡ le_at at 4 bytes.now }
{
    let part = field(bytes, at, 4);
    u32::from_le_bytes([part[0], part[1], part[2], part[3]])
}

/// Returns the little-endian 8-byte number at the offset `at`. The number must lie within `bytes`.
pub fn u64_at(bytes: &[u8], at: usize) -> u64
    requires { at + 8 ≤ length bytes.now }
    ensures { result ≡ le_at at 8 bytes.now }
{
    let part = field(bytes, at, 8);
    u64::from_le_bytes([
        part[0], part[1], part[2], part[3], part[4], part[5], part[6], part[7],
    ])
}

/// Rounds an offset up to a multiple of 8. `offset` must be less than 2 ^ 64 - 7.
pub fn up_to_8(offset: u64) -> u64
    requires { offset + 7 < 2 ^ 64 }
    ensures { result ≡ up_to_8 offset }
{
    (offset + 7) / 8 * 8
}
