//! The checksum, a byte at a time.

ghost use Rattle.std.specs.Prelude.{◌≡◌, ◌<◌, ◌^◌, ℕ};
ghost use Rattle.fv_crc32.specs.Crc32.{after_bits, after_byte, after_bytes, crc32};

use crate::table::TABLE;

/// Returns the CRC-32 of bytes, as CalculateCrc32 of the UEFI specification (2.10, section 7.5). A call
/// reads each byte once, and allocates nothing.
pub fn crc32(bytes: &[u8]) -> u32
    ensures { result ≡ crc32 bytes.now }
{
    let mut register = u32::MAX;
    for byte in bytes {
        register = next(register, *byte);
    }
    !register
}

// Returns the register after a byte.
#[inline]
fn next(register: u32, byte: u8) -> u32
    ensures { result ≡ after_byte register byte }
{
    entry(((register ^ byte as u32) % 256) as u8) ^ register / 256
}

// Returns the register that the 8 bits of a byte leave.
#[inline]
fn entry(byte: u8) -> u32
    ensures { result ≡ after_bits 8 byte }
{
    TABLE[byte as usize]
}
