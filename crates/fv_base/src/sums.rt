//! The sums that the checksums of headers and of files use.

ghost use Rattle.std.specs.Prelude.{◌≡◌, ◌%◌, length};
ghost use Rattle.fv_base.specs.Measures.{sum8_of};
ghost use Rattle.fv_base.specs.Sums.{sum16_of};

/// Returns the plain sum of the bytes, modulo 256, as `IntegrityCheck` of a file uses it. (PI
/// specification, volume 3, section 3.2.3.1.)
pub fn sum8(bytes: &[u8]) -> u8
    ensures { result ≡ sum8_of bytes.now }
{
    let mut total = 0u8;
    for byte in bytes {
        total = total.wrapping_add(*byte);
    }
    total
}

/// Returns the plain sum of the little-endian 16-bit words, modulo 65536, as `Checksum` of a volume
/// header uses it. The number of bytes must be even. (PI specification, volume 3, section 3.2.1.1.)
pub fn sum16(bytes: &[u8]) -> u16
    requires { length bytes.now % 2 ≡ 0 }
    ensures { result ≡ sum16_of bytes.now }
{
    let mut total = 0u16;
    let mut rest = bytes;
    while rest.len() >= 2 {
        total = total.wrapping_add(u16::from_le_bytes([rest[0], rest[1]]));
        rest = &rest[2..];
    }
    total
}
