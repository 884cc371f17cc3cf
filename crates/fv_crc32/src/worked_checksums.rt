//! Worked checksums: small inputs and their sums. The functions do nothing: their contracts are the
//! sums.

ghost use Rattle.std.specs.Prelude.{◌≡◌, ◌∷◌, []};
ghost use Rattle.fv_crc32.specs.Crc32.{crc32};

/// The sums of no bytes, of the byte 0, and of the text `123456789`.
pub fn checksums()
    ensures empty { crc32 [] ≡ 0 }
    ensures zero { crc32 (0 ∷ []) ≡ 0xD202EF8D }
    ensures digits { crc32 (49 ∷ 50 ∷ 51 ∷ 52 ∷ 53 ∷ 54 ∷ 55 ∷ 56 ∷ 57 ∷ []) ≡ 0xCBF43926 }
{}
