//! Worked filters: small inputs, byte by byte, and what the filter makes of them. The functions do
//! nothing: their contracts are the examples.

ghost use Rattle.std.specs.Prelude.{◌≡◌, ◌∷◌, []};
ghost use Rattle.fv_x86.specs.Filter.{unfiltered};

/// Bytes that are converted: a call of the offset 16, whose instruction ends at 5; a jump to the offset
/// 0; a jump that is at offset 1; and a call with an opcode directly before it, for which the encoder
/// has turned the low three bytes.
pub fn converted_bytes()
    ensures call { unfiltered (232 ∷ 16 ∷ 0 ∷ 0 ∷ 0 ∷ []) ≡ 232 ∷ 11 ∷ 0 ∷ 0 ∷ 0 ∷ [] }
    ensures jump { unfiltered (233 ∷ 0 ∷ 0 ∷ 0 ∷ 0 ∷ []) ≡ 233 ∷ 251 ∷ 255 ∷ 255 ∷ 255 ∷ [] }
    ensures later { unfiltered (144 ∷ 233 ∷ 0 ∷ 1 ∷ 0 ∷ 0 ∷ []) ≡ 144 ∷ 233 ∷ 250 ∷ 0 ∷ 0 ∷ 0 ∷ [] }
    ensures turned { unfiltered (232 ∷ 232 ∷ 0 ∷ 0 ∷ 1 ∷ 0 ∷ []) ≡ 232 ∷ 232 ∷ 255 ∷ 255 ∷ 254 ∷ 0 ∷ [] }
{}

/// Bytes that stay: none; an opcode with only 3 bytes after it; an opcode whose fourth byte is not the
/// highest of a distance; an opcode after two others; and an opcode whose first byte would be the
/// highest of the distance of an opcode before it.
pub fn kept_bytes()
    ensures empty { unfiltered [] ≡ [] }
    ensures few { unfiltered (232 ∷ 16 ∷ 0 ∷ 0 ∷ []) ≡ 232 ∷ 16 ∷ 0 ∷ 0 ∷ [] }
    ensures far { unfiltered (232 ∷ 16 ∷ 0 ∷ 0 ∷ 1 ∷ []) ≡ 232 ∷ 16 ∷ 0 ∷ 0 ∷ 1 ∷ [] }
    ensures third { unfiltered (232 ∷ 232 ∷ 232 ∷ 1 ∷ 1 ∷ 1 ∷ 0 ∷ []) ≡ 232 ∷ 232 ∷ 232 ∷ 1 ∷ 1 ∷ 1 ∷ 0 ∷ [] }
    ensures shared { unfiltered (232 ∷ 232 ∷ 232 ∷ 1 ∷ 1 ∷ 232 ∷ 0 ∷ 1 ∷ 1 ∷ 0 ∷ []) ≡ 232 ∷ 232 ∷ 232 ∷ 1 ∷ 1 ∷ 232 ∷ 0 ∷ 1 ∷ 1 ∷ 0 ∷ [] }
{}
