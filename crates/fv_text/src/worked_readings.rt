//! Worked readings: a hexadecimal text that spells a byte, and a text that is rejected. The function
//! does nothing: its contract is the readings.

ghost use Rattle.std.specs.Prelude.{◌∷◌, []};
ghost use Rattle.fv_base.specs.Words.{outer_fault};
ghost use Rattle.fv_text.specs.HexIn.{DigitsSpell, TextFault, squeezed};

use fv_base::FaultKind;

/// The text `0 A`, with a line feed, spells the byte 0A. The text `0`, which is not an even number
/// of digits, is rejected as ReadFault at 0.
pub fn hex_texts()
    ensures spells { DigitsSpell (squeezed (0x30 ∷ 0x20 ∷ 0x41 ∷ 0x0a ∷ [])) (0x0a ∷ []) }
    ensures odd { TextFault (0x30 ∷ []) (outer_fault FaultKind.ReadFault 0) }
{}
