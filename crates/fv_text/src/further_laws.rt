//! Laws over the definitions of this crate. None of these functions does anything: their contracts
//! are the laws.

ghost use Rattle.std.specs.Prelude.{◌⊎◌, ◌≤◌, ℕ, List, length};
ghost use Rattle.fv_base.specs.Words.{volume_limit};
ghost use Rattle.fv_base.specs.declared.fault.Fault.{Fault};
ghost use Rattle.fv_text.specs.HexIn.{DigitsSpell, TextFault, squeezed};

/// The hexadecimal digits of a text spell bytes that are not longer than a volume may be, or the
/// text is rejected, and never both.
pub fn every_text()
    ensures either { (text : List ℕ)
        → ((bytes : List ℕ) × DigitsSpell (squeezed text) bytes × (length bytes ≤ volume_limit)) ⊎ ((f : Fault) × TextFault text f) }
    ensures never { (text bytes : List ℕ) (f : Fault)
        → DigitsSpell (squeezed text) bytes → length bytes ≤ volume_limit → TextFault text f → ⊥ }
{}
