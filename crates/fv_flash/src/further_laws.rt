//! Laws over the definitions of this crate. None of these functions does anything: their contracts
//! are the laws.

ghost use Rattle.std.specs.Prelude.{◌≡◌, ℕ, List};
ghost use Rattle.fv_base.specs.Words.{IsBytes};
ghost use Rattle.fv_flash.specs.FoundVolumes.{Found};

/// The volumes in any bytes begin at one list of offsets, and at no other.
pub fn every_scan()
    ensures some { (b : List ℕ) → IsBytes b → (places : List ℕ) × Found b places }
    ensures one { (b places others : List ℕ) → Found b places → Found b others → places ≡ others }
{}
