//! Laws over the definitions of this crate. None of these functions does anything: their contracts
//! are the laws.

ghost use Rattle.std.specs.Prelude.{◌⊎◌, ℕ, List};
ghost use Rattle.fv_base.specs.Words.{IsBytes, IsFirstFault};
ghost use Rattle.fv_base.specs.declared.fault.Fault.{Fault};
ghost use Rattle.fv_head.specs.declared.extent.Extent.{Extent};
ghost use Rattle.fv_head.specs.Words.{HeadFields, BeginsVolume, head_checks};

/// Bytes begin with a volume, or a check of its header has the first fault, and never both. (PI
/// specification, volume 3, section 3.2.1.)
pub fn every_header()
    ensures either { (b : List ℕ) → IsBytes b
        → ((e : Extent) × (h : HeadFields) × BeginsVolume h e b) ⊎ ((f : Fault) × IsFirstFault (head_checks b) f) }
    ensures never { (b : List ℕ) (h : HeadFields) (e : Extent) (f : Fault)
        → BeginsVolume h e b → IsFirstFault (head_checks b) f → ⊥ }
{}
