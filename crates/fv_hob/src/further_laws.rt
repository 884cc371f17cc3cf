//! Laws over the definitions of this crate. None of these functions does anything: their contracts
//! are the laws.

ghost use Rattle.std.specs.Prelude.{◌≡◌, ◌⊎◌, ◌≤◌, ◌++◌, ℕ, List, length, take};
ghost use Rattle.fv_base.specs.Words.{IsBytes};
ghost use Rattle.fv_hob.specs.Hobs.{HobForm};
ghost use Rattle.fv_hob.specs.Lists.{IsHobList};
ghost use Rattle.fv_hob.specs.HobChecks.{IsFirstHobFault};
ghost use Rattle.fv_hob.specs.declared.fault.HobFault.{HobFault};

/// Bytes begin with a hand-off list, or have a first fault, and never both. (PI specification,
/// volume 3, section 5.)
pub fn every_list()
    ensures either { (b : List ℕ) → IsBytes b
        → ((all : List HobForm) × (n : ℕ) × (n ≤ length b) × IsHobList all (take n b)) ⊎ ((f : HobFault) × IsFirstHobFault b f) }
    ensures never { (b list rest : List ℕ) (all : List HobForm) (f : HobFault)
        → IsFirstHobFault b f → IsHobList all list → b ≡ list ++ rest → ⊥ }
{}
