//! Laws over the definitions of this crate. None of these functions does anything: their contracts
//! are the laws.

ghost use Rattle.std.specs.Prelude.{◌⊎◌, ℕ, List};
ghost use Rattle.fv_depex.specs.Expressions.{Expression, IsOrder, IsTree, Spells};
ghost use Rattle.fv_depex.specs.OpChecks.{IsFirstOpFault};
ghost use Rattle.fv_depex.specs.declared.fault.DepexFault.{DepexFault};
ghost use Rattle.fv_depex.specs.declared.op.Op.{Op};
ghost use Rattle.fv_depex.specs.declared.op.Phase.{Phase};

/// In each phase, bytes begin with a dependency expression, or have a first fault, and never both.
/// (PI specification, volume 1, section 5.7, and volume 2, section 10.7.)
pub fn every_expression()
    ensures either { (phase : Phase) (b : List ℕ)
        → ((ops : List Op) × (rest : List ℕ) × Spells phase ops rest b) ⊎ ((f : DepexFault) × IsFirstOpFault phase b f) }
    ensures never { (phase : Phase) (b rest : List ℕ) (ops : List Op) (f : DepexFault)
        → Spells phase ops rest b → IsFirstOpFault phase b f → ⊥ }
{}

/// A dependency expression is a tree, which has a truth value, or it is BEFORE or AFTER, and never
/// both. (PI specification, volume 2, section 10.7.)
pub fn every_tree()
    ensures either { (phase : Phase) (b rest : List ℕ) (ops : List Op) → Spells phase ops rest b
        → ((t : Expression) × IsTree phase ops t) ⊎ IsOrder phase ops }
    ensures never { (phase : Phase) (ops : List Op) (t : Expression) → IsTree phase ops t → IsOrder phase ops → ⊥ }
{}
