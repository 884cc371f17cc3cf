//! Worked readings: small expressions, byte by byte, with their ops or their first fault. They show
//! that expressions are accepted, and that each fault can be the first fault. None of these
//! functions does anything: their contracts are the readings.

ghost use Rattle.std.specs.Prelude.{◌∷◌, []};
ghost use Rattle.fv_depex.specs.Expressions.{IsTree, Spells, installed, negated};
ghost use Rattle.fv_depex.specs.OpChecks.{IsFirstOpFault};
ghost use Rattle.fv_depex.specs.WorkedInputs.{depex_fault_at, guid, late_before, not_installed};

use crate::fault::DepexFaultKind;
use crate::op::{Op, Phase};

/// The bytes 02, 16 times 0A, 05, 08 spell PUSH, NOT and END, which is the expression "the GUID is
/// not installed". (PI specification, volume 2, section 10.7.)
pub fn accepted_expression()
    ensures spells { Spells Phase.Dxe (Op.Push (guid 0x0a) ∷ Op.Not ∷ Op.End ∷ []) [] not_installed }
    ensures tree { IsTree Phase.Dxe (Op.Push (guid 0x0a) ∷ Op.Not ∷ Op.End ∷ []) (negated (installed (guid 0x0a))) }
{}

/// Bytes that do not spell an expression, and the first fault of each of them. (PI specification,
/// volume 2, section 10.7.)
pub fn expression_faults()
    ensures short { IsFirstOpFault Phase.Dxe (0x02 ∷ 0x0a ∷ []) (depex_fault_at DepexFaultKind.Short 0) }
    ensures opcode { IsFirstOpFault Phase.Pei (0x09 ∷ 0x06 ∷ 0x08 ∷ []) (depex_fault_at DepexFaultKind.Opcode 0) }
    ensures stack { IsFirstOpFault Phase.Dxe (0x03 ∷ 0x08 ∷ []) (depex_fault_at DepexFaultKind.Stack 0) }
    ensures two_values { IsFirstOpFault Phase.Dxe (0x06 ∷ 0x06 ∷ 0x08 ∷ []) (depex_fault_at DepexFaultKind.Stack 2) }
    ensures no_end { IsFirstOpFault Phase.Dxe (0x06 ∷ []) (depex_fault_at DepexFaultKind.NoEnd 1) }
    ensures position { IsFirstOpFault Phase.Dxe late_before (depex_fault_at DepexFaultKind.Position 1) }
{}
