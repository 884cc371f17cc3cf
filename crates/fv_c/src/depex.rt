//! The truth value of a dependency expression.

ghost use Rattle.std.specs.Prelude.{◌≡◌, ◌≢◌, ℕ, List, Some, None, map, IfOk, IfErr};
ghost use Rattle.fv_depex.specs.Words.{Expression, IsOrder, IsTree, Spells, truth, BeginsFirstOp};
ghost use Rattle.fv_depex.specs.Words.{depex_out_of_memory};
ghost use Rattle.fv_depex.specs.declared.fault.DepexFault.{DepexFault};
ghost use Rattle.fv_depex.specs.declared.op.Op.{Op};
ghost use Rattle.fv_c.specs.ReportedTruths.{NoExpression, depex_result, passed_guid, phase_by_number, reported_depex_fault};
ghost use Rattle.fv_c.specs.ReportedTruths.{reported_truth};
ghost use Rattle.fv_c.specs.Reports.{no_fault};

use crate::reports::{DEPEX_FAULTS, FvFault, NO_FAULT, OUT_OF_MEMORY, set_fault_at};
use crate::translate::{Translate, translate_all};
use fv_base::Guid;
use fv_depex::{DepexFault, DepexFaultKind, Phase, evaluate, read_depex};
use std::alloc::Global;

/// A GUID, as its bytes in a volume.
#[repr(C)]
#[derive(Clone, Copy)]
pub struct FvGuid {
    /// The 16 bytes of the GUID. The first three fields have their least significant byte first.
    pub bytes: [u8; 16],
}

impl Translate for FvGuid {
    type Target = Guid;

    ghost translated = { passed_guid };

    fn translate(&self) -> Guid {
        Guid::from_bytes(self.bytes)
    }
}

// Returns the phase with this number: 0 is PEI, and any other number is DXE and MM.
fn phase_by_number(number: u32) -> Phase
    ensures { result ≡ phase_by_number number }
{
    match number {
        0 => Phase::Pei,
        _ => Phase::Dxe,
    }
}

// Returns the number for a truth value: 1 for true, 0 for false, and 2 if there is none.
fn reported_truth(value: Option<bool>) -> u32
    ensures { result ≡ reported_truth value }
{
    match value {
        Some(true) => 1,
        Some(false) => 0,
        None => 2,
    }
}

// Returns the result of a call that stops at a fault of an expression.
fn depex_result(kind: DepexFaultKind) -> u32
    ensures { result ≡ depex_result kind }
{
    match kind {
        DepexFaultKind::OutOfMemory => OUT_OF_MEMORY,
        _ => DEPEX_FAULTS + u32::from(kind.number()),
    }
}

// Returns the truth value of a dependency expression when exactly these GUIDs are installed.
// Returns None for BEFORE and AFTER, which have no truth value.
fn evaluated(
    alloc: Global,
    expression: &[u8],
    phase: Phase,
    installed: &[FvGuid],
) -> Result<Option<bool>, DepexFault>
    ensures ok { IfOk result (λ found. (ops : List Op) × (rest : List ℕ) × Spells phase ops rest expression.now
        × ((t : Expression) → IsTree phase ops t → found ≡ Some (truth (map passed_guid installed.now) t))
        × (IsOrder phase ops → found ≡ None)) }
    ensures err { IfErr result (λ f. f ≢ depex_out_of_memory → NoExpression phase expression.now f) }
    ensures memory { IfErr result (λ f. f ≡ depex_out_of_memory → BeginsFirstOp phase expression.now) }
{
    let depex = read_depex(alloc, expression, phase)?;
    let guids = translate_all(alloc, installed)?;
    evaluate(alloc, &depex, guids.as_slice())
}

/// Evaluates a dependency expression of a phase: 0 is PEI, and any other number is DXE and MM.
/// `value` is 1 or 0, the truth value of the expression when exactly these GUIDs are installed.
/// `value` is 2 for BEFORE and AFTER, which have no truth value. Bytes after the END op do not
/// change the value. Returns 0. (PI specification, volume 1, section 5.7, and volume 2, section
/// 10.7.)
///
/// # Errors
///
/// The first fault, which is in `fault`: 512 plus the number of the `DepexFaultKind` for a fault of
/// `read_depex`; 24 if memory runs out. `value` is unchanged then.
#[unsafe(no_mangle)]
pub extern "C" fn fvp_depex_evaluate(
    alloc: Global,
    expression: &[u8],
    phase: u32,
    installed: &[FvGuid],
    value: &mut u32,
    fault: &mut FvFault,
) -> u32
    // The bytes spell these ops, and this rest after END. The value is the truth value of the tree
    // that has these ops, or 2 if the expression is a BEFORE or an AFTER.
    ensures ok { result ≡ 0 → (ops : List Op) × (rest : List ℕ) × Spells (phase_by_number phase) ops rest expression.now
        × ((t : Expression) → IsTree (phase_by_number phase) ops t
        → value.new ≡ reported_truth (Some (truth (map passed_guid installed.now) t)))
        × (IsOrder (phase_by_number phase) ops → value.new ≡ 2) × (fault.new ≡ no_fault) }

    ensures kept { result ≢ 0 → value.new ≡ value.old }

    // A fault is the first fault of the expression, or out of memory. Memory can run out only if
    // the bytes begin with an op that may be the first.
    ensures err { result ≢ 0 → (f : DepexFault)
        × (f ≢ depex_out_of_memory → NoExpression (phase_by_number phase) expression.now f)
        × (f ≡ depex_out_of_memory → BeginsFirstOp (phase_by_number phase) expression.now)
        × (result ≡ depex_result f.kind) × (fault.new ≡ reported_depex_fault f) }
{
    match evaluated(alloc, expression, phase_by_number(phase), installed) {
        Ok(found) => {
            *value = reported_truth(found);
            *fault = NO_FAULT;
            0
        }
        Err(f) => set_fault_at(f.offset, depex_result(f.kind), fault),
    }
}
