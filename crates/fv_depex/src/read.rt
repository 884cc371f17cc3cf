//! Reading dependency expressions.

ghost use Rattle.std.specs.Prelude.{◌≡◌, ◌≢◌, ◌≤◌, ◌+◌, ℕ, List, length, drop, true, None, Some, OnOk, IfOk, IfErr, IfSome};
ghost use Rattle.fv_base.specs.Words.{IsFirstFault};
ghost use Rattle.fv_base.specs.inner.Verdicts.{first_fault};
ghost use Rattle.fv_depex.specs.OpChecks.{BeginsFirstOp, IsFirstOpFault, BeginsOp, has_code, has_position, has_values};
ghost use Rattle.fv_depex.specs.OpChecks.{holds_values, has_operand, op_checks, depex_out_of_memory};
ghost use Rattle.fv_depex.specs.Expressions.{Spells, carries, op_code, operand_len};
ghost use Rattle.fv_depex.specs.inner.Ops.{op_in};
ghost use Rattle.fv_depex.specs.declared.op.Op.{Op};

use crate::depex::Depex;
use crate::fault::{DepexFault, DepexFaultKind};
use crate::op::{Op, Phase};
use crate::op_stage::{Stage, stage_after};
use crate::opcode;
use fv_base::field::bytes_from;
use fv_base::{ByteList, guid_at};
use std::alloc::Global;

/// The offset of an op's GUID in the op: right after its code.
const OPERAND: usize = 1;

/// The length of an op with a GUID: 1 byte for its code, and 16 for the GUID.
const WITH_GUID: usize = 17;

// Returns whether the phase has this op code.
fn has_code(phase: Phase, code: u8) -> bool
    ensures { result ≡ has_code phase code }
{
    match phase {
        Phase::Pei => opcode::PUSH <= code && code <= opcode::END,
        Phase::Dxe => code <= opcode::SOR,
    }
}

// Returns whether an op with this code is allowed at this stage: BEFORE, AFTER and SOR only as the
// first op, and only END after BEFORE or AFTER.
fn has_position(stage: Stage, code: u8) -> bool
    ensures { result ≡ has_position stage code }
{
    match stage {
        Stage::Start => true,
        Stage::Ordered => code == opcode::END,
        Stage::Values(_) => opcode::PUSH <= code && code <= opcode::END,
    }
}

// Returns whether a stack of `count` values is right for an op with this code: AND and OR need at
// least two, NOT needs at least one, and END exactly one.
fn has_values(count: u64, code: u8) -> bool
    ensures { result ≡ has_values count code }
{
    if code == opcode::AND || code == opcode::OR {
        2 <= count
    } else if code == opcode::NOT {
        1 <= count
    } else if code == opcode::END {
        count == 1
    } else {
        true
    }
}

// Returns whether the number of values on the stack at this stage is right for an op with this code
// (`has_values`). END after BEFORE or AFTER is an exception: the stack is empty there, and END takes
// no value.
fn holds_values(stage: Stage, code: u8) -> bool
    ensures { result ≡ holds_values stage code }
{
    match stage {
        Stage::Start => has_values(0, code),
        Stage::Ordered => code == opcode::END || has_values(0, code),
        Stage::Values(count) => has_values(count, code),
    }
}

// Returns whether an op with this code carries a GUID.
fn carries(code: u8) -> bool
    ensures { result ≡ carries code }
{
    code <= opcode::PUSH
}

// Returns whether the op at the start of `rest` has its GUID, if it carries one.
fn has_operand(rest: &[u8]) -> bool
    requires { 1 ≤ length rest.now }
    ensures { result ≡ has_operand rest.now }
{
    !carries(rest[0]) || rest.len() >= WITH_GUID
}

// Returns Ok, or the kind of fault of the first check that fails for the op at the start of `rest`.
fn check_op(rest: &[u8], phase: Phase, stage: Stage) -> Result<(), DepexFaultKind>
    ensures ok { OnOk result (first_fault (op_checks phase stage rest.now) ≡ None) }
    ensures err { IfErr result (λ kind. first_fault (op_checks phase stage rest.now) ≡ Some kind) }
{
    if rest.is_empty() {
        return Err(DepexFaultKind::NoEnd);
    }
    let code = rest[0];
    if !has_code(phase, code) {
        return Err(DepexFaultKind::Opcode);
    }
    if !has_position(stage, code) {
        return Err(DepexFaultKind::Position);
    }
    if !has_operand(rest) {
        return Err(DepexFaultKind::Short);
    }
    if !holds_values(stage, code) {
        return Err(DepexFaultKind::Stack);
    }
    Ok(())
}

// Returns the op at the start of `rest`.
fn op_in(rest: &[u8]) -> Op
    requires some { 1 ≤ length rest.now }
    requires operand { has_operand rest.now ≡ true }
    ensures { result ≡ op_in rest.now }
{
    match rest[0] {
        opcode::BEFORE => Op::Before(guid_at(rest, OPERAND)),
        opcode::AFTER => Op::After(guid_at(rest, OPERAND)),
        opcode::PUSH => Op::Push(guid_at(rest, OPERAND)),
        opcode::AND => Op::And,
        opcode::OR => Op::Or,
        opcode::NOT => Op::Not,
        opcode::TRUE => Op::True,
        opcode::FALSE => Op::False,
        opcode::END => Op::End,
        _ => Op::Sor,
    }
}

// Returns the number of bytes of an op.
fn op_len(op: &Op) -> usize
    ensures { result ≡ 1 + operand_len (carries (op_code op.now)) }
{
    if carries(op.code()) { WITH_GUID } else { 1 }
}

// Returns the op at the offset `at`, or the first fault there.
fn op_at(bytes: &[u8], at: usize, phase: Phase, stage: Stage) -> Result<Op, DepexFault>
    requires { at ≤ length bytes.now }
    ensures found { IfOk result (λ o. BeginsOp phase stage o (drop at bytes.now)) }
    ensures place { IfErr result (λ f. f.offset ≡ at) }
    ensures first { IfErr result (λ f. IsFirstFault (op_checks phase stage (drop at bytes.now)) f.kind) }
{
    let rest = bytes_from(bytes, at);
    match check_op(rest, phase, stage) {
        Ok(()) => Ok(op_in(rest)),
        Err(kind) => {
            let offset = at as u64;
            Err(DepexFault { kind, offset })
        }
    }
}

// Returns the ops, of which END is the last, and the number of their bytes.
fn read_ops(alloc: Global, bytes: &[u8], phase: Phase) -> Result<(Vec<Op>, usize), DepexFault>
    ensures found { IfOk result
        (λ p. (p.1 ≤ length bytes.now) × Spells phase p.0.items (drop p.1 bytes.now) bytes.now) }
    ensures first { IfErr result (λ f. f ≢ depex_out_of_memory → IsFirstOpFault phase bytes.now f) }
    ensures memory { IfErr result (λ f. f ≡ depex_out_of_memory → BeginsFirstOp phase bytes.now) }
{
    let mut ops = Vec::new(alloc);
    let mut at = 0;
    let mut stage = Stage::Start;
    loop {
        let op = op_at(bytes, at, phase, stage)?;
        at += op_len(&op);
        ops.push(op)?;
        if op.code() == opcode::END {
            return Ok((ops, at));
        }
        stage = stage_after(stage, &op);
    }
}

/// Reads the body of a dependency section (EFI_SECTION_PEI_DEPEX, EFI_SECTION_DXE_DEPEX or
/// EFI_SECTION_MM_DEPEX) by the rules of the phase: the ops up to END, which must be a complete
/// expression, and the bytes after END. (PI specification, volume 1, section 5.7, and volume 2,
/// section 10.7.)
///
/// # Errors
///
/// The first op with a fault determines the error. Its checks come in this order: NoEnd if no bytes
/// are left, Opcode, Position, Short, Stack. The offset, in bytes from the first byte of `bytes`,
/// points to the op's code, or to the end of the bytes for NoEnd. OutOfMemory is at offset 0.
pub fn read_depex(alloc: Global, bytes: &[u8], phase: Phase) -> Result<Depex, DepexFault>
    // The bytes spell the ops and the rest of the result.
    ensures found { IfOk result (λ d. (d.phase ≡ phase) × Spells phase d.ops d.rest bytes.now) }

    // They spell no other ops and rest.
    ensures only { IfOk result
        (λ d. (ops : List Op) (rest : List ℕ) → Spells phase ops rest bytes.now → (ops ≡ d.ops) × (rest ≡ d.rest)) }

    // If an error other than OutOfMemory is returned, the bytes do not spell any ops and rest.
    ensures none { IfErr result
        (λ f. f ≢ depex_out_of_memory → (ops : List Op) (rest : List ℕ) → Spells phase ops rest bytes.now → ⊥) }

    // An error other than OutOfMemory comes from the first op that fails a check, and names the
    // first check that this op fails.
    ensures first { IfErr result (λ f. f ≢ depex_out_of_memory → IsFirstOpFault phase bytes.now f) }

    // Memory runs out only if the bytes begin with an op that is allowed as the first op.
    ensures memory { IfErr result (λ f. f ≡ depex_out_of_memory → BeginsFirstOp phase bytes.now) }
{
    let (ops, at) = read_ops(alloc, bytes, phase)?;
    let rest = ByteList::from_slice(alloc, bytes_from(bytes, at))?;
    Ok(Depex::from_parts(phase, ops, rest))
}

/// Returns the fault with which `read_depex` rejects the body of a dependency section, or None if
/// the bytes begin with a complete expression. Allocates no memory. (PI specification, volume 1,
/// section 5.7, and volume 2, section 10.7.)
pub fn depex_fault(bytes: &[u8], phase: Phase) -> Option<DepexFault>
    // If None is returned, the bytes spell some ops and a rest.
    ensures none { result ≡ None → (ops : List Op) × (rest : List ℕ) × Spells phase ops rest bytes.now }

    // A fault comes from the first op that fails a check, and names the first check that this op
    // fails.
    ensures first { IfSome result (IsFirstOpFault phase bytes.now) }
{
    let mut at = 0;
    let mut stage = Stage::Start;
    loop {
        let op = match op_at(bytes, at, phase, stage) {
            Ok(op) => op,
            Err(fault) => return Some(fault),
        };
        at += op_len(&op);
        if op.code() == opcode::END {
            return None;
        }
        stage = stage_after(stage, &op);
    }
}
