//! Expressions that are read.

use super::{A, B, ORDER, Parts, long_expression};
use crate::checks::assert_rows;
use crate::parts::joined;
use fv_depex::{Depex, Op, Phase, read_depex};
use std::alloc::Global;

/// PUSH A, NOT and END: true if A is not installed.
pub(super) const NOT_A: [u8; 19] = [
    0x02, 0x0a, 0x0a, 0x0a, 0x0a, 0x0a, 0x0a, 0x0a, 0x0a, 0x0a, 0x0a, 0x0a, 0x0a, 0x0a, 0x0a, 0x0a,
    0x0a, 0x05, 0x08,
];

/// The code of an op, and the bytes of its GUID if it has one.
type ExpectedOp = (u8, &'static [u8]);

/// A phase, a body, the ops of the body, and the bytes after END.
type ReadRow = (Phase, Parts, &'static [ExpectedOp], &'static [u8]);

/// Expressions that are read.
const READ: &[ReadRow] = &[
    (
        Phase::Dxe,
        &[&NOT_A],
        &[(0x02, &A), (0x05, &[]), (0x08, &[])],
        &[],
    ),
    (
        Phase::Pei,
        &[&NOT_A],
        &[(0x02, &A), (0x05, &[]), (0x08, &[])],
        &[],
    ),
    (
        Phase::Dxe,
        &[&[0x06, 0x08, 0xff, 0xff]],
        &[(0x06, &[]), (0x08, &[])],
        &[0xff, 0xff],
    ),
    // SOR first, and a second expression after END.
    (
        Phase::Dxe,
        &[&[0x09, 0x07, 0x08, 0x06, 0x08]],
        &[(0x09, &[]), (0x07, &[]), (0x08, &[])],
        &[0x06, 0x08],
    ),
    (
        Phase::Dxe,
        &[&[0x00], &A, &[0x08]],
        &[(0x00, &A), (0x08, &[])],
        &[],
    ),
    (
        Phase::Dxe,
        &[&[0x01], &B, &[0x08, 0x00]],
        &[(0x01, &B), (0x08, &[])],
        &[0x00],
    ),
    (
        Phase::Dxe,
        &[&[0x02], &A, &[0x02], &B, &[0x03, 0x08]],
        &[(0x02, &A), (0x02, &B), (0x03, &[]), (0x08, &[])],
        &[],
    ),
    (
        Phase::Pei,
        &[&[0x02], &B, &[0x02], &A, &[0x04, 0x08]],
        &[(0x02, &B), (0x02, &A), (0x04, &[]), (0x08, &[])],
        &[],
    ),
    // A GUID keeps the order of its bytes.
    (
        Phase::Pei,
        &[&[0x02], &ORDER, &[0x08]],
        &[(0x02, &ORDER), (0x08, &[])],
        &[],
    ),
];

// Returns whether an op has the GUID with these bytes, or no GUID if there are no bytes.
fn has_operand(op: &Op, operand: &[u8]) -> bool {
    match op {
        Op::Before(guid) | Op::After(guid) | Op::Push(guid) => {
            let bytes = guid.to_bytes();
            bytes.as_slice() == operand
        }
        _ => operand.is_empty(),
    }
}

// Returns how many of the expected ops, from the first on, are among the ops that were found, in
// this order. Other ops may be between them.
fn count_matching(found: &[Op], ops: &[ExpectedOp]) -> usize {
    let mut at = 0;
    for op in found {
        if at < ops.len() && ops[at].0 == op.code() && has_operand(op, ops[at].1) {
            at += 1;
        }
    }
    at
}

// Returns whether an expression is the expression of a row.
fn is_expression_of(depex: &Depex, row: &ReadRow) -> bool {
    let (phase, _, ops, rest) = *row;
    depex.phase() == phase
        && depex.ops().len() == ops.len()
        && count_matching(depex.ops(), ops) == ops.len()
        && depex.rest() == rest
}

// Returns whether the bytes are read as a row states.
fn is_read_as(alloc: Global, bytes: &[u8], row: &ReadRow) -> bool {
    match read_depex(alloc, bytes, row.0) {
        Ok(depex) => is_expression_of(&depex, row),
        Err(_) => false,
    }
}

// Returns whether the body of a row is read as the row states.
fn is_row_read(alloc: Global, row: &ReadRow) -> bool {
    match joined(alloc, row.1, &[]) {
        Ok(bytes) => is_read_as(alloc, bytes.as_slice(), row),
        Err(_) => false,
    }
}

// Returns the rows. No other function names `READ`, because the proof of each function that names a
// large constant contains the whole constant.
fn read_rows() -> &'static [ReadRow] {
    READ
}

#[test]
fn expressions_are_read(rt: HostRuntime) {
    assert_rows!(rt; read_rows(), |row| is_row_read(rt.alloc(), row));
}

// Returns whether a body has this many ops, and no bytes after END.
fn has_ops(alloc: Global, bytes: &[u8], phase: Phase, count: usize) -> bool {
    match read_depex(alloc, bytes, phase) {
        Ok(depex) => depex.ops().len() == count && depex.rest().is_empty(),
        Err(_) => false,
    }
}

#[test]
fn a_long_expression_is_read(rt: HostRuntime) {
    let bytes = long_expression();
    assert!(rt; has_ops(rt.alloc(), &bytes, Phase::Pei, 2003));
}
