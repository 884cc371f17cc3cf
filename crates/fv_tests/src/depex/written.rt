//! Expressions that are written back.

use super::{A, B, ORDER, Parts, is_written_as, long_expression};
use crate::checks::assert_rows;
use crate::parts::joined;
use fv_depex::{Phase, read_depex};
use std::alloc::Global;

/// The bodies and their phases.
const BODIES: &[(Phase, Parts)] = &[
    (Phase::Pei, &[&[0x02], &A, &[0x05, 0x08]]),
    (Phase::Dxe, &[&[0x00], &A, &[0x08]]),
    (Phase::Dxe, &[&[0x01], &A, &[0x08]]),
    // Three bodies. The bytes after END are, in order: PUSH A; a BEFORE that is cut short; a second
    // expression.
    (Phase::Pei, &[&[0x02], &B, &[0x06, 0x04, 0x08, 0x02], &A]),
    (Phase::Dxe, &[&[0x09, 0x02], &A, &[0x08, 0x00]]),
    (Phase::Dxe, &[&[0x01], &B, &[0x08, 0x09, 0x06, 0x08]]),
    (Phase::Pei, &[&[0x02], &ORDER, &[0x08]]),
    // The bodies whose truth values are in `library.rows` of fv_run_tests.
    (Phase::Dxe, &[&[0x06, 0x08]]),
    (Phase::Dxe, &[&[0x07, 0x08]]),
    (Phase::Dxe, &[&[0x09, 0x06, 0x08]]),
    (Phase::Dxe, &[&[0x06, 0x08, 0xff, 0xff]]),
    (Phase::Dxe, &[&[0x06, 0x07, 0x03, 0x08]]),
    (Phase::Dxe, &[&[0x06, 0x07, 0x04, 0x08]]),
    (Phase::Dxe, &[&[0x02], &A, &[0x08]]),
    (Phase::Dxe, &[&[0x02], &A, &[0x05, 0x08]]),
    (Phase::Dxe, &[&[0x02], &A, &[0x02], &B, &[0x03, 0x08]]),
    (Phase::Dxe, &[&[0x02], &A, &[0x02], &B, &[0x04, 0x08]]),
    (
        Phase::Dxe,
        &[
            &[0x02],
            &A,
            &[0x02],
            &B,
            &[0x05, 0x03, 0x02],
            &B,
            &[0x02],
            &A,
            &[0x05, 0x03, 0x04, 0x08],
        ],
    ),
    (
        Phase::Dxe,
        &[
            &[0x06, 0x02],
            &A,
            &[0x07, 0x02],
            &B,
            &[0x05, 0x04, 0x03, 0x03, 0x05, 0x08],
        ],
    ),
];

// Returns whether a body is written as it was read.
fn is_written_back(alloc: Global, bytes: &[u8], phase: Phase) -> bool {
    match read_depex(alloc, bytes, phase) {
        Ok(depex) => is_written_as(alloc, &depex, bytes, false),
        Err(_) => false,
    }
}

// Returns whether a body that is given in parts is written as it was read.
fn parts_are_written_back(alloc: Global, parts: Parts, phase: Phase) -> bool {
    match joined(alloc, parts, &[]) {
        Ok(bytes) => is_written_back(alloc, bytes.as_slice(), phase),
        Err(_) => false,
    }
}

// Returns the bodies. No other function names `BODIES`, because the proof of each function that
// names a large constant contains the whole constant.
fn bodies() -> &'static [(Phase, Parts)] {
    BODIES
}

#[test]
fn expressions_are_written_as_they_were_read(rt: HostRuntime) {
    assert_rows!(rt; bodies(), |row| parts_are_written_back(rt.alloc(), row.1, row.0));
}

#[test]
fn a_long_expression_is_written_as_it_was_read(rt: HostRuntime) {
    let bytes = long_expression();
    assert!(rt; is_written_back(rt.alloc(), &bytes, Phase::Pei));
    assert!(rt; is_written_back(rt.alloc(), &bytes, Phase::Dxe));
}
