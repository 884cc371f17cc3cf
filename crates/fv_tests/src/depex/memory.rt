//! Failed allocations: `tests/program/test_memory.py` makes each allocation of the test fail in
//! turn, and no wrong result may be returned.

use super::read::NOT_A;
use super::{A, OUT_OF_MEMORY, is_written_as};
use fv_base::Guid;
use fv_depex::{Depex, Phase, evaluate, read_depex};
use std::alloc::Global;

/// FALSE; TRUE, five times; AND, four times; OR; END; and two bytes after END.
const SEVERAL: [u8; 14] = [
    0x07, 0x06, 0x06, 0x06, 0x06, 0x06, 0x03, 0x03, 0x03, 0x03, 0x04, 0x08, 0xff, 0xff,
];

/// Bodies, and their values if A is installed.
const BODIES: [(&[u8], bool); 2] = [(&NOT_A, false), (&SEVERAL, true)];

// Returns whether an expression has this truth value and is written as it was read, or memory ran
// out.
fn has_value_or_out_of_memory(alloc: Global, depex: &Depex, bytes: &[u8], value: bool) -> bool {
    let truth = evaluate(alloc, depex, &[Guid::from_bytes(A)]);
    let is_right = truth == Ok(Some(value)) || truth == Err(OUT_OF_MEMORY);
    is_written_as(alloc, depex, bytes, true) && is_right
}

// Returns whether a body is read and has this truth value, or memory ran out.
fn is_read_or_out_of_memory(alloc: Global, bytes: &[u8], value: bool) -> bool {
    match read_depex(alloc, bytes, Phase::Dxe) {
        Ok(depex) => has_value_or_out_of_memory(alloc, &depex, bytes, value),
        Err(fault) => fault == OUT_OF_MEMORY,
    }
}

#[test]
fn out_of_memory_is_reported(rt: HostRuntime) {
    for (bytes, value) in BODIES {
        assert!(rt;
            is_read_or_out_of_memory(rt.alloc(), bytes, value),
            "{value}"
        );
    }
}
