//! Tests of fv_depex, with results that were worked out by hand: expressions, the printed texts, and
//! memory that runs out. Wrong expressions, with the fault of each, are in `parts.rows` of
//! fv_run_tests, and the truth values in its `library.rows`.

mod memory;
mod read;
mod written;

use crate::checks::is_printed_as;
use fv_base::Guid;
use fv_depex::{Depex, DepexFault, DepexFaultKind, Op, depex_bytes};
use std::alloc::Global;

/// The bytes of a GUID.
const A: [u8; 16] = [0x0a; 16];

/// The bytes of another GUID.
const B: [u8; 16] = [0x0b; 16];

/// The bytes of a GUID that differs from its reverse.
const ORDER: [u8; 16] = [
    0x1f, 0x2e, 0x3d, 0x4c, 0x5b, 0x6a, 0x79, 0x88, 0x97, 0xa6, 0xb5, 0xc4, 0xd3, 0xe2, 0xf1, 0x00,
];

/// The parts of a body.
type Parts = &'static [&'static [u8]];

// Returns TRUE; then TRUE and AND in turn, 1000 times each; then NOT and END.
fn long_expression() -> [u8; 2003] {
    let mut bytes = [0x06; 2003];
    for i in 1..2001usize {
        if i % 2 == 0 {
            bytes[i] = 0x03;
        }
    }
    bytes[2001] = 0x05;
    bytes[2002] = 0x08;
    bytes
}

/// The fault that a call returns if memory ran out.
const OUT_OF_MEMORY: DepexFault = DepexFault {
    kind: DepexFaultKind::OutOfMemory,
    offset: 0,
};

// Returns whether an expression is written as these bytes. If `is_scarce` is set, memory may also
// run out.
fn is_written_as(alloc: Global, depex: &Depex, bytes: &[u8], is_scarce: bool) -> bool {
    match depex_bytes(alloc, depex) {
        Ok(written) => written.as_slice() == bytes,
        Err(fault) => is_scarce && fault == OUT_OF_MEMORY,
    }
}

#[test]
fn each_op_has_its_code(rt: HostRuntime) {
    let guid = Guid::from_bytes(A);
    for (op, code) in [
        (Op::Before(guid), 0),
        (Op::After(guid), 1),
        (Op::Push(guid), 2),
        (Op::And, 3),
        (Op::Or, 4),
        (Op::Not, 5),
        (Op::True, 6),
        (Op::False, 7),
        (Op::End, 8),
        (Op::Sor, 9),
    ] {
        assert!(rt; op.code() == code, "{code}");
    }
}

/// The kinds of faults, in the order of their numbers.
const KINDS: [DepexFaultKind; 6] = [
    DepexFaultKind::Short,
    DepexFaultKind::Opcode,
    DepexFaultKind::Stack,
    DepexFaultKind::NoEnd,
    DepexFaultKind::Position,
    DepexFaultKind::OutOfMemory,
];

// Returns whether a kind has this number, and its faults have it too.
fn has_number(kind: DepexFaultKind, number: u8) -> bool {
    kind.number() == number && DepexFault { kind, offset: 7 }.number() == number
}

#[test]
fn each_fault_has_its_number(rt: HostRuntime) {
    let mut number = 0u8;
    for kind in KINDS {
        number = number.wrapping_add(1);
        assert!(rt; has_number(kind, number), "{number}");
    }
}

#[test]
fn a_fault_has_its_text(rt: HostRuntime) {
    let fault = DepexFault {
        kind: DepexFaultKind::Stack,
        offset: 2,
    };
    let text = "the stack does not hold the values that an op takes (depex fault 3) at offset 2";
    assert!(rt; is_printed_as(rt.alloc(), &fault, text));
}
