//! Hexadecimal text that does not end.

use crate::fakes::{InterruptedReader, SpaceReader};
use fv_base::{Fault, FaultKind, Port};
use fv_text::read_hex;
use std::alloc::Global;

// Returns whether endless text of spaces is rejected as too long, after the expected number of
// reads.
fn spaces_are_too_long(alloc: Global) -> bool {
    let mut port = Port::new(SpaceReader { calls: 0, most: 0 });
    let fault = read_hex(alloc, &mut port).err();
    let reader = port.into_inner();
    fault == Some(Fault::outer(FaultKind::Length, 268_435_456))
        && reader.calls == 16_385
        && reader.most == 65_536
}

// Returns whether reading stops if its reader is always interrupted.
fn stops_if_always_interrupted(alloc: Global) -> bool {
    let mut port = Port::new(InterruptedReader { calls: 0 });
    let fault = read_hex(alloc, &mut port).err();
    fault == Some(Fault::outer(FaultKind::ReadFault, 2)) && port.into_inner().calls == 1_073_741_826
}

// The limit is 1,073,741,824 bytes of text, and each read asks for 65,536 bytes.
#[test]
fn text_without_end_is_too_long(rt: HostRuntime) {
    assert!(rt; spaces_are_too_long(rt.alloc()));
    assert!(rt; stops_if_always_interrupted(rt.alloc()));
}
