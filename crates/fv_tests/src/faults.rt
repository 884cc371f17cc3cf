//! The faults that calls return.

use fv_base::{Fault, FaultKind, Place};
use std::alloc::Global;

/// The fault that a call returns if memory ran out.
pub(crate) const OUT_OF_MEMORY: Fault = Fault {
    kind: FaultKind::OutOfMemory,
    place: Place {
        offset: 0,
        depth: 0,
    },
};

// Returns whether a text is the number, the offset and the depth of a fault.
fn has_parts(alloc: Global, fault: Fault, text: &str) -> bool {
    let Fault { kind, place } = fault;
    match format!(in alloc; "{} {} {}", kind.number(), place.offset, place.depth) {
        Ok(found) => found.as_str() == text,
        Err(_) => false,
    }
}

/// Returns whether a text is the number, the offset and the depth of a fault, or is empty if there is no
/// fault.
pub(crate) fn is_named(alloc: Global, fault: Option<Fault>, text: &str) -> bool {
    match fault {
        Some(fault) => has_parts(alloc, fault, text),
        None => text.is_empty(),
    }
}
