//! What the tests of failed allocations share.

use fv_packed::{PackedFault, PackedFaultKind};

/// Returns whether a decoder gave the right result, or reported that memory ran out.
pub(crate) fn is_right_or_out_of_memory(
    found: Result<Vec<u8>, PackedFault>,
    wanted: Result<&[u8], PackedFault>,
) -> bool {
    match found {
        Ok(bytes) => wanted == Ok(bytes.as_slice()),
        Err(fault) => {
            fault.kind == PackedFaultKind::OutOfMemory && fault.offset == 0 || wanted == Err(fault)
        }
    }
}
