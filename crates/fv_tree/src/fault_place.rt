//! Faults in bytes that are a part of other bytes.

ghost use Rattle.std.specs.Prelude.{◌≡◌, ◌≢◌, ◌<◌, ◌+◌, ◌^◌};
ghost use Rattle.fv_base.specs.Words.{out_of_memory};
ghost use Rattle.fv_tree.specs.FirstFault.{moved_fault};

use fv_base::{Fault, FaultKind, Place};

/// Returns a fault of some bytes as a fault of the bytes around them. The inner bytes begin at
/// `place.offset`, and the offset of the result, in bytes, counts from the start of the bytes
/// around them. The depth of the result is `place.depth`, whatever depth `fault` has. The two
/// offsets must sum to less than 2 ^ 64. OutOfMemory stays at offset 0 and depth 0.
pub fn fault_within(fault: Fault, place: Place) -> Fault
    requires { place.offset + fault.place.offset < 2 ^ 64 }
    ensures moved { result ≢ out_of_memory
        → (fault ≢ out_of_memory) × (result ≡ moved_fault place.offset place.depth fault) }
    ensures kind { result.kind ≡ fault.kind }
{
    if matches!(fault.kind, FaultKind::OutOfMemory) {
        return Fault::outer(FaultKind::OutOfMemory, 0);
    }
    Fault {
        kind: fault.kind,
        place: Place {
            offset: place.offset + fault.place.offset,
            depth: place.depth,
        },
    }
}
