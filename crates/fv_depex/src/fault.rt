//! The reasons for which an expression is rejected.

ghost use Rattle.std.specs.Prelude.{◌≡◌};
ghost use Rattle.fv_depex.specs.OpChecks.{depex_fault_number, depex_out_of_memory};

use std::alloc::{AllocError, AllocFailed};
use thiserror::Error;

/// The reason why an expression was rejected. The comment of each variant gives the condition and
/// then the offset of the fault, in bytes from the first byte that was passed to the call. (PI
/// specification, volume 1, section 5.7, and volume 2, section 10.7.)
#[derive(Clone, Copy, Debug, PartialEq, Eq, Error)]
pub enum DepexFaultKind {
    /// Fewer than 16 bytes are left for the GUID of BEFORE, AFTER or PUSH. The offset points to the
    /// op's code.
    #[error("the GUID of an op is cut short")]
    Short,
    /// The phase does not have this op code: PEI has 0x02 to 0x08, DXE 0x00 to 0x09. The offset
    /// points to the code.
    #[error("an op code is unknown in this phase")]
    Opcode,
    /// The stack holds fewer than two values at AND or OR, none at NOT, or not exactly one at END
    /// (after BEFORE or AFTER, END takes none). The offset points to the op's code.
    #[error("the stack does not hold the values that an op takes")]
    Stack,
    /// The bytes end before END. The offset points to their end.
    #[error("the expression has no end")]
    NoEnd,
    /// BEFORE, AFTER or SOR is not the first op, or an op other than END follows BEFORE or AFTER.
    /// The offset points to the op's code.
    #[error("an op is not allowed at this position")]
    Position,
    /// Memory ran out. The offset is 0.
    #[error("out of memory")]
    OutOfMemory,
}

impl DepexFaultKind {
    /// Returns the number of this kind of fault: 1 to 6, in the order of the variants.
    pub fn number(self) -> u8
        ensures { result ≡ depex_fault_number self }
    {
        match self {
            DepexFaultKind::Short => 1,
            DepexFaultKind::Opcode => 2,
            DepexFaultKind::Stack => 3,
            DepexFaultKind::NoEnd => 4,
            DepexFaultKind::Position => 5,
            DepexFaultKind::OutOfMemory => 6,
        }
    }
}

/// Why an expression was rejected, and where.
#[derive(Clone, Copy, Debug, PartialEq, Eq, Error)]
#[error("{kind} (depex fault {}) at offset {offset}", .kind.number())]
pub struct DepexFault {
    /// The kind of the fault.
    pub kind: DepexFaultKind,
    /// The offset of the fault, in bytes from the first byte that was passed to the call. It points
    /// to the op's code, or to the end of the bytes if an op is missing. For OutOfMemory it is 0.
    pub offset: u64,
}

impl DepexFault {
    /// Returns the number of the fault's kind, 1 to 6.
    pub fn number(self) -> u8
        ensures { result ≡ depex_fault_number self.kind }
    {
        self.kind.number()
    }
}

/// The fault that is returned when memory runs out.
const OUT_OF_MEMORY: DepexFault = DepexFault {
    kind: DepexFaultKind::OutOfMemory,
    offset: 0,
};

/// A failed allocation becomes OutOfMemory at offset 0.
impl From<AllocError> for DepexFault {
    ghost from_gives = { λ _ f. f ≡ depex_out_of_memory };

    fn from(_error: AllocError) -> DepexFault {
        OUT_OF_MEMORY
    }
}

/// A failed allocation becomes OutOfMemory at offset 0.
impl<T: Drop> From<AllocFailed<T>> for DepexFault {
    ghost from_gives = { λ _ f. f ≡ depex_out_of_memory };

    fn from(_error: AllocFailed<T>) -> DepexFault {
        OUT_OF_MEMORY
    }
}
