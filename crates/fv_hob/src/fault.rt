//! The reasons for which a hand-off list is rejected.

ghost use Rattle.std.specs.Prelude.{◌≡◌};
ghost use Rattle.fv_hob.specs.HobChecks.{hob_fault_number, hob_out_of_memory};

use std::alloc::{AllocError, AllocFailed};
use thiserror::Error;

/// The reason why a hand-off list was rejected. The comment of each variant gives the condition and
/// then the offset of the fault, in bytes from the first byte of the list. (PI specification,
/// volume 3, section 5.)
#[derive(Clone, Copy, Debug, PartialEq, Eq, Error)]
pub enum HobFaultKind {
    /// Fewer than 8 bytes are left for a block's header, or fewer than HobLength for the block. The
    /// offset points to the block's header.
    #[error("a block is cut short")]
    Short,
    /// HobLength is not a multiple of 8, or is below 8. The offset points to the block's header.
    #[error("the length of a block is not a multiple of 8, or is below 8")]
    Length,
    /// The first block is not a hand-off information table (PHIT). The offset is 0.
    #[error("the first block is not a hand-off information table")]
    First,
    /// The block's HobType does not allow its HobLength. The offset points to the block's header.
    #[error("the length of a block is wrong for its type")]
    Shape,
    /// The bytes end before an end block (EFI_HOB_TYPE_END_OF_HOB_LIST). The offset points to their
    /// end.
    #[error("the list has no end block")]
    NoEnd,
    /// Memory ran out. The offset is 0.
    #[error("out of memory")]
    OutOfMemory,
}

impl HobFaultKind {
    /// Returns the number of this kind of fault: 1 to 6, in the order of the variants.
    pub fn number(self) -> u8
        ensures { result ≡ hob_fault_number self }
    {
        match self {
            HobFaultKind::Short => 1,
            HobFaultKind::Length => 2,
            HobFaultKind::First => 3,
            HobFaultKind::Shape => 4,
            HobFaultKind::NoEnd => 5,
            HobFaultKind::OutOfMemory => 6,
        }
    }
}

/// Why a list was rejected, and where.
#[derive(Clone, Copy, Debug, PartialEq, Eq, Error)]
#[error("{kind} (hob fault {}) at offset {offset}", .kind.number())]
pub struct HobFault {
    /// The kind of the fault.
    pub kind: HobFaultKind,
    /// The offset of the fault, in bytes from the first byte of the list. It points to the block's
    /// header, or to the end of the bytes if a block is missing. For OutOfMemory it is 0.
    pub offset: u64,
}

impl HobFault {
    /// Returns the number of the fault's kind, 1 to 6.
    pub fn number(self) -> u8
        ensures { result ≡ hob_fault_number self.kind }
    {
        self.kind.number()
    }
}

/// The fault that is returned when memory runs out.
const OUT_OF_MEMORY: HobFault = HobFault {
    kind: HobFaultKind::OutOfMemory,
    offset: 0,
};

/// A failed allocation becomes OutOfMemory at offset 0.
impl From<AllocError> for HobFault {
    ghost from_gives = { λ _ f. f ≡ hob_out_of_memory };

    fn from(_error: AllocError) -> HobFault {
        OUT_OF_MEMORY
    }
}

/// A failed allocation becomes OutOfMemory at offset 0.
impl<T: Drop> From<AllocFailed<T>> for HobFault {
    ghost from_gives = { λ _ f. f ≡ hob_out_of_memory };

    fn from(_error: AllocFailed<T>) -> HobFault {
        OUT_OF_MEMORY
    }
}
