//! The op codes (PI specification, volume 2, section 10.7): the first byte of each op. Both the
//! reader and the writer use them.

ghost use Rattle.std.specs.Prelude.{◌≡◌};
ghost use Rattle.fv_depex.specs.Expressions.{op_code};

use crate::op::Op;

/// EFI_DEP_BEFORE, followed by a GUID.
pub const BEFORE: u8 = 0x00;

/// EFI_DEP_AFTER, followed by a GUID.
pub const AFTER: u8 = 0x01;

/// EFI_DEP_PUSH, followed by a GUID: the highest code with a GUID, and PEI's lowest code.
pub const PUSH: u8 = 0x02;

/// EFI_DEP_AND.
pub const AND: u8 = 0x03;

/// EFI_DEP_OR.
pub const OR: u8 = 0x04;

/// EFI_DEP_NOT.
pub const NOT: u8 = 0x05;

/// EFI_DEP_TRUE.
pub const TRUE: u8 = 0x06;

/// EFI_DEP_FALSE.
pub const FALSE: u8 = 0x07;

/// EFI_DEP_END, PEI's highest code.
pub const END: u8 = 0x08;

/// EFI_DEP_SOR, DXE's highest code.
pub const SOR: u8 = 0x09;

impl Op {
    /// Returns the op code, which is the first byte of the op: 0x00 (EFI_DEP_BEFORE) to 0x09
    /// (EFI_DEP_SOR).
    pub fn code(&self) -> u8
        ensures { result ≡ op_code self.now }
    {
        match self {
            Op::Before(_) => BEFORE,
            Op::After(_) => AFTER,
            Op::Push(_) => PUSH,
            Op::And => AND,
            Op::Or => OR,
            Op::Not => NOT,
            Op::True => TRUE,
            Op::False => FALSE,
            Op::End => END,
            Op::Sor => SOR,
        }
    }
}
