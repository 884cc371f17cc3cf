//! The ops of dependency expressions.

use fv_base::Guid;

/// The phase that evaluates an expression. Expressions of the MM phase are read as DXE expressions.
/// (PI specification, volume 1, section 5.7, and volume 2, section 10.7.)
#[derive(Clone, Copy, Debug, PartialEq, Eq)]
pub enum Phase {
    /// PEI (volume 1): op codes 0x02 to 0x08, without BEFORE, AFTER and SOR.
    Pei,
    /// DXE (volume 2): op codes 0x00 to 0x09.
    Dxe,
}

/// An op of a dependency expression, which is one step of its evaluation on a stack of truth
/// values. (PI specification, volume 1, section 5.7, and volume 2, section 10.7.)
#[derive(Clone, Copy, Debug, PartialEq, Eq)]
pub enum Op {
    /// EFI_DEP_BEFORE, 0x00: the driver is dispatched right before the driver whose file has this
    /// name. The op must be the first, and END must follow it. DXE only.
    Before(Guid),
    /// EFI_DEP_AFTER, 0x01: the driver is dispatched right after the driver whose file has this
    /// name. The op must be the first, and END must follow it. DXE only.
    After(Guid),
    /// EFI_DEP_PUSH, 0x02: pushes whether the protocol (in PEI, the PPI) with this GUID is
    /// installed.
    Push(Guid),
    /// EFI_DEP_AND, 0x03: pops two values, and pushes whether both are true.
    And,
    /// EFI_DEP_OR, 0x04: pops two values, and pushes whether either is true.
    Or,
    /// EFI_DEP_NOT, 0x05: pops a value, and pushes its negation.
    Not,
    /// EFI_DEP_TRUE, 0x06: pushes true.
    True,
    /// EFI_DEP_FALSE, 0x07: pushes false.
    False,
    /// EFI_DEP_END, 0x08: ends the expression, whose value is the only value on the stack. After
    /// BEFORE or AFTER, the stack is empty.
    End,
    /// EFI_DEP_SOR, 0x09: schedule on request, which does not change the value. The op must be the
    /// first, and an expression must follow it. DXE only.
    Sor,
}
