//! The results of the calls, and the structure in which they report a fault to C.

ghost use Rattle.std.specs.Prelude.{◌≡◌, ◌↔◌, ◌<◌, ◌≤◌, ℕ, true, IfOk, IfErr};
ghost use Rattle.fv_base.specs.Words.{fault_number, out_of_memory};
ghost use Rattle.fv_c.specs.Reports.{no_fault, reported_fault, reported_fault_of, system_number};

use fv_base::{Fault, FileSystem};

/// The result of a call if the caller's buffer is too small. Results from 256 on are the library's
/// own, because the number of a fault is a byte.
pub const BUFFER_TOO_SMALL: u32 = 0x100;

/// The result of a call if memory runs out: the number of OutOfMemory.
pub const OUT_OF_MEMORY: u32 = 24;

/// The result of a call if the volume has no part with the number that was passed.
pub const NOT_FOUND: u32 = 0x101;

/// The result for a fault of a dependency expression is this number plus the number of its
/// `DepexFaultKind`, except if memory runs out.
pub const DEPEX_FAULTS: u32 = 0x200;

/// The result for a fault of a hand-off list is this number plus the number of its `HobFaultKind`,
/// except if memory runs out.
pub const HOB_FAULTS: u32 = 0x300;

/// The result for a fault of a section that is opened is this number plus the number of its
/// `OpenFaultKind`, except if memory runs out.
pub const OPEN_FAULTS: u32 = 0x400;

/// A fault and its place. All fields are 0 if there is none.
#[repr(C)]
#[derive(Clone, Copy)]
pub struct FvFault {
    /// The offset in bytes from the first byte of the input that has the fault.
    pub offset: u64,
    /// The result of the call: the number of the `FaultKind`; or, for a fault of an expression, of a
    /// hand-off list or of a section that is opened, `DEPEX_FAULTS`, `HOB_FAULTS` or `OPEN_FAULTS`
    /// plus the number of its kind. If memory runs out, it is always 24.
    pub result: u32,
    /// The number of groups and opened volumes around the fault; 0 in expressions, hand-off lists and
    /// sections that are opened.
    pub depth: u32,
    /// 1 if the fault is in the second input of a comparison, otherwise 0.
    pub input: u32,
    /// Always 0.
    pub reserved: u32,
}

/// The report that there is no fault.
pub const NO_FAULT: FvFault = FvFault {
    offset: 0,
    result: 0,
    depth: 0,
    input: 0,
    reserved: 0,
};

// Returns the number of a file system: 2 for FFS2, 3 for FFS3.
pub(crate) fn system_number(file_system: FileSystem) -> u32
    ensures { result ≡ system_number file_system }
{
    match file_system {
        FileSystem::Ffs2 => 2,
        FileSystem::Ffs3 => 3,
    }
}

// Returns 1 for true and 0 for false.
pub(crate) fn flag(holds: bool) -> u32
    ensures is { (result ≡ 1) ↔ (holds ≡ true) }
    ensures most { result ≤ 1 }
{
    if holds { 1 } else { 0 }
}

// Returns the report for C of a fault in an input of a comparison: 0 is the first input, 1 the
// second.
fn reported_fault_of(input: u32, f: Fault) -> FvFault
    ensures { result ≡ reported_fault_of input f }
{
    FvFault {
        offset: f.place.offset,
        result: u32::from(f.kind.number()),
        depth: u32::from(f.place.depth),
        input,
        reserved: 0,
    }
}

// Returns the report for C of a fault in the only input of a call.
pub(crate) fn reported_fault(f: Fault) -> FvFault
    ensures { result ≡ reported_fault f }
{
    reported_fault_of(0, f)
}

// Sets `fault` to the report of a fault in an input of a comparison, and returns the fault's
// number.
pub(crate) fn set_fault_of(input: u32, f: Fault, fault: &mut FvFault) -> u32
    ensures number { result ≡ fault_number f.kind }
    ensures fault { fault.new ≡ reported_fault_of input f }
    ensures input { fault.new.input ≡ input }
    ensures some { 0 < result }
    ensures most { result < 256 }
    ensures memory { f ≡ out_of_memory → result ≡ 24 }
{
    *fault = reported_fault_of(input, f);
    u32::from(f.kind.number())
}

// Sets `fault` to the report of a fault, and returns the fault's number.
pub(crate) fn set_fault(f: Fault, fault: &mut FvFault) -> u32
    ensures number { result ≡ fault_number f.kind }
    ensures fault { fault.new ≡ reported_fault f }
    ensures some { 0 < result }
    ensures most { result < 256 }
    ensures memory { f ≡ out_of_memory → result ≡ 24 }
{
    set_fault_of(0, f, fault)
}

// Returns the result that a call found, and reports that there is no fault; or reports the fault, and
// returns its number.
pub(crate) fn set_result(found: Result<u32, Fault>, fault: &mut FvFault) -> u32
    ensures ok { IfOk found (λ r. (result ≡ r) × (fault.new ≡ no_fault)) }
    ensures err { IfErr found (λ f. (result ≡ fault_number f.kind) × (0 < result) × (result < 256)
        × (fault.new ≡ reported_fault f)) }
{
    match found {
        Ok(result) => {
            *fault = NO_FAULT;
            result
        }
        Err(f) => set_fault(f, fault),
    }
}

// Sets `fault` to the report of a fault at depth 0 with this result, and returns the result.
pub(crate) fn set_fault_at(offset: u64, number: u32, fault: &mut FvFault) -> u32
    ensures number { result ≡ number }
    ensures fault { (n : ℕ) → number ≡ n
        → fault.new ≡ record { offset = offset; result = n; depth = 0; input = 0; reserved = 0 } }
{
    *fault = FvFault {
        offset,
        result: number,
        depth: 0,
        input: 0,
        reserved: 0,
    };
    number
}
