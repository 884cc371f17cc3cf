//! The blocks of a hand-off list.

ghost use Rattle.std.specs.Prelude.{◌≡◌, ◌≢◌, ◌<◌, ◌≤◌, ◌++◌, List, length, take, drop, map};
ghost use Rattle.fv_hob.specs.Words.{BeginsTable, hob_out_of_memory, HobForm, IsHobList};
ghost use Rattle.fv_hob.specs.declared.fault.HobFault.{HobFault};
ghost use Rattle.fv_c.specs.ReportedHobs.{NoHobs, hob_result, reported_hob, reported_hob_fault};
ghost use Rattle.fv_c.specs.Reports.{no_fault};

use crate::buffer::put_translated;
use crate::reports::{FvFault, HOB_FAULTS, OUT_OF_MEMORY, set_fault_at};
use crate::translate::Translate;
use fv_hob::{Hob, HobFaultKind, Span, read_hobs};
use std::alloc::Global;

/// A block of a hand-off list. (PI specification, volume 3, section 5.)
#[repr(C)]
#[derive(Clone, Copy)]
pub struct FvHob {
    /// The base address of the volume that an FV or FV2 block describes, else 0.
    pub volume_base: u64,
    /// The length in bytes of that volume, else 0.
    pub volume_length: u64,
    /// `HobType`.
    pub hob_type: u32,
    /// `HobLength`, the length of the block in bytes.
    pub hob_length: u32,
    /// Always 0.
    pub reserved: u64,
}

// The span for a block that does not describe a volume.
const NO_SPAN: Span = Span { base: 0, length: 0 };

impl Translate for Hob {
    type Target = FvHob;

    ghost translated = { reported_hob };

    fn translate(&self) -> FvHob {
        let span = self.span().unwrap_or(NO_SPAN);
        FvHob {
            volume_base: span.base,
            volume_length: span.length,
            hob_type: u32::from(self.code()),
            hob_length: u32::from(self.length()),
            reserved: 0,
        }
    }
}

// Returns the result of a call that stops at a fault of a list.
fn hob_result(kind: HobFaultKind) -> u32
    ensures { result ≡ hob_result kind }
{
    match kind {
        HobFaultKind::OutOfMemory => OUT_OF_MEMORY,
        _ => HOB_FAULTS + u32::from(kind.number()),
    }
}

/// Writes the blocks of the hand-off list with which the bytes begin, in order, at the start of the
/// buffer `rows`. `count` is their number, and `list_length` the number of bytes of the list.
/// Returns 0. (PI specification, volume 3, section 5.)
///
/// # Errors
///
/// 256 if the buffer has fewer elements than `count`. The first fault, which is in `fault`: 768
/// plus the number of the `HobFaultKind` for a fault of `read_hobs`; 24 if memory runs out. `count`
/// and `list_length` are unchanged then. The buffer is unchanged in both cases.
#[unsafe(no_mangle)]
pub extern "C" fn fvp_hobs_read(
    alloc: Global,
    list: &[u8],
    rows: &mut [FvHob],
    count: &mut u64,
    list_length: &mut u64,
    fault: &mut FvFault,
) -> u32
    // The buffer begins with the blocks, and is unchanged after them.
    ensures ok { result ≡ 0 → (all : List HobForm) × (list_length.new ≤ length list.now)
        × IsHobList all (take list_length.new list.now) × (count.new ≡ length all)
        × (rows.new ≡ map reported_hob all ++ drop (length all) rows.old) × (fault.new ≡ no_fault) }

    ensures kept { result ≢ 0 → rows.new ≡ rows.old }
    ensures small { result ≡ 256 → (all : List HobForm) × (list_length.new ≤ length list.now)
        × IsHobList all (take list_length.new list.now) × (count.new ≡ length all)
        × (length rows.old < length all) × (fault.new ≡ no_fault) }

    // Any other result is the first fault of the list, or out of memory. Memory can run out only if
    // the bytes begin with a hand-off information table.
    ensures err { result ≢ 0 → result ≢ 256 → (f : HobFault) × (f ≢ hob_out_of_memory → NoHobs list.now f)
        × (f ≡ hob_out_of_memory → BeginsTable list.now)
        × (result ≡ hob_result f.kind) × (fault.new ≡ reported_hob_fault f) × (count.new ≡ count.old)
        × (list_length.new ≡ list_length.old) }
{
    match read_hobs(alloc, list) {
        Ok((hobs, len)) => {
            *list_length = len;
            put_translated(hobs.as_slice(), rows, count, fault)
        }
        Err(f) => set_fault_at(f.offset, hob_result(f.kind), fault),
    }
}
