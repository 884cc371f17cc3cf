//! The contents of a section that is compressed or that a GUID defines.

ghost use Rattle.std.specs.Prelude.{◌≡◌, ◌≢◌, ◌⊎◌, ◌<◌, ◌++◌, ℕ, List, length, drop, Ok, Err, true};
ghost use Rattle.std.specs.Result.{IsOkAnd};
ghost use Rattle.fv_open.specs.Words.{is_decoded, open_out_of_memory, opened, way_of};
ghost use Rattle.fv_open.specs.declared.encapsulation.Encapsulation.{Encapsulation};
ghost use Rattle.fv_open.specs.declared.fault.OpenFault.{OpenFault};
ghost use Rattle.fv_open.specs.declared.way.Way.{Way};
ghost use Rattle.fv_c.specs.ReportedContents.{open_result, promised_number, reported_contents, reported_open_fault};
ghost use Rattle.fv_c.specs.ReportedContents.{reported_way, way_number};
ghost use Rattle.fv_c.specs.Reports.{no_fault};

use crate::buffer::put_all;
use crate::reports::{FvFault, NO_FAULT, OPEN_FAULTS, OUT_OF_MEMORY, set_fault_at};
use fv_open::{OpenFault, OpenFaultKind, Way, open, way_of};
use std::alloc::Global;

/// What the header of a section says about its contents. (PI specification, volume 3, sections
/// 3.2.5.2 and 3.2.5.7.)
#[repr(C)]
#[derive(Clone, Copy)]
pub struct FvWay {
    /// The length of the contents in bytes that a header promises, or 2^64 - 1 if none does.
    pub promised: u64,
    /// The offset of the data in bytes from the first byte of the section.
    pub data_offset: u64,
    /// The number of the way to open the section.
    pub way: u32,
    /// Always 0.
    pub reserved: u32,
}

/// The contents of a section.
#[repr(C)]
#[derive(Clone, Copy)]
pub struct FvContents {
    /// The length of the contents in bytes.
    pub length: u64,
    /// The number of the way that gave the contents.
    pub way: u32,
    /// Always 0.
    pub reserved: u32,
}

// Returns the number of a way.
pub(crate) fn way_number(way: Way) -> u32
    ensures { result ≡ way_number way }
{
    match way {
        Way::Stored => 1,
        Way::Standard => 2,
        Way::Uefi => 3,
        Way::Tiano => 4,
        Way::Customized => 5,
        Way::Lzma => 6,
        Way::LzmaX86 => 7,
        Way::Crc32 => 8,
        Way::Signed => 9,
        Way::Plain => 10,
    }
}

// Returns the result of a call that stops at a fault of a section.
fn open_result(kind: OpenFaultKind) -> u32
    ensures { result ≡ open_result kind }
{
    match kind {
        OpenFaultKind::OutOfMemory => OUT_OF_MEMORY,
        _ => OPEN_FAULTS + u32::from(kind.number()),
    }
}

// Sets `fault` to the report of a fault of a section, and returns the result.
pub(crate) fn set_open_fault(f: OpenFault, fault: &mut FvFault) -> u32
    ensures result { result ≡ open_result f.kind }
    ensures fault { fault.new ≡ reported_open_fault f }
{
    set_fault_at(f.offset, open_result(f.kind), fault)
}

// Returns the number for the length that a header promises, or 2^64 - 1 if it promises none.
fn promised_number(promised: Option<u64>) -> u64
    ensures { result ≡ promised_number promised }
{
    match promised {
        Some(length) => length,
        None => u64::MAX,
    }
}

/// Reads what the header of the section with which the bytes begin says about its contents, without
/// decoding anything. Returns 0, and `found` has the way, the place of the data and the length that
/// is promised. Takes no memory. (PI specification, volume 3, sections 3.2.4, 3.2.5.2 and 3.2.5.7.)
///
/// # Errors
///
/// The first fault, which is in `fault`: 1024 plus the number of the `OpenFaultKind` for a fault of
/// `way_of`. `found` is unchanged then.
#[unsafe(no_mangle)]
pub extern "C" fn fvp_section_way(section: &[u8], found: &mut FvWay, fault: &mut FvFault) -> u32
    // The header of the section says this.
    ensures ok { result ≡ 0 → (e : Encapsulation) × (way_of section.now ≡ Ok e) × (found.new ≡ reported_way e)
        × (fault.new ≡ no_fault) }

    ensures kept { result ≢ 0 → found.new ≡ found.old }

    // A fault is the first fault of the section.
    ensures err { result ≢ 0 → (f : OpenFault) × (way_of section.now ≡ Err f) × (result ≡ open_result f.kind)
        × (fault.new ≡ reported_open_fault f) }
{
    match way_of(section) {
        Ok(head) => {
            *found = FvWay {
                promised: promised_number(head.promised),
                data_offset: head.data_offset as u64,
                way: way_number(head.way),
                reserved: 0,
            };
            *fault = NO_FAULT;
            0
        }
        Err(f) => set_open_fault(f, fault),
    }
}

/// Opens the section with which the bytes begin, and writes its contents, of at most `limit` bytes,
/// to the start of the buffer. Returns 0, and `found` has their length and the way that gave them.
/// (PI specification, volume 3, sections 3.2.4, 3.2.5.2 and 3.2.5.7.)
///
/// # Errors
///
/// The first fault, which is in `fault`: 1024 plus the number of the `OpenFaultKind` for a fault of
/// `open`; 24 if memory runs out. If there is none, 256 if the buffer is shorter than the contents.
/// `found` is unchanged after a fault, and the buffer in all cases.
#[unsafe(no_mangle)]
pub extern "C" fn fvp_section_open(
    alloc: Global,
    section: &[u8],
    limit: usize,
    buffer: &mut [u8],
    found: &mut FvContents,
    fault: &mut FvFault,
) -> u32
    // The buffer begins with the contents, and is unchanged after that.
    ensures ok { result ≡ 0 → (way : Way) × (contents : List ℕ) × (opened limit section.now ≡ Ok (way, contents))
        × (buffer.new ≡ contents ++ drop (length contents) buffer.old)
        × (found.new ≡ reported_contents way contents) × (fault.new ≡ no_fault) }

    ensures kept { result ≢ 0 → buffer.new ≡ buffer.old }

    // 256 is returned only if the section can be opened and the buffer is shorter than the contents.
    ensures small { result ≡ 256 → (way : Way) × (contents : List ℕ) × (opened limit section.now ≡ Ok (way, contents))
        × (length buffer.old < length contents)
        × (found.new ≡ reported_contents way contents) × (fault.new ≡ no_fault) }

    // Any other result is the first fault of the section, or out of memory. Memory can run out only
    // if the contents have to be decoded.
    ensures err { result ≢ 0 → result ≢ 256 → (f : OpenFault)
        × ((f ≡ open_out_of_memory) ⊎ (opened limit section.now ≡ Err f))
        × (f ≡ open_out_of_memory → IsOkAnd (way_of section.now) (λ e. is_decoded e.way ≡ true))
        × (result ≡ open_result f.kind) × (fault.new ≡ reported_open_fault f) × (found.new ≡ found.old) }

    // If the section can be opened, only memory or the buffer can be too small.
    ensures fits { (way : Way) (contents : List ℕ) → opened limit section.now ≡ Ok (way, contents)
        → result ≢ 0 → result ≢ 256 → result ≡ 24 }
{
    match open(alloc, section, limit) {
        Ok(opened) => {
            *found = FvContents {
                length: opened.contents.len() as u64,
                way: way_number(opened.way),
                reserved: 0,
            };
            *fault = NO_FAULT;
            put_all(&opened.contents, buffer)
        }
        Err(f) => set_open_fault(f, fault),
    }
}
