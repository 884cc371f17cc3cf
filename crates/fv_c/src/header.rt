//! Reads the header of the volume with which some bytes begin.

ghost use Rattle.std.specs.Prelude.{◌≡◌, ◌≢◌};
ghost use Rattle.fv_base.specs.Words.{IsFirstFault, fault_number, le_at};
ghost use Rattle.fv_base.specs.declared.fault.Fault.{Fault};
ghost use Rattle.fv_head.specs.Words.{HeadFields, BeginsVolume, head_checks};
ghost use Rattle.fv_head.specs.declared.extent.Extent.{Extent};
ghost use Rattle.fv_c.specs.ReportedHeaders.{reported_header, volume_name};
ghost use Rattle.fv_c.specs.Reports.{reported_fault, no_fault};

use crate::reports::{FvFault, NO_FAULT, set_fault, system_number};
use fv_base::field::{u16_at, u32_at};
use fv_base::guid_at;
use fv_head::{Extent, verify_fv};

/// The offset of `Attributes` in the header of a volume, in bytes. (PI specification, volume 3,
/// section 3.2.1.1.)
const ATTRIBUTES_OFFSET: usize = 44;

/// The offset of `ExtHeaderOffset` in the header of a volume, in bytes.
const EXT_HEADER_OFFSET_OFFSET: usize = 52;

/// The header of a volume. (PI specification, volume 3, section 3.2.1.1.)
#[repr(C)]
#[derive(Clone, Copy)]
pub struct FvHeader {
    /// The volume's offset in bytes from the first byte that was passed to the call.
    pub offset: u64,
    /// The length of the volume in bytes, `FvLength`.
    pub length: u64,
    /// The offset in bytes from the volume's start at which its first file may begin.
    pub first_file: u64,
    /// The length of the volume's header in bytes, `HeaderLength`.
    pub header_length: u32,
    /// `Attributes`.
    pub attributes: u32,
    /// The volume's file system: 2 for FFS2, 3 for FFS3.
    pub file_system: u32,
    /// The value of an erased byte: 0 or 255.
    pub erased_byte: u32,
    /// `FvName` of the volume's extended header, as its 16 bytes in the volume. Zeros if the volume
    /// has no extended header. (PI specification, volume 3, section 3.2.1.2.)
    pub name: [u8; 16],
    /// Always 0.
    pub reserved: u64,
}

// Returns `FvName` of the volume with which the bytes begin, or zeros if the volume has no extended
// header.
fn name_at(bytes: &[u8], extent: Extent) -> [u8; 16]
    requires { (h : HeadFields) × BeginsVolume h extent bytes.now }
    ensures { (h : HeadFields) → BeginsVolume h extent bytes.now → result ≡ volume_name h.ext }
{
    let offset = usize::from(u16_at(bytes, EXT_HEADER_OFFSET_OFFSET));
    if offset == 0 {
        return [0; 16];
    }
    guid_at(bytes, offset).to_bytes()
}

// Returns the header of the volume with which the bytes begin, for C. The bytes begin at this
// offset of the image.
pub(crate) fn header_of(offset: u64, bytes: &[u8], extent: Extent) -> FvHeader
    requires { (h : HeadFields) × BeginsVolume h extent bytes.now }
    ensures { (h : HeadFields) → BeginsVolume h extent bytes.now → result ≡ reported_header offset h extent }
{
    FvHeader {
        offset,
        length: extent.length,
        first_file: extent.first,
        header_length: extent.header_len as u32,
        attributes: u32_at(bytes, ATTRIBUTES_OFFSET),
        file_system: system_number(extent.file_system),
        erased_byte: u32::from(extent.polarity.erased()),
        name: name_at(bytes, extent),
        reserved: 0,
    }
}

/// Reads the header of the volume with which the bytes begin. If the bytes begin with a volume,
/// returns 0, and `header` is the header of this volume, with the offset 0. The volume's files are
/// not looked at. Takes no memory. (PI specification, volume 3, sections 3.2.1.1 and 3.2.1.2.)
///
/// # Errors
///
/// The number of the first fault, which is in `fault`: a fault of `verify_fv`. `header` is
/// unchanged then.
#[unsafe(no_mangle)]
pub extern "C" fn fvp_header_read(bytes: &[u8], header: &mut FvHeader, fault: &mut FvFault) -> u32
    // The bytes begin with a volume that has this header.
    ensures found { result ≡ 0 → (h : HeadFields) × (e : Extent) × BeginsVolume h e bytes.now
        × (header.new ≡ reported_header 0 h e) × (fault.new ≡ no_fault) }

    // Bytes that begin with the header of a volume are never rejected.
    ensures only { (h : HeadFields) (e : Extent) → BeginsVolume h e bytes.now
        → (result ≡ 0) × (header.new ≡ reported_header 0 h e) }

    // A fault is the fault of the first check that does not hold.
    ensures first { result ≢ 0 → (f : Fault) × IsFirstFault (head_checks bytes.now) f
        × (result ≡ fault_number f.kind) × (fault.new ≡ reported_fault f) }

    ensures kept { result ≢ 0 → header.new ≡ header.old }
{
    match verify_fv(bytes) {
        Ok(extent) => {
            *header = header_of(0, bytes, extent);
            *fault = NO_FAULT;
            0
        }
        Err(f) => set_fault(f, fault),
    }
}
