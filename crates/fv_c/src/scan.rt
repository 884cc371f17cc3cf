//! The headers of the volumes in a flash image.

ghost use Rattle.std.specs.Prelude.{◌≡◌, ◌≢◌, ◌<◌, ◌≤◌, ◌++◌, ℕ, List, length, drop};
ghost use Rattle.fv_base.specs.Words.{out_of_memory};
ghost use Rattle.fv_flash.specs.Words.{AreFound, IsPlace, VolumeAt};
ghost use Rattle.fv_c.specs.ReportedHeaders.{AreHeaders, IsHeaderIn};
ghost use Rattle.fv_c.specs.Reports.{no_fault, reported_fault};
ghost use Rattle.fv_c.specs.inner.Rows.{IsWritten};
ghost use Rattle.fv_c.specs.declared.header.FvHeader.{FvHeader};

use crate::header::{FvHeader, header_of};
use crate::reports::{BUFFER_TOO_SMALL, FvFault, NO_FAULT, set_fault};
use fv_base::field::bytes_from;
use fv_flash::{FoundVolume, volumes};
use fv_head::checked_extent;
use std::alloc::Global;

// Returns the header of the volume at an offset of the image, for C.
fn header_at(image: &[u8], offset: u64) -> FvHeader
    requires { (n : ℕ) × VolumeAt image.now offset n }
    ensures offset { result.offset ≡ offset }
    ensures header { IsHeaderIn image.now result }
{
    let bytes = bytes_from(image, offset as usize);
    header_of(offset, bytes, checked_extent(bytes))
}

// Writes the headers of the volumes in the image at the start of the buffer. The rest of the buffer
// is unchanged.
fn put_each_header(image: &[u8], volumes: &[FoundVolume], rows: &mut [FvHeader])
    requires volumes { AreFound image.now volumes.now }
    requires room { length volumes.now ≤ length rows.old }
    ensures { (headers : List FvHeader) → AreHeaders image.now headers
        → rows.new ≡ headers ++ drop (length headers) rows.old }
{
    for i in 0..volumes.len() {
        rows[i] = header_at(image, volumes[i].offset);
    }
}

// Writes the headers of the volumes in the image at the start of the buffer and returns 0. If the
// buffer has fewer elements, returns 256 and leaves it unchanged.
fn put_headers(
    image: &[u8],
    volumes: &[FoundVolume],
    rows: &mut [FvHeader],
    count: &mut u64,
    fault: &mut FvFault,
) -> u32
    requires { AreFound image.now volumes.now }
    ensures written { (headers : List FvHeader) × AreHeaders image.now headers × IsWritten headers rows.old rows.new result
        × (count.new ≡ length headers) }
    ensures fault { fault.new ≡ no_fault }
{
    *fault = NO_FAULT;
    *count = volumes.len() as u64;
    if rows.len() < volumes.len() {
        return BUFFER_TOO_SMALL;
    }
    put_each_header(image, volumes, rows);
    0
}

/// Writes the headers of the volumes in a flash image, in the order of their offsets, at the start
/// of the buffer `rows`. `count` is their number. Returns 0. The volumes' files are not looked at.
/// (PI specification, volume 3, sections 3.2.1.1 and 3.2.1.2.)
///
/// # Errors
///
/// 256 if the buffer has fewer elements than `count`; `fault` is zeros then. 24 if memory runs out;
/// it is then in `fault`, and `count` is unchanged. The buffer is unchanged in both cases.
#[unsafe(no_mangle)]
pub extern "C" fn fvp_image_scan(
    alloc: Global,
    image: &[u8],
    rows: &mut [FvHeader],
    count: &mut u64,
    fault: &mut FvFault,
) -> u32
    // The buffer begins with the headers, and is unchanged after them.
    ensures ok { result ≡ 0 → (headers : List FvHeader) × AreHeaders image.now headers × (count.new ≡ length headers)
        × (rows.new ≡ headers ++ drop (length headers) rows.old) × (fault.new ≡ no_fault) }

    ensures kept { result ≢ 0 → rows.new ≡ rows.old }
    ensures small { result ≡ 256 → (headers : List FvHeader) × AreHeaders image.now headers × (count.new ≡ length headers)
        × (length rows.old < length headers) × (fault.new ≡ no_fault) }

    // Any other result is out of memory, which can happen only if a volume begins in the image.
    ensures memory { result ≢ 0 → result ≢ 256 → (result ≡ 24) × (fault.new ≡ reported_fault out_of_memory)
        × (count.new ≡ count.old) × ((place : ℕ) × IsPlace image.now place) }
{
    match volumes(alloc, image) {
        Ok(found) => put_headers(image, found.as_slice(), rows, count, fault),
        Err(f) => set_fault(f, fault),
    }
}
