//! The bytes of a part of a volume or of a stream of sections.

ghost use Rattle.std.specs.Prelude.{◌≡◌, ◌≢◌, ◌⊎◌, ◌<◌, ◌++◌, ℕ, List, length, drop, false};
ghost use Rattle.std.specs.Prelude.{IfOk, IfErr, OnErr};
ghost use Rattle.fv_base.specs.Words.{OrMemory, fault_number, out_of_memory};
ghost use Rattle.fv_base.specs.declared.fault.Fault.{Fault};
ghost use Rattle.fv_canon.specs.Words.{FirstUnplaced, IsBodyImage, IsData, IsImage, Unfit};
ghost use Rattle.fv_tree.specs.Words.{HasFrame, NotRead, NotStream, body_of, content_of};
ghost use Rattle.fv_tree.specs.Words.{volumes_in_body, volumes_in_content};
ghost use Rattle.fv_rows.specs.Words.{part_node};
ghost use Rattle.fv_c.specs.ExtractedParts.{ExtractsTo, HasNoRow, HasUnfitRow, IsNodeImage, IsRowUnfit, volumes_in_node};
ghost use Rattle.fv_c.specs.ReadInputs.{Reads};
ghost use Rattle.fv_c.specs.Reports.{BeginsWithHeader, reported_fault, no_fault};
ghost use Rattle.fv_c.specs.declared.input.Form.TheVariants.{Volume, Stream};
ghost use Rattle.fv_c.specs.inner.Rows.{Extracts, ExtractsRow, IsWritten};

use crate::input::{Form, bytes_read};
use crate::reports::{BUFFER_TOO_SMALL, FvFault, NOT_FOUND, set_result};
use fv_base::Fault;
use fv_canon::headline::what_fits_has_an_image;
use fv_canon::{
    lay_out_body, lay_out_data, layout, put_canonical, put_laid_body, put_laid_data, whole_volume,
};
use fv_rows::{Part, TreeWalk};
use fv_sinks::BufferSink;
use fv_tree::{FileView, SectionView, VolumeView, whole_stream};
use std::alloc::Global;

// Writes the canonical image of a volume to the start of the buffer. If the buffer is shorter than
// the image, returns 256 and leaves it unchanged. `len` is the length of the image.
fn put_volume(
    alloc: Global,
    volume: &VolumeView<'_>,
    buffer: &mut [u8],
    len: &mut u64,
) -> Result<u32, Fault>
    ensures ok { IfOk result (λ r. (bytes : List ℕ) × IsImage volume.now bytes
        × (len.new ≡ length bytes) × IsWritten bytes buffer.old buffer.new r) }
    ensures err { IfErr result (OrMemory (Unfit volume.now 0)) }
    ensures kept { OnErr result ((buffer.new ≡ buffer.old) × (len.new ≡ len.old)) }
{
    // A volume that is laid out has an image.
    what_fits_has_an_image();
    let places = layout(alloc, volume)?;
    let total = volume.head().length();
    *len = total;
    if (buffer.len() as u64) < total {
        return Ok(BUFFER_TOO_SMALL);
    }
    let mut out = BufferSink::new(buffer);
    put_canonical(volume, &places, &mut out);
    Ok(0)
}

// Writes the data of a file to the start of the buffer. If the buffer is shorter than the data,
// returns 256 and leaves it unchanged. `len` is the length of the data.
fn put_data(
    alloc: Global,
    file: &FileView<'_>,
    buffer: &mut [u8],
    len: &mut u64,
) -> Result<u32, Fault>
    ensures ok { IfOk result (λ r. (bytes : List ℕ) × IsData (content_of file.now) bytes
        × (len.new ≡ length bytes) × IsWritten bytes buffer.old buffer.new r) }
    ensures err { IfErr result (OrMemory (FirstUnplaced (volumes_in_content (content_of file.now)) 0)) }
    ensures kept { OnErr result ((buffer.new ≡ buffer.old) × (len.new ≡ len.old)) }
{
    let starts = lay_out_data(alloc, file)?;
    let total = file.data_len();
    *len = total;
    if (buffer.len() as u64) < total {
        return Ok(BUFFER_TOO_SMALL);
    }
    let mut out = BufferSink::new(buffer);
    put_laid_data(file, starts.as_slice(), &mut out);
    Ok(0)
}

// Writes the body of a section to the start of the buffer. If the buffer is shorter than the body,
// returns 256 and leaves it unchanged. `len` is the length of the body.
fn put_body(
    alloc: Global,
    section: &SectionView<'_, '_>,
    buffer: &mut [u8],
    len: &mut u64,
) -> Result<u32, Fault>
    ensures ok { IfOk result (λ r. (bytes : List ℕ) × IsBodyImage (body_of section.now) bytes
        × (len.new ≡ length bytes) × IsWritten bytes buffer.old buffer.new r) }
    ensures err { IfErr result (OrMemory (FirstUnplaced (volumes_in_body (body_of section.now)) 0)) }
    ensures kept { OnErr result ((buffer.new ≡ buffer.old) × (len.new ≡ len.old)) }
{
    let starts = lay_out_body(alloc, section)?;
    let total = section.body_len();
    *len = total;
    if (buffer.len() as u64) < total {
        return Ok(BUFFER_TOO_SMALL);
    }
    let mut out = BufferSink::new(buffer);
    put_laid_body(section, starts.as_slice(), &mut out);
    Ok(0)
}

// Writes a part to the start of the buffer. If the buffer is shorter than the part, returns 256 and
// leaves it unchanged. `len` is the length of the part.
fn put_part(
    alloc: Global,
    part: Part<'_, '_>,
    buffer: &mut [u8],
    len: &mut u64,
) -> Result<u32, Fault>
    ensures ok { IfOk result (λ r. (bytes : List ℕ) × IsNodeImage (part_node part.entry) bytes
        × (len.new ≡ length bytes) × IsWritten bytes buffer.old buffer.new r) }
    ensures err { IfErr result (OrMemory (FirstUnplaced (volumes_in_node (part_node part.entry)) 0)) }
    ensures kept { OnErr result ((buffer.new ≡ buffer.old) × (len.new ≡ len.old)) }
{
    match part {
        Part::Volume(volume) => put_volume(alloc, volume, buffer, len),
        Part::File(file) => put_data(alloc, file, buffer, len),
        Part::Section(section) => put_body(alloc, &section, buffer, len),
    }
}

// Writes the part of row `row` of these rows, or returns 257 if there is no such row.
fn put_row(
    alloc: Global,
    mut rows: TreeWalk<'_, '_>,
    row: u64,
    buffer: &mut [u8],
    len: &mut u64,
) -> Result<u32, Fault>
    ensures ok { IfOk result (ExtractsRow row rows.entry buffer.old buffer.new len.old len.new) }
    ensures err { IfErr result (OrMemory (IsRowUnfit row rows.entry)) }
    ensures some { IfErr result (λ _. row < length rows.entry) }
    ensures kept { OnErr result ((buffer.new ≡ buffer.old) × (len.new ≡ len.old)) }
{
    match rows.nth(row as usize) {
        Some(found) => put_part(alloc, found.part, buffer, len),
        None => Ok(NOT_FOUND),
    }
}

// Reads the input as a volume, and writes the part of its row `row`, or returns 257 if the volume
// has no such row.
fn put_from_volume(
    alloc: Global,
    input: &[u8],
    without_marks: bool,
    row: u64,
    buffer: &mut [u8],
    len: &mut u64,
) -> Result<u32, Fault>
    ensures ok { IfOk result (λ r. Reads Volume without_marks input.now
        (λ b. Extracts Volume row b buffer.old buffer.new len.old len.new r)) }
    ensures err { IfErr result (OrMemory (λ f. Reads Volume without_marks input.now
        (λ b. NotRead b f ⊎ HasUnfitRow Volume row b f))) }
    ensures memory { IfErr result (λ f. f ≡ out_of_memory → without_marks ≡ false → BeginsWithHeader input.now) }
    ensures kept { OnErr result ((buffer.new ≡ buffer.old) × (len.new ≡ len.old)) }
{
    let bytes = bytes_read(alloc, Form::Volume, input, without_marks)?;
    let volume = whole_volume(alloc, &bytes)?;
    put_row(alloc, TreeWalk::of(&volume), row, buffer, len)
}

// Reads the input as a stream of sections, and writes the part of its row `row`, or returns 257 if
// the stream has no such row.
fn put_from_stream(
    alloc: Global,
    input: &[u8],
    without_marks: bool,
    row: u64,
    buffer: &mut [u8],
    len: &mut u64,
) -> Result<u32, Fault>
    ensures ok { IfOk result (λ r. Reads Stream without_marks input.now
        (λ b. Extracts Stream row b buffer.old buffer.new len.old len.new r)) }
    ensures err { IfErr result (OrMemory (λ f. Reads Stream without_marks input.now
        (λ b. NotStream b f ⊎ HasUnfitRow Stream row b f))) }
    ensures memory { IfErr result (λ f. f ≡ out_of_memory → without_marks ≡ false → HasFrame input.now) }
    ensures kept { OnErr result ((buffer.new ≡ buffer.old) × (len.new ≡ len.old)) }
{
    let bytes = bytes_read(alloc, Form::Stream, input, without_marks)?;
    let stream = whole_stream(alloc, &bytes)?;
    put_row(alloc, TreeWalk::of_stream(&stream), row, buffer, len)
}

/// Writes a part of a volume, which is the whole input, to the start of the buffer, with the bytes
/// that the part has in the volume's canonical image. `row` is the number of the part's row in
/// `fvp_volume_tree`. The part of a volume's row is its canonical image, the part of a file's row
/// its data, and the part of a section's row its body. Row 0 is the volume itself. `len` is the
/// length of the part in bytes. If `without_marks` is true, the volume is read as if no file at any
/// level were marked as fixed, for which the call makes a copy of the input. Returns 0. (PI
/// specification, volume 3, sections 3.2.1, 3.2.3, 3.2.3.1 and 3.2.4.)
///
/// # Errors
///
/// The number of the first fault, which is in `fault`: a fault of `whole_volume`; then the fault of
/// the first volume in the part that does not fit, whose depth counts only groups and opened
/// volumes inside the part; 24 if memory runs out. `len` is unchanged then. 257 if the volume has
/// no row with this number: `row` is at least the `count` of `fvp_volume_tree`. `len` is unchanged
/// then. 256 if the buffer is shorter than `len`. The buffer is unchanged in all cases.
#[unsafe(no_mangle)]
pub extern "C" fn fvp_volume_extract(
    alloc: Global,
    volume: &[u8],
    without_marks: bool,
    row: u64,
    buffer: &mut [u8],
    len: &mut u64,
    fault: &mut FvFault,
) -> u32
    // The buffer begins with the part, and is unchanged after that.
    ensures ok { result ≡ 0 → (bytes : List ℕ) × Reads Volume without_marks volume.now (λ b. ExtractsTo Volume row b bytes)
        × (len.new ≡ length bytes) × (buffer.new ≡ bytes ++ drop (length bytes) buffer.old) × (fault.new ≡ no_fault) }

    ensures kept { result ≢ 0 → buffer.new ≡ buffer.old }
    ensures small { result ≡ 256 → (bytes : List ℕ) × Reads Volume without_marks volume.now (λ b. ExtractsTo Volume row b bytes)
        × (len.new ≡ length bytes) × (length buffer.old < length bytes) × (fault.new ≡ no_fault) }

    // 257 means that the volume has at most `row` rows.
    ensures absent { result ≡ 257 → Reads Volume without_marks volume.now (HasNoRow Volume row)
        × (len.new ≡ len.old) × (fault.new ≡ no_fault) }

    // Any other result is the first fault of the bytes that are read, the fault of the first volume
    // in the part that does not fit (its depth counts from the part), or out of memory. Memory can
    // run out only if the marks of fixed files are taken away, or if the input begins with the header
    // of a volume.
    ensures err { result ≢ 0 → result ≢ 256 → result ≢ 257 → (f : Fault)
        × OrMemory (λ g. Reads Volume without_marks volume.now (λ b. NotRead b g ⊎ HasUnfitRow Volume row b g)) f
        × (f ≡ out_of_memory → without_marks ≡ false → BeginsWithHeader volume.now)
        × (result ≡ fault_number f.kind) × (fault.new ≡ reported_fault f) × (len.new ≡ len.old) }
{
    set_result(
        put_from_volume(alloc, volume, without_marks, row, buffer, len),
        fault,
    )
}

/// Writes a part of a stream of sections, which is the whole input, to the start of the buffer, in
/// canonical form. `row` is the number of the part's row in `fvp_sections_tree`. The part of a
/// volume's row is its canonical image, the part of a file's row its data as they are in the
/// canonical image of its volume, and the part of a section's row its body. `len` is the length of
/// the part in bytes. If `without_marks` is true, the stream is read as if no file at any level were
/// marked as fixed, for which the call makes a copy of the input. Returns 0. (PI specification,
/// volume 3, sections 3.2.1, 3.2.3, 3.2.3.1 and 3.2.4.)
///
/// # Errors
///
/// The number of the first fault, which is in `fault`: a fault of `whole_stream`; then the fault of
/// the first volume in the part that does not fit, whose depth counts only groups and opened
/// volumes inside the part; 24 if memory runs out. `len` is unchanged then. 257 if the stream has no
/// row with this number: `row` is at least the `count` of `fvp_sections_tree`. `len` is unchanged
/// then. 256 if the buffer is shorter than `len`. The buffer is unchanged in all cases.
#[unsafe(no_mangle)]
pub extern "C" fn fvp_sections_extract(
    alloc: Global,
    sections: &[u8],
    without_marks: bool,
    row: u64,
    buffer: &mut [u8],
    len: &mut u64,
    fault: &mut FvFault,
) -> u32
    // The buffer begins with the part, and is unchanged after that.
    ensures ok { result ≡ 0 → (bytes : List ℕ) × Reads Stream without_marks sections.now (λ b. ExtractsTo Stream row b bytes)
        × (len.new ≡ length bytes) × (buffer.new ≡ bytes ++ drop (length bytes) buffer.old) × (fault.new ≡ no_fault) }

    ensures kept { result ≢ 0 → buffer.new ≡ buffer.old }
    ensures small { result ≡ 256 → (bytes : List ℕ) × Reads Stream without_marks sections.now (λ b. ExtractsTo Stream row b bytes)
        × (len.new ≡ length bytes) × (length buffer.old < length bytes) × (fault.new ≡ no_fault) }

    // 257 means that the stream has at most `row` rows.
    ensures absent { result ≡ 257 → Reads Stream without_marks sections.now (HasNoRow Stream row)
        × (len.new ≡ len.old) × (fault.new ≡ no_fault) }

    // Any other result is the first fault of the bytes that are read, the fault of the first volume
    // in the part that does not fit (its depth counts from the part), or out of memory. Memory can
    // run out only if the marks of fixed files are taken away, or if the headers of all sections are
    // right, and there is a section.
    ensures err { result ≢ 0 → result ≢ 256 → result ≢ 257 → (f : Fault)
        × OrMemory (λ g. Reads Stream without_marks sections.now (λ b. NotStream b g ⊎ HasUnfitRow Stream row b g)) f
        × (f ≡ out_of_memory → without_marks ≡ false → HasFrame sections.now)
        × (result ≡ fault_number f.kind) × (fault.new ≡ reported_fault f) × (len.new ≡ len.old) }
{
    set_result(
        put_from_stream(alloc, sections, without_marks, row, buffer, len),
        fault,
    )
}
