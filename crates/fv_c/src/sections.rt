//! Lists the parts of a stream of sections, which is what a compressed or GUID-defined section holds
//! when it is opened.

ghost use Rattle.std.specs.Prelude.{◌≡◌, ◌≢◌, ◌<◌, ◌++◌, List, length, drop, IfOk, IfErr, false};
ghost use Rattle.fv_base.specs.Words.{OrMemory, fault_number, out_of_memory};
ghost use Rattle.fv_base.specs.declared.fault.Fault.{Fault};
ghost use Rattle.fv_tree.specs.Words.{AcceptedStream, HasFrame, NotStream};
ghost use Rattle.fv_c.specs.ReadInputs.{Reads};
ghost use Rattle.fv_c.specs.Reports.{reported_fault, no_fault};
ghost use Rattle.fv_c.specs.ReportedSections.{HasSectionRows};
ghost use Rattle.fv_c.specs.declared.input.Form.TheVariants.{Stream};

use crate::buffer::put_result;
use crate::input::{Form, bytes_read};
use crate::reports::FvFault;
use crate::streams::is_empty;
use crate::tree::{FvNode, Holder, NO_PARENT, put_parts};
use fv_base::Fault;
use fv_rows::{Parts, TreeWalk};
use fv_tree::{StreamView, whole_stream};
use std::alloc::Global;

// Returns the number of rows of a stream. The number only says how much memory to reserve, so the
// function has no contract, and a sum that is too large becomes usize::MAX.
fn row_count(stream: &StreamView<'_>) -> usize {
    let mut count: usize = 0;
    for _row in TreeWalk::of_stream(stream) {
        count = count.saturating_add(1);
    }
    count
}

// Returns the rows of a stream of sections, which is the input, for C.
fn rows_of_stream(
    alloc: Global,
    input: &[u8],
    stream: &StreamView<'_>,
) -> Result<Vec<FvNode>, Fault>
    requires { AcceptedStream stream.now.0 stream.now.1 input.now }
    ensures ok { IfOk result (λ v. HasSectionRows input.now v.items) }
    ensures err { IfErr result (λ f. f ≡ out_of_memory) }
    ensures memory { IfErr result (λ _. HasFrame input.now) }
{
    if is_empty(stream) {
        return Ok(Vec::new(alloc));
    }
    let around = Holder {
        row: NO_PARENT,
        depth: 0,
        offset: 0,
        files: Vec::new(alloc),
    };
    let sections = stream.sections();
    sections.known();
    let mut rows = Vec::with_capacity(alloc, row_count(stream))?;
    put_parts(alloc, input, Parts::Sections(sections), &around, &mut rows)?;
    Ok(rows)
}

// Reads the input as a stream of sections, and returns its rows, for C.
fn rows_of_input(alloc: Global, input: &[u8], without_marks: bool) -> Result<Vec<FvNode>, Fault>
    ensures ok { IfOk result (λ v. Reads Stream without_marks input.now (λ b. HasSectionRows b v.items)) }
    ensures err { IfErr result (OrMemory (λ f. Reads Stream without_marks input.now (λ b. NotStream b f))) }
    ensures memory { IfErr result (λ f. f ≡ out_of_memory → without_marks ≡ false → HasFrame input.now) }
{
    let copied = bytes_read(alloc, Form::Stream, input, without_marks)?;
    let bytes: &[u8] = &copied;
    let stream = whole_stream(alloc, bytes)?;
    rows_of_stream(alloc, bytes, &stream)
}

/// Writes the rows of a stream of sections, which is the whole input, to the start of `rows`: the
/// sections of the stream, and in the same way what is in groups and volumes among them. Each row is
/// followed by the rows of the parts inside its part. The sections of the stream have depth 0, and
/// the parent 2^64 - 1. `count` is the number of rows. If `without_marks` is true, the stream is read
/// as if no file at any level were marked as fixed, for which the call makes a copy of the input.
/// Returns 0. (PI specification, volume 3, sections 3.2.1, 3.2.3, 3.2.3.1 and 3.2.4.)
///
/// # Errors
///
/// 256 if `rows` has fewer elements than `count`. The number of the first fault, which is in
/// `fault`: a fault of `whole_stream`; 24 if memory runs out. `count` is unchanged then. `rows` is
/// unchanged in both cases.
#[unsafe(no_mangle)]
pub extern "C" fn fvp_sections_tree(
    alloc: Global,
    sections: &[u8],
    without_marks: bool,
    rows: &mut [FvNode],
    count: &mut u64,
    fault: &mut FvFault,
) -> u32
    // The buffer begins with the rows, and is unchanged after them.
    ensures ok { result ≡ 0 → (nodes : List FvNode) × Reads Stream without_marks sections.now (λ b. HasSectionRows b nodes)
        × (count.new ≡ length nodes) × (rows.new ≡ nodes ++ drop (length nodes) rows.old) × (fault.new ≡ no_fault) }

    ensures kept { result ≢ 0 → rows.new ≡ rows.old }
    ensures small { result ≡ 256 → (nodes : List FvNode) × Reads Stream without_marks sections.now (λ b. HasSectionRows b nodes)
        × (count.new ≡ length nodes)
        × (length rows.old < length nodes) × (fault.new ≡ no_fault) }

    // Any other result is the first fault of the bytes that are read, or out of memory. Memory can
    // run out only if the marks of fixed files are taken away, or if the headers of all sections are
    // right, and there is a section.
    ensures err { result ≢ 0 → result ≢ 256 → (f : Fault) × OrMemory (λ f. Reads Stream without_marks sections.now (λ b. NotStream b f)) f
        × (f ≡ out_of_memory → without_marks ≡ false → HasFrame sections.now)
        × (result ≡ fault_number f.kind) × (fault.new ≡ reported_fault f) × (count.new ≡ count.old) }
{
    put_result(
        rows_of_input(alloc, sections, without_marks),
        rows,
        count,
        fault,
    )
}
