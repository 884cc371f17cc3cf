//! Comparing two volumes, or two inputs, with a line that shows where they first differ.

ghost use Rattle.std.specs.Prelude.{◌≡◌, ◌≢◌, ◌↔◌, ◌≤◌, length, true, false};
ghost use Rattle.std.specs.Prelude.{IfOk, IfErr, OnOk, OnErr};
ghost use Rattle.fv_base.specs.Words.{out_of_memory, ReadsWhole, ReadStops, inner_of, has_erred};
ghost use Rattle.fv_compare.specs.CompareRuns.{Compares, ComparisonStops, RunCompares, SideStopsRun, VolumeStops};
ghost use Rattle.fv_compare.specs.ComparisonLines.{compare_line};
ghost use Rattle.fv_tree.specs.Words.{Accepted, difference};

use crate::comparison_line::put_line;
use crate::side::Side;
use fv_base::{Fault, FaultKind, Port, Sink, WriteSink, read_input};
use fv_tree::{VolumeView, first_difference, whole_volume};
use std::alloc::Global;
use std::io::{Read, Write};

/// Puts a line that says whether two volumes have the same meaning and, if not, where they first
/// differ. The line is `same`, or `different at` followed by the steps that lead to the difference,
/// each `file` or `section` with its number, and by the kind of the difference. Returns true if the
/// volumes have the same meaning. (PI specification, volume 3, section 3.2.)
///
/// # Errors
///
/// OutOfMemory, only if the volumes differ. In that case nothing was put into the sink.
pub fn put_comparison<S: Sink>(
    alloc: Global,
    first: &VolumeView<'_>,
    second: &VolumeView<'_>,
    out: &mut S,
) -> Result<bool, Fault>
    ensures same { IfOk result (λ same. (same ≡ true) ↔ (first.now ≡ second.now)) }
    ensures line { OnOk result (S.takes out.old (compare_line (difference first.now second.now)) out.new) }
    ensures err { IfErr result (λ f. (f ≡ out_of_memory) × (first.now ≢ second.now)) }

    // After an error the sink is unchanged.
    ensures untouched { OnErr result (out.new ≡ out.old) }

    // The line has at most 553 bytes.
    ensures short { OnOk result (length (compare_line (difference first.now second.now)) ≤ 553) }
{
    // In a volume that was read, groups and volumes nest only so deep that a difference has at most
    // 18 steps.
    first.known();
    let found = first_difference(alloc, first, second)?;
    put_line(out, found.as_ref());
    Ok(found.is_none())
}

/// Writes a line that says whether two volumes have the same meaning and, if not, where they first
/// differ. The line is `same`, or `different at` followed by the steps that lead to the difference,
/// each `file` or `section` with its number, and by the kind of the difference. Returns true if the
/// volumes have the same meaning. (PI specification, volume 3, section 3.2.)
///
/// # Errors
///
/// OutOfMemory, with the side First: nothing was written. WriteFault at the number of bytes
/// written, with the side Output: exactly that many bytes of the line were written.
pub fn write_comparison<W: Write>(
    alloc: Global,
    first: &VolumeView<'_>,
    second: &VolumeView<'_>,
    writer: &mut Port<W>,
) -> Result<bool, (Side, Fault)>
    // The result says whether the volumes have the same meaning, and the line was written.
    ensures ok { IfOk result (Compares first.now second.now
        (W.contents (inner_of writer.old)) (W.contents (inner_of writer.new))) }

    // With OutOfMemory the side is First, and nothing was written. With WriteFault the side is
    // Output. The side is never Second.
    ensures err { IfErr result (λ e. ComparisonStops e.0 first.now second.now
        (W.contents (inner_of writer.old)) (W.contents (inner_of writer.new)) e.1) }

    // After Ok the port's error flag is unchanged.
    ensures writer_fine { OnOk result (has_erred writer.new ≡ has_erred writer.old) }

    // After any error other than WriteFault the port is unchanged.
    ensures untouched { IfErr result (λ e. e.1.kind ≢ FaultKind.WriteFault → writer.new ≡ writer.old) }

    // If WriteFault is returned, the side is Output and the port's error flag is set.
    ensures writer_erred { IfErr result (λ e. e.1.kind ≡ FaultKind.WriteFault
        → (e.0 ≡ Side.Output) × (has_erred writer.new ≡ true)) }
{
    let mut out = WriteSink::new(writer);
    let is_same = match put_comparison(alloc, first, second, &mut out) {
        Ok(is_same) => is_same,
        Err(fault) => return Err((Side::First, fault)),
    };
    match out.outcome() {
        Ok(()) => Ok(is_same),
        Err(fault) => Err((Side::Output, fault)),
    }
}

// Reads the input of a side to its end.
fn read_side<R: Read>(
    alloc: Global,
    side: Side,
    reader: &mut Port<R>,
) -> Result<Vec<u8>, (Side, Fault)>
    ensures ok { IfOk result (λ v. ReadsWhole
        (R.remaining (inner_of reader.old)) (R.remaining (inner_of reader.new)) v.items) }
    ensures err { IfErr result (λ e. (e.0 ≡ side)
        × ReadStops (R.remaining (inner_of reader.old)) (R.remaining (inner_of reader.new)) e.1) }
    ensures erred { has_erred reader.old ≡ false
        → IfErr result (λ e. e.1.kind ≡ FaultKind.ReadFault → has_erred reader.new ≡ true) }
{
    match read_input(alloc, reader) {
        Ok(input) => Ok(input),
        Err(fault) => Err((side, fault)),
    }
}

// Returns the volume that is the whole input of a side.
fn accept_side(alloc: Global, side: Side, input: &[u8]) -> Result<VolumeView<'_>, (Side, Fault)>
    ensures ok { IfOk result (λ view. Accepted input.now view) }
    ensures err { IfErr result (λ e. (e.0 ≡ side) × VolumeStops input.now e.1) }
    ensures kind { IfErr result (λ e. (e.1.kind ≢ FaultKind.ReadFault) × (e.1.kind ≢ FaultKind.WriteFault)) }
{
    match whole_volume(alloc, input) {
        Ok(view) => Ok(view),
        Err(fault) => Err((side, fault)),
    }
}

/// Reads two inputs to their ends and writes the line of `write_comparison` for their volumes.
/// Reads the second input only if the first is a volume. Returns true if the volumes have the same
/// meaning. Keeps the inputs and their views in memory. (PI specification, volume 3, section 3.2.)
///
/// # Errors
///
/// The side that stopped the run, with the fault. For an input, the fault is ReadFault at the
/// number of bytes read so far, Length at the limit if more bytes come, or a fault of
/// `whole_volume`. If memory runs out during the comparison, the side is First. In all these cases
/// nothing was written. The errors of `write_comparison` are returned too.
pub fn run_compare<R: Read, Q: Read, W: Write>(
    alloc: Global,
    first: &mut Port<R>,
    second: &mut Port<Q>,
    writer: &mut Port<W>,
) -> Result<bool, (Side, Fault)>
    // Both inputs were read to their ends, and both are volumes. The result says whether they have
    // the same meaning, and the line was written.
    ensures ok { IfOk result (RunCompares (R.remaining (inner_of first.old)) (R.remaining (inner_of first.new))
        (Q.remaining (inner_of second.old)) (Q.remaining (inner_of second.new))
        (W.contents (inner_of writer.old)) (W.contents (inner_of writer.new))) }

    // The side is the input, or the output, that stopped the run with the fault. If memory runs out
    // during the comparison, the side is First. The second input is read only if the first is a
    // volume, and nothing is written unless both are.
    ensures err { IfErr result (λ e. SideStopsRun e.0
        (R.remaining (inner_of first.old)) (R.remaining (inner_of first.new))
        (Q.remaining (inner_of second.old)) (Q.remaining (inner_of second.new))
        (W.contents (inner_of writer.old)) (W.contents (inner_of writer.new)) e.1) }

    // If ReadFault is returned with the side of an input, the error flag of that input's port is
    // set, provided that it was clear before the call. If WriteFault is returned, the side is
    // Output, and the error flag of the writer's port is set.
    ensures first_erred { has_erred first.old ≡ false
        → IfErr result (λ e. e.0 ≡ Side.First → e.1.kind ≡ FaultKind.ReadFault → has_erred first.new ≡ true) }
    ensures second_erred { has_erred second.old ≡ false
        → IfErr result (λ e. e.0 ≡ Side.Second → e.1.kind ≡ FaultKind.ReadFault → has_erred second.new ≡ true) }
    ensures writer_erred { IfErr result (λ e. e.1.kind ≡ FaultKind.WriteFault
        → (e.0 ≡ Side.Output) × (has_erred writer.new ≡ true)) }
{
    let input = read_side(alloc, Side::First, first)?;
    let view = accept_side(alloc, Side::First, &input)?;
    let other_input = read_side(alloc, Side::Second, second)?;
    let other = accept_side(alloc, Side::Second, &other_input)?;
    write_comparison(alloc, &view, &other, writer)
}
