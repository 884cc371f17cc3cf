//! The line of a run without a result: the arguments are wrong, or a fault stopped the run.

ghost use Rattle.std.specs.Prelude.{◌≡◌, ◌≢◌, ◌⊎◌, ◌++◌, true, false};
ghost use Rattle.fv_base.specs.Words.{has_erred, is_flushed};
ghost use Rattle.fv_command.specs.Endings.{Ends, numbered_line, refusal_line};
ghost use Rattle.fv_command.specs.inner.RunSteps.{Written};
ghost use Rattle.fv_text.specs.Words.{StopsIn, change, view_of};

use crate::ending::{Ending, Refusal};
use crate::run_end::{finish, wrote_all};
use crate::status::Status;
use fv_base::{Fault, Port, Sink, WriteSink};
use fv_compare::Side;
use fv_text::put_decimal;
use std::io::Write;

// Puts the line of a fault, which begins with `words`.
pub(crate) fn put_fault<S: Sink>(out: &mut S, words: &[u8], number: u8, offset: u64)
    ensures { S.takes out.old (words.now ++ numbered_line number offset) out.new }
{
    out.put(words);
    out.put(b"fault ");
    put_decimal(out, u64::from(number));
    out.put(b" at ");
    put_decimal(out, offset);
    out.put(b"\n");
}

// Puts the line of a fault of one of two inputs, which begins with the name of the side.
fn put_side_fault<S: Sink>(out: &mut S, side: Side, fault: Fault)
    ensures { S.takes out.old (refusal_line (Refusal.OneOfTwo side fault)) out.new }
{
    let words: &[u8] = match side {
        Side::First => b"first ",
        Side::Second => b"second ",
        Side::Output => b"",
    };
    put_fault(out, words, fault.kind.number(), fault.place.offset);
}

/// Puts the line of a refusal: `fault N at M`, with the number of the fault and its offset in
/// bytes. The line begins with `hob` for the fault of a hand-off list, with `section` for the fault
/// of a packed section, and with `first` or `second` for the fault of one of two inputs.
pub fn put_refusal<S: Sink>(out: &mut S, refusal: Refusal)
    ensures { S.takes out.old (refusal_line refusal) out.new }
{
    match refusal {
        Refusal::Input(fault) => put_fault(out, b"", fault.kind.number(), fault.place.offset),
        Refusal::OneOfTwo(side, fault) => put_side_fault(out, side, fault),
        Refusal::Hobs(fault) => put_fault(out, b"hob ", fault.number(), fault.offset),
        Refusal::Section(fault) => put_fault(out, b"section ", fault.number(), fault.offset),
    }
}

// Writes a line. Returns whether all of it was written.
fn write_line<W: Write>(writer: &mut Port<W>, line: &[u8]) -> bool
    ensures { Written result line.now (view_of W.contents writer.old) (view_of W.contents writer.new) }
{
    let mut out = WriteSink::new(writer);
    out.put(line);
    wrote_all(&out)
}

// Writes the line of a refusal. Returns whether all of it was written.
fn write_refusal<W: Write>(writer: &mut Port<W>, refusal: Refusal) -> bool
    ensures { Written result (refusal_line refusal) (view_of W.contents writer.old) (view_of W.contents writer.new) }
{
    let mut out = WriteSink::new(writer);
    put_refusal(&mut out, refusal);
    wrote_all(&out)
}

/// Writes a line, flushes the writer, and returns the status, or Refused if a write or the flush
/// fails.
pub fn end_with_line<W: Write>(writer: &mut Port<W>, line: &str, status: Status) -> Status
    // Either the line was written, and this status is returned; or a write of the line or the flush
    // after it failed, and Refused is returned.
    ensures ends { Ends status line.now (change W.contents writer.old writer.new) result }

    // The last call to the writer was a flush, unless the status is Refused and a call to the
    // writer has failed.
    ensures flushed { result ≢ Status.Refused → is_flushed writer.new ≡ true }
    ensures fine { has_erred writer.new ≡ false → is_flushed writer.new ≡ true }
{
    let is_written = write_line(writer, line.as_bytes());
    finish(writer, is_written, status)
}

/// Writes the line of a refusal (`fault N at M`, with the fault's number and its offset in bytes),
/// flushes the writer, and returns that the run was refused, and why.
pub fn end_with_refusal<W: Write>(writer: &mut Port<W>, refusal: Refusal) -> Ending
    ensures ends { Ends Status.Refused (refusal_line refusal) (change W.contents writer.old writer.new) result.status }
    ensures why { result.refusal ≡ Some refusal }

    // Unless a write of the line failed, the last call to the writer was a flush.
    ensures flushed { StopsIn (view_of W.contents writer.old) (view_of W.contents writer.new) (refusal_line refusal)
        ⊎ (is_flushed writer.new ≡ true) }
    ensures fine { has_erred writer.new ≡ false → is_flushed writer.new ≡ true }
{
    let is_written = write_refusal(writer, refusal);
    let status = finish(writer, is_written, Status::Refused);
    Ending {
        status,
        refusal: Some(refusal),
    }
}
