//! The program `fvtool`: runs a command over firmware volumes or hand-off lists, and reports the
//! outcome by its exit status.
//!
//! Some facts are only tested, because the standard library states nothing about them: that its
//! calls give the arguments of the process, the file at a path and the standard streams, and set
//! the exit status.
#![tactic(auto)]

ghost use Rattle.fv_text.specs.Words.{Writes, change, port_view, view_of};
ghost use Rattle.fv_command.specs.Words.{Ends, exit_code};
ghost use Rattle.fv_tool.specs.ArgumentRejections.{line_of, refusal_of, status_of};
ghost use Rattle.fv_tool.specs.ProgramRuns.{IsGiven, RunsArguments, RunsProcess};
ghost use Rattle.std.specs.Prelude.{◌≡◌, ◌≢◌, false, true, IfErr, IfOk};
ghost use Rattle.fv_base.specs.Words.{has_erred, is_flushed};
ghost use Rattle.std.specs.Process.{exit_status};
ghost use Rattle.std.specs.Vec.Iter.{into_iter_items};

mod advice;
mod advising;
mod cause;
mod host;
mod marks;
mod output;

use crate::advising::advise;
use crate::host::{DESCRIPTOR_FILLER, Host, Process};
use crate::marks::Marks;
use fv_arguments::{WordFault, parse_words};
use fv_base::{Fault, FaultKind, Port};
use fv_command::{Ending, Opener, Refusal, Status, end_with_line, end_with_refusal, run_over};
use std::alloc::Global;
use std::env::Args;
use std::io::Write;
use std::process::ExitCode;

// Returns the arguments in order. Out of memory is never reported as wrong arguments.
fn collected(alloc: Global, arguments: Args) -> Result<Vec<String>, WordFault>
    ensures ok { IfOk result (λ words. words.items ≡ into_iter_items arguments) }
    ensures err { IfErr result (λ f. f ≡ WordFault.OutOfMemory) }
{
    let mut words = Vec::with_capacity(alloc, arguments.len())?;
    for word in arguments {
        if words.push(word).is_err() {
            return Err(WordFault::OutOfMemory);
        }
    }
    Ok(words)
}

// Returns all arguments of a process, in order, or why they are not available: memory ran out, or
// they cannot be read.
fn arguments<P: Process>(alloc: Global, process: &P) -> Result<Vec<String>, WordFault>
    ensures { IsGiven (P.has_arguments process.now) (P.arguments_fail_with process.now) result }
{
    collected(alloc, process.arguments()?)
}

// Reports that the command line is wrong, or that memory ran out while it was read. Out of memory
// is also returned as the refusal; wrong arguments are not a refusal.
fn reject_arguments<W: Write>(writer: &mut Port<W>, fault: WordFault) -> Ending
    ensures ends { Ends (status_of fault) (line_of fault) (change W.contents writer.old writer.new) result.status }
    ensures why { result.refusal ≡ refusal_of fault }
    ensures flushed { result.status ≢ Status.Refused → is_flushed writer.new ≡ true }
    ensures fine { has_erred writer.new ≡ false → is_flushed writer.new ≡ true }
{
    match fault {
        WordFault::Words => Ending {
            status: end_with_line(writer, "wrong words\n", Status::WrongArguments),
            refusal: None,
        },
        WordFault::OutOfMemory => {
            let fault = Fault::outer(FaultKind::OutOfMemory, 0);
            end_with_refusal(writer, Refusal::Input(fault))
        }
    }
}

// Runs the plan that the command line asks for, or reports why the command line is rejected.
fn run_given<O: Opener, W: Write>(
    alloc: Global,
    opener: &O,
    words: Result<Vec<String>, WordFault>,
    writer: &mut Port<W>,
) -> Ending
    // Either the plan that the arguments ask for is run, or the program reports why no plan is run:
    // the arguments are wrong or could not be read, or memory ran out.
    ensures ran { RunsArguments O.Standard.remaining O.File.remaining (O.opens opener.now) (O.is_standard opener.now)
        words result (change W.contents writer.old writer.new) }

    // If the status is WrongArguments, the line of wrong arguments was written.
    ensures wrong { result.status ≡ Status.WrongArguments
        → Writes (view_of W.contents writer.old) (view_of W.contents writer.new) (line_of WordFault.Words) }

    // The last call to the writer was a flush, unless the status is Refused and a call to the
    // writer has failed.
    ensures flushed { result.status ≢ Status.Refused → is_flushed writer.new ≡ true }
    ensures fine { has_erred writer.new ≡ false → is_flushed writer.new ≡ true }
{
    let plan = match words {
        Ok(words) => parse_words(alloc, &words),
        Err(fault) => Err(fault),
    };
    match plan {
        Ok(plan) => run_over(alloc, opener, &plan, writer),
        Err(fault) => reject_arguments(writer, fault),
    }
}

// Opens the directory `/` three times. The opened directories occupy those file descriptors below 3
// that are closed, so no file of the run is used as a standard stream. Reads and writes of a
// directory fail, like reads and writes of a closed descriptor.
fn occupy_standard_descriptors<O: Opener>(
    opener: &O,
) -> (Option<O::File>, Option<O::File>, Option<O::File>) {
    (
        opener.file_at(DESCRIPTOR_FILLER),
        opener.file_at(DESCRIPTOR_FILLER),
        opener.file_at(DESCRIPTOR_FILLER),
    )
}

// Runs the plan that the arguments of a process ask for, and writes to its standard output. Returns
// how the run ended, and the output.
fn run_process<P: Opener + Process>(alloc: Global, process: &P) -> (Ending, Port<P::Writer>)
    ensures runs { (writer : P.Writer) × P.is_output process.now writer
        × RunsProcess P.Standard.remaining P.File.remaining (P.opens process.now) (P.is_standard process.now)
        (P.has_arguments process.now) (P.arguments_fail_with process.now) result.0 (record {
          old = port_view (P.Writer.contents writer) false;
          new = view_of P.Writer.contents result.1;
        }) }
    ensures flushed { result.0.status ≢ Status.Refused → is_flushed result.1 ≡ true }
    ensures fine { has_erred result.1 ≡ false → is_flushed result.1 ≡ true }
{
    let _held = occupy_standard_descriptors(process);
    let mut port = Port::new(process.standard_output());
    let ending = run_given(alloc, process, arguments(alloc, process), &mut port);
    (ending, port)
}

// Returns the exit code for a status.
fn exit_with(status: Status) -> ExitCode
    ensures { exit_status result ≡ exit_code status }
{
    ExitCode::from(status.code())
}

// Runs the plan that the arguments of a process ask for, and explains on standard error how the run
// ended. Returns the exit code for the status with which the run ended, and the output. The last
// call to the output was a flush, unless the status is Refused and a call to the output has failed.
// The clause holds for any process: whatever its arguments are, whatever opens its files, and
// wherever it writes.
fn process<P: Opener + Process>(alloc: Global, process: &P) -> (ExitCode, Port<P::Writer>)
    ensures { (writer : P.Writer) × P.is_output process.now writer
        × (ended : Ending) × (exit_status result.0 ≡ exit_code ended.status)
        × RunsProcess P.Standard.remaining P.File.remaining (P.opens process.now) (P.is_standard process.now)
        (P.has_arguments process.now) (P.arguments_fail_with process.now) ended (record {
          old = port_view (P.Writer.contents writer) false;
          new = view_of P.Writer.contents result.1;
        })
        × (ended.status ≢ Status.Refused → is_flushed result.1 ≡ true)
        × (has_erred result.1 ≡ false → is_flushed result.1 ≡ true) }
{
    let (ending, output) = run_process(alloc, process);
    advise(alloc, process, ending, !output.erred());
    (exit_with(ending.status), output)
}

// Runs the plan that the arguments ask for, and ends with the exit code for the status. The
// compiler accepts no clause on `main`, so it is a single expression.
fn main(rt: HostRuntime) -> ExitCode {
    process(
        rt.alloc(),
        &Host::new(&rt, &Marks::new(), rt.stdin(), rt.stderr()),
    )
    .0
}
