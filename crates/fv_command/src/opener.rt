//! Opening the inputs of a run, and running a plan over the inputs that it names.

ghost use Rattle.std.specs.Prelude.{◌≡◌, ◌≢◌, ℕ, List, Option, true, false};
ghost use Rattle.fv_base.specs.Words.{has_erred, inner_of, is_flushed};
ghost use Rattle.fv_command.specs.PlanRuns.{RunsOver, IsFirstSource, IsOpened, IsSecondSource};
ghost use Rattle.fv_plan.specs.Words.{first_file, second_file};
ghost use Rattle.fv_text.specs.Words.{change};

use crate::ending::Ending;
use crate::plan_run::run_plan;
use crate::source::Source;
use crate::status::Status;
use fv_base::Port;
use fv_plan::Plan;
use std::alloc::Global;
use std::io::{Read, Write};

/// Opens the inputs of a run: files by their paths, and standard input. The program opens the
/// inputs of its process; a test may open others.
pub trait Opener {
    /// An opened file.
    type File: Read + Drop;

    /// Standard input.
    type Standard: Read + Drop;

    /// Opening this path gives this file, or None.
    ghost opens: { Self → List ℕ → Option Self.File → Type 0 };

    /// The reader is standard input.
    ghost is_standard: { Self → Self.Standard → Type 0 };

    /// Opens the file at a path. Returns None if it cannot be opened.
    fn file_at(&self, path: &str) -> Option<Self::File>
        ensures { opens self.now path.now result };

    /// Returns standard input.
    fn standard_input(&self) -> Self::Standard
        ensures { is_standard self.now result };

    /// Returns how many bytes a file is expected to have, or 0 if that is not known. The file may
    /// have more or fewer bytes: only speed, and the memory that is allocated before the first
    /// read, depend on the hint.
    fn len_hint(&self, file: &Self::File) -> usize;
}

// Opens the file at a path. Returns Missing if it cannot be opened.
fn opened<O: Opener>(opener: &O, path: &str) -> Source<O::Standard, O::File>
    ensures { IsOpened (O.opens opener.now) path.now result }
{
    match opener.file_at(path) {
        Some(file) => Source::File(file),
        None => Source::Missing,
    }
}

// Returns the source of a plan's first input: the file that the plan names, or standard input if it
// names none.
fn first_source<O: Opener>(opener: &O, plan: &Plan) -> Source<O::Standard, O::File>
    ensures { IsFirstSource (O.opens opener.now) (O.is_standard opener.now) (first_file plan.now.command) result }
{
    match plan.first() {
        Some(path) => opened(opener, path.as_str()),
        None => Source::Standard(opener.standard_input()),
    }
}

// Returns the source of a plan's second input: the file that the plan names, or NoInput if it names
// none.
fn second_source<O: Opener>(opener: &O, plan: &Plan) -> Source<O::Standard, O::File>
    ensures { IsSecondSource (O.opens opener.now) (second_file plan.now.command) result }
{
    match plan.second() {
        Some(path) => opened(opener, path.as_str()),
        None => Source::NoInput,
    }
}

// Returns a port over a source, with room for as many bytes as a file is expected to have.
fn port_over<O: Opener>(
    opener: &O,
    source: Source<O::Standard, O::File>,
) -> Port<Source<O::Standard, O::File>>
    ensures inner { inner_of result ≡ source }
    ensures erred { has_erred result ≡ false }
{
    let room = match &source {
        Source::File(file) => opener.len_hint(file),
        _ => 0,
    };
    Port::with_room(source, room)
}

/// Runs a plan over the inputs that it names, and returns how the run ended, as `run_plan` does.
/// Both inputs are opened before anything is read.
pub fn run_over<O: Opener, W: Write>(
    alloc: Global,
    opener: &O,
    plan: &Plan,
    writer: &mut Port<W>,
) -> Ending
    // The first input is the file that the plan names for it, or standard input. The second input
    // is the file that the plan names for it, if the plan names a second file.
    ensures runs { RunsOver O.Standard.remaining O.File.remaining (O.opens opener.now) (O.is_standard opener.now)
        plan.now result (change W.contents writer.old writer.new) }

    // The last call to the writer was a flush, unless the status is Refused and a call to the
    // writer has failed.
    ensures flushed { result.status ≢ Status.Refused → is_flushed writer.new ≡ true }
    ensures fine { has_erred writer.new ≡ false → is_flushed writer.new ≡ true }
{
    let first = first_source(opener, plan);
    let second = second_source(opener, plan);
    run_plan(
        alloc,
        plan,
        &mut port_over(opener, first),
        &mut port_over(opener, second),
        writer,
    )
}
