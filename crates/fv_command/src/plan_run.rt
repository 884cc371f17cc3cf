//! Running a plan over readers and a writer.

ghost use Rattle.std.specs.Prelude.{◌≡◌, ◌≢◌, ℕ, Bool, List, option_map, true, false};
ghost use Rattle.fv_base.specs.Words.{has_erred, is_flushed};
ghost use Rattle.fv_command.specs.inner.RunSteps.{PutsCommand};
ghost use Rattle.fv_text.specs.Words.{Change, change};
ghost use Rattle.fv_command.specs.PlanRuns.{HasText, Runs};

use crate::comparison_run::put_compared;
use crate::ending::{Ending, Refusal};
use crate::fault_text::put_refusal;
use crate::hob_run::put_hob_list;
use crate::open_run::{put_first_section, put_section_at};
use crate::run_end::{finish, wrote_all};
use crate::same_run::put_same;
use crate::status::Status;
use crate::task_run::put_task;
use fv_base::{Port, Sink, WriteSink};
use fv_plan::{Command, ImageFile, Plan};
use fv_text::GatheringSink;
use std::alloc::Global;
use std::io::{Read, Write};

// Returns the address of an image, if there is one.
fn base_of(image: &Option<ImageFile>) -> Option<u64>
    ensures { result ≡ option_map (λ i. i.base) image.now }
{
    match image {
        Some(image) => Some(image.base),
        None => None,
    }
}

// Puts the text of the plan's command for its inputs. If the command is refused, nothing has been
// put.
fn put_command<First: Read, Second: Read, S: Sink>(
    alloc: Global,
    plan: &Plan,
    first: &mut Port<First>,
    second: &mut Port<Second>,
    out: &mut S,
) -> Result<Status, Refusal>
    ensures { PutsCommand S.takes plan.now.command plan.now.hex (change First.remaining first.old first.new)
        (change Second.remaining second.old second.new) out.old out.new result }
{
    match &plan.command {
        Command::Single { task, at, .. } => match put_task(alloc, task, plan.hex, *at, first, out) {
            Ok(status) => Ok(status),
            Err(fault) => Err(Refusal::Input(fault)),
        },
        Command::Hobs { image, .. } => {
            put_hob_list(alloc, plan.hex, base_of(image), first, second, out)
        }
        Command::Open {
            path: Some(path),
            at,
            ..
        } => put_section_at(alloc, plan.hex, path, *at, first, out),
        Command::Open { path: None, at, .. } => {
            put_first_section(alloc, plan.hex, *at, first, out)
        }
        Command::Compare {
            first: volume,
            second: other,
        } => match put_compared(alloc, plan.hex, volume.at, other.at, first, second, out) {
            Ok(status) => Ok(status),
            Err((side, fault)) => Err(Refusal::OneOfTwo(side, fault)),
        },
        Command::Same { .. } => match put_same(alloc, plan.hex, first, second, out) {
            Ok(status) => Ok(status),
            Err((side, fault)) => Err(Refusal::OneOfTwo(side, fault)),
        },
    }
}

// Puts the line of the refusal that stopped a command, if one did. Returns how the run ends if all
// of its text is written.
fn ending_of<S: Sink>(outcome: Result<Status, Refusal>, out: &mut S) -> Ending
    // This holds for every command, and for every state of the sink before it.
    ensures { (command : Command) (hex : Bool) (first second : Change) (before : S)
        → PutsCommand S.takes command hex first second before out.old outcome
        → (text : List ℕ) × HasText command hex first second result.refusal result.status text × S.takes before text out.new }
{
    match outcome {
        Ok(status) => Ending {
            status,
            refusal: None,
        },
        Err(refusal) => {
            put_refusal(out, refusal);
            Ending {
                status: Status::Refused,
                refusal: Some(refusal),
            }
        }
    }
}

// Puts the text of a run of a plan into the sink `below`, and returns that sink. Small pieces of
// the text are gathered first.
fn gather_plan<First: Read, Second: Read, S: Sink>(
    below: S,
    alloc: Global,
    plan: &Plan,
    first: &mut Port<First>,
    second: &mut Port<Second>,
    ending: &mut Ending,
) -> S
    ensures { (text : List ℕ) × HasText plan.now.command plan.now.hex (change First.remaining first.old first.new)
        (change Second.remaining second.old second.new) ending.new.refusal ending.new.status text × S.takes below text result }
{
    let mut out = GatheringSink::new(below);
    let outcome = put_command(alloc, plan, first, second, &mut out);
    *ending = ending_of(outcome, &mut out);
    out.finish()
}

/// Runs a plan, and writes its result or the line of a fault. A command with one input reads
/// nothing from the second reader.
///
/// If the whole result was written, the status is Done, Different, Faulty or Incomplete. Different
/// means that two volumes or images differ, that a part does not exist, that a volume is not its own canonical
/// image, or that a survey has unread bytes or findings. Faulty means that a volume of a checked
/// image is rejected. Incomplete means that memory ran out in a survey or in a packed section, and
/// the result lacks what would follow, or what is in this section. Otherwise the status is Refused:
/// an input was rejected, memory ran out, or a write failed. A refusal is returned exactly if an
/// input was rejected, or if memory ran out and the status is Refused.
pub fn run_plan<First: Read, Second: Read, W: Write>(
    alloc: Global,
    plan: &Plan,
    first: &mut Port<First>,
    second: &mut Port<Second>,
    writer: &mut Port<W>,
) -> Ending
    // A run has a text and a status: the text and the status of the command for its inputs or, if
    // the command is refused, the line of the refusal and Refused. Either all of the text was
    // written, and the run ends with this status; or a write of the text or the flush after it
    // failed, and the run ends with Refused.
    ensures runs { Runs plan.now result (change First.remaining first.old first.new)
        (change Second.remaining second.old second.new) (change W.contents writer.old writer.new) }

    // The last call to the writer was a flush, unless the status is Refused and a call to the
    // writer has failed.
    ensures flushed { result.status ≢ Status.Refused → is_flushed writer.new ≡ true }
    ensures fine { has_erred writer.new ≡ false → is_flushed writer.new ≡ true }
{
    let mut ending = Ending {
        status: Status::Refused,
        refusal: None,
    };
    let out = gather_plan(
        WriteSink::new(writer),
        alloc,
        plan,
        first,
        second,
        &mut ending,
    );
    let is_written = wrote_all(&out);
    let status = finish(writer, is_written, ending.status);
    Ending {
        status,
        refusal: ending.refusal,
    }
}
