//! Runs of a plan over readers and a writer.

use super::other_runs::small_runs;
use super::rows::{Run, has_text, run_of};
use crate::fakes::{FakeReader, FakeWriter};
use fv_base::Port;
use fv_command::{Source, Status, run_plan};
use fv_plan::{Command, Plan};
use std::alloc::Global;
use std::io::Read;

/// The largest numbers of bytes that a reader gives, or a writer takes, in one call.
const STEPS: [usize; 3] = [1, 3, 65_536];

/// An input that can be read, or a file that does not exist.
pub(crate) type Input<'a> = Source<FakeReader<'a>, FakeReader<'a>>;

/// The words with which the line of a fault begins.
const FAULT_WORDS: [&str; 4] = ["fault ", "hob fault ", "first fault ", "second fault "];

// Returns whether the bytes are the line of a fault.
fn is_fault_line(bytes: &[u8]) -> bool {
    for words in FAULT_WORDS {
        if bytes.starts_with(words.as_bytes()) && bytes.ends_with(b"\n") {
            return true;
        }
    }
    false
}

/// Returns whether a run of the plan ends with the status, writes these bytes and nothing after
/// them, and then flushes the writer once, unless it is refused. If the bytes are the line of a
/// fault, the run must return the refusal.
pub(crate) fn ends_as<First: Read + Drop, Second: Read + Drop>(
    alloc: Global,
    plan: &Plan,
    inputs: (First, Second),
    writer: FakeWriter,
    wanted: (u64, &[u8]),
) -> bool {
    let mut first = Port::new(inputs.0);
    let mut second = Port::new(inputs.1);
    let mut writer = Port::new(writer);
    let ending = run_plan(alloc, plan, &mut first, &mut second, &mut writer);
    let inner = writer.into_inner();
    u64::from(ending.status.code()) == wanted.0
        && inner.took_only(wanted.1)
        && (ending.status == Status::Refused || inner.was_flushed())
        && (ending.refusal.is_some() || !is_fault_line(wanted.1))
}

// Returns whether the run ends as expected if its readers give at most `step` bytes per call.
fn run_ends_by_steps(alloc: Global, run: &Run, step: usize) -> bool {
    let first = Input::File(FakeReader::new(&run.first, step, true));
    let second = Input::Standard(FakeReader::new(&run.second, step, false));
    let writer = FakeWriter::new(alloc, step, usize::MAX, true);
    ends_as(
        alloc,
        &run.plan,
        (first, second),
        writer,
        (run.status, &run.written),
    )
}

// Returns whether the run ends as Refused if its writer, which takes at most `step` bytes per call,
// has room for only `room` bytes; and whether it writes these bytes.
fn run_ends_without_room(
    alloc: Global,
    run: &Run,
    room: usize,
    step: usize,
    is_broken: bool,
) -> bool {
    let first = Input::Standard(FakeReader::new(&run.first, 4096, false));
    let second = Input::File(FakeReader::new(&run.second, 4096, false));
    let writer = FakeWriter::new(alloc, step, room, is_broken);
    let wanted = (2, &run.written[..room.min(run.written.len())]);
    ends_as(alloc, &run.plan, (first, second), writer, wanted)
}

// Returns the line for a reader that fails after `count` bytes.
fn line_at(alloc: Global, run: &Run, side: &str, count: usize) -> Option<String> {
    let side = match run.plan.command {
        Command::Compare { .. } | Command::Same { .. } => side,
        _ => "",
    };
    format!(in alloc; "{side}fault 25 at {count}\n").ok()
}

// Returns whether the run ends as Refused if the reader of its first input fails after `count`
// bytes. The second input is not read.
fn stops_at_first(alloc: Global, run: &Run, step: usize, count: usize) -> bool {
    let Some(line) = line_at(alloc, run, "first ", count) else {
        return false;
    };
    let first = FakeReader::failing(&run.first, step, count);
    let inputs = (Input::File(first), Input::Missing);
    let writer = FakeWriter::new(alloc, 7, usize::MAX, true);
    ends_as(alloc, &run.plan, inputs, writer, (2, line.as_bytes()))
}

// Returns whether the run ends as Refused if the reader of its second input fails after `count`
// bytes.
fn stops_at_second(alloc: Global, run: &Run, step: usize, count: usize) -> bool {
    let Some(line) = line_at(alloc, run, "second ", count) else {
        return false;
    };
    let first = Input::Standard(FakeReader::new(&run.first, 4096, false));
    let second = Input::File(FakeReader::failing(&run.second, step, count));
    let writer = FakeWriter::new(alloc, 7, usize::MAX, true);
    ends_as(
        alloc,
        &run.plan,
        (first, second),
        writer,
        (2, line.as_bytes()),
    )
}

// Returns whether the run ends as expected with steps of this size, and stops at each byte of its
// inputs if a reader stops there. A second input without bytes does not count as an input.
fn stops_by_steps(alloc: Global, run: &Run, step: usize) -> bool {
    for count in 0..=run.first.len() {
        if !stops_at_first(alloc, run, step, count) {
            return false;
        }
    }
    for count in 0..=run.second.len() {
        if !run.second.is_empty() && !stops_at_second(alloc, run, step, count) {
            return false;
        }
    }
    run_ends_by_steps(alloc, run, step)
}

// Returns whether the run ends as expected, however few bytes are read and written in one call, and
// stops at each byte of its inputs and of its output, however the writer stops.
fn run_stops_at_each_byte(alloc: Global, run: &Run) -> bool {
    for step in STEPS {
        if !stops_by_steps(alloc, run, step) {
            return false;
        }
    }
    for room in 0..run.written.len() {
        for (step, is_broken) in [(7, false), (7, true), (1000, true)] {
            if !run_ends_without_room(alloc, run, room, step, is_broken) {
                return false;
            }
        }
    }
    true
}

// Returns whether the run of a line, over bytes or over hexadecimal text, ends as expected and
// stops at each byte.
fn row_stops_at_each_byte(alloc: Global, hex: bool, line: &str) -> bool {
    match run_of(alloc, hex, line) {
        Some(run) => run_stops_at_each_byte(alloc, &run),
        None => false,
    }
}

// A line with text is only run over hexadecimal text.
#[test]
fn runs_stop_with_their_readers_and_writers(rt: HostRuntime) {
    for line in small_runs().lines() {
        for hex in [has_text(line), true] {
            assert!(rt;
                row_stops_at_each_byte(rt.alloc(), hex, line),
                "{line} {hex}"
            );
        }
    }
}
