//! The end of runs that write only the line of an error.

use super::runs::{Input, ends_as};
use crate::fakes::FakeWriter;
use fv_base::{Fault, FaultKind, Port};
use fv_command::{Refusal, Status, end_with_line, end_with_refusal};
use fv_plan::{Command, Plan, Task};
use std::alloc::Global;

// Returns whether a run that reports a wrong command line ends with this status and writes these
// bytes, if the writer has room for `room` bytes.
fn is_closed_as(alloc: Global, room: usize, wanted: &[u8], ended: Status) -> bool {
    let mut writer = Port::new(FakeWriter::new(alloc, 5, room, true));
    let status = end_with_line(&mut writer, "wrong words\n", Status::WrongArguments);
    status == ended && writer.into_inner().took_only(wanted)
}

#[test]
fn a_run_is_closed_once(rt: HostRuntime) {
    let alloc = rt.alloc();
    assert!(rt; is_closed_as(alloc, 12, b"wrong words\n", Status::WrongArguments));
    assert!(rt; is_closed_as(alloc, 11, b"wrong words", Status::Refused));
}

// Returns whether a run that reports a wrong command line is refused if the flush after the line
// fails.
fn needs_its_flush(alloc: Global) -> bool {
    let mut writer = Port::new(FakeWriter::without_flush(alloc));
    let status = end_with_line(&mut writer, "wrong words\n", Status::WrongArguments);
    status == Status::Refused && writer.into_inner().took_only(b"wrong words\n")
}

// Returns whether a search for volumes in no bytes is refused if the flush after its lines fails.
fn search_needs_its_flush(alloc: Global) -> bool {
    let command = Command::Single {
        task: Task::Scan,
        at: None,
        file: None,
    };
    let plan = Plan {
        hex: false,
        command,
    };
    let writer = FakeWriter::without_flush(alloc);
    ends_as(
        alloc,
        &plan,
        (Input::NoInput, Input::NoInput),
        writer,
        (2, b""),
    )
}

#[test]
fn a_failed_flush_is_a_refusal(rt: HostRuntime) {
    let alloc = rt.alloc();
    assert!(rt; needs_its_flush(alloc));
    assert!(rt; search_needs_its_flush(alloc));
}

// Returns whether a run that ran out of memory is refused, and writes the line of this fault.
fn is_refused_with_its_line(alloc: Global) -> bool {
    let mut writer = Port::new(Vec::new(alloc));
    let refusal = Refusal::Input(Fault::outer(FaultKind::OutOfMemory, 0));
    let ending = end_with_refusal(&mut writer, refusal);
    let has_failed = writer.erred();
    let written = writer.into_inner();
    ending.status == Status::Refused
        && ending.refusal == Some(refusal)
        && !has_failed
        && written.as_slice() == b"fault 24 at 0\n".as_slice()
}

#[test]
fn out_of_memory_has_its_line(rt: HostRuntime) {
    assert!(rt; is_refused_with_its_line(rt.alloc()));
}
