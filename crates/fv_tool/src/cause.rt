//! What the fault of a refused run means, and what a person can do next.

use crate::advice::{Head, INCOMPLETE};
use fv_base::limits::VOLUME_LIMIT;
use fv_base::{Fault, FaultKind};
use fv_command::Refusal;
use fv_compare::Side;
use fv_open::OpenFaultKind;
use fv_plan::{Command, Plan, Task};
use std::fmt;

// What to do about damaged bytes.
const SOURCE: &str = "compare the input with its source";

// What to do about a fault of a file or a section.
const OFFSET: &str = "the offset shows where: man fvtool lists the faults";

// What to do about files that cannot be laid out.
const NO_IMAGE: &str = "fvtool list and fvtool compare need no image";

/// Why a run was refused. `Display` writes a line without its end: the file, the meaning of the
/// fault, and what to do next.
#[derive(Clone, Copy)]
pub struct Cause<'a> {
    // The path of the file with the fault. None for standard input, or if the fault may be in
    // another input.
    file: Option<&'a str>,
    refusal: Refusal,
    // The meaning of the fault in this run, if the meaning of its kind has several parts.
    meaning: Option<&'static str>,
    next: &'static str,
}

impl fmt::Display for Cause<'_> {
    fn fmt<W: fmt::Write>(&self, f: &mut fmt::Formatter<W>) -> fmt::Result {
        let head = Head(self.file);
        match self.meaning {
            Some(meaning) => write!(f, "{head}{meaning} ({})", self.next),
            None => write!(f, "{head}{} ({})", self.refusal, self.next),
        }
    }
}

// Returns the fault of a volume or of a read that a refusal has. A hand-off list and a packed section
// have faults of other types.
fn fault_of(refusal: Refusal) -> Option<Fault> {
    match refusal {
        Refusal::Input(fault) | Refusal::OneOfTwo(_, fault) => Some(fault),
        Refusal::Hobs(_) | Refusal::Section(_) => None,
    }
}

// Returns whether the refusal is about the second of two inputs.
fn is_second(refusal: Refusal) -> bool {
    matches!(refusal, Refusal::OneOfTwo(Side::Second, _))
}

// Returns the file that a refusal is about. A run of `hobs` with an image has two inputs: only the
// list has faults of its own type, and any other fault may be in either input.
fn file_of(plan: &Plan, refusal: Refusal) -> Option<&String> {
    match refusal {
        Refusal::OneOfTwo(Side::Second, _) => plan.second(),
        Refusal::Input(_) if plan.second().is_some() => None,
        _ => plan.first(),
    }
}

// Returns the task of a command with one input.
fn task_of(plan: Option<&Plan>) -> Option<Task> {
    match &plan?.command {
        Command::Single { task, .. } => Some(*task),
        _ => None,
    }
}

// Returns the meaning of the fault Length at this place: the fault has three conditions, which
// differ in their places.
fn length_meaning(fault: Fault) -> &'static str {
    if fault.place.depth > 0 || fault.place.offset == 32 {
        "the length in the header of a volume is wrong"
    } else if fault.place.offset == VOLUME_LIMIT {
        "the input has more than 256 MiB"
    } else {
        "bytes follow the volume"
    }
}

// Returns what to do about the fault Length.
fn length_step(fault: Fault, refusal: Refusal, task: Option<Task>) -> &'static str {
    if fault.place.depth > 0 || fault.place.offset == 32 {
        return SOURCE;
    }
    if fault.place.offset == VOLUME_LIMIT {
        return "man fvtool shows how to cut a volume out";
    }
    match task {
        Some(Task::Normalise | Task::Check) => "try --at 0, or --all",
        _ if is_second(refusal) => "try --other-at 0",
        _ => "try --at 0",
    }
}

// Returns what to do about the fault Fixed.
fn fixed_step(fault: Fault, task: Option<Task>) -> &'static str {
    if fault.place.depth > 0 {
        return "fv-same, fv-unpack and fv-map read such volumes";
    }
    match task {
        Some(Task::NormaliseAll) => {
            "fvtool check --all goes on with the other volumes; \
            fv-same, fv-unpack and fv-map read this one"
        }
        _ => {
            "fvtool unfix makes a copy without the marks; \
            fv-same, fv-unpack and fv-map need no copy"
        }
    }
}

// Returns what to do about a fault.
fn step_of(fault: Fault, refusal: Refusal, task: Option<Task>) -> &'static str {
    match fault.kind {
        FaultKind::Truncated if fault.place.depth > 0 => SOURCE,
        FaultKind::Truncated => "is the file whole? fvtool scan FILE finds volumes",
        FaultKind::Signature | FaultKind::FileSystem => {
            "fvtool scan FILE finds volumes, fv-unpack --list FILE looks further"
        }
        FaultKind::Length => length_step(fault, refusal, task),
        FaultKind::Fixed => fixed_step(fault, task),
        FaultKind::Revision
        | FaultKind::HeaderLength
        | FaultKind::HeaderSum
        | FaultKind::BlockMap
        | FaultKind::ExtHeader
        | FaultKind::FreeSpace => SOURCE,
        FaultKind::DuplicateName | FaultKind::TopFile => "report it to whoever built the volume",
        FaultKind::Depth => "treat the input as hostile",
        FaultKind::NoRoom | FaultKind::TopAlignment => NO_IMAGE,
        FaultKind::OutOfMemory => "try again with more memory",
        FaultKind::ReadFault => "check the name of the input, and --hex",
        FaultKind::WriteFault => INCOMPLETE,
        _ => OFFSET,
    }
}

// Returns what to do about a fault of another type.
fn other_step(refusal: Refusal) -> &'static str {
    match refusal {
        Refusal::Section(fault) => match fault.kind {
            OpenFaultKind::UnknownWay => "man fvtool lists the ways; fv-unpack knows others",
            OpenFaultKind::TooLong => "treat the input as hostile",
            OpenFaultKind::OutOfMemory => "try again with more memory",
            _ => SOURCE,
        },
        _ => "man fvtool",
    }
}

impl<'a> Cause<'a> {
    /// Returns the cause of a refusal, as far as it is known which plan was run.
    pub fn new(refusal: Refusal, plan: Option<&'a Plan>) -> Cause<'a> {
        let file = plan
            .and_then(|plan| file_of(plan, refusal))
            .map(|path| path.as_str());
        let (meaning, next) = match fault_of(refusal) {
            Some(fault) if fault.kind == FaultKind::Length => (
                Some(length_meaning(fault)),
                length_step(fault, refusal, task_of(plan)),
            ),
            Some(fault) => (None, step_of(fault, refusal, task_of(plan))),
            None => (None, other_step(refusal)),
        };
        Cause {
            file,
            refusal,
            meaning,
            next,
        }
    }
}
