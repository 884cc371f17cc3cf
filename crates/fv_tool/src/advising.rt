//! Explains on standard error how a run ended.

use crate::advice::Advice;
use crate::arguments;
use crate::cause::Cause;
use crate::host::Process;
use fv_arguments::{parse_words, what_is_wrong};
use fv_base::{Fault, FaultKind};
use fv_command::{Ending, Refusal, Status};
use fv_compare::Side;
use fv_plan::{Command, Plan, Task};
use std::alloc::Global;

// Returns whether the arguments ask for help or for the version.
fn asks_for_help(words: &[String]) -> bool {
    match words.get(1) {
        Some(name) if name.as_str() == "help" => return true,
        _ => {}
    }
    for word in words.iter().skip(1) {
        match word.as_str() {
            "--" => return false,
            "--help" | "--version" => return true,
            text if text.starts_with("-h") => return true,
            _ => {}
        }
    }
    false
}

// Says what is wrong with the arguments of a command line, or shows the help.
fn explain_words<P: Process>(alloc: Global, process: &P, words: &[String]) {
    if asks_for_help(words) {
        process.advise(Advice::Help);
        return;
    }
    if let Some(sentence) = what_is_wrong(alloc, words) {
        process.advise(Advice::Mistake(sentence.as_str()));
    }
    if process.is_at_terminal() {
        process.advise(Advice::Synopsis);
    }
}

// Names the fault in the arguments, and shows the forms of the command line at a terminal, or the
// help if the arguments ask for it. The arguments are read once more for this.
fn explain_arguments<P: Process>(alloc: Global, process: &P) {
    match arguments(alloc, process) {
        Ok(words) => explain_words(alloc, process, &words),
        Err(_) => {
            if let Some(number) = process.not_text() {
                process.advise(Advice::NotText(number));
            }
            if process.is_at_terminal() {
                process.advise(Advice::Synopsis);
            }
        }
    }
}

// Returns whether a message has named the file that a refusal is about, because it cannot be read.
fn is_named<P: Process>(process: &P, refusal: Refusal) -> bool {
    let unread = Fault::outer(FaultKind::ReadFault, 0);
    match refusal {
        Refusal::OneOfTwo(Side::First, fault) => fault == unread && process.has_named_first(),
        Refusal::OneOfTwo(_, fault) | Refusal::Input(fault) => {
            fault == unread && process.has_named_file()
        }
        Refusal::Hobs(_) | Refusal::Section(_) => false,
    }
}

// Returns the plan that was run. The arguments are read once more for this. Returns None if memory
// runs out.
fn plan_of<P: Process>(alloc: Global, process: &P) -> Option<Plan> {
    match arguments(alloc, process) {
        Ok(words) => parse_words(alloc, &words).ok(),
        Err(_) => None,
    }
}

// Explains the fault that stopped a run.
fn explain_refusal<P: Process>(alloc: Global, process: &P, refusal: Refusal) {
    if !is_named(process, refusal) {
        let plan = plan_of(alloc, process);
        process.advise(Advice::Refused(Cause::new(refusal, plan.as_ref())));
    }
}

// Says that a volume of an image was rejected.
fn explain_rejected_volume<P: Process>(alloc: Global, process: &P) {
    let plan = plan_of(alloc, process);
    let path = plan.as_ref().and_then(|plan| plan.first());
    process.advise(Advice::Faulty(path.map(|path| path.as_str())));
}

// Returns whether the command is a survey.
fn is_survey(command: &Command) -> bool {
    match command {
        Command::Single { task, .. } => matches!(task, Task::Survey | Task::SurveyOpened),
        _ => false,
    }
}

// Says that memory ran out in a survey, or in a packed section.
fn explain_incomplete<P: Process>(alloc: Global, process: &P) {
    let plan = plan_of(alloc, process);
    let path = plan
        .as_ref()
        .and_then(|plan| plan.first())
        .map(|path| path.as_str());
    match &plan {
        Some(plan) if is_survey(&plan.command) => process.advise(Advice::CutShort(path)),
        _ => process.advise(Advice::Incomplete(path)),
    }
}

// Returns whether the command writes a line for each volume of an image, and nothing else.
fn finds_volumes(command: &Command) -> bool {
    match command {
        Command::Single { task, .. } => matches!(task, Task::Scan | Task::CheckAll),
        _ => false,
    }
}

// Says that no volume was found, if the command that wrote nothing looks for volumes.
fn explain_no_output<P: Process>(alloc: Global, process: &P) {
    match plan_of(alloc, process) {
        Some(plan) if finds_volumes(&plan.command) => process.advise(Advice::NoVolume),
        _ => {}
    }
}

/// Explains on standard error how a run ended: the fault that stopped it, a failed write, the fault
/// in its arguments, that a volume was rejected, or that memory ran out in a survey or in a packed
/// section. Only at a terminal it shows the forms of a wrong command line, and reports that no volume
/// was found.
pub fn advise<P: Process>(alloc: Global, process: &P, ending: Ending, is_written: bool) {
    if let Some(refusal) = ending.refusal {
        explain_refusal(alloc, process, refusal);
    }
    if !is_written {
        process.advise(Advice::NotWritten);
    }
    match ending.status {
        Status::WrongArguments => explain_arguments(alloc, process),
        Status::Faulty => explain_rejected_volume(alloc, process),
        Status::Incomplete => explain_incomplete(alloc, process),
        Status::Done if process.is_at_terminal() && !process.has_written() => {
            explain_no_output(alloc, process);
        }
        _ => {}
    }
}
