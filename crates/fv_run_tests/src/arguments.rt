//! Command lines, and the plans that they ask for.

use fv_arguments::parse_words;
use fv_base::Guid;
use fv_plan::Plan;
use std::alloc::Global;

/// The GUID that NAME means in a command line.
const NAME: &str = "0a0a0a0a-0a0a-0a0a-0a0a-0a0a0a0a0a0a";

// Appends an argument of a line. NAME means that GUID.
fn push_argument(alloc: Global, arguments: &mut Vec<String>, argument: &str) -> Option<()> {
    let argument = if argument == "NAME" { NAME } else { argument };
    arguments.push(String::from_str(alloc, argument).ok()?).ok()
}

/// Returns the arguments of a line, which spaces separate. NAME means that GUID. An empty line has
/// no arguments.
pub(crate) fn arguments_of(alloc: Global, line: &str) -> Option<Vec<String>> {
    let mut arguments = Vec::new(alloc);
    if line.is_empty() {
        return Some(arguments);
    }
    for argument in line.split(' ') {
        push_argument(alloc, &mut arguments, argument)?;
    }
    Some(arguments)
}

// Returns whether a plan is shown as this text.
fn is_shown_as(alloc: Global, plan: &Plan, wanted: &str) -> bool {
    match format!(in alloc; "{plan:?}") {
        Ok(shown) => shown.as_str() == wanted,
        Err(_) => false,
    }
}

// Returns whether the arguments ask for a plan that is shown as this text.
fn ask_for(alloc: Global, arguments: &[String], wanted: &str) -> bool {
    match parse_words(alloc, arguments) {
        Ok(plan) => is_shown_as(alloc, &plan, wanted),
        Err(_) => false,
    }
}

// Returns the plan of a row, in which NAME is replaced by that GUID as it is shown.
fn with_name(alloc: Global, plan: &str) -> Option<String> {
    let Some((before, after)) = plan.split_once("NAME") else {
        return String::from_str(alloc, plan).ok();
    };
    let name = Guid::from_bytes([0x0a; 16]);
    format!(in alloc; "{before}{name:?}{after}").ok()
}

// Returns command lines, each with its plan.
fn plans() -> &'static str {
    "\
    : Plan { hex: true, command: Single { task: Normalise, at: None, file: None } }\n\
    fv: Plan { hex: true, command: Single { task: Normalise, at: None, file: None } }\n\
    fv normalise: Plan { hex: false, command: Single { task: Normalise, at: None, file: None } }\n\
    fv normalise --hex: Plan { hex: true, command: Single { task: Normalise, at: None, file: None } }\n\
    fv normalise a.fv: Plan { hex: false, command: Single { task: Normalise, at: None, file: Some(\"a.fv\") } }\n\
    fv normalise --hex a.txt: Plan { hex: true, command: Single { task: Normalise, at: None, file: Some(\"a.txt\") \
        } }\n\
    fv normalise --all a.bin: Plan { hex: false, command: Single { task: NormaliseAll, at: None, file: \
        Some(\"a.bin\") } }\n\
    fv normalise --hex --all: Plan { hex: true, command: Single { task: NormaliseAll, at: None, file: None } }\n\
    fv normalise a.txt --hex: Plan { hex: true, command: Single { task: Normalise, at: None, file: Some(\"a.txt\") \
        } }\n\
    fv hobs: Plan { hex: false, command: Hobs { file: None, image: None } }\n\
    fv hobs a.hob --hex: Plan { hex: true, command: Hobs { file: Some(\"a.hob\"), image: None } }\n\
    fv hobs --image a.fv --base 16711680 a.hob: Plan { hex: false, command: Hobs { file: Some(\"a.hob\"), image: \
        Some(ImageFile { path: \"a.fv\", base: 16711680 }) } }\n\
    fv hobs --base 18446744073709551615 --image=a.fv: Plan { hex: false, command: Hobs { file: None, image: \
        Some(ImageFile { path: \"a.fv\", base: 18446744073709551615 }) } }\n\
    fv list: Plan { hex: false, command: Single { task: List, at: None, file: None } }\n\
    fv list a.txt --hex: Plan { hex: true, command: Single { task: List, at: None, file: Some(\"a.txt\") } }\n\
    fv list --sums: Plan { hex: false, command: Single { task: ListSums, at: None, file: None } }\n\
    fv list --at 64 --sums a.txt --hex: Plan { hex: true, command: Single { task: ListSums, at: Some(64), file: \
        Some(\"a.txt\") } }\n\
    fv list --open: Plan { hex: false, command: Single { task: ListOpened, at: None, file: None } }\n\
    fv list a.txt --hex --at=8 --open: Plan { hex: true, command: Single { task: ListOpened, at: Some(8), file: \
        Some(\"a.txt\") } }\n\
    fv cells: Plan { hex: false, command: Single { task: Cells, at: None, file: None } }\n\
    fv cells --at 64 --hex a.txt: Plan { hex: true, command: Single { task: Cells, at: Some(64), file: \
        Some(\"a.txt\") } }\n\
    fv unfix: Plan { hex: false, command: Single { task: Unfix, at: None, file: None } }\n\
    fv unfix --at 64 --hex a.txt: Plan { hex: true, command: Single { task: Unfix, at: Some(64), file: \
        Some(\"a.txt\") } }\n\
    fv open: Plan { hex: false, command: Open { path: None, at: None, file: None } }\n\
    fv open --at 0x40 --hex a.txt: Plan { hex: true, command: Open { path: None, at: Some(64), file: \
        Some(\"a.txt\") } }\n\
    fv open --section 0: Plan { hex: false, command: Open { path: Some([0]), at: None, file: None } }\n\
    fv open --section 2.00.18446744073709551615 --at 8 a.fd: Plan { hex: false, command: Open { path: Some([2, 0, \
        18446744073709551615]), at: Some(8), file: Some(\"a.fd\") } }\n\
    fv scan a.bin: Plan { hex: false, command: Single { task: Scan, at: None, file: Some(\"a.bin\") } }\n\
    fv scan --hex: Plan { hex: true, command: Single { task: Scan, at: None, file: None } }\n\
    fv survey a.bin: Plan { hex: false, command: Single { task: Survey, at: None, file: Some(\"a.bin\") } }\n\
    fv survey --hex: Plan { hex: true, command: Single { task: Survey, at: None, file: None } }\n\
    fv survey --open a.bin: Plan { hex: false, command: Single { task: SurveyOpened, at: None, file: Some(\"a.bin\") } }\n\
    fv compare a.fv b.fv: Plan { hex: false, command: Compare { first: VolumeFile { path: \"a.fv\", at: None }, \
        second: VolumeFile { path: \"b.fv\", at: None } } }\n\
    fv compare a.txt --hex b.txt: Plan { hex: true, command: Compare { first: VolumeFile { path: \"a.txt\", at: \
        None }, second: VolumeFile { path: \"b.txt\", at: None } } }\n\
    fv same a.bin b.bin: Plan { hex: false, command: Same { first: \"a.bin\", second: \"b.bin\" } }\n\
    fv same --hex a.txt b.txt: Plan { hex: true, command: Same { first: \"a.txt\", second: \"b.txt\" } }\n\
    fv check: Plan { hex: false, command: Single { task: Check, at: None, file: None } }\n\
    fv check --all a.bin: Plan { hex: false, command: Single { task: CheckAll, at: None, file: Some(\"a.bin\") } }\n\
    fv check --hex a.txt: Plan { hex: true, command: Single { task: Check, at: None, file: Some(\"a.txt\") } }\n\
    fv list -- --hex: Plan { hex: false, command: Single { task: List, at: None, file: Some(\"--hex\") } }\n\
    fv list -: Plan { hex: false, command: Single { task: List, at: None, file: Some(\"-\") } }\n\
    fv list --at 540672 a.fd: Plan { hex: false, command: Single { task: List, at: Some(540672), file: \
        Some(\"a.fd\") } }\n\
    fv list a.fd --at=+540672: Plan { hex: false, command: Single { task: List, at: Some(540672), file: \
        Some(\"a.fd\") } }\n\
    fv list --at 0x40 a.fd: Plan { hex: false, command: Single { task: List, at: Some(64), file: Some(\"a.fd\") } }\n\
    fv list --at 0x00000000000000000054000: Plan { hex: false, command: Single { task: List, at: Some(344064), file: \
        None } }\n\
    fv cells --at=0xFFFFFFFFFFFFFFFF: Plan { hex: false, command: Single { task: Cells, at: \
        Some(18446744073709551615), file: None } }\n\
    fv check --at 0x0: Plan { hex: false, command: Single { task: Check, at: Some(0), file: None } }\n\
    fv compare a.fd b.fd --at 0xaBc --other-at 0x8: Plan { hex: false, command: Compare { first: VolumeFile { path: \
        \"a.fd\", at: Some(2748) }, second: VolumeFile { path: \"b.fd\", at: Some(8) } } }\n\
    fv check --at 0: Plan { hex: false, command: Single { task: Check, at: Some(0), file: None } }\n\
    fv normalise --at 18446744073709551615 a.fd: Plan { hex: false, command: Single { task: Normalise, at: \
        Some(18446744073709551615), file: Some(\"a.fd\") } }\n\
    fv compare --at 64 a.fd --other-at 0 b.fv: Plan { hex: false, command: Compare { first: VolumeFile { path: \
        \"a.fd\", at: Some(64) }, second: VolumeFile { path: \"b.fv\", at: Some(0) } } }\n\
    fv compare a.fd b.fv --other-at 8: Plan { hex: false, command: Compare { first: VolumeFile { path: \"a.fd\", \
        at: None }, second: VolumeFile { path: \"b.fv\", at: Some(8) } } }\n\
    fv extract --name NAME: Plan { hex: false, command: Single { task: Extract(Part { name: NAME, section: None, \
        instance: 1 }), at: None, file: None } }\n\
    fv extract --name NAME --hex a.txt: Plan { hex: true, command: Single { task: Extract(Part { name: NAME, \
        section: None, instance: 1 }), at: None, file: Some(\"a.txt\") } }\n\
    fv extract --name NAME --section 19 --instance 2 --hex: Plan { hex: true, command: Single { task: Extract(Part \
        { name: NAME, section: Some(25), instance: 2 }), at: None, file: None } }\n\
    fv extract --open --name NAME --section 10: Plan { hex: false, command: Single { task: ExtractOpened(Part { \
        name: NAME, section: Some(16), instance: 1 }), at: None, file: None } }\n\
    fv extract --name NAME --section 1 a.fv: Plan { hex: false, command: Single { task: Extract(Part { name: NAME, \
        section: Some(1), instance: 1 }), at: None, file: Some(\"a.fv\") } }\n\
    fv extract --name NAME --section=1B: Plan { hex: false, command: Single { task: Extract(Part { name: NAME, \
        section: Some(27), instance: 1 }), at: None, file: None } }\n\
    fv extract --name NAME --section 1b: Plan { hex: false, command: Single { task: Extract(Part { name: NAME, \
        section: Some(27), instance: 1 }), at: None, file: None } }\n\
    fv extract --name NAME --section ff: Plan { hex: false, command: Single { task: Extract(Part { name: NAME, \
        section: Some(255), instance: 1 }), at: None, file: None } }\n\
    fv extract --name NAME --section 00: Plan { hex: false, command: Single { task: Extract(Part { name: NAME, \
        section: Some(0), instance: 1 }), at: None, file: None } }\n\
    fv extract --name NAME --instance 0: Plan { hex: false, command: Single { task: Extract(Part { name: NAME, \
        section: None, instance: 0 }), at: None, file: None } }\n\
    fv extract --name NAME --instance +3: Plan { hex: false, command: Single { task: Extract(Part { name: NAME, \
        section: None, instance: 3 }), at: None, file: None } }\n\
    fv extract --name NAME --instance 4294967295: Plan { hex: false, command: Single { task: Extract(Part { name: \
        NAME, section: None, instance: 4294967295 }), at: None, file: None } }\n\
    "
}

// Returns whether the command line of a row asks for the plan of the row. NAME means that GUID in
// both.
fn asks_for_its_plan(alloc: Global, row: &str) -> Option<bool> {
    let (line, plan) = row.split_once(": ")?;
    let wanted = with_name(alloc, plan)?;
    let arguments = arguments_of(alloc, line)?;
    Some(ask_for(alloc, &arguments, &wanted))
}

#[test]
fn command_lines_ask_for_their_plans(rt: HostRuntime) {
    for row in plans().lines() {
        assert!(rt; asks_for_its_plan(rt.alloc(), row) == Some(true), "{row}");
    }
}
