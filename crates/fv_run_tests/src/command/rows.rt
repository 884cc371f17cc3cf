//! Runs of a plan, which the lines of a table describe.
//!
//! A line is a command, a colon and the inputs, with an ampersand before the second input; then an
//! arrow, the status and the output. An input is words that spell its bytes, or text after an
//! apostrophe, which is only read as hexadecimal text. The output is lines that end with a bar, or,
//! after an equals sign, words that spell bytes. `commands` contains the command line of each
//! command. The tables in `rows/` contain more runs; `rows/README.md` describes their notation.

use crate::arguments::arguments_of;
use crate::row_bytes::{bytes_of, lines_of, number_of};
use crate::volumes::text_named;
use fv_arguments::parse_words;
use fv_plan::Plan;
use std::alloc::Global;

/// A run, and its expected end.
#[derive(Drop)]
pub(crate) struct Run {
    /// The plan of the run.
    pub plan: Plan,
    /// The bytes of the first input.
    pub first: Vec<u8>,
    /// The bytes of the second input. They are empty if there is no second input.
    pub second: Vec<u8>,
    /// The exit status.
    pub status: u64,
    /// The bytes that the run writes.
    pub written: Vec<u8>,
}

// Returns the commands of the runs, each with its command line. The paths do not name files: the
// readers of a test take their place.
fn commands() -> &'static str {
    "\
    normalise: fv normalise\n\
    normalise-all: fv normalise --all\n\
    list: fv list\n\
    list-sums: fv list --sums\n\
    extract 0a - 1: fv extract --name NAME\n\
    extract 0a 19 1: fv extract --name NAME --section 19\n\
    extract 0a 19 3: fv extract --name NAME --section 19 --instance 3\n\
    extract 0b - 1: fv extract --name 0b0b0b0b-0b0b-0b0b-0b0b-0b0b0b0b0b0b\n\
    scan: fv scan\n\
    survey: fv survey\n\
    survey-open: fv survey --open\n\
    cells: fv cells\n\
    unfix: fv unfix\n\
    open: fv open\n\
    open 0.1: fv open --section 0.1\n\
    open 0.0: fv open --section 0.0\n\
    list-open: fv list --open\n\
    extract-open 0b 19 1: fv extract --open --name 0b0b0b0b-0b0b-0b0b-0b0b-0b0b0b0b0b0b --section 19\n\
    extract-open 0b - 1: fv extract --open --name 0b0b0b0b-0b0b-0b0b-0b0b-0b0b0b0b0b0b\n\
    check: fv check\n\
    check-all: fv check --all\n\
    compare: fv compare first second\n\
    compare at 8 at 16: fv compare --at 8 --other-at 16 first second\n\
    same: fv same first second\n\
    hobs: fv hobs\n\
    hobs 16711680: fv hobs --image second --base 16711680\n\
    "
}

// Returns the plan of a command.
fn plan_of(alloc: Global, hex: bool, command: &str) -> Option<Plan> {
    let words = arguments_of(alloc, text_named(commands(), command)?)?;
    let plan = parse_words(alloc, &words).ok()?;
    Some(Plan { hex, ..plan })
}

// Returns the bytes that words spell or, if `hex` is set, their digits as lines of text.
fn shown(alloc: Global, hex: bool, words: &str) -> Option<Vec<u8>> {
    let bytes = bytes_of(alloc, words)?;
    if hex {
        lines_of(alloc, &bytes)
    } else {
        Some(bytes)
    }
}

// Returns the bytes of an input.
fn input_of(alloc: Global, hex: bool, text: &str) -> Option<Vec<u8>> {
    match text.strip_prefix('\'') {
        Some(text) => Vec::from_slice(alloc, text.as_bytes()).ok(),
        None => shown(alloc, hex, text),
    }
}

// Returns the bytes of lines that end with a bar.
fn lines_in(alloc: Global, text: &str) -> Option<Vec<u8>> {
    let mut bytes = Vec::from_slice(alloc, text.as_bytes()).ok()?;
    for byte in bytes.as_mut_slice() {
        if *byte == b'|' {
            *byte = b'\n';
        }
    }
    Some(bytes)
}

// Returns the bytes that the run writes.
fn output_of(alloc: Global, hex: bool, text: &str) -> Option<Vec<u8>> {
    match text.strip_prefix('=') {
        Some(words) => shown(alloc, hex, words),
        None => lines_in(alloc, text),
    }
}

// A command with its two inputs, and the status with the output.
type Texts<'a> = ((&'a str, &'a str, &'a str), (u64, &'a str));

// Returns the texts of a line.
fn texts_of(line: &str) -> Option<Texts<'_>> {
    let (command, rest) = line.split_once(": ")?;
    let (inputs, wanted) = rest.split_once(" -> ")?;
    let (first, second) = inputs.split_once(" & ").unwrap_or((inputs, ""));
    let (status, text) = wanted.split_once(' ')?;
    Some(((command, first, second), (number_of(status)?, text)))
}

// Returns the bytes of two inputs.
fn inputs_of(alloc: Global, hex: bool, first: &str, second: &str) -> Option<(Vec<u8>, Vec<u8>)> {
    let first = input_of(alloc, hex, first)?;
    let second = input_of(alloc, hex, second)?;
    Some((first, second))
}

// Returns the plan of a command, and the bytes that its run writes.
fn plan_and_output_of(
    alloc: Global,
    hex: bool,
    command: &str,
    text: &str,
) -> Option<(Plan, Vec<u8>)> {
    let written = output_of(alloc, hex, text)?;
    let plan = plan_of(alloc, hex, command)?;
    Some((plan, written))
}

/// Returns the run that a line describes, over bytes or hexadecimal text.
pub(crate) fn run_of(alloc: Global, hex: bool, line: &str) -> Option<Run> {
    let ((command, first, second), (status, text)) = texts_of(line)?;
    let (first, second) = inputs_of(alloc, hex, first, second)?;
    let (plan, written) = plan_and_output_of(alloc, hex, command, text)?;
    Some(Run {
        plan,
        first,
        second,
        status,
        written,
    })
}

/// Returns whether an input of a line is text, which is not read as bytes.
pub(crate) fn has_text(line: &str) -> bool {
    line.split_once('\'').is_some()
}
