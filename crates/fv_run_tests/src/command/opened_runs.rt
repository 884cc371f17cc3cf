//! Runs over the inputs that a command line names. They are opened by their paths.

use crate::arguments::arguments_of;
use crate::fakes::{FakeOpener, FakeWriter};
use crate::row_bytes::{bytes_of, number_of};
use fv_arguments::parse_words;
use fv_base::Port;
use fv_command::run_over;
use fv_plan::Plan;
use std::alloc::Global;

// Returns command lines, each with the status and the line with which its run ends. The volume in
// `a.fv` has 128 bytes, the volume in `b.fv` 160, and the volume on standard input 136.
fn opened_runs() -> &'static str {
    "\
    fv list a.fv -> 0 volume ffs2 length 128 files 0\n\
    fv list b.fv -> 0 volume ffs2 length 160 files 0\n\
    fv list -> 0 volume ffs2 length 136 files 0\n\
    fv list c.fv -> 2 fault 25 at 0\n\
    fv compare a.fv b.fv -> 1 different at length\n\
    fv compare b.fv b.fv -> 0 same\n\
    fv compare c.fv a.fv -> 2 first fault 25 at 0\n\
    fv compare a.fv c.fv -> 2 second fault 25 at 0\n\
    "
}

// Returns whether a run of the plan ends with the status, writes this line, and returns a refusal
// exactly if the status is 2.
fn plan_ends_as(
    alloc: Global,
    opener: &FakeOpener<'_>,
    plan: &Plan,
    wanted: (u64, &str),
) -> Option<bool> {
    let line = format!(in alloc; "{}\n", wanted.1).ok()?;
    let mut writer = Port::new(FakeWriter::new(alloc, 1000, usize::MAX, true));
    let ending = run_over(alloc, opener, plan, &mut writer);
    let wrote = writer.into_inner().took_only(line.as_bytes());
    let is_refused = wanted.0 == 2;
    Some(
        u64::from(ending.status.code()) == wanted.0
            && wrote
            && ending.refusal.is_some() == is_refused,
    )
}

// Returns whether the run of a row ends as the row states.
fn row_ends_as_it_says(alloc: Global, opener: &FakeOpener<'_>, row: &str) -> Option<bool> {
    let (line, wanted) = row.split_once(" -> ")?;
    let (status, text) = wanted.split_once(' ')?;
    let words = arguments_of(alloc, line)?;
    let plan = parse_words(alloc, &words).ok()?;
    plan_ends_as(alloc, opener, &plan, (number_of(status)?, text))
}

// Returns whether the run of a row ends as the row states. It has standard input and two files,
// whose stated length is `len_hint` bytes.
fn opens_what_it_names(alloc: Global, len_hint: usize, row: &str) -> Option<bool> {
    let first = bytes_of(alloc, "empty")?;
    let second = bytes_of(alloc, "H160 ff*88")?;
    let standard = bytes_of(alloc, "H136 ff*64")?;
    let opener = FakeOpener::new(&first, &second, &standard, len_hint);
    row_ends_as_it_says(alloc, &opener, row)
}

#[test]
fn a_run_opens_what_it_names(rt: HostRuntime) {
    for row in opened_runs().lines() {
        assert!(rt;
            opens_what_it_names(rt.alloc(), 128, row) == Some(true),
            "{row}"
        );
    }
}

// The stated length may be unknown, too small or too large, by any number of bytes.
#[test]
fn a_wrong_length_changes_nothing(rt: HostRuntime) {
    for len_hint in [0, 127, 1000, usize::MAX] {
        for row in opened_runs().lines() {
            assert!(rt;
                opens_what_it_names(rt.alloc(), len_hint, row) == Some(true),
                "{row} {len_hint}"
            );
        }
    }
}
