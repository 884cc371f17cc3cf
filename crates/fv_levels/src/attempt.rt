//! The attempt to open a packed section.

ghost use Rattle.std.specs.Prelude.{◌≡◌, Some, IfOk, IfErr};
ghost use Rattle.fv_base.specs.Words.{out_of_memory};
ghost use Rattle.fv_levels.specs.inner.Opening.{HasRoom};
ghost use Rattle.fv_levels.specs.Attempts.{after, budget_after, first_progress, is_covered, lies_in, outcome_of, outcome_within};
ghost use Rattle.fv_levels.specs.Attempts.{stored_in};
ghost use Rattle.fv_levels.specs.inner.Outcomes.{outcome_form};

use crate::place::{PackedPlace, Reason};
use fv_base::{Fault, FaultKind};
use fv_budget::{Budget, NESTING_LIMIT, ran_out_opening};
use fv_open::{Way, open};
use std::alloc::Global;

/// The outcome of an attempt to open a packed section.
#[derive(Drop)]
pub(crate) enum Outcome {
    /// The section is opened: the way that gave its contents, and the contents.
    Opened(Way, Vec<u8>),
    /// The section is not opened, for this reason.
    Closed(Reason),
}

// Opens a section, with at most `limit` bytes of contents.
fn open_within(alloc: Global, section: &[u8], limit: usize) -> Result<Outcome, Fault>
    ensures outcome { IfOk result (λ o. outcome_form o ≡ outcome_within (Some limit) section.now) }
    ensures err { IfErr result (λ f. f ≡ out_of_memory) }
{
    match open(alloc, section, limit) {
        Ok(opened) => {
            let contents = opened.contents.into_owned(alloc)?;
            Ok(Outcome::Opened(opened.way, contents))
        }
        Err(fault) if ran_out_opening(fault.kind) => {
            Err(Fault::outer(FaultKind::OutOfMemory, 0))
        }
        Err(fault) => Ok(Outcome::Closed(Reason::Fault(fault))),
    }
}

/// Opens a packed section that has `depth` opened sections around it, if they are not too many and
/// something is left of the budget.
pub(crate) fn attempt(
    alloc: Global,
    section: &[u8],
    depth: usize,
    budget: Budget,
) -> Result<Outcome, Fault>
    ensures outcome { IfOk result (λ o. outcome_form o ≡ outcome_of budget depth section.now) }
    ensures room { IfOk result (λ o. HasRoom depth (outcome_form o)) }
    ensures err { IfErr result (λ f. f ≡ out_of_memory) }
{
    if depth >= NESTING_LIMIT {
        return Ok(Outcome::Closed(Reason::TooDeep));
    }
    match budget.limit() {
        Some(limit) => open_within(alloc, section, limit),
        None => Ok(Outcome::Closed(Reason::Spent)),
    }
}

// Returns the budget after an attempt with this outcome.
fn budget_after(budget: Budget, outcome: &Outcome) -> Budget
    ensures { result ≡ budget_after budget (outcome_form outcome.now) }
{
    match outcome {
        Outcome::Opened(_, contents) => budget.after_opening(contents.len()),
        Outcome::Closed(Reason::Fault(fault)) => budget.after_fault(*fault),
        Outcome::Closed(_) => budget,
    }
}

/// The contents of a section that are stored as they are, at its end.
#[derive(Clone, Copy)]
pub(crate) struct Stored {
    /// The place of the section.
    pub(crate) section: PackedPlace,
    /// The length of the contents in bytes.
    pub(crate) length: u64,
}

impl Stored {
    // Returns whether the section at a place lies in the contents.
    fn has(&self, place: &PackedPlace) -> bool
        ensures { result ≡ lies_in self.now place.now }
    {
        let before = self.section.length.saturating_sub(self.length);
        let at = place.offset.saturating_sub(self.section.offset);
        self.section.source == place.source && (before <= at && at < self.section.length)
    }
}

// Returns the contents of the section at this place, if they are stored as they are.
fn stored_in(place: PackedPlace, outcome: &Outcome) -> Option<Stored>
    ensures { result ≡ stored_in place (outcome_form outcome.now) }
{
    match outcome {
        Outcome::Opened(way, contents) if !way.is_decoded() => Some(Stored {
            section: place,
            length: contents.len() as u64,
        }),
        _ => None,
    }
}

/// How far the attempts to open packed sections are.
#[derive(Clone, Copy)]
pub(crate) struct Progress {
    /// What may still be opened.
    pub(crate) left: Budget,
    /// The last contents that are stored as they are.
    pub(crate) stored: Option<Stored>,
}

impl Progress {
    /// Returns what a walk through packed sections begins with.
    pub(crate) fn first(budget: Budget) -> Progress
        ensures { result ≡ first_progress budget }
    {
        Progress {
            left: budget,
            stored: None,
        }
    }

    /// Returns whether the section at a place lies in the last contents that are stored as they are.
    pub(crate) fn covers(&self, place: &PackedPlace) -> bool
        ensures { result ≡ is_covered self.now.stored place.now }
    {
        match self.stored {
            Some(stored) => stored.has(place),
            None => false,
        }
    }

    /// Returns the progress after an attempt to open the section at this place.
    pub(crate) fn after(&self, place: PackedPlace, outcome: &Outcome) -> Progress
        ensures { result ≡ after self.now (record { place = place; outcome = outcome_form outcome.now }) }
    {
        Progress {
            left: budget_after(self.left, outcome),
            stored: match stored_in(place, outcome) {
                Some(stored) => Some(stored),
                None => self.stored,
            },
        }
    }
}
