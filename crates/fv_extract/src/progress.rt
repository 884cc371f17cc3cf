//! How far a search through packed sections has come.

ghost use Rattle.std.specs.Prelude.{◌≡◌};
ghost use Rattle.fv_extract.specs.Progresses.{at_start, counted, not_sections, opened, skipped, unopened};

use fv_base::Fault;
use fv_budget::Budget;
use fv_open::OpenFault;

/// How far a search through packed sections has come.
#[derive(Clone, Copy, Debug, PartialEq, Eq)]
pub struct Progress {
    /// What the search may still open, and whether memory ran out.
    pub budget: Budget,
    /// The number of packed sections so far that were not opened, or whose contents were not read.
    pub unread: u64,
}

// Returns the number of sections after one more section. It stays at the largest number.
fn counted(unread: u64) -> u64
    ensures { result ≡ counted unread }
{
    unread.saturating_add(1)
}

impl Progress {
    /// Returns the progress at the start of a search.
    pub(crate) fn start() -> Progress
        ensures { result ≡ at_start }
    {
        Progress {
            budget: Budget::full(),
            unread: 0,
        }
    }

    /// Returns the progress after a section that the search may not open.
    pub(crate) fn skip(self) -> Progress
        ensures { result ≡ skipped self }
    {
        Progress {
            budget: self.budget,
            unread: counted(self.unread),
        }
    }

    /// Returns the progress after a section was opened, whose contents have this length in bytes.
    pub(crate) fn after_opening(self, length: usize) -> Progress
        ensures { result ≡ opened self length }
    {
        Progress {
            budget: self.budget.after_opening(length),
            unread: self.unread,
        }
    }

    /// Returns the progress after a section that was not opened because of this fault.
    pub(crate) fn after_fault(self, fault: OpenFault) -> Progress
        ensures { result ≡ unopened self fault }
    {
        Progress {
            budget: self.budget.after_fault(fault),
            unread: counted(self.unread),
        }
    }

    /// Returns the progress after contents that were not read as sections because of this fault.
    pub(crate) fn after_reading(self, fault: Fault) -> Progress
        ensures { result ≡ not_sections self fault }
    {
        Progress {
            budget: self.budget.after_reading(fault),
            unread: counted(self.unread),
        }
    }
}
