//! The budget of a walk through packed sections.

ghost use Rattle.std.specs.Prelude.{◌≡◌};
ghost use Rattle.fv_budget.specs.Budgets.{after_fault, after_opening, after_reading, contents_limit, full_budget, price};
ghost use Rattle.fv_budget.specs.Budgets.{ran_out_opening, ran_out_reading};

use fv_base::limits::VOLUME_LIMIT;
use fv_base::{Fault, FaultKind};
use fv_open::{OpenFault, OpenFaultKind};

/// The maximum number of packed sections that are nested in each other and opened.
pub const NESTING_LIMIT: usize = 8;

/// The maximum length in bytes of the contents of all packed sections together.
const TOTAL_LIMIT: usize = 1_073_741_824;

/// The least number of bytes that an opened section counts for.
const LEAST_PRICE: usize = 65_536;

/// The number of bytes that a section counts for if a decoder may have worked on it until it failed.
const FAILURE_PRICE: usize = 16_777_216;

/// The number of bytes that a walk through packed sections may still open, and whether memory ran
/// out. An image is not trusted, so a walk starts with `full`, asks for `limit` before each section
/// that it opens, and continues with the budget that one of the other methods returns. This limits
/// the time of the whole walk, because each call of a decoder makes the budget less.
#[derive(Clone, Copy, Debug, PartialEq, Eq)]
pub struct Budget {
    /// The maximum length in bytes of the contents of all further sections together.
    pub left: usize,
    /// Whether memory ran out while a section was opened, or while its contents were read.
    pub ran_out: bool,
}

// Returns the number of bytes that a section counts for if it is not opened because of this fault.
fn price(kind: OpenFaultKind) -> usize
    ensures { result ≡ price kind }
{
    match kind {
        OpenFaultKind::Damaged(_) => FAILURE_PRICE,
        OpenFaultKind::TooLong => FAILURE_PRICE,
        OpenFaultKind::OutOfMemory => FAILURE_PRICE,
        _ => 0,
    }
}

/// Returns whether a section was not opened because memory ran out.
pub fn ran_out_opening(kind: OpenFaultKind) -> bool
    ensures { result ≡ ran_out_opening kind }
{
    match kind {
        OpenFaultKind::OutOfMemory => true,
        _ => false,
    }
}

/// Returns whether contents were not read as sections because memory ran out.
pub fn ran_out_reading(kind: FaultKind) -> bool
    ensures { result ≡ ran_out_reading kind }
{
    match kind {
        FaultKind::OutOfMemory => true,
        _ => false,
    }
}

impl Budget {
    /// Returns the budget at the start of a walk: the contents of all packed sections together have
    /// at most 1,073,741,824 bytes.
    pub fn full() -> Budget
        ensures { result ≡ full_budget }
    {
        Budget {
            left: TOTAL_LIMIT,
            ran_out: false,
        }
    }

    /// Returns the maximum length in bytes of the contents of the next section: at most 268,435,456,
    /// and at most what is left of the budget. Returns None if nothing is left: then the next section
    /// must not be opened.
    pub fn limit(self) -> Option<usize>
        ensures { result ≡ contents_limit self }
    {
        if self.left == 0 {
            return None;
        }
        Some(self.left.min(VOLUME_LIMIT as usize))
    }

    /// Returns the budget after a section whose contents have this length in bytes. The section
    /// counts for at least 65,536 bytes, because a decoder takes time even if the contents are empty.
    pub fn after_opening(self, length: usize) -> Budget
        ensures { result ≡ after_opening self length }
    {
        Budget {
            left: self.left.saturating_sub(length.max(LEAST_PRICE)),
            ran_out: self.ran_out,
        }
    }

    /// Returns the budget after a section that was not opened because of this fault. The section
    /// counts for 16,777,216 bytes if a decoder may have worked on it until it failed.
    pub fn after_fault(self, fault: OpenFault) -> Budget
        ensures { result ≡ after_fault self fault }
    {
        Budget {
            left: self.left.saturating_sub(price(fault.kind)),
            ran_out: self.ran_out || ran_out_opening(fault.kind),
        }
    }

    /// Returns the budget after contents that were not read as sections because of this fault.
    pub fn after_reading(self, fault: Fault) -> Budget
        ensures { result ≡ after_reading self fault }
    {
        Budget {
            left: self.left,
            ran_out: self.ran_out || ran_out_reading(fault.kind),
        }
    }
}
