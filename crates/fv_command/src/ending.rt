//! How a run ended, and why it was refused.

use crate::status::Status;
use fv_base::Fault;
use fv_compare::Side;
use fv_hob::HobFault;
use fv_open::OpenFault;
use std::fmt;

/// Why a run was refused. `Display` writes the meaning of the fault, as a sentence.
#[derive(Clone, Copy, Debug, PartialEq, Eq)]
pub enum Refusal {
    /// An input was rejected, or memory ran out.
    Input(Fault),
    /// One of two inputs was rejected, or memory ran out.
    OneOfTwo(Side, Fault),
    /// A hand-off list was rejected, or memory ran out while its blocks were read.
    Hobs(HobFault),
    /// A packed section was not opened, or memory ran out while it was opened.
    Section(OpenFault),
}

impl fmt::Display for Refusal {
    fn fmt<W: fmt::Write>(&self, f: &mut fmt::Formatter<W>) -> fmt::Result {
        match self {
            Refusal::Input(fault) => write!(f, "{}", fault.kind),
            Refusal::OneOfTwo(_, fault) => write!(f, "{}", fault.kind),
            Refusal::Hobs(fault) => write!(f, "{}", fault.kind),
            Refusal::Section(fault) => write!(f, "{}", fault.kind),
        }
    }
}

/// How a run ended, and why it was refused.
#[derive(Clone, Copy, Debug, PartialEq, Eq)]
pub struct Ending {
    /// How the run ended.
    pub status: Status,
    /// Why the run was refused: the fault whose line it wrote, or tried to write. None if the run
    /// was not refused, or if it was refused only because a write of its result or the flush after
    /// it failed.
    pub refusal: Option<Refusal>,
}
