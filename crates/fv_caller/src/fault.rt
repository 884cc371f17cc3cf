//! One type for the faults of three crates.

ghost use Rattle.std.specs.Prelude.{◌≡◌};

use fv_base::Fault;
use fv_depex::DepexFault;
use fv_hob::HobFault;
use thiserror::Error;

/// Why an input was rejected. The crates that read have three types of fault, and `?` needs a type
/// that can be made from each of them.
#[derive(Clone, Copy, Debug, PartialEq, Eq, Error)]
pub enum CallerFault {
    /// The volume is rejected, or does not fit.
    #[error("volume: {0}")]
    Volume(Fault),
    /// The dependency expression is rejected.
    #[error("expression: {0}")]
    Expression(DepexFault),
    /// The hand-off list is rejected.
    #[error("hand-off list: {0}")]
    HandOff(HobFault),
}

impl From<Fault> for CallerFault {
    ghost use Rattle.fv_caller.specs.declared.fault.CallerFault.TheVariants.{Volume};

    ghost from_gives = { λ f e. e ≡ Volume f };

    fn from(fault: Fault) -> CallerFault {
        CallerFault::Volume(fault)
    }
}

impl From<DepexFault> for CallerFault {
    ghost use Rattle.fv_caller.specs.declared.fault.CallerFault.TheVariants.{Expression};

    ghost from_gives = { λ f e. e ≡ Expression f };

    fn from(fault: DepexFault) -> CallerFault {
        CallerFault::Expression(fault)
    }
}

impl From<HobFault> for CallerFault {
    ghost use Rattle.fv_caller.specs.declared.fault.CallerFault.TheVariants.{HandOff};

    ghost from_gives = { λ f e. e ≡ HandOff f };

    fn from(fault: HobFault) -> CallerFault {
        CallerFault::HandOff(fault)
    }
}
