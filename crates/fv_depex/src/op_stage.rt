//! The stage that the reading of an expression has reached.

ghost use Rattle.std.specs.Prelude.{◌≡◌, ◌<◌, ◌^◌};
ghost use Rattle.fv_depex.specs.OpChecks.{values_after, values_of, stage_after};

use crate::op::Op;

/// The state of an expression after the ops that have been read so far.
#[derive(Clone, Copy, Debug, PartialEq, Eq)]
pub enum Stage {
    /// No op has been read.
    Start,
    /// BEFORE or AFTER has been read, and END must follow.
    Ordered,
    /// The stack holds this many values.
    Values(u64),
}

// Returns the number of values on the stack at a stage.
fn values_of(stage: Stage) -> u64
    ensures { result ≡ values_of stage }
{
    match stage {
        Stage::Start | Stage::Ordered => 0,
        Stage::Values(count) => count,
    }
}

// Returns the number of values on the stack after an op, if there were `count` before it.
fn values_after(count: u64, op: &Op) -> u64
    requires { count < 2 ^ 63 }
    ensures { result ≡ values_after count op.now }
{
    match op {
        Op::Push(_) | Op::True | Op::False => count + 1,
        Op::And | Op::Or => count.saturating_sub(1),
        Op::Before(_) | Op::After(_) | Op::Not | Op::End | Op::Sor => count,
    }
}

/// Returns the stage after an op.
pub fn stage_after(stage: Stage, op: &Op) -> Stage
    requires { values_of stage < 2 ^ 63 }
    ensures { result ≡ stage_after stage op.now }
{
    match op {
        Op::Before(_) | Op::After(_) => Stage::Ordered,
        _ => Stage::Values(values_after(values_of(stage), op)),
    }
}
