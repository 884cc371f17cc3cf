//! The command `unfix`: a volume without the marks of its fixed files.

ghost use Rattle.std.specs.Prelude.{IfErr, IfOk};
ghost use Rattle.fv_command.specs.Tasks.{TaskRefusal};
ghost use Rattle.fv_tree.specs.Words.{UnfixesTo};
ghost use Rattle.fv_command.specs.inner.RunSteps.{Performs};

use crate::status::Status;
use fv_base::{ByteList, Fault, Sink};
use fv_plan::Task;
use fv_text::put_shown;
use fv_tree::{unfix, verify_unfixed};
use std::alloc::Global;

// Returns a copy of the input, which is a volume, with none of its files marked as fixed. The
// faults of `verify_unfixed` come first, so memory runs out only if the input has such a copy.
fn unfixed(alloc: Global, input: &[u8]) -> Result<ByteList, Fault>
    ensures ok { IfOk result (UnfixesTo input.now) }
    ensures err { IfErr result (TaskRefusal Task.Unfix input.now) }
{
    verify_unfixed(input)?;
    let mut bytes = Vec::from_slice(alloc, input)?;
    unfix(&mut bytes)?;
    Ok(ByteList::from_vec(bytes))
}

/// Puts the input, which is a volume, with none of its files marked as fixed. In the header of each
/// fixed file bit 0x04 of the attributes is cleared, and 4 is added to the header checksum (modulo
/// 256). Works on a copy of the input. (PI specification, volume 3, section 3.2.3.1,
/// `FFS_ATTRIB_FIXED`.)
///
/// # Errors
///
/// As for `fv_tree::verify_unfixed`; then OutOfMemory, so only if the input is a volume whose marks
/// can be taken away. Nothing has been put in that case.
pub fn put_unfixed<S: Sink>(
    alloc: Global,
    hex: bool,
    input: &[u8],
    out: &mut S,
) -> Result<Status, Fault>
    ensures { Performs S.takes Task.Unfix hex input.now out.old out.new result }
{
    let volume = unfixed(alloc, input)?;
    put_shown(out, hex, volume.as_slice());
    Ok(Status::Done)
}
