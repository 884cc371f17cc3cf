//! The bytes that a call reads: its input, or a copy without the marks of fixed files.

ghost use Rattle.std.specs.Prelude.{◌≡◌, IfOk, IfErr, true};
ghost use Rattle.std.specs.Cow.{cow_slice_items};
ghost use Rattle.fv_base.specs.Words.{out_of_memory};
ghost use Rattle.fv_c.specs.ReadInputs.{IsRead};

use fv_base::Fault;
use fv_marks::{sections_without_marks, without_marks};
use std::alloc::Global;
use std::borrow::CowSlice;

/// What the whole input of a call is. (PI specification, volume 3, sections 3.2 and 3.2.4.)
#[derive(Clone, Copy)]
pub enum Form {
    /// A volume.
    Volume,
    /// A stream of sections.
    Stream,
}

// Returns the bytes that a call reads in this form: its input or, if the marks of fixed files are to
// be taken away, a copy.
pub(crate) fn bytes_read<'a>(
    alloc: Global,
    form: Form,
    input: &'a [u8],
    unmarked: bool,
) -> Result<CowSlice<'a, u8>, Fault>
    ensures ok { IfOk result (λ c. IsRead form unmarked input.now (cow_slice_items c)) }
    ensures err { IfErr result (λ f. (f ≡ out_of_memory) × (unmarked ≡ true)) }
{
    if !unmarked {
        return Ok(CowSlice::Borrowed(input));
    }
    let copy = match form {
        Form::Volume => without_marks(alloc, input)?,
        Form::Stream => sections_without_marks(alloc, input)?,
    };
    Ok(CowSlice::Owned(copy))
}
