//! The command `hobs`: the blocks of a hand-off list, whose volumes are looked up in an image.

ghost use Rattle.std.specs.Prelude.{◌≡◌, ◌≢◌, ℕ, List, None, IfOk, IfErr, option_map};
ghost use Rattle.fv_command.specs.PairRuns.{GivesImage, ListsHobs, StopsHobs};
ghost use Rattle.fv_command.specs.RunInputs.{Gives, GivingStops};
ghost use Rattle.fv_command.specs.inner.RunSteps.{Puts};
ghost use Rattle.fv_lines.specs.Words.{held_image};
ghost use Rattle.fv_text.specs.Words.{change, view_of};

use crate::ending::Refusal;
use crate::inputs::read_bytes;
use crate::status::Status;
use fv_base::{Fault, Port, Sink};
use fv_hob::read_hobs;
use fv_lines::{MappedImage, put_hobs};
use std::alloc::Global;
use std::io::Read;

// Reads the image that the reader gives, if there is a base. Without a base nothing is read, and
// the result is empty.
fn read_image<R: Read>(
    alloc: Global,
    hex: bool,
    base: Option<u64>,
    reader: &mut Port<R>,
) -> Result<Vec<u8>, Fault>
    ensures ok { IfOk result (λ v. GivesImage hex base (change R.remaining reader.old reader.new) v.items) }
    ensures err { IfErr result (λ f. (base ≢ None)
        × GivingStops hex (view_of R.remaining reader.old) (view_of R.remaining reader.new) f) }
{
    match base {
        Some(_) => read_bytes(alloc, hex, reader),
        None => Ok(Vec::new(alloc)),
    }
}

// Returns the bytes as an image at the address `base`, or None if there is no base.
fn image_of(bytes: &[u8], base: Option<u64>) -> Option<MappedImage<'_>>
    ensures { held_image result ≡ option_map (λ b. record { bytes = bytes.now; base = b }) base }
{
    match base {
        Some(base) => Some(MappedImage { bytes, base }),
        None => None,
    }
}

// Reads the hand-off list that the first reader gives and, if there is a base, the image that the
// second reader gives.
fn read_inputs<First: Read, Second: Read>(
    alloc: Global,
    hex: bool,
    base: Option<u64>,
    first: &mut Port<First>,
    second: &mut Port<Second>,
) -> Result<(Vec<u8>, Vec<u8>), Fault>
    ensures ok { IfOk result (λ r. Gives hex (view_of First.remaining first.old) (view_of First.remaining first.new) r.0.items
        × GivesImage hex base (change Second.remaining second.old second.new) r.1.items) }
    ensures err { IfErr result (λ f. StopsHobs base hex (change First.remaining first.old first.new)
        (change Second.remaining second.old second.new) (Refusal.Input f)) }
{
    let list = read_bytes(alloc, hex, first)?;
    let image = read_image(alloc, hex, base, second)?;
    Ok((list, image))
}

/// Puts the lines of `hobs` for the hand-off list that the first reader gives. If there is a base,
/// the second reader gives an image, and the base is the address of its first byte.
///
/// # Errors
///
/// The faults of reading, and the faults of `read_hobs`. Nothing has been put in that case.
pub fn put_hob_list<First: Read, Second: Read, S: Sink>(
    alloc: Global,
    hex: bool,
    base: Option<u64>,
    first: &mut Port<First>,
    second: &mut Port<Second>,
    out: &mut S,
) -> Result<Status, Refusal>
    ensures { Puts S.takes
        (λ status text. (status ≡ Status.Done) × ListsHobs hex base (change First.remaining first.old first.new)
        (change Second.remaining second.old second.new) text)
        (StopsHobs base hex (change First.remaining first.old first.new) (change Second.remaining second.old second.new))
        out.old out.new result }
{
    let (list, image) = match read_inputs(alloc, hex, base, first, second) {
        Ok(inputs) => inputs,
        Err(fault) => return Err(Refusal::Input(fault)),
    };
    let (hobs, consumed) = match read_hobs(alloc, &list) {
        Ok(read) => read,
        Err(fault) => return Err(Refusal::Hobs(fault)),
    };
    put_hobs(out, hobs.as_slice(), consumed, image_of(&image, base));
    Ok(Status::Done)
}
