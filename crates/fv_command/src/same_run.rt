//! The command `same`: whether two images mean the same at every level.

ghost use Rattle.std.specs.Prelude.{◌≡◌, IfErr, IfOk, is_none};
ghost use Rattle.fv_base.specs.Words.{out_of_memory};
ghost use Rattle.fv_text.specs.Words.{change};
ghost use Rattle.fv_command.specs.SameRuns.{IsSameAnswer, SameRunText, SameStops, place_text, same_line};
ghost use Rattle.fv_command.specs.inner.RunSteps.{Puts, verdict_of};

use crate::comparison_run::{read_side, verdict};
use crate::status::Status;
use fv_base::{Fault, Port, Sink};
use fv_budget::Budget;
use fv_compare::Side;
use fv_levels::open_all;
use fv_same::{Difference, PartPlace, first_difference};
use fv_text::put_decimal;
use std::alloc::Global;
use std::io::Read;

// Puts where a part is, or `none`.
fn put_place<S: Sink>(out: &mut S, place: Option<PartPlace>)
    ensures { S.takes out.old (place_text place) out.new }
{
    match place {
        Some(place) => {
            put_decimal(out, place.source as u64);
            out.put(b" at ");
            put_decimal(out, place.offset);
            out.put(b" length ");
            put_decimal(out, place.length);
        }
        None => out.put(b"none"),
    }
}

// Puts the line for two images: `same`, or where they first differ.
fn put_same_line<S: Sink>(out: &mut S, found: Option<Difference>)
    ensures { S.takes out.old (same_line found) out.new }
{
    match found {
        Some(difference) => {
            out.put(b"different: first ");
            put_place(out, difference.first);
            out.put(b", second ");
            put_place(out, difference.second);
            out.put(b"\n");
        }
        None => out.put(b"same\n"),
    }
}

// Returns where two images first differ with their packed sections opened, or None if they mean the
// same.
fn image_difference(alloc: Global, first: &[u8], second: &[u8]) -> Result<Option<Difference>, Fault>
    ensures ok { IfOk result (λ found. IsSameAnswer first.now second.now found (verdict_of (is_none found))) }
    ensures err { IfErr result (λ f. f ≡ out_of_memory) }
{
    let one = open_all(alloc, first, Budget::full())?;
    let other = open_all(alloc, second, Budget::full())?;
    first_difference(alloc, &one, &other)
}

/// Puts whether two images mean the same at every level and, if not, where they first differ. The
/// images may have any bytes, and their packed sections are opened. The second input is read only if
/// the first was read to its end.
///
/// # Errors
///
/// The faults of reading, with the side of the input. OutOfMemory, with the side First, if memory
/// runs out after both inputs were read. Nothing has been put in that case.
pub fn put_same<First: Read, Second: Read, S: Sink>(
    alloc: Global,
    hex: bool,
    first: &mut Port<First>,
    second: &mut Port<Second>,
    out: &mut S,
) -> Result<Status, (Side, Fault)>
    ensures { Puts S.takes (SameRunText hex (change First.remaining first.old first.new) (change Second.remaining second.old second.new))
        (λ e. SameStops e.0 hex (change First.remaining first.old first.new) (change Second.remaining second.old second.new) e.1)
        out.old out.new result }
{
    let bytes = read_side(alloc, hex, Side::First, first)?;
    let other = read_side(alloc, hex, Side::Second, second)?;
    match image_difference(alloc, &bytes, &other) {
        Ok(found) => {
            put_same_line(out, found);
            Ok(verdict(found.is_none()))
        }
        Err(fault) => Err((Side::First, fault)),
    }
}
