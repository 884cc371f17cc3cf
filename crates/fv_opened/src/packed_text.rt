//! The end of the line of a packed section.

ghost use Rattle.std.specs.Prelude.{◌≡◌};
ghost use Rattle.fv_opened.specs.OpenedTexts.{caution_text, fault_text, opened_text, spent_text, too_deep_text, unlisted_text};
ghost use Rattle.fv_opened.specs.OpenedTexts.{unopened_text, way_text};

use fv_base::{Fault, Sink};
use fv_budget::{ran_out_opening, ran_out_reading};
use fv_open::{OpenFault, Way};
use fv_text::put_decimal;

// Returns the words for a way. The length of the contents follows them.
fn way_words(way: Way) -> &'static [u8]
    ensures { result.now ≡ way_text way }
{
    match way {
        Way::Stored => b" stored ",
        Way::Standard => b" standard ",
        Way::Uefi => b" uefi ",
        Way::Tiano => b" tiano ",
        Way::Customized => b" customized ",
        Way::Lzma => b" lzma ",
        Way::LzmaX86 => b" lzma-x86 ",
        Way::Crc32 => b" crc32 ",
        Way::Signed => b" signed ",
        Way::Plain => b" plain ",
    }
}

// Returns the words which say that a signature is not verified, if the way has one.
fn caution_words(way: Way) -> &'static [u8]
    ensures { result.now ≡ caution_text way }
{
    match way {
        Way::Signed => b" not verified",
        _ => b"",
    }
}

/// Puts the way that gave the contents of a section, and their length in bytes. Says of a signature
/// that it is not verified.
pub fn put_way<S: Sink>(out: &mut S, way: Way, length: usize)
    ensures { S.takes out.old (opened_text way length) out.new }
{
    out.put(way_words(way));
    put_decimal(out, length as u64);
    out.put(caution_words(way));
}

// Puts the number and the offset of a fault, and ends the line.
fn put_fault<S: Sink>(out: &mut S, number: u8, offset: u64)
    ensures { S.takes out.old (fault_text number offset) out.new }
{
    out.put(b"fault ");
    put_decimal(out, u64::from(number));
    out.put(b" at +");
    put_decimal(out, offset);
    out.put(b"\n");
}

/// Puts the fault because of which a section is not opened, and ends the section's line. The offset of
/// the fault counts from the first byte of the section, and is marked with `+`.
pub fn put_unopened<S: Sink>(out: &mut S, fault: OpenFault)
    ensures { S.takes out.old (unopened_text fault) out.new }
{
    if ran_out_opening(fault.kind) {
        out.put(b" not opened: out of memory\n");
    } else {
        out.put(b" not opened: section ");
        put_fault(out, fault.number(), fault.offset);
    }
}

/// Puts that a section is not opened because 8 opened sections are around it, and ends its line.
pub fn put_too_deep<S: Sink>(out: &mut S)
    ensures { S.takes out.old too_deep_text out.new }
{
    out.put(b" not opened: nested too deep\n");
}

/// Puts that a section is not opened because nothing is left of the budget, and ends its line.
pub fn put_spent<S: Sink>(out: &mut S)
    ensures { S.takes out.old spent_text out.new }
{
    out.put(b" not opened: total limit reached\n");
}

/// Puts why the contents of a section are not listed, and ends the section's line.
pub(crate) fn put_unlisted<S: Sink>(out: &mut S, fault: Fault)
    ensures { S.takes out.old (unlisted_text fault) out.new }
{
    if ran_out_reading(fault.kind) {
        out.put(b" not read: out of memory\n");
    } else {
        out.put(b" not sections: ");
        put_fault(out, fault.kind.number(), fault.place.offset);
    }
}
