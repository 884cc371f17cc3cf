//! The part of a leaf section that `list` shows: a build number, a text or a GUID.

ghost use Rattle.std.specs.Prelude.{◌≡◌, ◌++◌, ◌==◌, ◌&&◌, ℕ, List, codes, decimal, nat_le, not};
ghost use Rattle.std.specs.List.{flat_map};
ghost use Rattle.fv_base.specs.Words.{bytes_of, guid_text, words_of};
ghost use Rattle.fv_base.specs.declared.guid.Guid.{Guid};
ghost use Rattle.fv_section.specs.Words.{IsFreeform, IsText, IsVersion};
ghost use Rattle.fv_tree.specs.Words.{body_of, section_kind_of};
ghost use Rattle.fv_lines.specs.ListTexts.{BodyShown, LeafText, Shows, unit_text};

use fv_base::Sink;
use fv_base::field::u16_at;
use fv_section::section_type::{FREEFORM_SUBTYPE_GUID, USER_INTERFACE, VERSION};
use fv_section::{freeform, ui_text, version};
use fv_text::{put_decimal, put_four_digits};
use fv_tree::SectionView;

// Returns whether a 16-bit unit is shown as a character: printable ASCII, except the quote and the
// backslash.
fn is_plain(unit: u16) -> bool
    ensures { result ≡ (nat_le 0x20 unit && (nat_le unit 0x7e && (not (unit == 0x22) && not (unit == 0x5c)))) }
{
    0x20 <= unit && unit <= 0x7e && unit != 0x22 && unit != 0x5c
}

// Puts a 16-bit unit of a text: as a character, or as `\u` and four digits.
fn put_unit<S: Sink>(out: &mut S, unit: u16)
    ensures { S.takes out.old (unit_text unit) out.new }
{
    if is_plain(unit) {
        out.put(&[unit as u8]);
    } else {
        out.put(b"\\u");
        put_four_digits(out, unit);
    }
}

// Puts the 16-bit units of a text.
fn put_units<S: Sink>(out: &mut S, units: &[u8])
    ensures { S.takes out.old (flat_map unit_text (words_of units.now)) out.new }
{
    let mut rest = units;
    while rest.len() >= 2 {
        put_unit(out, u16_at(rest, 0));
        rest = &rest[2..];
    }
}

// Puts the build number of a version section, if the body has the format of a version section.
fn put_version<S: Sink>(out: &mut S, body: &[u8])
    ensures { (text : List ℕ) × Shows (λ (build : ℕ). (units : List ℕ) × IsVersion body.now build units)
        (λ build. codes " version " ++ decimal build) text
        × S.takes out.old text out.new }
{
    match version(body) {
        Some((build, _)) => {
            out.put(b" version ");
            put_decimal(out, u64::from(build));
        }
        None => {}
    }
}

// Puts the text of a user interface section, if the body has the format of a user interface
// section.
fn put_interface<S: Sink>(out: &mut S, body: &[u8])
    ensures { (text : List ℕ) × Shows (λ (units : List ℕ). IsText body.now units)
        (λ units. codes " ui \"" ++ (flat_map unit_text (words_of units) ++ codes "\"")) text
        × S.takes out.old text out.new }
{
    match ui_text(body) {
        Some(units) => {
            out.put(b" ui \"");
            put_units(out, units);
            out.put(b"\"");
        }
        None => {}
    }
}

// Puts the GUID of a freeform subtype section, if the body has the format of a freeform subtype
// section.
fn put_subtype<S: Sink>(out: &mut S, body: &[u8])
    ensures { (text : List ℕ) × Shows (λ (guid : Guid). (rest : List ℕ) × IsFreeform body.now guid rest)
        (λ guid. codes " subtype " ++ guid_text (bytes_of guid)) text
        × S.takes out.old text out.new }
{
    match freeform(body) {
        Some((guid, _)) => {
            out.put(b" subtype ");
            out.put(&guid.text());
        }
        None => {}
    }
}

// Puts the text that `list` shows for the body of a leaf, which depends on the section's type.
fn put_leaf<S: Sink>(out: &mut S, kind: u8, body: &[u8])
    ensures { (text : List ℕ) × LeafText kind body.now text × S.takes out.old text out.new }
{
    match kind {
        VERSION => put_version(out, body),
        USER_INTERFACE => put_interface(out, body),
        FREEFORM_SUBTYPE_GUID => put_subtype(out, body),
        _ => {}
    }
}

/// Puts the text that `list` shows for the body of a section. Puts nothing if the section is not a
/// leaf.
pub fn put_section_body<S: Sink>(out: &mut S, section: &SectionView<'_, '_>)
    ensures { (text : List ℕ) × BodyShown (section_kind_of section.now) (body_of section.now) text
        × S.takes out.old text out.new }
{
    match section.leaf() {
        Some(body) => put_leaf(out, section.kind(), body),
        None => {}
    }
}
