//! The lines of `survey`: one for each row.

ghost use Rattle.std.specs.Prelude.{◌≡◌, ◌==◌, ◌<◌};
ghost use Rattle.std.specs.Int.{bit_at};
ghost use Rattle.fv_survey_lines.specs.RowLines.{file_text, findings_text, found_text, kind_word, number_text, row_line};
ghost use Rattle.fv_survey_lines.specs.RowLines.{spaces, subject_text, type_text, volume_text, word_after};

use fv_base::Sink;
use fv_survey::{Findings, Row, RowKind};
use fv_text::{put_decimal, put_two_digits};

/// Returns the word for a kind of rows.
pub(crate) fn kind_word(kind: RowKind) -> &'static [u8]
    ensures { result.now ≡ kind_word kind }
{
    match kind {
        RowKind::Volume => b"volume",
        RowKind::File => b"file",
        RowKind::Section => b"section",
        RowKind::Lost => b"lost",
        RowKind::VolumeHeader => b"volume-header",
        RowKind::ExtHeader => b"ext-header",
        RowKind::FileHeader => b"file-header",
        RowKind::SectionHeader => b"section-header",
        RowKind::Data => b"data",
        RowKind::Body => b"body",
        RowKind::Packed => b"packed",
        RowKind::Pad => b"pad",
        RowKind::PadData => b"pad-data",
        RowKind::Dead => b"deleted",
        RowKind::Stub => b"unfinished",
        RowKind::Free => b"free",
        RowKind::Filler => b"filler",
        RowKind::Between => b"between",
        RowKind::Gap => b"gap",
        RowKind::Store => b"store",
        RowKind::Unread => b"unread",
    }
}

// Puts two spaces for each row around a row.
fn put_indent<S: Sink>(out: &mut S, depth: u16)
    ensures { S.takes out.old (spaces depth) out.new }
{
    let mut left = depth;
    while left > 0 {
        out.put(b"  ");
        left -= 1;
    }
}

// Returns the word for a volume that was found by its signature.
fn found_word(found: bool) -> &'static [u8]
    ensures { result.now ≡ found_text found }
{
    if found { b" found" } else { b"" }
}

// Puts the file system of a volume, and whether the volume was found by its signature.
fn put_volume<S: Sink>(out: &mut S, row: &Row)
    ensures { S.takes out.old (volume_text row.now) out.new }
{
    out.put(b" system ");
    out.put(&row.name.text());
    out.put(found_word(row.found));
}

// Puts the type of a file or a section.
fn put_type<S: Sink>(out: &mut S, code: u8)
    ensures { S.takes out.old (type_text code) out.new }
{
    out.put(b" type ");
    put_two_digits(out, code);
}

// Puts the name and the type of a file.
fn put_file<S: Sink>(out: &mut S, row: &Row)
    ensures { S.takes out.old (file_text row.now) out.new }
{
    out.put(b" ");
    out.put(&row.name.text());
    put_type(out, row.code);
}

// Puts what a volume, a file or a section is.
fn put_subject<S: Sink>(out: &mut S, row: &Row)
    ensures { S.takes out.old (subject_text row.now.kind row.now) out.new }
{
    match row.kind {
        RowKind::Volume => put_volume(out, row),
        RowKind::File => put_file(out, row),
        RowKind::Section => put_type(out, row.code),
        _ => {}
    }
}

// Returns whether the bit of a number is set.
fn is_set(bits: u32, number: u32) -> bool
    requires { number < 32 }
    ensures { result ≡ (bit_at bits number == 1) }
{
    bits >> number & 1 == 1
}

// Puts a number after the word, if its bit is set. Returns the word before the next number.
fn put_number<S: Sink>(out: &mut S, word: &'static [u8], bits: u32, number: u32) -> &'static [u8]
    requires { number < 32 }
    ensures put { S.takes out.old (number_text word.now number bits) out.new }
    ensures word { result.now ≡ word_after word.now number bits }
{
    if !is_set(bits, number) {
        return word;
    }
    out.put(word);
    put_decimal(out, u64::from(number));
    b","
}

// Puts the numbers of the findings, in order.
fn put_findings<S: Sink>(out: &mut S, findings: Findings)
    ensures { S.takes out.old (findings_text findings) out.new }
{
    let bits = findings.bits();
    let mut word: &'static [u8] = b" finding ";
    for number in 0..32 {
        word = put_number(out, word, bits, number);
    }
}

/// Puts the line of a row.
pub(crate) fn put_row<S: Sink>(out: &mut S, row: &Row)
    ensures { S.takes out.old (row_line row.now) out.new }
{
    put_indent(out, row.depth);
    out.put(kind_word(row.kind));
    out.put(b" at ");
    put_decimal(out, row.offset);
    out.put(b" length ");
    put_decimal(out, row.length);
    put_subject(out, row);
    put_findings(out, row.findings);
    out.put(b"\n");
}
