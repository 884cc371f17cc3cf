//! The lines of a source: its own line, and the lines of its survey.

ghost use Rattle.std.specs.Prelude.{◌≡◌, ◌<◌, ◌^◌, ℕ, Some, length, slice_get, take, IfErr, IfOk, OnErr, OnOk};
ghost use Rattle.std.specs.List.{concat};
ghost use Rattle.fv_base.specs.Words.{out_of_memory};
ghost use Rattle.fv_levels.specs.Words.{SourceForm, rows_of};
ghost use Rattle.fv_survey_lines.specs.Words.{is_clean};
ghost use Rattle.fv_level_lines.specs.LevelTexts.{head_lines, place_text, source_line, source_lines};

use fv_base::{Fault, Sink};
use fv_levels::{Levels, Origin, PackedPlace};
use fv_opened::put_way;
use fv_survey::further_laws::sections_keep_the_laws;
use fv_survey_lines::put_rows;
use fv_text::put_decimal;
use std::alloc::Global;

/// Puts where a packed section is.
pub(crate) fn put_place<S: Sink>(out: &mut S, place: &PackedPlace)
    ensures { S.takes out.old (place_text place.now) out.new }
{
    out.put(b" in ");
    put_decimal(out, place.source as u64);
    out.put(b" at ");
    put_decimal(out, place.offset);
    out.put(b" length ");
    put_decimal(out, place.length);
}

// Puts the line of a source that has `size` bytes.
fn put_source_line<S: Sink>(out: &mut S, number: usize, origin: &Origin, size: usize)
    ensures { S.takes out.old (source_line number origin.now size) out.new }
{
    out.put(b"source ");
    put_decimal(out, number as u64);
    put_place(out, &origin.place);
    put_way(out, origin.way, size);
    out.put(b"\n");
}

// Puts the line of a source that is the contents of a section, and nothing for the image.
fn put_head<S: Sink>(out: &mut S, number: usize, origin: Option<Origin>, size: usize)
    ensures { S.takes out.old (concat (head_lines number origin size)) out.new }
{
    if let Some(origin) = origin {
        put_source_line(out, number, &origin, size);
    }
}

// Returns the number of the bytes.
fn size_of(bytes: &[u8]) -> usize
    ensures size { result ≡ length bytes.now }
    ensures room { result < 2 ^ 63 }
{
    bytes.len()
}

/// Puts the lines of the source with this number. Returns whether the source is clean.
pub(crate) fn put_source<S: Sink>(
    alloc: Global,
    levels: &Levels<'_>,
    number: usize,
    out: &mut S,
) -> Result<bool, Fault>
    ensures text { (s : SourceForm) → slice_get levels.now.sources number ≡ Some s
        → OnOk result (S.takes out.old (concat (source_lines number s)) out.new) }
    ensures clean { (s : SourceForm) → slice_get levels.now.sources number ≡ Some s → IfOk result (λ clean. clean ≡ is_clean (rows_of s)) }
    ensures err { IfErr result (λ f. f ≡ out_of_memory) }
    ensures front { (s : SourceForm) → slice_get levels.now.sources number ≡ Some s
        → OnErr result ((n : ℕ) × S.takes out.old (concat (take n (source_lines number s))) out.new) }
{
    let Some(source) = levels.source(number) else {
        return Ok(true);
    };
    sections_keep_the_laws();
    let walk = source.walk(alloc)?;
    let size = size_of(source.bytes);
    put_head(out, number, source.origin, size);
    put_rows(alloc, walk, size, out)
}
