//! The last line of `survey`: how many bytes there are of each kind, and how many rows have
//! findings.

ghost use Rattle.std.specs.Prelude.{◌≡◌, ◌+◌, ◌<◌, ◌^◌, ◌++◌, [], codes, decimal, get_or, slice_get};
ghost use Rattle.std.specs.List.{flat_map};
ghost use Rattle.fv_survey_lines.specs.SurveyTexts.{count_text, has_other_findings, is_marked_only, is_sound, leaf_number, sum_text};
ghost use Rattle.fv_survey_lines.specs.inner.Totalled.{HasRoom, put_sums_text, sum_in, totals_of, totals_text, totals_with};

use crate::row_text::kind_word;
use fv_base::{FaultKind, Sink};
use fv_survey::{Findings, Row, RowKind};
use fv_text::put_decimal;

// The kinds of leaf rows, in the order of the last line.
static LEAF_KINDS: [RowKind; 17] = [
    RowKind::VolumeHeader,
    RowKind::ExtHeader,
    RowKind::FileHeader,
    RowKind::SectionHeader,
    RowKind::Data,
    RowKind::Body,
    RowKind::Packed,
    RowKind::Pad,
    RowKind::PadData,
    RowKind::Dead,
    RowKind::Stub,
    RowKind::Free,
    RowKind::Filler,
    RowKind::Between,
    RowKind::Gap,
    RowKind::Store,
    RowKind::Unread,
];

/// The totals of the rows of a survey.
#[derive(Clone, Copy)]
pub(crate) struct Totals {
    /// The number of bytes in the leaf rows of each kind, in the order of `LEAF_KINDS`.
    pub(crate) sums: [u64; 17],
    /// The number of rows with findings other than the mark of a fixed file.
    pub(crate) findings: u64,
    /// The number of rows whose only finding is the mark of a fixed file.
    pub(crate) fixed: u64,
    /// Whether no row is unread and no row has findings other than the mark of a fixed file.
    pub(crate) clean: bool,
}

// Returns the place of a kind in `LEAF_KINDS`, or 17 if rows of this kind are not leaf rows.
fn leaf_number(kind: RowKind) -> usize
    ensures { result ≡ leaf_number kind }
{
    match kind {
        RowKind::VolumeHeader => 0,
        RowKind::ExtHeader => 1,
        RowKind::FileHeader => 2,
        RowKind::SectionHeader => 3,
        RowKind::Data => 4,
        RowKind::Body => 5,
        RowKind::Packed => 6,
        RowKind::Pad => 7,
        RowKind::PadData => 8,
        RowKind::Dead => 9,
        RowKind::Stub => 10,
        RowKind::Free => 11,
        RowKind::Filler => 12,
        RowKind::Between => 13,
        RowKind::Gap => 14,
        RowKind::Store => 15,
        RowKind::Unread => 16,
        _ => 17,
    }
}

// Returns whether the only finding is the mark of a fixed file.
fn is_marked_only(findings: Findings) -> bool
    ensures { result ≡ is_marked_only findings }
{
    findings.bits() == Findings::of(FaultKind::Fixed).bits()
}

// Returns whether there are findings other than the mark of a fixed file.
fn has_other_findings(findings: Findings) -> bool
    ensures { result ≡ has_other_findings findings }
{
    !findings.is_empty() && !is_marked_only(findings)
}

// Returns whether a row is read and has no findings other than the mark of a fixed file.
fn is_sound(row: &Row) -> bool
    ensures { result ≡ is_sound row.now }
{
    leaf_number(row.kind) != 16 && !has_other_findings(row.findings)
}

/// Returns the totals of no rows.
pub(crate) fn no_totals() -> Totals
    ensures { result ≡ totals_of [] }
{
    Totals {
        sums: [0; 17],
        findings: 0,
        fixed: 0,
        clean: true,
    }
}

/// Returns the totals with one more row.
pub(crate) fn with_row(totals: Totals, row: &Row) -> Totals
    requires { HasRoom totals row.now }
    ensures { result ≡ totals_with totals row.now }
{
    let mut more = totals;
    let number = leaf_number(row.kind);
    if number < 17 {
        more.sums[number] += row.length;
    }
    more.findings += u64::from(has_other_findings(row.findings));
    more.fixed += u64::from(is_marked_only(row.findings));
    more.clean = totals.clean && is_sound(row);
    more
}

// Returns the number of bytes in the leaf rows of a kind.
fn sum_in(sums: &[u64; 17], kind: RowKind) -> u64
    ensures { result ≡ sum_in sums.now kind }
{
    match sums.get(leaf_number(kind)) {
        Some(sum) => *sum,
        None => 0,
    }
}

// Puts a kind and its number of bytes.
fn put_count<S: Sink>(out: &mut S, kind: RowKind, sum: u64)
    ensures { S.takes out.old (count_text kind sum) out.new }
{
    out.put(b" ");
    out.put(kind_word(kind));
    out.put(b" ");
    put_decimal(out, sum);
}

// Puts a kind and its number of bytes, if there are any.
fn put_sum<S: Sink>(out: &mut S, kind: RowKind, sum: u64)
    ensures { S.takes out.old (sum_text kind sum) out.new }
{
    if sum > 0 {
        put_count(out, kind, sum);
    }
}

// Puts each kind that occurs, and its number of bytes.
fn put_sums<S: Sink>(out: &mut S, sums: &[u64; 17])
    ensures { S.takes out.old (put_sums_text sums.now) out.new }
{
    for kind in &LEAF_KINDS {
        put_sum(out, *kind, sum_in(sums, *kind));
    }
}

/// Puts the last line. `size` is the number of bytes of the image.
pub(crate) fn put_totals<S: Sink>(out: &mut S, totals: &Totals, size: u64)
    ensures { S.takes out.old (totals_text size totals.now) out.new }
{
    out.put(b"sums");
    put_sums(out, &totals.sums);
    out.put(b" all ");
    put_decimal(out, size);
    out.put(b" findings ");
    put_decimal(out, totals.findings);
    out.put(b" fixed ");
    put_decimal(out, totals.fixed);
    out.put(b"\n");
}
