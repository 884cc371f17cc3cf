//! The lines of `hobs`, and the content of an image where a volume should be.

ghost use Rattle.std.specs.Prelude.{◌≡◌, ◌++◌, ℕ, List, MatchOption, codes, decimal, length};
ghost use Rattle.fv_hob.specs.Words.{span_of};
ghost use Rattle.fv_text.specs.Words.{line_feed};
ghost use Rattle.fv_lines.specs.HobLines.{HobsText, IsSpanWord, hob_line, span_content_word, held_image};
ghost use Rattle.fv_lines.specs.HobLines.{IsMapped, IsSpanContent, bytes_in_span};

use fv_base::Sink;
use fv_base::field::field;
use fv_head::verify_fv;
use fv_hob::{Hob, Span};
use fv_text::{put_decimal, put_four_digits};

/// The content of an image in a span where a volume should be.
#[derive(Clone, Copy, Debug, PartialEq, Eq)]
pub enum SpanContent {
    /// The span is not within the image.
    Outside,
    /// `verify_fv` accepts the bytes of the span, and the length in the extent that it returns is the
    /// length of the span. The body of the volume is not checked.
    Volume,
    /// The span is within the image, but no volume fills it.
    Absent,
}

impl SpanContent {
    /// Returns the word for this content, after a space: `outside`, `volume` or `absent`.
    pub fn word(self) -> &'static str
        ensures { result.now ≡ span_content_word self }
    {
        match self {
            SpanContent::Outside => " outside",
            SpanContent::Volume => " volume",
            SpanContent::Absent => " absent",
        }
    }
}

/// An image, and the address of its first byte.
#[derive(Clone, Copy)]
pub struct MappedImage<'a> {
    /// The bytes of the image.
    pub bytes: &'a [u8],
    /// The address of the first byte.
    pub base: u64,
}

// Returns the bytes of the image in a span, or None if the span is not within the image.
fn span_bytes(image: &[u8], base: u64, span: Span) -> Option<&[u8]>
    ensures { MatchOption result (IsMapped base (length image.now) span → ⊥)
        (λ b. IsMapped base (length image.now) span × (b.now ≡ bytes_in_span image.now base span)) }
{
    let size = image.len() as u64;
    if span.base < base || span.length > size || span.base - base > size - span.length {
        return None;
    }
    let start = (span.base - base) as usize;
    Some(field(image, start, span.length as usize))
}

/// Returns the content of an image in a span where a volume should be. `base` is the address of the
/// image's first byte. Addresses are compared as whole numbers, and nothing wraps.
pub fn span_content(image: &[u8], base: u64, span: Span) -> SpanContent
    ensures { IsSpanContent image.now base span result }
{
    let Some(bytes) = span_bytes(image, base, span) else {
        return SpanContent::Outside;
    };
    match verify_fv(bytes) {
        Ok(extent) if extent.length == span.length => SpanContent::Volume,
        _ => SpanContent::Absent,
    }
}

// Returns the word for the volume that a block describes, or an empty text if the block describes
// no volume or there is no image.
fn word_of(hob: &Hob, image: Option<MappedImage<'_>>) -> &'static str
    ensures { IsSpanWord (held_image image.entry) (span_of hob.now.kind) result.now }
{
    match (hob.span(), image) {
        (Some(span), Some(image)) => span_content(image.bytes, image.base, span).word(),
        _ => "",
    }
}

// Puts the line of a block. `word` is put at its end.
fn put_hob<S: Sink>(out: &mut S, code: u16, length: u16, word: &str)
    ensures { S.takes out.old (hob_line code length word.now) out.new }
{
    out.put(b"hob ");
    put_four_digits(out, code);
    out.put(b" length ");
    put_decimal(out, u64::from(length));
    out.put(word.as_bytes());
    out.put(b"\n");
}

// Puts the last line, which shows how many bytes the list has.
fn put_consumed<S: Sink>(out: &mut S, consumed: u64)
    ensures { S.takes out.old (codes "consumed " ++ (decimal consumed ++ line_feed)) out.new }
{
    out.put(b"consumed ");
    put_decimal(out, consumed);
    out.put(b"\n");
}

/// Puts a line for each block of a hand-off list, and a last line that shows how many bytes the
/// list has. If there is an image, the line of a block that describes a volume also shows the
/// content of the image there.
pub fn put_hobs<S: Sink>(out: &mut S, hobs: &[Hob], consumed: u64, image: Option<MappedImage<'_>>)
    ensures { (text : List ℕ) × HobsText (held_image image.entry) hobs.now consumed text
        × S.takes out.old text out.new }
{
    for hob in hobs {
        put_hob(out, hob.code(), hob.length(), word_of(hob, image));
    }
    put_consumed(out, consumed);
}
