//! Putting the result of an extraction.

ghost use Rattle.std.specs.Prelude.{ℕ, List};
ghost use Rattle.fv_extract.specs.ExtractionTexts.{ExtractionText};

use crate::extracting::Extraction;
use fv_base::Sink;
use fv_text::put_shown;

/// What an extraction has put.
#[derive(Clone, Copy, Debug, PartialEq, Eq)]
pub enum Outcome {
    /// The bytes of the part.
    Put,
    /// Nothing: the part does not exist.
    NotFound,
    /// Nothing: a section is requested, but the data of the file are not sections.
    NotSectioned,
}

/// Puts the bytes of the part, if the extraction has given them: as hexadecimal text if `hex` is
/// true, otherwise as they are. Returns what it has put.
pub fn put_extraction<S: Sink>(out: &mut S, hex: bool, extraction: &Extraction<'_>) -> Outcome
    ensures { (text : List ℕ) × ExtractionText hex extraction.now result text × S.takes out.old text out.new }
{
    match extraction {
        Extraction::Made(bytes) => {
            put_shown(out, hex, bytes.as_slice());
            Outcome::Put
        }
        Extraction::Stored(bytes) => {
            put_shown(out, hex, bytes);
            Outcome::Put
        }
        Extraction::NotFound => Outcome::NotFound,
        Extraction::NotSectioned => Outcome::NotSectioned,
    }
}
