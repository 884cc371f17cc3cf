//! The text of `survey`: a line for each row, and a last line that accounts for all bytes.

ghost use Rattle.std.specs.Prelude.{◌≡◌, ℕ, take, IfErr, IfOk, OnErr, OnOk};
ghost use Rattle.fv_base.specs.Words.{out_of_memory};
ghost use Rattle.fv_survey.specs.Words.{survey_of};
ghost use Rattle.fv_survey_lines.specs.SurveyTexts.{AccountFor, account_text, is_clean, rows_text, survey_text};

use crate::row_text::put_row;
use crate::totals::{no_totals, put_totals, with_row};
use fv_base::{Fault, Sink};
use fv_survey::SurveyWalk;
use std::alloc::Global;

/// Puts a line for each row of a walk, and a last line with the number of bytes of each kind. The
/// rows account for `size` bytes, as the rows of the survey of this many bytes do. Returns whether
/// the bytes are clean: no row is unread, and no row has a finding other than the mark of a fixed
/// file. The rows are not kept: each line is put as soon as its row is known. (PI specification,
/// volume 3, section 3.2.)
///
/// # Errors
///
/// OutOfMemory at offset 0. The lines of the rows that were known have been put then.
pub fn put_rows<S: Sink>(
    alloc: Global,
    mut walk: SurveyWalk<'_>,
    size: usize,
    out: &mut S,
) -> Result<bool, Fault>
    requires account { AccountFor size walk }

    // The sink has taken a line for each row, and the last line.
    ensures text { OnOk result (S.takes out.old (account_text size walk.entry) out.new) }

    // The result says whether the bytes are clean.
    ensures clean { IfOk result (λ clean. clean ≡ is_clean walk.entry) }

    // The only error is OutOfMemory.
    ensures err { IfErr result (λ f. f ≡ out_of_memory) }

    // After an error the sink has taken the lines of the first rows.
    ensures front { OnErr result ((n : ℕ) × S.takes out.old (rows_text (take n walk.entry)) out.new) }
{
    let mut totals = no_totals();
    while let Some(row) = walk.next_row(alloc)? {
        put_row(out, &row);
        totals = with_row(totals, &row);
    }
    put_totals(out, &totals, size as u64);
    Ok(totals.clean)
}

/// Puts a line for each row of the survey of an image, and a last line with the number of bytes of
/// each kind. Returns whether the image is clean: no row is unread, and no row has a finding other
/// than the mark of a fixed file. The rows are not kept: each line is put as soon as its row is
/// known. (PI specification, volume 3, section 3.2.)
///
/// # Errors
///
/// OutOfMemory at offset 0. The lines of the rows that were known have been put then.
pub fn put_survey<S: Sink>(alloc: Global, image: &[u8], out: &mut S) -> Result<bool, Fault>
    // The sink has taken the text of the survey.
    ensures text { OnOk result (S.takes out.old (survey_text image.now) out.new) }

    // The result says whether the image is clean.
    ensures clean { IfOk result (λ clean. clean ≡ is_clean (survey_of image.now)) }

    // The only error is OutOfMemory.
    ensures err { IfErr result (λ f. f ≡ out_of_memory) }

    // After an error the sink has taken the lines of the first rows.
    ensures front { OnErr result ((n : ℕ) × S.takes out.old (rows_text (take n (survey_of image.now))) out.new) }
{
    let walk = SurveyWalk::of(alloc, image)?;
    put_rows(alloc, walk, image.len(), out)
}
