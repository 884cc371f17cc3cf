//! The text of `survey --open`.

ghost use Rattle.std.specs.Prelude.{◌≡◌, ◌-◌, ℕ, drop, length, take, IfErr, IfOk, OnErr, OnOk};
ghost use Rattle.std.specs.List.{concat, list_all};
ghost use Rattle.fv_base.specs.Words.{out_of_memory};
ghost use Rattle.fv_levels.specs.Words.{levels_of, rows_of};
ghost use Rattle.fv_survey_lines.specs.Words.{is_clean};
ghost use Rattle.fv_level_lines.specs.LevelTexts.{are_clean, counts_line, levels_lines, levels_text, sources_lines};

use crate::closed_text::put_closed;
use crate::source_text::put_source;
use fv_base::{Fault, Sink};
use fv_budget::Budget;
use fv_levels::{Levels, open_all};
use fv_survey_lines::put_survey;
use fv_text::put_decimal;
use std::alloc::Global;

// Puts the lines of all sources after the image. Returns whether these sources are clean.
fn put_sources<S: Sink>(alloc: Global, levels: &Levels<'_>, out: &mut S) -> Result<bool, Fault>
    ensures text { OnOk result (S.takes out.old (concat (sources_lines 1 (drop 1 levels.now.sources))) out.new) }
    ensures clean { IfOk result (λ clean. clean ≡ list_all (λ s. is_clean (rows_of s)) (drop 1 levels.now.sources)) }
    ensures err { IfErr result (λ f. f ≡ out_of_memory) }
    ensures front { OnErr result ((n : ℕ) × S.takes out.old (concat (take n (sources_lines 1 (drop 1 levels.now.sources)))) out.new) }
{
    let mut clean = true;
    for number in 1..levels.count() {
        let source_is_clean = put_source(alloc, levels, number, out)?;
        clean = clean && source_is_clean;
    }
    Ok(clean)
}

// Puts the last line.
fn put_counts<S: Sink>(out: &mut S, levels: &Levels<'_>)
    ensures { S.takes out.old (counts_line levels.now) out.new }
{
    out.put(b"opened ");
    put_decimal(out, levels.count().saturating_sub(1) as u64);
    out.put(b" closed ");
    put_decimal(out, levels.closed().len() as u64);
    out.put(b"\n");
}

/// Puts the text of `put_survey`, and then the lines of the contents of packed sections. `open_all`
/// opens the packed sections of the image and of their contents, at every level, within `budget`. Each
/// opened section has a line that says where it is, which way gave its contents, and how long they
/// are; then the contents have the lines of their survey, in which offsets are from the first byte of
/// the contents, and a last line of their own. Each section that is not opened has a line with the
/// reason. The last line has the number of opened and of closed sections. Returns whether everything
/// is clean: no row of the image and of the contents is unread or has a finding other than the mark of
/// a fixed file, and no section is closed.
///
/// All contents are in memory until the text is put. Their rows are not kept. (PI specification,
/// volume 3, sections 3.2, 3.2.4, 3.2.5.2 and 3.2.5.7.)
///
/// # Errors
///
/// OutOfMemory at offset 0. The lines that were known have been put then.
pub fn put_levels<S: Sink>(
    alloc: Global,
    image: &[u8],
    budget: Budget,
    out: &mut S,
) -> Result<bool, Fault>
    // The sink has taken the text of all levels of the image.
    ensures text { OnOk result (S.takes out.old (levels_text (levels_of image.now budget)) out.new) }

    // The result says whether all levels are clean.
    ensures clean { IfOk result (λ clean. clean ≡ are_clean (levels_of image.now budget)) }

    // The only error is OutOfMemory.
    ensures err { IfErr result (λ f. f ≡ out_of_memory) }

    // After an error the sink has taken the first lines of this text.
    ensures front { OnErr result ((n : ℕ) × S.takes out.old (concat (take n (levels_lines (levels_of image.now budget)))) out.new) }
{
    let image_is_clean = put_survey(alloc, image, out)?;
    let levels = open_all(alloc, image, budget)?;
    let sources_are_clean = put_sources(alloc, &levels, out)?;
    put_closed(out, levels.closed());
    put_counts(out, &levels);
    let is_open = levels.closed().is_empty();
    Ok(image_is_clean && sources_are_clean && is_open)
}
