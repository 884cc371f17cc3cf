//! Laws of the definitions. The functions do nothing: their contracts are the laws. They only call
//! laws of the crates below.

ghost use Rattle.std.specs.Prelude.{◌≡◌, ◌<◌, ◌+◌, ◌-◌, ◌^◌, ◌++◌, ℕ, List, Some, length, slice_get};
ghost use Rattle.std.specs.List.{concat, sum_by};
ghost use Rattle.fv_budget.specs.declared.budget.Budget.{Budget};
ghost use Rattle.fv_levels.specs.Words.{AreLevels, Attempt, LevelsForm, SourceForm, levels_of, rows_of};
ghost use Rattle.fv_levels.specs.declared.place.Closed.{Closed};
ghost use Rattle.fv_survey_lines.specs.Words.{bytes_of_kind, leaf_kinds, survey_text};
ghost use Rattle.fv_level_lines.specs.LevelTexts.{closed_line, levels_text, source_lines};

use fv_levels::further_laws::no_section_is_missing;
use fv_survey::further_laws::sections_keep_the_laws;

/// The text of all levels of an image begins with the text of the survey of the image.
pub fn the_survey_comes_first()
    ensures { (image : List ℕ) (s : Budget) → (rest : List ℕ) × (levels_text (levels_of image s) ≡ survey_text image ++ rest) }
{}

/// The text has the lines of each source one after another, and the line of each closed section.
pub fn nothing_is_left_out()
    ensures sources { (w : LevelsForm) (number : ℕ) (s : SourceForm) → slice_get w.sources number ≡ Some s
        → (before : List ℕ) × (after : List ℕ) × (levels_text w ≡ before ++ (concat (source_lines number s) ++ after)) }
    ensures closed { (w : LevelsForm) (number : ℕ) (c : Closed) → slice_get w.closed number ≡ Some c
        → (before : List ℕ) × (after : List ℕ) × (levels_text w ≡ before ++ (closed_line c ++ after)) }
{}

/// The last line of each source accounts for each of its bytes once: the numbers of bytes of all kinds
/// add up to the number of bytes of the source.
pub fn bytes_of_each_source_add_up()
    ensures { (s : SourceForm) → length s.bytes < 2 ^ 63
        → sum_by (λ kind. bytes_of_kind kind (rows_of s)) leaf_kinds ≡ length s.bytes }
{
    sections_keep_the_laws();
}

/// The two numbers of the last line of the text add up to the number of attempts to open a section.
/// `no_section_is_missing` of fv_levels says that each packed section of each source is tried, or lies
/// in a section that is opened.
pub fn sections_add_up()
    ensures { (image : List ℕ) (s : Budget) (levels : LevelsForm) (attempts : List Attempt) → AreLevels image s levels attempts
        → length levels.sources - 1 + length levels.closed ≡ length attempts }
{
    no_section_is_missing();
}
