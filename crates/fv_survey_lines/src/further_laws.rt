//! Laws of the definitions. The functions do nothing: their contracts are the laws.

ghost use Rattle.std.specs.Prelude.{◌≡◌, ◌<◌, ◌^◌, ℕ, List, length};
ghost use Rattle.std.specs.List.{sum_by};
ghost use Rattle.fv_survey.specs.Words.{survey_of};
ghost use Rattle.fv_survey_lines.specs.SurveyTexts.{bytes_of_kind, leaf_kinds};

/// The last line accounts for each byte of an image once: the numbers of bytes of all kinds add up
/// to the number of bytes of the image.
pub fn bytes_add_up()
    ensures { (image : List ℕ) → length image < 2 ^ 63
        → sum_by (λ kind. bytes_of_kind kind (survey_of image)) leaf_kinds ≡ length image }
{}
