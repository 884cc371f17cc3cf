//! The command `survey`: what each byte of an image is, whatever is wrong with the image.

ghost use Rattle.std.specs.Prelude.{◌≡◌, ℕ, List, IfErr, IfOk};
ghost use Rattle.fv_command.specs.SurveyRuns.{OpenedSurveyText, SurveyRunText, survey_status};

use crate::status::Status;
use fv_base::{Fault, Sink};
use fv_budget::Budget;
use fv_level_lines::put_levels;
use fv_survey_lines::put_survey;
use std::alloc::Global;

// Returns the status of a survey, from whether everything in it is clean, or from the fault that
// memory ran out.
fn survey_status(clean: Result<bool, Fault>) -> Status
    ensures whole { IfOk clean (λ clean. result ≡ survey_status clean) }
    ensures cut { IfErr clean (λ _. result ≡ Status.Incomplete) }
{
    match clean {
        Ok(true) => Status::Done,
        Ok(false) => Status::Different,
        Err(_) => Status::Incomplete,
    }
}

/// Puts the lines of `survey` for an image. Returns Done if the image is clean, otherwise Different;
/// or Incomplete if memory ran out, after the lines of the first rows.
pub fn put_surveyed<S: Sink>(alloc: Global, image: &[u8], out: &mut S) -> Status
    ensures { (text : List ℕ) × SurveyRunText image.now result text × S.takes out.old text out.new }
{
    survey_status(put_survey(alloc, image, out))
}

/// Puts the lines of `survey --open` for an image: of the image, and of the contents of its packed
/// sections at every level. Returns Done if all of these are clean and no section is left closed,
/// otherwise Different; or Incomplete if memory ran out, after the first lines.
pub fn put_surveyed_opened<S: Sink>(alloc: Global, image: &[u8], out: &mut S) -> Status
    ensures { (text : List ℕ) × OpenedSurveyText image.now result text × S.takes out.old text out.new }
{
    survey_status(put_levels(alloc, image, Budget::full(), out))
}
