//! The commands of the program, over readers and a writer.
//!
//! A `.._run` module runs a command: it reads its inputs, or is given them, and puts its text into
//! the sink of the run. Most lines come from fv_lines; the module `fault_text` puts the lines of
//! faults. Contracts see a reader by the bytes that it has left and a writer by the bytes that it
//! holds, if these are known, and both by whether one of their calls has failed.
#![tactic(auto)]

mod check_run;
mod comparison_run;
mod ending;
mod extract_run;
mod fault_text;
mod hob_run;
mod image_check_run;
mod inputs;
mod open_run;
mod opener;
mod packed;
mod pads;
mod plan_run;
mod run_end;
mod same_run;
mod shown_image;
mod source;
mod status;
mod survey_run;
mod task_run;
mod unfix_run;

pub use ending::{Ending, Refusal};
pub use fault_text::{end_with_line, end_with_refusal};
pub use opener::{Opener, run_over};
pub use plan_run::run_plan;
pub use source::Source;
pub use status::Status;
