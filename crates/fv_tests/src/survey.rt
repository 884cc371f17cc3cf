//! Tests of fv_survey: the rows of small images, which were worked out by hand, and memory that runs
//! out.

mod images;
mod memory;
