//! The calls of fv_canon: runs that write canonical images, and runs that compare two volumes.

mod memory;
mod stopping_comparisons;
mod stopping_runs;
