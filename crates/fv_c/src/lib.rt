//! The reader, the checker, the rebuilder and the comparer for programs written in C. The calls of
//! `libfv/include/fv.h` are in `libfv/src/calls.c`. Each checks its pointers, and then makes the call
//! of this crate that has the same parameters: `fv_header_read` calls `fvp_header_read`.
//!
//! A call returns 0 if it succeeds. A number below 256 is a fault of a volume. 256 means that a
//! buffer is too small, and 257 that the tree has no row with the number that was passed. 512 and
//! more are faults of dependency expressions, 768 and more are faults of hand-off lists, and 1024 and
//! more are faults of sections that are opened. If a call does not return 0, the caller's buffer is
//! unchanged: the clause `kept` states this. (Only the surveys, `fvp_variables_read` and
//! `fvp_signatures_read` may have written their first rows then.) The clause `small` states when a
//! call returns 256, and the length that the buffer needs.
#![tactic(auto)]

mod buffer;
pub mod canonical;
pub mod cells;
pub mod compare;
pub mod contents;
pub mod depex;
mod extract;
pub mod header;
pub mod hobs;
pub mod image_checks;
mod input;
pub mod laws;
mod layout;
pub mod levels;
pub mod reports;
pub mod same;
mod scan;
pub mod sections;
mod streams;
pub mod survey;
mod translate;
pub mod tree;
pub mod tree_digests;
mod unfix;
pub mod variables;
