//! The filter of x86 code that EDK II applies to the output of LZMA in sections of the GUID
//! d42ae6bd-1352-4bfb-909a-ca72a6eae889 (x86_Convert in Bra86.c, decoding): offsets of targets in calls
//! and jumps become distances again. `decode` returns exactly the result of the definition
//! `unfiltered`.
#![tactic(auto)]

mod filter;
pub mod further_laws;
mod instruction;
pub mod worked_filters;

pub use filter::decode;
