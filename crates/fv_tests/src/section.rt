//! Tests of fv_section, with results that were worked out by hand: frames at an offset, the parts of
//! leaves that `list` does not show, written headers, and memory that runs out.

mod memory;
mod streams;
mod written;
