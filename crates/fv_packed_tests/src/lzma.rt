//! Tests of fv_lzma: memory that runs out.

mod memory;
