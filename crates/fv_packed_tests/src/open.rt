//! Tests of fv_open: memory that runs out.

mod memory;
