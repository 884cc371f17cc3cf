//! Tests of fv_tiano: memory that runs out.

mod memory;
