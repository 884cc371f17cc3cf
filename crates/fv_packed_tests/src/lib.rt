//! Tests of the decoders of compressed data. They decode data that other programs have compressed, and
//! data that are damaged. So they would also find an error in a definition, which no proof finds. More
//! of such data are in `crates/fv_run_tests/rows/packed.rows`, which is run over the library for C.
#![tactic(auto)]

#[cfg(test)]
mod lzma;
#[cfg(test)]
mod memory_ran_out;
#[cfg(test)]
mod open;
#[cfg(test)]
mod results;
#[cfg(test)]
mod rows;
#[cfg(test)]
mod tiano;
