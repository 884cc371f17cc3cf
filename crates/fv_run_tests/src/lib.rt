//! Tests of the public calls of fv_canon, fv_command, fv_arguments and fv_caller, with one module
//! for each crate, and one for fv_text. They test what only a caller can show: readers and writers
//! that stop, plans, and failed allocations. The module `surface` names the items that users rely
//! on, crate by crate. The rows in `rows/` test the output of the program, and
//! `tests/program/test_rows.py` runs them.
#![tactic(auto)]

#[cfg(test)]
mod arguments;
#[cfg(test)]
mod caller;
#[cfg(test)]
mod canon;
#[cfg(test)]
mod command;
#[cfg(test)]
mod fakes;
#[cfg(test)]
mod row_bytes;
#[cfg(test)]
mod surface;
#[cfg(test)]
mod text;
#[cfg(test)]
mod volumes;
