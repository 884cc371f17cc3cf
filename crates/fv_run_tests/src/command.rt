//! The calls of fv_command: the output and the end of runs of each command.

mod closing;
mod memory;
mod opened_runs;
mod other_runs;
mod rows;
mod runs;
