//! Tests of fv_file, with results that were worked out by hand: bytes that begin with a file,
//! deleted and incomplete files, states, attribute bits, written headers, and memory that runs out.
//! Other bodies of volumes are in `bodies.rows` of fv_run_tests, each with its cells or its fault.

mod begins;
mod memory;
mod states;
mod written;

/// The name of most files of the tests.
const A: [u8; 16] = [0x0a; 16];

/// The name of a pad.
const P: [u8; 16] = [0xff; 16];
