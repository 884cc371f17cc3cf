//! Writes numbers in decimal or hexadecimal digits and bytes as lines of hexadecimal digits, and
//! decodes such lines. Its sinks turn bytes into lines, gather small pieces, or lend another sink.
#![tactic(auto)]

mod copying;
pub mod further_laws;
mod gathering;
mod hex_digits;
mod hex_lines;
mod hex_text;
mod lent_sink;
mod numbers;
mod white_space;
pub mod worked_readings;

pub use gathering::GatheringSink;
pub use hex_lines::{HexSink, put_shown};
pub use hex_text::read_hex;
pub use lent_sink::LentSink;
pub use numbers::{put_decimal, put_four_digits, put_two_digits};
