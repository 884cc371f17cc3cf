//! Sinks that keep no copy of the bytes that they take: one computes the SHA-256 of the bytes, and
//! the other puts them into a buffer of the caller.
#![tactic(auto)]

mod buffer_sink;
mod digest_sink;

pub use buffer_sink::BufferSink;
pub use digest_sink::DigestSink;
