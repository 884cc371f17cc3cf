//! The calls of fv_text: bytes that are written as hexadecimal text, and text that does not end.

mod limits;

use crate::fakes::FakeWriter;
use fv_base::{Port, Sink, WriteSink};
use fv_text::HexSink;
use std::alloc::Global;

/// The largest numbers of bytes that a writer takes in one call.
const STEPS: [usize; 3] = [1, 3, 65_536];

/// The 32 bytes of a full line.
const FULL: &[u8] = b"ABCDEFGHIJKLMNOPQRSTUVWXYZabcdef";

/// The line of these 32 bytes.
const FULL_LINE: &[u8] = b"4142434445464748494a4b4c4d4e4f505152535455565758595a616263646566\n";

/// Three times these 32 bytes, and 2 bytes more.
const THREE_COPIES_AND_2_BYTES: &[u8] = b"\
ABCDEFGHIJKLMNOPQRSTUVWXYZabcdef\
ABCDEFGHIJKLMNOPQRSTUVWXYZabcdef\
ABCDEFGHIJKLMNOPQRSTUVWXYZabcdef\
\x0a\xbc";

/// The lines of these 98 bytes.
const THREE_LINES_AND_2_BYTES: &[u8] = b"\
4142434445464748494a4b4c4d4e4f505152535455565758595a616263646566\n\
4142434445464748494a4b4c4d4e4f505152535455565758595a616263646566\n\
4142434445464748494a4b4c4d4e4f505152535455565758595a616263646566\n\
0abc\n\
";

// Returns whether bytes that are put in two pieces are written.
fn writes_pieces(port: &mut Port<FakeWriter>, pieces: (&[u8], &[u8])) -> bool {
    let mut lines = HexSink::new(WriteSink::new(port));
    lines.put(pieces.0);
    lines.put(pieces.1);
    lines.finish().outcome().is_ok()
}

// Returns whether bytes in two pieces are written as these lines, with steps of this size.
fn are_written_as(alloc: Global, pieces: (&[u8], &[u8]), wanted: &[u8], step: usize) -> bool {
    let mut port = Port::new(FakeWriter::new(alloc, step, 1000, true));
    writes_pieces(&mut port, pieces) && port.into_inner().took_only(wanted)
}

// Returns whether bytes are written as these lines, with steps of this size, however the bytes are
// split.
fn are_written_by_steps(alloc: Global, bytes: &[u8], wanted: &[u8], step: usize) -> bool {
    for at in 0..=bytes.len() {
        if !are_written_as(alloc, bytes.split_at(at), wanted, step) {
            return false;
        }
    }
    true
}

// Returns whether bytes are written as these lines, with steps of each size.
fn are_written(alloc: Global, bytes: &[u8], wanted: &[u8]) -> bool {
    for step in STEPS {
        if !are_written_by_steps(alloc, bytes, wanted, step) {
            return false;
        }
    }
    true
}

#[test]
fn bytes_are_written_as_lines(rt: HostRuntime) {
    let alloc = rt.alloc();
    assert!(rt; are_written(alloc, b"", b"") && are_written(alloc, b"\xff", b"ff\n"));
    assert!(rt; are_written(alloc, FULL, FULL_LINE));
    assert!(rt; are_written(alloc, THREE_COPIES_AND_2_BYTES, THREE_LINES_AND_2_BYTES));
}
