//! Bytes as lines of hexadecimal digits.

ghost use Rattle.std.specs.Prelude.{◌≡◌, ◌≤◌, ◌<◌, ℕ, List, length, take};
ghost use Rattle.fv_text.specs.inner.SinkAdapterLaws.{hex_by};
ghost use Rattle.fv_text.specs.SinkAdapters.{Lined};
ghost use Rattle.fv_text.specs.HexText.{IsHexText, ShowsBytes, last_text, line_text};

use crate::copying::copy_to;
use crate::lent_sink::LentSink;
use fv_base::Sink;
use fv_base::field::bytes_from;

/// The number of bytes that a line shows.
const LINE: usize = 32;

// Puts one line into the sink: the digits of the bytes, and a line feed.
fn put_line<S: Sink>(out: &mut S, bytes: &[u8])
    requires { length bytes.now ≤ 32 }
    ensures { S.takes out.old (line_text bytes.now) out.new }
{
    let mut line = [0u8; 2 * LINE];
    let end = 2 * bytes.len();
    let Ok(()) = hex::encode_to_slice(bytes, &mut line[..end]) else {
        unreachable!()
    };
    out.put(&line[..end]);
    out.put(b"\n");
}

// Puts the last line into the sink, unless it is empty.
fn put_last<S: Sink>(out: &mut S, bytes: &[u8])
    requires { length bytes.now ≤ 32 }
    ensures { S.takes out.old (last_text bytes.now) out.new }
{
    if !bytes.is_empty() {
        put_line(out, bytes);
    }
}

/// A sink that turns bytes into lines of 64 lower-case digits, and puts the lines into the sink
/// below. `finish` puts the last line if it is shorter than the others.
#[derive(Drop)]
pub struct HexSink<S: Sink> {
    /// The sink into which the lines are put.
    below: S,
    /// The bytes of the line that is not yet complete.
    line: [u8; LINE],
    /// The number of bytes that wait.
    filled: usize,
    ghost room: { filled < 32 },
}

impl<S: Sink> HexSink<S> {
    /// Makes a sink of lines in which no bytes wait.
    pub fn new(below: S) -> HexSink<S>
        ensures below { result.below ≡ below }
        ensures filled { result.filled ≡ 0 }
    {
        HexSink {
            below,
            line: [0; LINE],
            filled: 0,
        }
    }

    // Takes a first part of the bytes, at most up to the end of the line. Returns the number of
    // bytes taken.
    fn take_some(&mut self, bytes: &[u8]) -> usize
        requires { 0 < length bytes.now }
        ensures some { 0 < result }
        ensures bound { result ≤ length bytes.now }
        ensures takes { Lined S.takes self.old.below (take self.old.filled self.old.line)
            (take result bytes.now) self.new.below (take self.new.filled self.new.line) }
    {
        let count = bytes.len().min(LINE - self.filled);
        let end = self.filled + count;
        copy_to(&mut self.line, self.filled, &bytes[..count]);
        if end < LINE {
            self.filled = end;
            return count;
        }
        self.filled = 0;
        put_line(&mut self.below, &self.line);
        count
    }

    /// Puts the last line into the sink below if it is shorter than the others, and returns the
    /// sink below.
    pub fn finish(self) -> S
        ensures { S.takes self.below (last_text (take self.filled self.line)) result }
    {
        let HexSink {
            below,
            line,
            filled,
        } = self;
        let mut out = below;
        put_last(&mut out, &line[..filled]);
        out
    }
}

/// For every 32 bytes that it has, the sink puts a line into the sink below. The remaining bytes
/// wait.
impl<S: Sink> Sink for HexSink<S> {
    ghost takes = { λ s bytes t. Lined S.takes s.below (take s.filled s.line) bytes t.below (take t.filled t.line) };

    ghost laws = { hex_by S.takes (λ s. s.below) (λ s. take s.filled s.line) S.laws };

    fn put(&mut self, bytes: &[u8]) {
        let mut at = 0;
        while at < bytes.len() {
            at += self.take_some(bytes_from(bytes, at));
        }
    }
}

// Puts the bytes into the sink as lines of digits, and returns the sink.
fn put_hex<S: Sink>(below: S, bytes: &[u8]) -> S
    ensures { (text : List ℕ) × IsHexText bytes.now text × S.takes below text result }
{
    let mut lines = HexSink::new(below);
    lines.put(bytes);
    lines.finish()
}

/// Puts the bytes into the sink as lines of digits if `hex` is true, otherwise as they are.
pub fn put_shown<S: Sink>(out: &mut S, hex: bool, bytes: &[u8])
    ensures { (text : List ℕ) × ShowsBytes hex bytes.now text × S.takes out.old text out.new }
{
    if hex {
        let _lent = put_hex(LentSink::new(out), bytes);
    } else {
        out.put(bytes);
    }
}
