//! A sink that puts bytes into a borrowed buffer.

ghost use Rattle.std.specs.Prelude.{◌≡◌, ◌++◌, [], length, take, drop};
ghost use Rattle.fv_sinks.specs.BufferSinks.{BufferTakes, buffer_name, rest_in, taken_in};
ghost use Rattle.fv_sinks.specs.inner.SinkLaws.{buffer_by};

use fv_base::Sink;

// Puts the bytes into the buffer from the offset `at` on, as many of them as fit. Returns the
// offset at which the remaining room begins.
fn put_after(buffer: &mut [u8], at: usize, bytes: &[u8]) -> usize
    ensures taken { take result buffer.new
        ≡ take at buffer.old ++ take (length (drop at buffer.old)) bytes.now }
    ensures rest { drop result buffer.new ≡ drop (length bytes.now) (drop at buffer.old) }
{
    if at >= buffer.len() {
        return at;
    }
    let count = usize::min(bytes.len(), buffer.len() - at);
    buffer[at..at + count].copy_from_slice(&bytes[..count]);
    at + count
}

/// A sink that fills a borrowed buffer from its start. Bytes that do not fit are dropped. The other
/// bytes of the buffer stay as they are.
#[derive(Drop)]
pub struct BufferSink<'b> {
    buffer: &'b mut [u8],
    /// The number of bytes that were taken.
    len: usize,
}

impl<'b> BufferSink<'b> {
    /// Makes a sink that has put nothing into the buffer.
    pub fn new(buffer: &'b mut [u8]) -> BufferSink<'b>
        ensures same_buffer { buffer_name result ≡ buffer.entry.ghost_name }
        ensures none { taken_in result ≡ [] }
        ensures all { rest_in result ≡ buffer.old }
    {
        BufferSink { buffer, len: 0 }
    }
}

/// The bytes follow the bytes that were taken before, as many of them as fit. The rest of the
/// buffer is unchanged.
impl<'b> Sink for BufferSink<'b> {
    ghost takes = { BufferTakes (λ s. take s.len s.buffer.now) (λ s. drop s.len s.buffer.now)
        (λ s. s.buffer.ghost_name) };

    ghost laws = { buffer_by (λ s. take s.len s.buffer.now) (λ s. drop s.len s.buffer.now)
        (λ s. s.buffer.ghost_name) };

    fn put(&mut self, bytes: &[u8]) {
        self.len = put_after(self.buffer, self.len, bytes);
    }
}
