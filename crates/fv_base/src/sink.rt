//! Sinks: they take bytes, part after part. A walk, a function that puts bytes into a sink, is
//! written once for all kinds of sinks.

ghost use Rattle.std.specs.Prelude.{◌≡◌, ℕ, ◌⊎◌, ◌<◌, ◌≤◌, ◌^◌, List, [], length, take, replicate, true, false};
ghost use Rattle.std.specs.Prelude.{IfOk, IfErr, OnErr, OnOk};
ghost use Rattle.std.specs.Io.KnownBytes.{Appends};
ghost use Rattle.fv_base.specs.Faults.{outer_fault, out_of_memory};
ghost use Rattle.fv_base.specs.Port.{inner_of, has_erred};
ghost use Rattle.fv_base.specs.Sinks.{WalkLaws, KeptTakes, kept_in, is_on, WriteTakes, is_writing, port_name, port_of};
ghost use Rattle.fv_base.specs.Sinks.{written_count};
ghost use Rattle.fv_base.specs.inner.SinkLaws.{kept_by, write_by};

use crate::byte_list::ByteList;
use crate::fault::{Fault, FaultKind};
use crate::field::bytes_from;
use crate::port::Port;
use std::alloc::{AllocError, Global};
use std::io::Write;

/// A sink takes bytes, part after part. If a sink can stop, it remembers that it has stopped, and
/// takes nothing after that.
pub trait Sink {
    /// Relates the state of a sink before it takes the bytes to its state afterwards.
    ghost takes: { Self → List ℕ → Self → Type 0 };

    /// Taking no bytes changes nothing, and bytes may be taken in parts.
    ghost laws: { WalkLaws takes };

    /// Takes the bytes.
    fn put(&mut self, bytes: &[u8])
        ensures { takes self.old bytes.now self.new };
}

// Writes the bytes in order: all of them, unless a write fails. Returns the number of bytes
// written.
fn write_prefix<W: Write>(port: &mut Port<W>, bytes: &[u8]) -> usize
    ensures bound { result ≤ length bytes.now }
    ensures prefix { Appends (W.contents (inner_of port.old)) (W.contents (inner_of port.new)) (take result bytes.now) }
    ensures erred { result < length bytes.now → has_erred port.new ≡ true }
    ensures fine { result ≡ length bytes.now → has_erred port.new ≡ has_erred port.old }
{
    let mut at = 0;
    while at < bytes.len() {
        match port.write(bytes_from(bytes, at)) {
            Ok(0) | Err(_) => return at,
            Ok(count) => at += count,
        }
    }
    at
}

/// A sink that writes to a borrowed port until a write fails.
#[derive(Drop)]
pub struct WriteSink<'a, W: Write> {
    port: &'a mut Port<W>,
    /// Whether no write has failed.
    on: bool,
    /// The number of bytes written, modulo 2 ^ 64.
    count: u64,
}

/// The sink keeps its port. It is on until a write fails: it writes all of the bytes, in order, and
/// counts them. When a write fails, it has written and counted only a first part of the bytes, the
/// port's error flag is set, and the sink goes off. From then on nothing changes.
impl<'a, W: Write> Sink for WriteSink<'a, W> {
    ghost takes = { WriteTakes
        (λ s. record { contents = W.contents (inner_of s.port.now); erred = has_erred s.port.now; count = s.count })
        (λ s. s.on) (λ s. s.port.ghost_name) };

    ghost laws = { write_by
        (λ s. record { contents = W.contents (inner_of s.port.now); erred = has_erred s.port.now; count = s.count })
        (λ s. s.on) (λ s. s.port.ghost_name) };

    fn put(&mut self, bytes: &[u8]) {
        if self.on {
            let count = write_prefix(self.port, bytes);
            self.count = self.count.wrapping_add(count as u64);
            self.on = count == bytes.len();
        }
    }
}

impl<'a, W: Write> WriteSink<'a, W> {
    /// Makes a sink that has written nothing to the port.
    pub fn new(port: &'a mut Port<W>) -> WriteSink<'a, W>
        ensures same_port { port_name result ≡ port.entry.ghost_name }
        ensures now { port_of result ≡ port.old }
        ensures on { is_writing result ≡ true }
        ensures none { written_count result ≡ 0 }
    {
        WriteSink {
            port,
            on: true,
            count: 0,
        }
    }

    /// Reports whether everything was written.
    ///
    /// # Errors
    ///
    /// WriteFault at the number of bytes written, modulo 2 ^ 64, if a write failed.
    pub fn outcome(&self) -> Result<(), Fault>
        ensures ok { OnOk result (is_writing self.now ≡ true) }
        ensures err { IfErr result (λ f. f ≡ outer_fault FaultKind.WriteFault (written_count self.now)) }
        ensures off { OnErr result (is_writing self.now ≡ false) }
        ensures small { OnErr result (written_count self.now < 2 ^ 64) }
    {
        if self.on {
            Ok(())
        } else {
            Err(Fault::outer(FaultKind::WriteFault, self.count))
        }
    }
}

/// A sink that keeps bytes in memory until memory runs out.
#[derive(Drop)]
pub struct ListSink {
    bytes: Vec<u8>,
    on: bool,
}

impl ListSink {
    /// Makes an empty sink with room for `total` bytes.
    ///
    /// # Errors
    ///
    /// `AllocError` if memory runs out.
    pub fn with_room(alloc: Global, total: usize) -> Result<ListSink, AllocError>
        ensures { IfOk result (λ s. (kept_in s ≡ []) × (is_on s ≡ true)) }
    {
        Ok(ListSink {
            bytes: Vec::with_capacity(alloc, total)?,
            on: true,
        })
    }

    /// Returns the bytes that the sink took.
    ///
    /// # Errors
    ///
    /// OutOfMemory if memory ran out.
    pub fn finish(self) -> Result<ByteList, Fault>
        ensures ok { IfOk result (λ bytes. (is_on self ≡ true) × (bytes ≡ kept_in self)) }
        ensures err { IfErr result (λ f. f ≡ out_of_memory) }
        ensures rejected { OnErr result (is_on self ≡ false) }
    {
        let ListSink { bytes, on } = self;
        if on {
            Ok(ByteList::from_vec(bytes))
        } else {
            Err(Fault::outer(FaultKind::OutOfMemory, 0))
        }
    }
}

/// The sink is on until memory runs out. While it is on, it keeps all of the bytes, after the bytes
/// that it kept before. When memory runs out, it goes off and stays off.
impl Sink for ListSink {
    ghost takes = { KeptTakes (λ s. s.bytes.items) (λ s. s.on) };

    ghost laws = { kept_by (λ s. s.bytes.items) (λ s. s.on) };

    fn put(&mut self, bytes: &[u8]) {
        if self.on {
            self.on = self.bytes.extend_from_slice(bytes).is_ok();
        }
    }
}

/// The bytes from which `fill` takes bytes 0x00.
static ZEROS: [u8; 65536] = [0; 65536];

/// The bytes from which `fill` takes bytes 0xFF.
static ONES: [u8; 65536] = [0xff; 65536];

// Returns a block that consists of copies of the byte, and is not empty.
fn fill_block(byte: u8) -> &'static [u8]
    requires { (byte ≡ 0) ⊎ (byte ≡ 255) }
    ensures some { 0 < length result.now }
    ensures same { result.now ≡ replicate (length result.now) byte }
{
    if byte == 0 { &ZEROS } else { &ONES }
}

// Returns the first `count` bytes of the chunk.
fn cut(chunk: &[u8], count: u64) -> &[u8]
    requires { count ≤ length chunk.now }
    ensures { result.now ≡ take count chunk.now }
{
    &chunk[..count as usize]
}

// Puts the byte into the sink `count` times, a chunk at a time.
fn fill_by<S: Sink>(out: &mut S, chunk: &[u8], byte: u8, count: u64)
    requires some { 0 < length chunk.now }
    requires same { chunk.now ≡ replicate (length chunk.now) byte }
    ensures { S.takes out.old (replicate count byte) out.new }
{
    let mut left = count;
    while left > chunk.len() as u64 {
        out.put(chunk);
        left -= chunk.len() as u64;
    }
    out.put(cut(chunk, left));
}

/// Puts the byte, which must be 0x00 or 0xFF, into the sink `count` times.
pub fn fill<S: Sink>(out: &mut S, byte: u8, count: u64)
    requires { (byte ≡ 0) ⊎ (byte ≡ 255) }
    ensures { S.takes out.old (replicate count byte) out.new }
{
    fill_by(out, fill_block(byte), byte, count);
}
