//! Reading an input to its end.

ghost use Rattle.std.specs.Prelude.{◌≡◌, ◌<◌, ◌≤◌, ◌+◌, ◌++◌, ◌⊎◌, ℕ, List, [], length, true, false};
ghost use Rattle.std.specs.Prelude.{IfOk, IfErr, OnOk, OnErr, vec_len, vec_capacity};
ghost use Rattle.fv_base.specs.Port.{inner_of, has_erred};
ghost use Rattle.fv_base.specs.Input.{GaveCount, GivesAll, ReadsWhole, ReadStops, StopsWithin, read_limit};

use crate::fault::{Fault, FaultKind};
use crate::limits::{LEAST_ROOM, READ_LIMIT, VOLUME_LIMIT};
use crate::port::Port;
use std::alloc::{AllocError, Global};
use std::io::{ErrorKind, Read};

/// Collects an input, piece after piece.
pub trait Collector {
    /// The collector's state is the result of collecting exactly these bytes.
    ghost holds: { Self → List ℕ → Type 0 };

    /// The collector must take more memory before it can hold this many bytes.
    ghost lacks: { Self → ℕ → Type 0 };

    /// Takes the next piece of the input, which is at most as long as one read. A collector that
    /// held some bytes then holds these bytes followed by the piece, and has memory for at least as
    /// many bytes as before.
    ///
    /// # Errors
    ///
    /// AllocError if memory runs out, only if the collector lacks memory for the bytes and the
    /// piece.
    fn take(&mut self, piece: &[u8]) -> Result<(), AllocError>
        requires { length piece.now ≤ read_limit }
        ensures holds { OnOk result ((before : List ℕ) → holds self.old before
            → holds self.new (before ++ piece.now)) }
        ensures room { OnOk result ((n : ℕ) → lacks self.new n → lacks self.old n) }
        ensures full { OnErr result ((before : List ℕ) → holds self.old before
            → lacks self.old (length before + length piece.now)) };
}

/// A vector collects the bytes themselves.
impl Collector for Vec<u8> {
    ghost holds = { λ v bytes. v.items ≡ bytes };

    ghost lacks = { λ v n. vec_capacity v < n };

    fn take(&mut self, piece: &[u8]) -> Result<(), AllocError> {
        self.extend_from_slice(piece)
    }
}

// Returns a vector of `count` zero bytes.
fn zeros(alloc: Global, count: usize) -> Result<Vec<u8>, AllocError>
    ensures { IfOk result (λ v. vec_len v ≡ count) }
{
    vec![in alloc; 0u8; count]
}

// Returns how many bytes a read asks for if its reader is expected to give `room` bytes: a
// sixteenth of them, but at least 16,384 and at most 65,536. If no number is known, a read asks for
// 65,536 bytes, because short reads of a pipe take more time.
fn read_len(room: usize) -> usize
    ensures some { 0 < result }
    ensures most { result ≤ read_limit }
{
    match room {
        0 => READ_LIMIT,
        _ => (room / 16).clamp(16_384, READ_LIMIT),
    }
}

/// Reads a reader to its end and passes its bytes to the collector, up to `limit` bytes. The
/// collector must hold no bytes at first. A read asks for at most 65,536 bytes, and for fewer if
/// the port's `room` is small. A read that returns `Interrupted` is repeated. There are at most
/// `limit` + 2 reads. A reader that gives one byte per call needs `limit` + 1 of them: the last
/// finds the end, or gives one byte too many. The other read is spare, so the reads run out only if
/// one of them was interrupted. Tests, and not the clauses, show how often `read` is called.
///
/// # Errors
///
/// ReadFault at the number of bytes read so far, if the reader fails or the reads run out. Length
/// at the limit of a volume, if there are more than `limit` bytes. OutOfMemory at 0. The first of
/// these to occur is returned.
pub fn read_to_end<R: Read, C: Collector>(
    alloc: Global,
    reader: &mut Port<R>,
    limit: u32,
    collector: &mut C,
) -> Result<(), Fault>
    requires { C.holds collector.old [] }

    // The reader gave all the bytes that it had, and the collector holds them.
    ensures ok { OnOk result ((bytes : List ℕ)
        × GivesAll (R.remaining (inner_of reader.old)) (R.remaining (inner_of reader.new)) bytes
        × (length bytes ≤ limit) × C.holds collector.new bytes) }

    // The fault is ReadFault, Length or OutOfMemory, never another.
    ensures err { IfErr result (StopsWithin limit (R.remaining (inner_of reader.old)) (R.remaining (inner_of reader.new))) }

    // If ReadFault is returned, the port's error flag is set.
    ensures erred { IfErr result (λ f. f.kind ≡ FaultKind.ReadFault → has_erred reader.new ≡ true) }

    // Memory runs out before the first byte, or after a number of bytes for which the collector
    // lacked memory at first.
    ensures memory { IfErr result (λ f. f.kind ≡ FaultKind.OutOfMemory → ((count : ℕ)
        × GaveCount (R.remaining (inner_of reader.old)) (R.remaining (inner_of reader.new)) count
        × ((count ≡ 0) ⊎ C.lacks collector.old count))) }
{
    let mut store = zeros(alloc, read_len(reader.room()))?;
    let chunk = store.as_mut_slice();
    let mut count = 0;
    for _turn in 0..u64::from(limit) + 2 {
        match reader.read(chunk) {
            Ok(0) => return Ok(()),
            Ok(added) => {
                count += added as u64;
                if count > u64::from(limit) {
                    return Err(Fault::outer(FaultKind::Length, VOLUME_LIMIT));
                }
                collector.take(&chunk[..added])?;
            }
            Err(error) if error.kind() == ErrorKind::Interrupted => {}
            Err(_) => break,
        }
    }
    Err(Fault::outer(FaultKind::ReadFault, count))
}

/// Reads an input to its end: at most as many bytes as a volume may have. A read that returns
/// `Interrupted` is repeated, and counts as a read. Before the first read, the vector gets memory
/// for the port's `room`: for at least 56 bytes, and at most for the limit of a volume.
///
/// # Errors
///
/// ReadFault at the number of bytes read so far, if the reader fails or the reads run out. Length
/// at the limit, if there are more bytes. OutOfMemory at 0, only before the first byte or after at
/// least 57 bytes. The first of these to occur is returned.
pub fn read_input<R: Read>(alloc: Global, reader: &mut Port<R>) -> Result<Vec<u8>, Fault>
    // The result is all the bytes that the reader had, in order, and the reader is at its end.
    ensures ok { IfOk result
        (λ v. ReadsWhole (R.remaining (inner_of reader.old)) (R.remaining (inner_of reader.new)) v.items) }

    // The fault is ReadFault, Length or OutOfMemory, never another. Memory runs out before the
    // first byte, or after more than 56 bytes.
    ensures err { IfErr result (ReadStops (R.remaining (inner_of reader.old)) (R.remaining (inner_of reader.new))) }

    // For a port whose error flag was not set before: if ReadFault is returned, the flag is set
    // afterwards.
    ensures erred { has_erred reader.old ≡ false
        → IfErr result (λ f. f.kind ≡ FaultKind.ReadFault → has_erred reader.new ≡ true) }
{
    let room = reader.room().max(LEAST_ROOM).min(VOLUME_LIMIT as usize);
    let mut bytes = Vec::with_capacity(alloc, room)?;
    read_to_end(alloc, reader, VOLUME_LIMIT as u32, &mut bytes)?;
    Ok(bytes)
}
