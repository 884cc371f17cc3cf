//! Where the meanings of two volumes first differ.

ghost use Rattle.std.specs.Prelude.{◌≡◌, ◌≢◌, ◌⊎◌, ◌↔◌, ◌<◌, ◌≤◌, ◌+◌, ◌-◌, ◌∷◌, ◌++◌, length, drop, take, true, IfOk, IfErr};
ghost use Rattle.fv_base.specs.Words.{OrMemory, fault_number, out_of_memory};
ghost use Rattle.fv_base.specs.declared.fault.Fault.{Fault};
ghost use Rattle.fv_compare.specs.Words.{compare_line};
ghost use Rattle.fv_tree.specs.Words.{NotRead, Accepted, Meaning, difference};
ghost use Rattle.fv_c.specs.ReportedComparisons.{IsReported, compare_text};
ghost use Rattle.fv_c.specs.Reports.{BeginsWithHeader, no_fault, reported_fault_of};

use crate::buffer::put_first;
use crate::reports::{BUFFER_TOO_SMALL, FvFault, NO_FAULT, flag, set_fault, set_fault_of};
use fv_base::{ByteList, Fault, ListSink};
use fv_canon::whole_volume;
use fv_compare::put_comparison;
use fv_tree::VolumeView;
use std::alloc::Global;

/// The size in bytes of a buffer that has room for every text of a comparison and the byte 0 after
/// it.
pub const DIFFERENCE_SIZE: usize = 553;

/// The result of a comparison.
#[repr(C)]
#[derive(Clone, Copy)]
pub struct FvComparison {
    /// The number of bytes of the text, without the byte 0 at its end.
    pub text_length: u64,
    /// 1 if the two volumes have the same meaning, else 0.
    pub same: u32,
    /// Always 0.
    pub reserved: u32,
}

// Returns whether two volumes have the same meaning, and the line of their comparison.
fn line_of(alloc: Global, a: &VolumeView<'_>, b: &VolumeView<'_>) -> Result<(bool, ByteList), Fault>
    ensures ok { IfOk result (λ r. ((r.0 ≡ true) ↔ (a.now ≡ b.now))
        × (r.1 ≡ compare_line (difference a.now b.now)) × (length r.1 ≤ 553)) }
    ensures err { IfErr result (λ f. f ≡ out_of_memory) }
{
    let mut line = ListSink::with_room(alloc, DIFFERENCE_SIZE)?;
    let same = put_comparison(alloc, a, b, &mut line)?;
    Ok((same, line.finish()?))
}

// Writes a line with a byte 0 in place of its last byte, the line feed, to the start of the buffer.
fn put_text(line: &[u8], text: &mut [u8]) -> u32
    requires { 0 < length line.now }
    ensures ok { result ≡ 0 → text.new ≡ take (length line.now - 1) line.now ++ 0 ∷ drop (length line.now) text.old }
    ensures kept { result ≢ 0 → text.new ≡ text.old }
    ensures small { result ≡ 256 → length text.old < length line.now }
    ensures only { (result ≡ 0) ⊎ (result ≡ 256) }
{
    if text.len() < line.len() {
        return BUFFER_TOO_SMALL;
    }
    let last = line.len() - 1;
    put_first(&line[..last], text);
    text[last] = 0;
    0
}

// Reports the comparison of two volumes to C.
fn report(
    alloc: Global,
    a: &VolumeView<'_>,
    b: &VolumeView<'_>,
    text: &mut [u8],
    found: &mut FvComparison,
    fault: &mut FvFault,
) -> u32
    ensures ok { result ≡ 0 → IsReported a.now b.now found.new
        × (text.new ≡ compare_text (difference a.now b.now) ++ 0 ∷ drop (found.new.text_length + 1) text.old)
        × (fault.new ≡ no_fault) }
    ensures kept { result ≢ 0 → text.new ≡ text.old }
    ensures small { result ≡ 256 → IsReported a.now b.now found.new × (length text.old < found.new.text_length + 1)
        × (fault.new ≡ no_fault) }
    ensures room { 553 ≤ length text.old → result ≢ 256 }
    ensures memory { result ≢ 0 → result ≢ 256 → (f : Fault) × (f ≡ out_of_memory) × (result ≡ fault_number f.kind)
        × (fault.new ≡ reported_fault_of 0 f) × (found.new ≡ found.old) }
    ensures first { fault.new.input ≡ 0 }
{
    let (same, line) = match line_of(alloc, a, b) {
        Ok(pair) => pair,
        Err(memory) => return set_fault(memory, fault),
    };
    let line = line.as_slice();
    *found = FvComparison {
        text_length: line.len() as u64 - 1,
        same: flag(same),
        reserved: 0,
    };
    *fault = NO_FAULT;
    put_text(line, text)
}

/// Compares the meanings of two inputs that are volumes. Writes a text and a byte 0 at the start of
/// the buffer `text`: `same`, or `different at` with the steps down to the first difference and its
/// kind. `found` says whether they have the same meaning, and how long the text is. Returns 0. (PI
/// specification, volume 3, section 3.2.)
///
/// # Errors
///
/// The number of the first fault of an input, which is in `fault` with the number of the input, 0
/// or 1: a fault of `whole_volume`; 24 if memory runs out, with the input 0 if the two are being
/// compared. `found` is unchanged after a fault. The second input is read only if the first is a
/// volume. If there is no fault, 256 if the buffer is shorter than the text and its byte 0, which
/// have at most `DIFFERENCE_SIZE` bytes; `found` is written then. The buffer is unchanged in all
/// cases.
#[unsafe(no_mangle)]
#[tactic(auto, using(crate::proofs::MemoryLaws::header_of))]
pub extern "C" fn fvp_volume_compare(
    alloc: Global,
    first: &[u8],
    second: &[u8],
    text: &mut [u8],
    found: &mut FvComparison,
    fault: &mut FvFault,
) -> u32
    // The buffer begins with the text and a byte 0, and is unchanged after that.
    ensures ok { result ≡ 0 → (m : Meaning) × (k : Meaning) × Accepted first.now m × Accepted second.now k
        × IsReported m k found.new
        × (text.new ≡ compare_text (difference m k) ++ 0 ∷ drop (found.new.text_length + 1) text.old)
        × (fault.new ≡ no_fault) }

    ensures kept { result ≢ 0 → text.new ≡ text.old }
    ensures small { result ≡ 256 → (m : Meaning) × (k : Meaning) × Accepted first.now m × Accepted second.now k
        × IsReported m k found.new × (length text.old < found.new.text_length + 1) × (fault.new ≡ no_fault) }

    // Every text, with its byte 0, has at most 553 bytes.
    ensures room { 553 ≤ length text.old → result ≢ 256 }

    // A fault is the first fault of its input, or out of memory. Memory can run out only if this
    // input begins with the header of a volume. The second input is rejected only if the first is a
    // volume. (The input is 0 if memory runs out while two volumes are compared: `first` of
    // `report`. No clause here can say so, because for the same inputs memory can run out while the
    // second is read, and then the input is 1.)
    ensures first { result ≢ 0 → result ≢ 256 → fault.new.input ≡ 0 → (f : Fault) × OrMemory (NotRead first.now) f
        × (f ≡ out_of_memory → BeginsWithHeader first.now)
        × (result ≡ fault_number f.kind) × (fault.new ≡ reported_fault_of 0 f) }
    ensures second { fault.new.input ≡ 1 → ((m : Meaning) × Accepted first.now m)
        × (f : Fault) × OrMemory (NotRead second.now) f
        × (f ≡ out_of_memory → BeginsWithHeader second.now)
        × (result ≡ fault_number f.kind) × (fault.new ≡ reported_fault_of 1 f) }

    // Any other result is a fault in one of the two inputs, and `found` is unchanged.
    ensures input { result ≢ 0 → result ≢ 256 → ((fault.new.input ≡ 0) ⊎ (fault.new.input ≡ 1))
        × (found.new ≡ found.old) }
{
    let a = match whole_volume(alloc, first) {
        Ok(view) => view,
        Err(f) => return set_fault_of(0, f, fault),
    };
    let b = match whole_volume(alloc, second) {
        Ok(view) => view,
        Err(f) => return set_fault_of(1, f, fault),
    };
    report(alloc, &a, &b, text, found, fault)
}
