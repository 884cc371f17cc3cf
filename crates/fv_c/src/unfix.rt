//! Takes the marks of fixed files away from a volume.

ghost use Rattle.std.specs.Prelude.{◌≡◌, ◌≢◌, ◌<◌, ◌≤◌, ◌++◌, ℕ, List, length, drop};
ghost use Rattle.fv_base.specs.Words.{fault_number};
ghost use Rattle.fv_base.specs.declared.fault.Fault.{Fault};
ghost use Rattle.fv_tree.specs.Words.{NotUnfixed, UnfixesTo};
ghost use Rattle.fv_c.specs.Reports.{no_fault, reported_fault};

use crate::reports::{BUFFER_TOO_SMALL, FvFault, NO_FAULT, set_fault};
use fv_tree::{unfix, verify_unfixed};

// Writes the input, which is a volume, to the start of the buffer, without the marks of its fixed
// files.
fn put_unfixed(volume: &[u8], buffer: &mut [u8])
    requires volume { (o : List ℕ) × UnfixesTo volume.now o }
    requires room { length volume.now ≤ length buffer.old }
    ensures { (o : List ℕ) × UnfixesTo volume.now o × (length o ≡ length volume.now)
        × (buffer.new ≡ o ++ drop (length o) buffer.old) }
{
    let (front, _) = buffer.split_at_mut(volume.len());
    front.copy_from_slice(volume);
    let _done = unfix(front);
}

/// Writes a volume, which is the whole input, to the start of the buffer, without the marks of its
/// fixed files. In the header of each such file, bit 0x04 of the attributes is cleared, and 4 is
/// added to the header checksum (modulo 256). All other bytes are unchanged, also in volumes inside
/// the volume. The result is as long as the input. Returns 0. Takes no memory. (PI specification,
/// volume 3, section 3.2.3.1, `FFS_ATTRIB_FIXED`.)
///
/// # Errors
///
/// The number of the first fault, which is in `fault`: a fault of `verify_unfixed`. If there is
/// none, 256 if the buffer is shorter than the input. The buffer is unchanged in all cases.
#[unsafe(no_mangle)]
pub extern "C" fn fvp_volume_unfix(volume: &[u8], buffer: &mut [u8], fault: &mut FvFault) -> u32
    // The buffer begins with the volume without the marks, and is unchanged after that.
    ensures ok { result ≡ 0 → (o : List ℕ) × UnfixesTo volume.now o × (length o ≡ length volume.now)
        × (buffer.new ≡ o ++ drop (length o) buffer.old) × (fault.new ≡ no_fault) }

    ensures kept { result ≢ 0 → buffer.new ≡ buffer.old }

    // 256 is returned only if the marks can be taken away and the buffer is shorter than the
    // volume.
    ensures small { result ≡ 256 → ((o : List ℕ) × UnfixesTo volume.now o) × (length buffer.old < length volume.now)
        × (fault.new ≡ no_fault) }
    ensures room { length buffer.old < length volume.now → result ≢ 0 }

    // Any other result is the first fault of the input.
    ensures err { result ≢ 0 → result ≢ 256 → (f : Fault) × NotUnfixed volume.now f
        × (result ≡ fault_number f.kind) × (fault.new ≡ reported_fault f) }

    // The number of this fault is at most 16, and is not 15, the number of Fixed.
    ensures number { result ≢ 0 → result ≢ 256 → (result ≤ 16) × (result ≢ 15) }

    // If the marks can be taken away, only the buffer can be too small.
    ensures fits { (o : List ℕ) → UnfixesTo volume.now o → result ≢ 0 → result ≡ 256 }
{
    if let Err(f) = verify_unfixed(volume) {
        return set_fault(f, fault);
    }
    *fault = NO_FAULT;
    if buffer.len() < volume.len() {
        return BUFFER_TOO_SMALL;
    }
    put_unfixed(volume, buffer);
    0
}
