//! Checks whether bytes begin with a file.

ghost use Rattle.std.specs.Prelude.{◌≡◌, Ok, IfOk, IfErr};
ghost use Rattle.fv_base.specs.Words.{IsFirstFault};
ghost use Rattle.fv_file.specs.FileChecks.{verify_checks};
ghost use Rattle.fv_file.specs.HeaderReads.{BeginsFile};
ghost use Rattle.fv_file.specs.inner.CellVerdicts.{verify_verdict};
ghost use Rattle.fv_file.specs.declared.head.FileHead.{FileHead};

use crate::head::{FileHead, file_at};
use crate::offsets::{HEADER_LEN, SIZE_OFFSET, STATE_OFFSET};
use crate::state::file_state;
use fv_base::{Fault, FaultKind, FileSystem, Polarity, check};

// Returns the header of the file that the bytes begin with, or the first fault.
#[tactic(auto, using(crate::proofs::FirstFileLemmas::alive_read))]
fn verdict(bytes: &[u8], system: FileSystem, polarity: Polarity) -> Result<FileHead, Fault>
    ensures { result ≡ verify_verdict system polarity bytes.now }
{
    check(
        bytes.len() >= HEADER_LEN,
        FaultKind::FileSize,
        SIZE_OFFSET as u64,
    )?;
    match file_state(bytes[STATE_OFFSET], polarity) {
        Some(state) if state.is_alive() => file_at(bytes, 0, system, state),
        _ => Err(Fault::outer(FaultKind::FileState, STATE_OFFSET as u64)),
    }
}

/// Checks whether the bytes begin with a valid file or a pad, and returns its header. The bytes
/// after the file are not looked at. Takes no memory. (PI specification, volume 3, section
/// 3.2.3.1.)
///
/// # Errors
///
/// The first fault. The checks are made in this order: FileSize if there are fewer than 24 bytes,
/// FileState (bit 0x40 or 0x80 was written, or the file is not valid), LargeFile, FileSize if a
/// large header is cut short, FileHeaderSum, FileSize and, if the file is not a pad, Fixed,
/// FileSum. Offsets are counted from the first byte.
pub fn verify_ffs_file(
    bytes: &[u8],
    system: FileSystem,
    polarity: Polarity,
) -> Result<FileHead, Fault>
    // The bytes begin with a file that has this header.
    ensures found { IfOk result (λ head. BeginsFile system polarity head bytes.now) }

    // If the bytes begin with a file, its header is returned.
    ensures only { (head : FileHead) → BeginsFile system polarity head bytes.now → result ≡ Ok head }

    // An error is the fault of the first check that does not hold.
    ensures first { IfErr result (IsFirstFault (verify_checks system polarity bytes.now)) }
{
    verdict(bytes, system, polarity)
}
