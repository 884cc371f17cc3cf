//! The state of a file.

ghost use Rattle.std.specs.Prelude.{◌≡◌};
ghost use Rattle.fv_file.specs.States.{bits_of, state_in, state_of, is_alive};

use fv_base::Polarity;

/// The state of a file: how far writing or deleting it has come. (PI specification, volume 3,
/// section 3.2.3.1, `EFI_FFS_FILE_STATE`.)
#[derive(Clone, Copy, Debug, PartialEq, Eq)]
pub enum FileState {
    /// Nothing was written: no bit is set.
    Free,
    /// A header is being written: bit 0x01, `EFI_FILE_HEADER_CONSTRUCTION`.
    Construction,
    /// The header is complete, but the data are not: bit 0x02, `EFI_FILE_HEADER_VALID`.
    HeaderValid,
    /// The file is complete: bit 0x04, `EFI_FILE_DATA_VALID`.
    DataValid,
    /// The file is complete, and is to be replaced: bit 0x08, `EFI_FILE_MARKED_FOR_UPDATE`.
    Marked,
    /// The file was deleted: bit 0x10, `EFI_FILE_DELETED`.
    Deleted,
    /// The header was never completed: bit 0x20, `EFI_FILE_HEADER_INVALID`.
    HeaderInvalid,
}

impl FileState {
    /// Returns whether a file in this state is valid: its data are valid, whether or not it is
    /// marked for update.
    pub fn is_alive(self) -> bool
        ensures { result ≡ is_alive self }
    {
        matches!(self, FileState::DataValid | FileState::Marked)
    }
}

// Returns the bits of a State byte that were written since it was erased.
fn bits_of(byte: u8, polarity: Polarity) -> u8
    ensures { result ≡ bits_of polarity byte }
{
    match polarity {
        Polarity::Ones => !byte,
        Polarity::Zeros => byte,
    }
}

// Returns the state of the highest bit that is set, or Free if none is set. Returns None if the
// highest bit has no state.
#[tactic(auto, using(std::proofs::lemmas::Bool::Decides::nat_tests))]
fn state_in(bits: u8) -> Option<FileState>
    ensures { result ≡ state_in bits }
{
    match bits {
        0x00 => Some(FileState::Free),
        0x01 => Some(FileState::Construction),
        0x02..=0x03 => Some(FileState::HeaderValid),
        0x04..=0x07 => Some(FileState::DataValid),
        0x08..=0x0f => Some(FileState::Marked),
        0x10..=0x1f => Some(FileState::Deleted),
        0x20..=0x3f => Some(FileState::HeaderInvalid),
        _ => None,
    }
}

/// Returns the state that `State`, the byte at offset 23 of a file's header, shows: the state of
/// the highest bit that was written, or Free if no bit was. Returns None if bit 0x40 or 0x80 was
/// written. Takes no memory. (PI specification, volume 3, section 3.2.3.1.)
pub fn file_state(byte: u8, polarity: Polarity) -> Option<FileState>
    ensures { result ≡ state_of polarity byte }
{
    state_in(bits_of(byte, polarity))
}
