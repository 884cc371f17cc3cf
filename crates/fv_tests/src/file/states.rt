//! State bytes and attribute bits.

use bitflags::Flags;
use fv_base::Polarity;
use fv_file::{FileAttributes, FileState, file_state};

/// The written bits of `State`: the least value of these bits with each state, and the least value
/// without a state.
const STATES: [(u8, Option<FileState>); 8] = [
    (0x00, Some(FileState::Free)),
    (0x01, Some(FileState::Construction)),
    (0x02, Some(FileState::HeaderValid)),
    (0x04, Some(FileState::DataValid)),
    (0x08, Some(FileState::Marked)),
    (0x10, Some(FileState::Deleted)),
    (0x20, Some(FileState::HeaderInvalid)),
    (0x40, None),
];

// Returns the state of the highest bit in the written bits.
fn highest(written: u8) -> Option<FileState> {
    let mut state = None;
    for (from, some) in STATES {
        if from <= written {
            state = some;
        }
    }
    state
}

// If erased bytes are ones, the State byte is the inverse of the written bits: 0xf8 for 0x07.
#[test]
fn the_highest_written_bit_is_the_state(rt: HostRuntime) {
    for written in 0..=255u8 {
        let state = highest(written);
        let is_same = file_state(written, Polarity::Zeros) == state;
        assert!(rt;
            is_same && file_state(0xff - written, Polarity::Ones) == state,
            "{written}"
        );
    }
}

#[test]
fn files_are_alive_in_two_states(rt: HostRuntime) {
    for (state, is_alive) in [
        (FileState::Free, false),
        (FileState::Construction, false),
        (FileState::HeaderValid, false),
        (FileState::DataValid, true),
        (FileState::Marked, true),
        (FileState::Deleted, false),
        (FileState::HeaderInvalid, false),
    ] {
        assert!(rt; state.is_alive() == is_alive, "{state:?}");
    }
}

// Returns whether attributes made from these bits keep all of them, are large, fixed and summed as
// stated, and have the bits `without` after `without_large` has cleared bit 0x01.
fn has_attributes(bits: u8, is_large: bool, is_fixed: bool, is_summed: bool, without: u8) -> bool {
    let attributes = FileAttributes::from_bits_retain(bits);
    attributes.bits() == bits
        && attributes.is_large() == is_large
        && attributes.is_fixed() == is_fixed
        && attributes.is_summed() == is_summed
        && attributes.without_large().bits() == without
}

#[test]
fn attributes_have_their_bits(rt: HostRuntime) {
    for (bits, is_large, is_fixed, is_summed, without) in [
        (0x00, false, false, false, 0x00),
        (0x01, true, false, false, 0x00),
        (0x04, false, true, false, 0x04),
        (0x40, false, false, true, 0x40),
        (0x45, true, true, true, 0x44),
        (0xba, false, false, false, 0xba),
        (0xbb, true, false, false, 0xba),
        (0xbe, false, true, false, 0xbe),
        (0xfa, false, false, true, 0xfa),
        (0xff, true, true, true, 0xfe),
    ] {
        assert!(rt;
            has_attributes(bits, is_large, is_fixed, is_summed, without),
            "{bits}"
        );
    }
}
