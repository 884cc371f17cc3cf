//! Failed allocations: `tests/program/test_memory.py` makes each allocation of the test fail in
//! turn, and no wrong result may be returned.

use crate::memory_ran_out::is_right_or_out_of_memory;
use fv_packed::{PackedFault, PackedFaultKind};
use fv_tiano::{Width, decode};

/// The bytes `abababab`, by EDK II's `TianoCompress`.
const PACKED: [u8; 20] = [
    0x0c, 0x00, 0x00, 0x00, 0x08, 0x00, 0x00, 0x00, 0x00, 0x03, 0x28, 0x04, 0x4a, 0x08, 0x26, 0xf1,
    0x19, 0x80, 0x33, 0x00,
];

#[test]
fn out_of_memory_is_reported(rt: HostRuntime) {
    let short = PackedFault {
        kind: PackedFaultKind::Short,
        offset: 19,
    };
    let whole = decode(rt.alloc(), &PACKED, Width::Tiano, 8);
    assert!(rt; is_right_or_out_of_memory(whole, Ok(b"abababab")));
    let cut = decode(rt.alloc(), &PACKED[..19], Width::Tiano, 8);
    assert!(rt; is_right_or_out_of_memory(cut, Err(short)));
}
