//! What data give, and the faults of other data.

use crate::rows::rows;
use fv_crc32::crc32;
use fv_open::open;
use fv_tiano::Width;
use std::alloc::Global;

// Returns the digits of the contents that data have by the decoder that a line names, or the kind and
// the offset of the fault.
fn result_of(alloc: Global, line: &str, data: &[u8], limit: usize) -> Option<String> {
    let found = if line.starts_with("lzma") {
        fv_lzma::decode(alloc, data, limit)
    } else if line.starts_with("uefi") {
        fv_tiano::decode(alloc, data, Width::Uefi, limit)
    } else {
        fv_tiano::decode(alloc, data, Width::Tiano, limit)
    };
    match found {
        Ok(bytes) => hex::encode(alloc, &bytes).ok(),
        Err(fault) => format!(in alloc; "{:?} {}", fault.kind, fault.offset).ok(),
    }
}

// Returns the fault of a section as it is written.
fn fault_of(alloc: Global, section: &[u8], limit: usize) -> Option<String> {
    match open(alloc, section, limit) {
        Ok(_) => None,
        Err(fault) => format!(in alloc; "{fault}").ok(),
    }
}

// Returns whether the data of a line have the result that the line names.
fn gives_its_result(alloc: Global, line: &str) -> Option<bool> {
    let (_, rest) = line.split_once(": ")?;
    let (limit, rest) = rest.split_once(' ')?;
    let (digits, wanted) = rest.split_once(" -> ")?;
    let data = hex::decode(alloc, digits).ok()?;
    let found = if line.starts_with("open") {
        fault_of(alloc, &data, limit.parse().ok()?)?
    } else {
        result_of(alloc, line, &data, limit.parse().ok()?)?
    };
    Some(found.as_str() == wanted)
}

#[test]
fn data_give_their_results(rt: HostRuntime) {
    for line in rows().lines() {
        assert!(rt; gives_its_result(rt.alloc(), line) == Some(true), "{line}");
    }
}

#[test]
fn code_and_sums_are_those_of_other_programs(rt: HostRuntime) {
    let mut code = [0xe8, 0x10, 0x00, 0x00, 0x00];
    fv_x86::decode(&mut code);
    assert!(rt; code == [0xe8, 0x0b, 0x00, 0x00, 0x00]);
    assert!(rt; crc32(b"123456789") == 0xcbf4_3926);
}
