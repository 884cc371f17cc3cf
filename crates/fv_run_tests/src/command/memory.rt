//! Failed allocations in a list with digests: `tests/program/test_memory.py` makes each allocation
//! of the test fail in turn, and no wrong result may be returned.

use crate::row_bytes::bytes_in_two_tries;
use fv_base::Port;
use fv_command::{Status, run_plan};
use fv_plan::{Command, Plan, Task};
use std::alloc::Global;

/// The list of the volume `file-without-data`, with digests.
const LIST: &[u8; 250] = b"volume ffs2 length 128 files 1 sha256 \
    c4320b7d8ea9cb83edddabed532647edab75feecddf5ae6253dcfab9438b3f71\n\
    \x20 file 0 0a0a0a0a-0a0a-0a0a-0a0a-0a0a0a0a0a0a type 01 attributes 00 data 0 \
    sha256 e3b0c44298fc1c149afbf4c8996fb92427ae41e4649b934ca495991b7852b855\n";

/// The output if memory ran out.
const LINE: &[u8; 14] = b"fault 24 at 0\n";

// Returns the plan that lists a volume with digests.
fn list_with_sums() -> Plan {
    let command = Command::Single {
        task: Task::ListSums,
        at: None,
        file: None,
    };
    Plan {
        hex: false,
        command,
    }
}

// Returns whether the volume is listed with digests, or only the line of the fault is written
// because memory ran out.
fn is_listed_or_memory_ran_out(alloc: Global, volume: &[u8]) -> bool {
    let mut taken = [0u8; 250];
    let mut writer = Port::new(taken.as_mut_slice());
    let mut first = Port::new(volume);
    let mut second = Port::new(b"".as_slice());
    let ending = run_plan(
        alloc,
        &list_with_sums(),
        &mut first,
        &mut second,
        &mut writer,
    );
    match ending.status {
        Status::Done => taken == *LIST,
        Status::Refused => &taken[..14] == LINE.as_slice() && taken[14..] == [0; 236],
        _ => false,
    }
}

#[test]
fn out_of_memory_is_reported(rt: HostRuntime) {
    match bytes_in_two_tries(rt.alloc(), "file-without-data") {
        Some(volume) => assert!(rt; is_listed_or_memory_ran_out(rt.alloc(), &volume)),
        None => assert!(rt; false),
    }
}
