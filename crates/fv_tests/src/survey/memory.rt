//! Failed allocations: `tests/program/test_memory.py` makes each allocation of the test fail in turn,
//! and no wrong result may be returned.

use crate::faults::OUT_OF_MEMORY;
use crate::spelling::spelled_in_two_tries;
use fv_base::Fault;
use fv_survey::{SurveyWalk, survey};
use std::alloc::Global;

// A volume with two files of one name.
const TWINS: &str =
    "00*16 78e58c8c3d8a1c4f9935896185c32dd3 78000000000000005f465648fffe00004800e2f500000002 \
    01000000780000000000000000000000 01*16 d7aa0100180000f8 01*16 d7aa0100180000f8";

// The rows of this volume: the volume, its header, and two files with their headers.
const ROWS: usize = 6;

// Returns how many rows a walk lends, up to one more than `ROWS`.
fn rows_walked(alloc: Global, image: &[u8]) -> Result<usize, Fault> {
    let mut walk = SurveyWalk::of(alloc, image)?;
    for count in 0..ROWS + 1 {
        if walk.next_row(alloc)?.is_none() {
            return Ok(count);
        }
    }
    Ok(ROWS + 1)
}

// Returns how many rows a survey has.
fn rows_kept(alloc: Global, image: &[u8]) -> Result<usize, Fault> {
    let rows = survey(alloc, image)?;
    Ok(rows.as_slice().len())
}

// Returns whether a call counted all rows, or ran out of memory.
fn is_counted(count: Result<usize, Fault>) -> bool {
    match count {
        Ok(count) => count == ROWS,
        Err(fault) => fault == OUT_OF_MEMORY,
    }
}

#[test]
fn out_of_memory_is_reported(rt: HostRuntime) {
    let alloc = rt.alloc();
    match spelled_in_two_tries(alloc, TWINS) {
        Some(image) => {
            assert!(rt; is_counted(rows_walked(alloc, &image)));
            assert!(rt; is_counted(rows_kept(alloc, &image)));
        }
        None => panic!(rt; "memory ran out twice"),
    }
}
