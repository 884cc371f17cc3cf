//! Tests of fv_head, with results that were worked out by hand: whether bytes are one volume,
//! extended headers that are read, headers that are written, and memory that runs out. Other headers
//! are in `volumes.rows` of fv_run_tests, their extents in its `library.rows`, and wrong headers and
//! their faults in its `parts.rows`.

mod extended;
mod memory;

use extended::BARE;
use fv_head::is_one_volume;

#[test]
fn bytes_are_one_volume_only_if_none_is_missing(rt: HostRuntime) {
    for (length, is_one) in [(192, true), (191, false), (56, false), (55, false)] {
        assert!(rt; is_one_volume(&BARE[..length]) == is_one, "{length}");
    }
}
