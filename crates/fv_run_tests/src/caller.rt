//! The calls of fv_caller: an empty volume, and the expression and the hand-off list of a boot.

use crate::row_bytes::bytes_of;
use fv_caller::{CallerFault, archive_volume, check_boot};
use std::alloc::Global;

/// A hand-off information table, and the end of its list.
const LIST: &str = "PHIT ffff080000000000";

/// The ops TRUE and END.
const ALWAYS: [u8; 2] = [0x06, 0x08];

// Returns whether the archive keeps an empty volume as it is, counts no files in it, and rejects
// the volume header without the rest.
fn archive_keeps_an_empty_volume(alloc: Global) -> Option<bool> {
    let volume = bytes_of(alloc, "empty")?;
    let kept = archive_volume(alloc, &volume).ok()?;
    let cut = archive_volume(alloc, volume.get(..72)?).err();
    let is_cut = matches!(cut, Some(CallerFault::Volume(_)));
    Some(is_cut && kept.files == 0 && kept.image.as_slice() == volume.as_slice())
}

// Returns the result of a boot with an empty volume, this expression and this hand-off list.
fn boot(alloc: Global, expression: &[u8], hand_off: &str) -> Option<Result<(), CallerFault>> {
    let volume = bytes_of(alloc, "empty")?;
    let list = bytes_of(alloc, hand_off)?;
    Some(check_boot(alloc, &volume, expression, &list))
}

// Returns whether a boot with this expression and this hand-off list has a fault with this text.
fn has_fault(alloc: Global, expression: &[u8], hand_off: &str, wanted: &str) -> Option<bool> {
    let fault = boot(alloc, expression, hand_off)?.err()?;
    let text = format!(in alloc; "{fault}").ok()?;
    Some(text.as_str() == wanted)
}

#[test]
fn archive_keeps_the_canonical_image(rt: HostRuntime) {
    assert!(rt; archive_keeps_an_empty_volume(rt.alloc()) == Some(true));
}

#[test]
fn boot_is_rejected_by_its_first_fault(rt: HostRuntime) {
    let alloc = rt.alloc();
    assert!(rt; matches!(boot(alloc, &ALWAYS, LIST), Some(Ok(()))));
    let wanted =
        "expression: the stack does not hold the values that an op takes (depex fault 3) at offset 0";
    assert!(rt; has_fault(alloc, &ALWAYS[1..], LIST, wanted) == Some(true));
    let wanted = "hand-off list: the list has no end block (hob fault 5) at offset 56";
    assert!(rt; has_fault(alloc, &ALWAYS, "PHIT", wanted) == Some(true));
}
