//! The texts and the numbers of the faults.

use crate::checks::is_printed_as;
use fv_hob::{HobFault, HobFaultKind};

/// Every kind of fault except OutOfMemory, and the text of a fault of this kind at offset 56.
const TEXTS: &[(HobFaultKind, &str)] = &[
    (
        HobFaultKind::Short,
        "a block is cut short (hob fault 1) at offset 56",
    ),
    (
        HobFaultKind::Length,
        "the length of a block is not a multiple of 8, or is below 8 (hob fault 2) at offset 56",
    ),
    (
        HobFaultKind::First,
        "the first block is not a hand-off information table (hob fault 3) at offset 56",
    ),
    (
        HobFaultKind::Shape,
        "the length of a block is wrong for its type (hob fault 4) at offset 56",
    ),
    (
        HobFaultKind::NoEnd,
        "the list has no end block (hob fault 5) at offset 56",
    ),
];

#[test]
fn each_fault_has_its_text(rt: HostRuntime) {
    for (kind, text) in TEXTS {
        let fault = HobFault {
            kind: *kind,
            offset: 56,
        };
        assert!(rt; is_printed_as(rt.alloc(), &fault, text), "{text}");
    }
}

#[test]
fn out_of_memory_has_a_number(rt: HostRuntime) {
    let kind = HobFaultKind::OutOfMemory;
    assert!(rt; kind.number() == 6 && HobFault { kind, offset: 0 }.number() == 6);
}
