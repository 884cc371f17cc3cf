//! The volumes that the FV and FV2 blocks of a hand-off list describe.

ghost use Rattle.std.specs.Prelude.{◌≡◌, ◌<◌, length, IfOk, IfErr};
ghost use Rattle.fv_hob.specs.HobChecks.{hob_out_of_memory};
ghost use Rattle.fv_hob.specs.Lists.{span_of, spans_of};

use crate::fault::HobFault;
use crate::hob::{Hob, HobKind};
use crate::hob_list::HobList;
use std::alloc::Global;
use std::marker::Model;

/// The place of a firmware volume in memory. (PI specification, volume 3, section 5.7.)
#[derive(Clone, Copy, Debug, PartialEq, Eq)]
pub struct Span {
    /// BaseAddress: the address of the volume's first byte.
    pub base: u64,
    /// Length, in bytes.
    pub length: u64,
}

/// The places of firmware volumes in memory. Only `volume_hobs` makes such a list. Contracts see it
/// as the list of its spans.
#[derive(Drop)]
pub struct Spans {
    list: Vec<Span>,
}

impl Model for Spans {
    ghost use Rattle.std.specs.Prelude.{List};
    ghost use Rattle.fv_hob.specs.declared.span.Span.{Span};

    ghost Value = { List Span };

    ghost view = { λ s. s.list.items };
}

impl Spans {
    /// Returns the spans in the order of the blocks that describe them.
    pub fn as_slice(&self) -> &[Span]
        ensures { result.now ≡ self.now }
    {
        self.list.as_slice()
    }
}

impl Hob {
    /// Returns the place in memory of the volume that the block describes, if its type is
    /// EFI_HOB_TYPE_FV (0x0005) or EFI_HOB_TYPE_FV2 (0x0009), or None for every other type. (PI
    /// specification, volume 3, section 5.7.)
    pub fn span(&self) -> Option<Span>
        ensures { result ≡ span_of self.now.kind }
    {
        match self.kind() {
            HobKind::FirmwareVolume { base, length }
            | HobKind::FirmwareVolume2 { base, length, .. } => Some(Span {
                base: *base,
                length: *length,
            }),
            _ => None,
        }
    }
}

/// Returns the places in memory of the volumes that the FV and FV2 blocks (EFI_HOB_TYPE_FV,
/// EFI_HOB_TYPE_FV2) describe, in the order of the blocks. A volume that two blocks describe is in
/// the list twice. (PI specification, volume 3, section 5.7.)
///
/// # Errors
///
/// OutOfMemory, only if the list has an FV or FV2 block.
pub fn volume_hobs(alloc: Global, hobs: &HobList) -> Result<Spans, HobFault>
    // The result has the base and the length in each FV or FV2 block, in order.
    ensures spans { IfOk result (λ s. s ≡ spans_of hobs.now) }

    // The only error is OutOfMemory, and only if there is an FV or FV2 block.
    ensures err { IfErr result (λ f. f ≡ hob_out_of_memory) }
    ensures some { IfErr result (λ _. 0 < length (spans_of hobs.now)) }
{
    let mut list = Vec::new(alloc);
    for hob in hobs.as_slice() {
        if let Some(span) = hob.span() {
            list.push(span)?;
        }
    }
    Ok(Spans { list })
}
