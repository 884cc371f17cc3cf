//! A stream of sections that is a whole input: what a compressed or GUID-defined section holds when
//! it is opened.

ghost use Rattle.std.specs.Prelude.{◌≡◌, ◌≢◌, ℕ, List, IfOk, IfErr};
ghost use Rattle.fv_base.specs.Words.{OrMemory, out_of_memory};
ghost use Rattle.fv_base.specs.declared.fault.FaultKind.{FaultKind};
ghost use Rattle.fv_tree.specs.Meaning.{SectionMeaning};
ghost use Rattle.fv_tree.specs.StreamInputs.{AcceptedStream, FaultHoldsInStream, HasFrame, NotStream};

use crate::read::{OUTERMOST, read_stream};
use crate::view::{Sections, VolumeView};
use fv_base::limits::{DEPTH_LIMIT, VOLUME_LIMIT};
use fv_base::{Fault, FaultKind, check};
use std::alloc::Global;
use std::marker::Model;

/// The meaning of a stream of sections. Only reading a stream makes a value of this type. The view
/// does not store the sections: they are read from the bytes each time they are walked. Contracts
/// see the list of the sections, and the number of bytes after the last section. (PI specification,
/// volume 3, section 3.2.4.)
#[derive(Drop)]
pub struct StreamView<'a> {
    // The bytes of the stream.
    bytes: &'a [u8],
    // The volumes that are the bodies of sections in the stream, including sections in groups, in
    // the order of the sections.
    volumes: Vec<VolumeView<'a>>,
}

impl<'a> Model for StreamView<'a> {
    ghost use Rattle.std.specs.Prelude.{ℕ, List};
    ghost use Rattle.std.specs.Coded.{coded×, coded_ℕ, coded_list};
    ghost use Rattle.fv_base.specs.Words.{depth_limit};
    ghost use Rattle.fv_tree.specs.inner.Codes.{section_code};
    ghost use Rattle.fv_tree.specs.Meaning.{SectionMeaning};

    ghost Value = { List SectionMeaning × ℕ };

    ghost coded = { coded× (coded_list section_code) coded_ℕ };

    ghost use Rattle.fv_tree.specs.StreamInputs.{AcceptedStream};
    ghost use Rattle.fv_tree.specs.WalkedSections.{each_by, frames_of, section_by, tail_of};

    ghost view = { λ s. ((each_by (section_by depth_limit) (frames_of s.bytes.now) s.volumes.items).0, tail_of s.bytes.now) };

    ghost invariant = { λ s. AcceptedStream (each_by (section_by depth_limit) (frames_of s.bytes.now) s.volumes.items).0
        (tail_of s.bytes.now) s.bytes.now };
}

impl<'a> StreamView<'a> {
    /// Returns an iterator over the sections, in order. It does not enter groups. Takes no memory.
    /// (PI specification, volume 3, section 3.2.4.)
    pub fn sections(&self) -> Sections<'_, 'a>
        ensures { result ≡ self.now }
    {
        Sections::of(self.bytes, self.volumes.as_slice(), DEPTH_LIMIT as usize)
    }

    /// Computes nothing. After the call, a proof knows that some bytes are a stream of these
    /// sections.
    pub fn known(&self)
        ensures { (b : List ℕ) × AcceptedStream self.now.0 self.now.1 b }
    {
        let _bytes = self.bytes;
    }
}

/// Returns the stream of sections that is the whole input: sections one after another, on multiples
/// of 4. An empty input is a stream without sections. (PI specification, volume 3, section 3.2.4.)
///
/// # Errors
///
/// Length at the limit of 268435456 bytes if the input is longer. Otherwise the first fault:
/// faults of the sections' headers, as for `frames`; then the faults of each section in turn: Depth
/// at a group or an opened volume that is nested too deep, and faults in the content of a group or
/// an opened volume. The offset is in bytes from the start of `input`, and the depth is the number
/// of groups and opened volumes around the fault. OutOfMemory at 0, only if the input has a
/// section.
pub fn whole_stream(alloc: Global, input: &[u8]) -> Result<StreamView<'_>, Fault>
    // The input is a stream of these sections, and of no others.
    ensures found { IfOk result (λ view. AcceptedStream view.0 view.1 input.now) }
    ensures only { IfOk result (λ view. (sections : List SectionMeaning) (tail : ℕ)
        → AcceptedStream sections tail input.now → (sections ≡ view.0) × (tail ≡ view.1)) }

    // An error other than OutOfMemory means that the input is not a stream of sections, and is its
    // first fault.
    ensures rejected { IfErr result (OrMemory (NotStream input.now)) }

    // The condition of such an error holds in the input at its offset.
    ensures holds { IfErr result (λ f. f ≢ out_of_memory → FaultHoldsInStream input.now f) }

    // Memory runs out only if the headers of all sections are right, and there is a section.
    ensures memory { IfErr result (λ f. f ≡ out_of_memory → HasFrame input.now) }

    // ReadFault and WriteFault are never returned.
    ensures kind { IfErr result (λ f. (f.kind ≢ FaultKind.ReadFault) × (f.kind ≢ FaultKind.WriteFault)) }
{
    check(
        input.len() as u64 <= VOLUME_LIMIT,
        FaultKind::Length,
        VOLUME_LIMIT,
    )?;
    let mut volumes = Vec::new(alloc);
    read_stream(alloc, input, OUTERMOST, &mut volumes)?;
    Ok(StreamView {
        bytes: input,
        volumes,
    })
}
