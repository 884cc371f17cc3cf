//! Packed sections as frames.

ghost use Rattle.std.specs.Prelude.{◌≡◌, option_map};
ghost use Rattle.fv_section.specs.Words.{frame_form};
ghost use Rattle.fv_budget.specs.PackedFrames.{is_packed, packed_frame};

use fv_section::Frame;
use fv_tree::{Body, SectionView};

/// `EFI_SECTION_COMPRESSION`, the type of a compression section.
const COMPRESSION: u8 = 0x01;

/// `EFI_SECTION_GUID_DEFINED`, the type of a GUID-defined section.
const GUID_DEFINED: u8 = 0x02;

// Returns whether a section of this type is packed.
fn is_packed(kind: u8) -> bool
    ensures { result ≡ is_packed kind }
{
    kind == COMPRESSION || kind == GUID_DEFINED
}

/// Returns a section as a frame at the offset 0, if the section is packed: if it is a compression
/// section or a GUID-defined section. The body of the frame is borrowed from the input. Allocates no
/// memory. (PI specification, volume 3, sections 3.2.4, 3.2.5.2 and 3.2.5.7.)
pub fn packed_frame<'a>(section: &SectionView<'_, 'a>) -> Option<Frame<'a>>
    ensures { option_map frame_form result ≡ packed_frame section.now }
{
    match section.body() {
        Body::Leaf(body) if is_packed(section.kind()) => Some(Frame {
            offset: 0,
            kind: section.kind(),
            extended: section.extended(),
            body,
        }),
        _ => None,
    }
}
