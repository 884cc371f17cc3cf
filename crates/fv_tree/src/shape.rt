//! How the body of a section and the data of a file are read.

ghost use Rattle.std.specs.Prelude.{◌≡◌};
ghost use Rattle.fv_section.specs.Words as framed;
ghost use Rattle.fv_tree.specs.Denotes.{holds_sections};
ghost use Rattle.fv_tree.specs.WalkedSections.{shape_of};

use fv_file::file_type::{FREEFORM, MM_CORE_STANDALONE, PEI_CORE};
use fv_head::is_one_volume;
use fv_section::Frame;
use fv_section::section_type::{DISPOSABLE, FIRMWARE_VOLUME_IMAGE};

/// Returns whether a file of this type holds sections. (PI specification, volume 3, section 3.2.3,
/// `EFI_FV_FILETYPE`.)
pub fn holds_sections(kind: u8) -> bool
    ensures { result ≡ holds_sections kind }
{
    kind == FREEFORM || (PEI_CORE <= kind && kind <= MM_CORE_STANDALONE)
}

/// How the body of a section is read. (PI specification, volume 3, section 3.2.4.)
#[derive(Clone, Copy)]
pub enum Shape {
    /// As plain bytes.
    Leaf,
    /// As sections.
    Group,
    /// As a volume.
    Volume,
}

/// Returns how the body of the section in a frame is read. This depends on its type and, if the
/// section may hold a volume, also on its body. (PI specification, volume 3, section 3.2.4.)
pub fn shape_of(frame: &Frame) -> Shape
    ensures { result ≡ shape_of (framed.frame_form frame.now) }
{
    if frame.kind == DISPOSABLE {
        return Shape::Group;
    }
    if frame.kind == FIRMWARE_VOLUME_IMAGE && is_one_volume(frame.body) {
        return Shape::Volume;
    }
    Shape::Leaf
}
