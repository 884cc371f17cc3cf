//! The views of a volume, of its files and of their sections: meanings that refer to the bytes from
//! which the volume was read.

mod file;
mod section;
mod volume;

use fv_base::Guid;
use fv_file::FileAttributes;
use fv_head::VolumeHead;
use fv_names::NameOrder;
use fv_section::Frame;
use std::marker::Model;
use std::mem::size_of;

/// The meaning of a volume. Only reading a volume makes a value of this type. The bytes of the
/// files and of the extended header are slices of the bytes that were read. Contracts see the
/// meaning, and know that some bytes are a volume with this meaning. (PI specification, volume 3,
/// section 3.2.)
#[cycle(tree)]
#[derive(Drop)]
pub struct VolumeView<'a> {
    head: VolumeHead<'a>,
    files: Vec<FileView<'a>>,
    order: NameOrder,
}

/// The meaning of a file: its name, its type, its attributes and its content. Only reading a volume
/// makes a value of this type. The view does not store the sections of the file: they are read from
/// its data each time they are walked. (PI specification, volume 3, section 3.2.3.)
#[cycle(tree)]
#[derive(Drop)]
pub struct FileView<'a> {
    parts: FileParts<'a>,
    name: Guid,
}

/// What a view keeps of a file besides its name. Both variants hold the traits, for which there is
/// room beside the tag. The volumes are behind a pointer, so that the views of the many files
/// without volumes stay small.
#[cycle(tree)]
#[derive(Drop)]
pub(crate) enum FileParts<'a> {
    /// A file without a volume in its data.
    Single {
        /// The traits.
        traits: FileTraits,
        /// The data.
        payload: &'a [u8],
    },
    /// A file with volumes in its data.
    Nesting {
        /// The traits.
        traits: FileTraits,
        /// The data, and the volumes in them.
        nested: Box<NestingData<'a>>,
    },
}

/// The numbers that a view keeps of a file.
#[derive(Clone, Copy)]
pub(crate) struct FileTraits {
    /// The type.
    file_type: u8,
    /// The attributes.
    attributes: FileAttributes,
    /// Groups and opened volumes in the data nest at most this deep.
    left: u8,
}

/// The data of a file, and the volumes that are the bodies of sections in them, including sections
/// in groups, in the order of the sections.
#[cycle(tree)]
#[derive(Drop)]
pub(crate) struct NestingData<'a> {
    payload: &'a [u8],
    volumes: Vec<VolumeView<'a>>,
}

/// The content of a file, which depends on the file's type. (PI specification, volume 3, section
/// 3.2.3.)
#[derive(Drop)]
pub enum Content<'v, 'a> {
    /// Plain bytes, which are not interpreted.
    Plain(&'a [u8]),
    /// The sections of a stream.
    Stream(Sections<'v, 'a>),
}

/// The meaning of a section: its type, the form of its header, and its body. Only reading a volume
/// makes a value of this type. (PI specification, volume 3, section 3.2.4.)
#[derive(Drop)]
pub struct SectionView<'v, 'a> {
    frame: Frame<'a>,
    // The volumes in this section, followed by the volumes in all later sections of the file.
    volumes: &'v [VolumeView<'a>],
    // Groups and opened volumes, including the section itself, nest at most this deep.
    left: usize,
}

/// An iterator over the sections of a stream, which reads them from the bytes of the stream, one
/// after another. Contracts see the list of the remaining sections, and the number of bytes after
/// the last section. (PI specification, volume 3, section 3.2.4.)
#[derive(Drop)]
pub struct Sections<'v, 'a> {
    // The bytes of the stream from the next section on or, after the last section, the tail.
    rest: &'a [u8],
    // The volumes in the remaining sections, followed by the volumes in all later sections of the
    // file.
    volumes: &'v [VolumeView<'a>],
    // Groups and opened volumes, including the sections themselves, nest at most this deep.
    left: usize,
}

/// The body of a section. (PI specification, volume 3, section 3.2.5.)
#[derive(Drop)]
pub enum Body<'v, 'a> {
    /// Plain bytes: a slice of the bytes that were read, which outlives the view.
    Leaf(&'a [u8]),
    /// The sections of a group.
    Group(Sections<'v, 'a>),
    /// The view of a volume.
    Nested(&'v VolumeView<'a>),
}

// The size of a file view is fixed, because a file can be as short as 24 bytes.
const _: () = prove!(size_of::<FileView<'static>>() == 40);

impl<'a> Model for VolumeView<'a> {
    ghost use Rattle.fv_tree.specs.inner.Codes.{volume_code};
    ghost use Rattle.fv_tree.specs.Meaning.{Meaning, Volume};
    ghost use Rattle.fv_tree.specs.MeaningParts.{files_from};
    ghost use Rattle.fv_tree.specs.inner.Sizes.{files_fall, volume_size};

    ghost Value = { Meaning };

    ghost coded = { volume_code };

    ghost view = { λ v. Volume v.head (files_from v.files.items) };

    ghost use Rattle.fv_tree.specs.Denotes.{IsMeaning};
    ghost use Rattle.fv_tree.specs.FileNames.{HasOrder};

    ghost invariant = { λ v. IsMeaning (Volume v.head (files_from v.files.items))
        × HasOrder v.order v.files.items };

    ghost size = { volume_size };

    ghost use Rattle.std.proofs.Common.{arith};

    ghost size_decreases = { λ v h. Prim.omega (arith, files_fall v.files.items) };
}

impl<'a> Model for FileView<'a> {
    ghost use Rattle.fv_tree.specs.inner.Codes.{file_code};
    ghost use Rattle.fv_tree.specs.Meaning.{FileMeaning, File};
    ghost use Rattle.fv_tree.specs.inner.Sizes.{file_size};

    ghost Value = { FileMeaning };

    ghost coded = { file_code };

    ghost use Rattle.fv_file.specs.Words.{attribute_bits};
    ghost use Rattle.fv_tree.specs.Denotes.{holds_sections};
    ghost use Rattle.fv_tree.specs.KeptParts.{data_of, nested_list, traits_of};
    ghost use Rattle.fv_tree.specs.WalkedSections.{content_by, IsKeptFile};

    ghost view = { λ f. File f.name (traits_of f.parts).file_type (attribute_bits (traits_of f.parts).attributes)
        (content_by (holds_sections (traits_of f.parts).file_type) (traits_of f.parts).left (data_of f.parts)
        (nested_list f.parts)).0 };

    ghost invariant = { λ f. IsKeptFile (traits_of f.parts).left (data_of f.parts) (nested_list f.parts) f.name
        (traits_of f.parts).file_type (attribute_bits (traits_of f.parts).attributes) };

    ghost size = { file_size };

    ghost use Rattle.std.proofs.Common.{arith};
    ghost use Rattle.fv_tree.specs.inner.Falls.{file_falls};

    ghost size_decreases = { λ f h. Prim.omega (
      arith,
      file_falls f.parts (holds_sections (traits_of f.parts).file_type)
          (traits_of f.parts).left (data_of f.parts) h.none,
    ) };
}

impl<'v, 'a> Model for SectionView<'v, 'a> {
    ghost use Rattle.fv_tree.specs.inner.Codes.{section_code};
    ghost use Rattle.fv_tree.specs.Meaning.{SectionMeaning};

    ghost Value = { SectionMeaning };

    ghost coded = { section_code };

    ghost use Rattle.fv_section.specs.Words.{frame_form};
    ghost use Rattle.fv_tree.specs.WalkedSections.{section_by, IsKept};

    ghost view = { λ s. (section_by s.left (frame_form s.frame) s.volumes.now).0 };

    ghost invariant = { λ s. IsKept s.left (frame_form s.frame) s.volumes.now };
}

impl<'v, 'a> Model for Sections<'v, 'a> {
    ghost use Rattle.std.specs.Prelude.{ℕ, List};
    ghost use Rattle.std.specs.Coded.{coded×, coded_ℕ, coded_list};
    ghost use Rattle.fv_tree.specs.inner.Codes.{section_code};
    ghost use Rattle.fv_tree.specs.Meaning.{SectionMeaning};

    ghost Value = { List SectionMeaning × ℕ };

    ghost coded = { coded× (coded_list section_code) coded_ℕ };

    ghost use Rattle.fv_tree.specs.WalkedSections.{each_by, frames_of, section_by, tail_of, AreKept};

    ghost view = { λ s. ((each_by (section_by s.left) (frames_of s.rest.now) s.volumes.now).0, tail_of s.rest.now) };

    ghost invariant = { λ s. AreKept s.left s.rest.now s.volumes.now };
}
