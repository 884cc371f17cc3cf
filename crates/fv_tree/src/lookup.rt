//! Looking up files and sections.

ghost use Rattle.std.specs.Prelude.{◌≡◌, ◌+◌, ℕ, None, IfOk, IfErr, List, option_copied, option_map};
ghost use Rattle.std.specs.Iterator.{SkipsThenYields};
ghost use Rattle.fv_section.specs.Words.{FrameForm, Splits};
ghost use Rattle.fv_section.specs.Words as framed;
ghost use Rattle.fv_tree.specs.LookupInstances.{FindsSection, FindsFrame, IsNotSectioned, file_after, file_of_type};
ghost use Rattle.fv_tree.specs.LookupInstances.{section_of_type, frame_of_type, security_core};
ghost use Rattle.fv_tree.specs.Meaning.{files_of, content_of, Plain, Sectioned, SectionMeanings};
ghost use Rattle.fv_tree.specs.MeaningParts.{file_kind_of, sections_in_data};
ghost use Rattle.fv_tree.specs.FileNames.{file_named};

use crate::section_walk::SectionWalk;
use crate::view::{Content, FileView, SectionView, VolumeView};
use fv_base::{Fault, Guid};
use fv_file::file_type::SECURITY_CORE;
use fv_section::{Frame, FrameWalk};

/// The section or the frame that a look-up found. (PI specification, volume 3, section 3.2.4.)
#[derive(Drop)]
pub enum Item<'v, 'a> {
    /// A section of the view.
    Section(SectionView<'v, 'a>),
    /// A frame in the data of a security core, with its offset in these data.
    Frame(Frame<'a>),
}

/// The result of looking up a section.
#[derive(Drop)]
pub enum Lookup<'v, 'a> {
    /// The section or frame that was found.
    Found(Item<'v, 'a>),
    /// The file's data are sections (in a security core, frames), but none of them has this type
    /// and instance.
    Absent,
    /// The file's data are not sections.
    NotSectioned,
}

/// Returns the first file with this name, or None if no file has it. Searches in the view's order
/// of names. Takes no memory. (PI specification, volume 3, section 3.2.3.)
#[tactic(auto, using(crate::proofs::NamedLaws::file_there))]
pub fn file_by_name<'v, 'a>(volume: &'v VolumeView<'a>, name: &Guid) -> Option<&'v FileView<'a>>
    ensures { option_copied result ≡ file_named name.now (files_of volume.now) }
{
    let number = volume.number_of(name)?;
    volume.file(number)
}

/// Returns the file that follows file number `after`, together with its own number. If `after` is
/// None, returns the first file. Returns None after the last file. Files are numbered from 0 in
/// order. Takes no memory. (PI specification, volume 3, section 3.2.3.)
pub fn next_file<'v, 'a>(
    volume: &'v VolumeView<'a>,
    after: Option<u32>,
) -> Option<(u32, &'v FileView<'a>)>
    ensures { option_map (λ r. (r.0, r.1.now)) result ≡ file_after after (files_of volume.now) }
{
    let number = match after {
        None => 0,
        Some(last) => {
            if last >= volume.file_count() {
                return None;
            }
            last + 1
        }
    };
    let file = volume.file(number)?;
    Some((number, file))
}

// Returns item number `instance`, counted from 1, or None if there are fewer items. Instance 0
// gives None.
fn numbered<I: Iterator>(mut items: I, instance: u32) -> Option<I::Item>
where
    I::Item: Drop,
    requires { I.can_next items }
    ensures zero { instance ≡ 0 → result ≡ None }
    ensures nth { (k : ℕ) → instance ≡ k + 1 → (end : I) × SkipsThenYields I.next_gives items k result end }
{
    if instance == 0 {
        return None;
    }
    items.nth((instance - 1) as usize)
}

/// Returns file number `instance` of this type, counted from 1, or None if there are fewer.
/// Instance 0 gives None. Takes no memory. (PI specification, volume 3, section 3.2.3,
/// EFI_FV_FILETYPE.)
pub fn file_by_type<'v, 'a>(
    volume: &'v VolumeView<'a>,
    kind: u8,
    instance: u32,
) -> Option<&'v FileView<'a>>
    ensures { option_copied result ≡ file_of_type kind instance (files_of volume.now) }
{
    let files = volume.files().iter().filter(|file| file.kind() == kind);
    numbered(files, instance)
}

// Looks up a section among the sections of a file.
fn section_lookup<'v, 'a>(file: &'v FileView<'a>, kind: u8, instance: u32) -> Lookup<'v, 'a>
    ensures { FindsSection result (section_of_type kind instance (sections_in_data (content_of file.now))) }
{
    let sections = SectionWalk::of(file).filter(|section| section.kind() == kind);
    match numbered(sections, instance) {
        Some(section) => Lookup::Found(Item::Section(section)),
        None => Lookup::Absent,
    }
}

// Returns the frame with this type and instance, if there is one. An error means that the bytes are
// not a stream.
fn frame_by_type(bytes: &[u8], kind: u8, instance: u32) -> Result<Option<Frame<'_>>, Fault>
    ensures ok { IfOk result (λ o. (fs : List FrameForm) (t : ℕ) → Splits fs t bytes.now
        → option_map framed.frame_form o ≡ frame_of_type kind instance fs) }
    ensures split { IfOk result (λ _. (fs : List FrameForm) × (t : ℕ) × Splits fs t bytes.now) }
    ensures err { IfErr result (λ _. (fs : List FrameForm) (t : ℕ) → Splits fs t bytes.now → ⊥) }
{
    let walk = FrameWalk::of(bytes)?;
    let frames = walk.filter(|frame| frame.kind == kind);
    Ok(numbered(frames, instance))
}

// Looks up a frame in bytes that may be a stream.
fn frame_lookup<'v, 'a>(bytes: &'a [u8], kind: u8, instance: u32) -> Lookup<'v, 'a>
    ensures core { (fs : List FrameForm) (t : ℕ) → Splits fs t bytes.now
        → FindsFrame result (frame_of_type kind instance fs) }
    ensures none { ((fs : List FrameForm) (t : ℕ) → Splits fs t bytes.now → ⊥) → IsNotSectioned result }
{
    match frame_by_type(bytes, kind, instance) {
        Ok(Some(frame)) => Lookup::Found(Item::Frame(frame)),
        Ok(None) => Lookup::Absent,
        Err(_) => Lookup::NotSectioned,
    }
}

/// Returns section number `instance` of this type, counted from 1 in preorder: a group is followed
/// by the sections in it, and the sections of a nested volume are not counted. In a security core,
/// the frames of its data are counted instead. The result is Absent if the file has fewer sections
/// or frames of this type, and for instance 0. The result is NotSectioned, whatever `instance` is,
/// if the data of a security core are not a stream, and for every other file whose data are kept as
/// bytes. Takes no memory. (PI specification, volume 3, section 3.2.4, EFI_SECTION_TYPE.)
pub fn section_by_type<'v, 'a>(file: &'v FileView<'a>, kind: u8, instance: u32) -> Lookup<'v, 'a>
    ensures sections { (ss : SectionMeanings) (t : ℕ) → content_of file.now ≡ Sectioned ss t
        → FindsSection result (section_of_type kind instance ss) }

    // In a security core whose data are a stream, the frames are counted.
    ensures core { (b : List ℕ) (fs : List FrameForm) (t : ℕ) → content_of file.now ≡ Plain b
        → file_kind_of file.now ≡ security_core → Splits fs t b → FindsFrame result (frame_of_type kind instance fs) }

    // Other files with plain data, and security cores whose data are not a stream, give
    // NotSectioned.
    ensures plain { (b : List ℕ) → content_of file.now ≡ Plain b
        → (file_kind_of file.now ≡ security_core → (fs : List FrameForm) (t : ℕ) → Splits fs t b → ⊥)
        → IsNotSectioned result }
{
    match file.content() {
        Content::Plain(bytes) => {
            if file.kind() != SECURITY_CORE {
                return Lookup::NotSectioned;
            }
            frame_lookup(bytes, kind, instance)
        }
        Content::Stream(_) => section_lookup(file, kind, instance),
    }
}
