//! The methods of `FileView`.

ghost use Rattle.std.specs.Prelude.{◌≡◌, ◌≤◌, length, option_map, IfOk, IfErr};
ghost use Rattle.fv_base.specs.Words.{depth_limit, out_of_memory, volume_limit};
ghost use Rattle.fv_file.specs.Words.{attribute_bits};
ghost use Rattle.fv_tree.specs.Denotes.{MeansFile, Stream};
ghost use Rattle.fv_tree.specs.LocatedFiles.{bare_form, with_data};
ghost use Rattle.fv_tree.specs.ReadParts.{IsReadFile, IsStoredFile};
ghost use Rattle.fv_tree.specs.Meaning.{file_name_of, attributes_of, content_of, data_len_of};
ghost use Rattle.fv_tree.specs.MeaningParts.{file_kind_of, plain_of, sections_from, sections_in_data};
ghost use Rattle.fv_tree.specs.Views.{content_view};
ghost use Rattle.fv_tree.specs.KeptParts.{data_of, nested_list, traits_of};
ghost use Rattle.fv_tree.specs.inner.SectionReads.{ContentRead};

use super::{Content, FileParts, FileTraits, FileView, NestingData, Sections, VolumeView};
use crate::shape::holds_sections;
use crate::volume_files::LocatedFile;
use fv_base::{Fault, Guid};
use fv_file::FileAttributes;
use fv_names::WithName;
use std::alloc::Global;

impl<'a> FileParts<'a> {
    // Returns the parts of a file with these traits, these data, and these volumes in the data.
    // Takes no memory if there is no volume.
    fn of(
        alloc: Global,
        traits: FileTraits,
        payload: &'a [u8],
        volumes: Vec<VolumeView<'a>>,
    ) -> Result<FileParts<'a>, Fault>
        ensures traits { IfOk result (λ p. traits_of p ≡ traits) }
        ensures payload { IfOk result (λ p. data_of p ≡ payload.now) }
        ensures volumes { IfOk result (λ p. nested_list p ≡ volumes.entry.items) }
        ensures err { IfErr result (λ f. f ≡ out_of_memory) }
    {
        if volumes.is_empty() {
            return Ok(FileParts::Single { traits, payload });
        }
        let nested = Box::new(alloc, NestingData { payload, volumes })?;
        Ok(FileParts::Nesting { traits, nested })
    }

    // Returns the traits.
    fn traits(&self) -> FileTraits
        ensures { result ≡ traits_of self.now }
    {
        match self {
            FileParts::Single { traits, .. } | FileParts::Nesting { traits, .. } => *traits,
        }
    }

    // Returns the data.
    fn data(&self) -> &'a [u8]
        ensures { result.now ≡ data_of self.now }
    {
        match self {
            FileParts::Single { payload, .. } => payload,
            FileParts::Nesting { nested, .. } => nested.payload,
        }
    }

    // Returns the volumes in the data, in order.
    fn volumes(&self) -> &[VolumeView<'a>]
        ensures { result.now ≡ nested_list self.now }
    {
        match self {
            FileParts::Single { .. } => &[],
            FileParts::Nesting { nested, .. } => nested.volumes.as_slice(),
        }
    }
}

impl<'a> FileView<'a> {
    // Returns the view of a file that was read. `volumes` are the volumes in its data, in which
    // groups and opened volumes nest at most `left` deep.
    pub(crate) fn new(
        alloc: Global,
        file: &LocatedFile,
        payload: &'a [u8],
        volumes: Vec<VolumeView<'a>>,
        left: u8,
    ) -> Result<FileView<'a>, Fault>
        requires few { left ≤ depth_limit }
        requires stored { IsStoredFile (with_data payload.now (bare_form file.now)) }
        requires small { length payload.now ≤ volume_limit }
        requires read { ContentRead left file.now.kind payload.now volumes.items }
        ensures ok { IfOk result (MeansFile (Stream left) (with_data payload.now (bare_form file.now))) }
        ensures err { IfErr result (λ f. f ≡ out_of_memory) }
    {
        let traits = FileTraits {
            file_type: file.kind,
            attributes: file.attributes.without_large(),
            left,
        };
        let parts = FileParts::of(alloc, traits, payload, volumes)?;
        Ok(FileView {
            parts,
            name: file.name,
        })
    }

    /// Returns the name.
    pub fn name(&self) -> Guid
        ensures name { result ≡ file_name_of self.now }

        // Some bytes are a file with this meaning.
        ensures read { IsReadFile self.now }
    {
        self.known();
        self.name
    }

    /// Computes nothing. After the call, a proof knows that some bytes are a file with this
    /// meaning.
    pub fn known(&self)
        ensures { IsReadFile self.now }
    {
        let _name = self.name;
    }

    /// Returns the type (PI specification, volume 3, section 3.2.3, EFI_FV_FILETYPE).
    pub fn kind(&self) -> u8
        ensures { result ≡ file_kind_of self.now }
    {
        self.parts.traits().file_type
    }

    /// Returns the attribute bits without 0x01 (FFS_ATTRIB_LARGE_FILE), which belongs to the form
    /// of the header. (PI specification, volume 3, section 3.2.3.1.)
    pub fn attributes(&self) -> FileAttributes
        ensures { attribute_bits result ≡ attributes_of self.now }
    {
        self.parts.traits().attributes
    }

    /// Returns the content: plain bytes, or an iterator over sections. Takes no memory.
    pub fn content(&self) -> Content<'_, 'a>
        ensures { content_view result ≡ content_of self.now }
    {
        let data = self.parts.data();
        let traits = self.parts.traits();
        if holds_sections(traits.file_type) {
            Content::Stream(Sections::of(data, self.parts.volumes(), traits.left as usize))
        } else {
            Content::Plain(data)
        }
    }

    /// Returns the data, or None if they are sections. The data are a slice of the bytes that were
    /// read, which outlives the view.
    pub fn plain(&self) -> Option<&'a [u8]>
        ensures { option_map (λ b. b.now) result ≡ plain_of (content_of self.now) }
    {
        match self.content() {
            Content::Plain(bytes) => Some(bytes),
            Content::Stream(_) => None,
        }
    }

    /// Returns an iterator over the sections of the data, in order. It does not enter groups. There
    /// are no sections if the data are plain bytes. Takes no memory.
    pub fn sections(&self) -> Sections<'_, 'a>
        ensures { sections_from result.0 ≡ sections_in_data (content_of self.now) }
    {
        match self.content() {
            Content::Stream(sections) => return sections,
            Content::Plain(_) => {}
        }
        Sections::default()
    }

    /// Returns the number of bytes of the data.
    pub fn data_len(&self) -> u64
        ensures { result ≡ data_len_of self.now }
    {
        self.parts.data().len() as u64
    }
}

/// Gives `NameOrder` the file's name.
impl<'a> WithName for FileView<'a> {
    ghost name_of = { file_name_of };

    fn name(&self) -> Guid {
        FileView::name(self)
    }
}
