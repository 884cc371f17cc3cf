//! The methods of `VolumeView`.

ghost use Rattle.std.specs.Prelude.{◌≡◌, length, option_copied, slice_get};
ghost use Rattle.std.specs.List.{position};
ghost use Rattle.fv_tree.specs.Denotes.{IsMeaning};
ghost use Rattle.fv_tree.specs.Meaning.{Volume, head_of, files_of};
ghost use Rattle.fv_tree.specs.MeaningParts.{files_from};
ghost use Rattle.fv_tree.specs.FileNames.{HasOrder, is_named};

use super::{FileView, VolumeView};
use fv_base::Guid;
use fv_head::VolumeHead;
use fv_names::NameOrder;

impl<'a> VolumeView<'a> {
    // Returns the view of a volume with this head, these files, and this order of the files' names.
    pub(crate) fn new(
        head: VolumeHead<'a>,
        files: Vec<FileView<'a>>,
        order: NameOrder,
    ) -> VolumeView<'a>
        requires meaning { IsMeaning (Volume head (files_from files.items)) }
        requires order { HasOrder order files.items }
        ensures { result ≡ Volume head.entry (files_from files.entry.items) }
    {
        VolumeView { head, files, order }
    }

    /// Returns the volume header, with the extended header if there is one. (PI specification,
    /// volume 3, section 3.2.1.)
    pub fn head(&self) -> &VolumeHead<'a>
        ensures head { result.now ≡ head_of self.now }

        // Some bytes are a volume with this meaning.
        ensures meaning { IsMeaning self.now }
    {
        &self.head
    }

    /// Computes nothing. After the call, a proof knows that some bytes are a volume with this
    /// meaning.
    pub fn known(&self)
        ensures { IsMeaning self.now }
    {
        let _head = &self.head;
    }

    /// Returns the number of files.
    pub fn file_count(&self) -> u32
        ensures { result ≡ length (files_of self.now) }
    {
        self.files.len() as u32
    }

    /// Returns file number `number`, counted from 0 in the order of the files, or None after the
    /// last.
    pub fn file(&self, number: u32) -> Option<&FileView<'a>>
        ensures { option_copied result ≡ slice_get (files_of self.now) number }
    {
        let at = number as usize;
        if at < self.files.len() {
            Some(&self.files[at])
        } else {
            None
        }
    }

    /// Returns the files in order.
    pub fn files(&self) -> &[FileView<'a>]
        ensures { self.now ≡ Volume (head_of self.now) (files_from result.now) }
    {
        self.files.as_slice()
    }

    // Returns the number of the first file with this name, or None if no file has it.
    pub(crate) fn number_of(&self, name: &Guid) -> Option<u32>
        ensures { result ≡ position (is_named name.now) (files_of self.now) }
    {
        self.order.get(self.files.as_slice(), name)
    }
}
