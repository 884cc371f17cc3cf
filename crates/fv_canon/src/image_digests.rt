//! The digests of `list --sums` and of the C library's `fv_volume_tree_digests`: the SHA-256 of
//! each volume's canonical image, of each file's data as they are in that image, and of each leaf
//! section's body.

ghost use Rattle.std.specs.Prelude.{◌≡◌, ℕ, List, Some};
ghost use Rattle.fv_tree.specs.Words.{body_of, content_of, volumes_in, volumes_in_content};
ghost use Rattle.fv_canon.specs.LayoutForms.{BeginsWithStarts};
ghost use Rattle.fv_canon.specs.PartDigests.{BodyDigest, FileDigest, NodeDigest, VolumeDigest};
ghost use Rattle.fv_canon.specs.inner.Digests.{Covers};

use crate::parts::{put_laid_data, put_laid_volume, starts_inside};
use fv_base::Sink;
use fv_rows::{Digests, Part, Row};
use fv_sinks::DigestSink;
use fv_tree::{FileView, SectionView, VolumeView};

// Returns the digest of a volume. `starts` begins with the starts of the files of this volume and
// of the volumes inside it.
fn volume_digest(volume: &VolumeView<'_>, starts: &[u64]) -> [u8; 32]
    requires { BeginsWithStarts (volumes_in volume.now) starts.now }
    ensures { VolumeDigest volume.now (Some result) }
{
    let mut out = DigestSink::new();
    put_laid_volume(volume, starts, &mut out);
    out.finish()
}

// Returns the digest of a file's data. `starts` begins with the starts of the files of the volumes
// in these data.
fn file_digest(file: &FileView<'_>, starts: &[u64]) -> [u8; 32]
    requires { BeginsWithStarts (volumes_in_content (content_of file.now)) starts.now }
    ensures { FileDigest file.now (Some result) }
{
    let mut out = DigestSink::new();
    put_laid_data(file, starts, &mut out);
    out.finish()
}

// Returns the digest of the body of a section, or None if the section is not a leaf.
fn section_digest(section: &SectionView<'_, '_>) -> Option<[u8; 32]>
    ensures { BodyDigest (body_of section.now) result }
{
    let bytes = section.leaf()?;
    let mut out = DigestSink::new();
    out.put(bytes);
    Some(out.finish())
}

/// The digests of the parts that a walk visits. Each digest is computed when it is needed: a walk
/// puts the volume's canonical image, or the file's data as they are in that image, into a digest
/// sink.
#[derive(Clone, Copy)]
pub struct ImageDigests<'s> {
    /// The remaining starts of a layout. The starts of the files of the next volume come first.
    starts: &'s [u64],
}

impl<'s> ImageDigests<'s> {
    /// Returns the digests for a walk. `starts` must begin with the starts of the files of the
    /// volumes that the walk visits, volume after volume.
    pub fn new(starts: &'s [u64]) -> ImageDigests<'s>
        ensures { result.starts.now ≡ starts.entry.now }
    {
        ImageDigests { starts }
    }
}

impl<'s> Digests for ImageDigests<'s> {
    ghost covers = { Covers (λ d. d.starts.now) };

    ghost of_node = { NodeDigest };

    fn next_digest(&mut self, row: &Row<'_, '_>) -> Option<[u8; 32]> {
        let starts = self.starts;
        match &row.part {
            Part::Volume(volume) => {
                self.starts = starts_inside(volume, starts);
                Some(volume_digest(volume, starts))
            }
            Part::File(file) => Some(file_digest(file, starts)),
            Part::Section(section) => section_digest(section),
        }
    }
}
