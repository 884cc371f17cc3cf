//! The methods of `SectionView` and of `Sections`.

ghost use Rattle.std.specs.Prelude.{◌≡◌, ◌<◌, ◌^◌, ◌∷◌, [], length, option_map, IfSome, IfNone};
ghost use Rattle.std.specs.Iterator.{YieldsFirst, item_count};
ghost use Rattle.fv_section.specs.Words.{frame_form};
ghost use Rattle.fv_tree.specs.ReadParts.{IsReadSection};
ghost use Rattle.fv_tree.specs.Meaning.{body_len};
ghost use Rattle.fv_tree.specs.MeaningParts.{sections_from, sections_in};
ghost use Rattle.fv_tree.specs.MeaningParts.{section_kind_of, section_is_extended, body_of, leaf_of};
ghost use Rattle.fv_tree.specs.Views.{body_view};
ghost use Rattle.fv_tree.specs.WalkedSections.{each_by, frames_of, section_by, tail_of, AreKept, IsKept};

use super::{Body, SectionView, Sections, VolumeView};
use crate::shape::{Shape, shape_of};
use fv_section::offsets::HEADER_LEN;
use fv_section::{Frame, split_frame};

// Returns the volumes that are left after a section. `volumes` begins with the volumes in this
// section, in which groups and opened volumes, including the section itself, nest at most `left`
// deep.
#[cycle(after)]
fn after_section<'v, 'a>(
    frame: &Frame<'_>,
    volumes: &'v [VolumeView<'a>],
    left: usize,
) -> &'v [VolumeView<'a>]
    requires { IsKept left (frame_form frame.now) volumes.now }
    ensures { result.now ≡ (section_by left (frame_form frame.now) volumes.entry.now).1 }
{
    if volumes.is_empty() {
        return volumes;
    }
    match shape_of(frame) {
        Shape::Leaf => volumes,
        Shape::Group => after_stream(frame.body, volumes, left - 1),
        Shape::Volume => &volumes[1..],
    }
}

// Returns the volumes that are left after all sections of a stream. `volumes` begins with the
// volumes in these sections, in which groups and opened volumes, including the sections themselves,
// nest at most `left` deep.
#[cycle(after)]
fn after_stream<'v, 'a>(
    stream: &[u8],
    volumes: &'v [VolumeView<'a>],
    left: usize,
) -> &'v [VolumeView<'a>]
    requires { AreKept left stream.now volumes.now }
    ensures { result.now ≡ (each_by (section_by left) (frames_of stream.now) volumes.entry.now).1 }
{
    let mut bytes = stream;
    let mut rest = volumes;
    while bytes.len() >= HEADER_LEN {
        let (frame, after) = split_frame(bytes);
        rest = after_section(&frame, rest, left);
        bytes = after;
    }
    rest
}

// Returns the same volumes as `after_section`. The compiler inlines the test whether any volume is
// left, so a walk over sections without volumes calls no function for this.
#[inline(always)]
fn volumes_after<'v, 'a>(
    frame: &Frame<'_>,
    volumes: &'v [VolumeView<'a>],
    left: usize,
) -> &'v [VolumeView<'a>]
    requires { IsKept left (frame_form frame.now) volumes.now }
    ensures { result.now ≡ (section_by left (frame_form frame.now) volumes.entry.now).1 }
{
    if volumes.is_empty() {
        return volumes;
    }
    after_section(frame, volumes, left)
}

impl<'v, 'a> Sections<'v, 'a> {
    // Returns an iterator over the sections of a stream that was read. `volumes` begins with the
    // volumes in these sections, in which groups and opened volumes, including the sections
    // themselves, nest at most `left` deep.
    pub(crate) fn of(
        stream: &'a [u8],
        volumes: &'v [VolumeView<'a>],
        left: usize,
    ) -> Sections<'v, 'a>
        requires { AreKept left stream.now volumes.now }
        ensures { result ≡ (
          (each_by (section_by left) (frames_of stream.entry.now) volumes.entry.now).0,
          tail_of stream.entry.now,
        ) }
    {
        Sections {
            rest: stream,
            volumes,
            left,
        }
    }

    /// Returns the next section, or None after the last section. The call cannot fail, because the
    /// headers were checked when the volume was read. If the section is a group, and the file has
    /// volumes from there on, the call walks over the bytes of the group to find how many volumes
    /// are in it. Takes no memory. (PI specification, volume 3, section 3.2.4.)
    pub fn next_section(&mut self) -> Option<SectionView<'v, 'a>>
        // The returned section is the first of the remaining sections, and the others still remain.
        // None is returned only if no section remained. The tail does not change.
        ensures some { IfSome result (λ s. self.old.0 ≡ s ∷ self.new.0) }
        ensures none { IfNone result ((self.old.0 ≡ []) × (self.new.0 ≡ [])) }
        ensures tail { self.new.1 ≡ self.old.1 }
    {
        if self.rest.len() < HEADER_LEN {
            return None;
        }
        let (frame, after) = split_frame(self.rest);
        self.rest = after;
        let volumes = self.volumes;
        self.volumes = volumes_after(&frame, volumes, self.left);
        Some(SectionView {
            frame,
            volumes,
            left: self.left,
        })
    }

    /// Computes nothing. After the call, a proof knows that fewer than 2^63 sections remain.
    pub fn known(&self)
        ensures { length self.now.0 < 2 ^ 63 }
    {
        let _rest = self.rest;
    }

    /// Returns the number of bytes after the last section, 0 to 3. Walks over the remaining
    /// sections.
    pub fn tail(&self) -> u8
        ensures { result ≡ self.now.1 }
    {
        let mut bytes = self.rest;
        while bytes.len() >= HEADER_LEN {
            let (_, after) = split_frame(bytes);
            bytes = after;
        }
        bytes.len() as u8
    }
}

/// Returns the remaining sections, one after another, as `next_section` does.
impl<'v, 'a> Iterator for Sections<'v, 'a> {
    type Item = SectionView<'v, 'a>;

    ghost next_gives = { YieldsFirst (λ s. s.0) };

    ghost remaining = { item_count (λ s. s.0) };

    fn next(&mut self) -> Option<SectionView<'v, 'a>> {
        self.next_section()
    }
}

/// Returns an iterator without sections, whose tail is empty.
impl<'v, 'a> Default for Sections<'v, 'a> {
    fn default() -> Sections<'v, 'a>
        ensures { result ≡ ([], 0) }
    {
        Sections {
            rest: &[],
            volumes: &[],
            left: 0,
        }
    }
}

impl<'v, 'a> SectionView<'v, 'a> {
    /// Returns a copy of the view. Takes no memory.
    pub fn copied(&self) -> SectionView<'v, 'a>
        ensures { result ≡ self.now }
    {
        SectionView {
            frame: self.frame,
            volumes: self.volumes,
            left: self.left,
        }
    }

    /// Returns the type (PI specification, volume 3, section 3.2.4, EFI_SECTION_TYPE).
    pub fn kind(&self) -> u8
        ensures kind { result ≡ section_kind_of self.now }

        // Some bytes are a section with this meaning.
        ensures read { IsReadSection self.now }
    {
        self.frame.kind
    }

    /// Computes nothing. After the call, a proof knows that some bytes are a section with this
    /// meaning.
    pub fn known(&self)
        ensures { IsReadSection self.now }
    {
        let _frame = &self.frame;
    }

    /// Returns whether the header is extended, so that it has 8 bytes rather than 4.
    pub fn extended(&self) -> bool
        ensures { result ≡ section_is_extended self.now }
    {
        self.frame.extended
    }

    /// Returns the body: plain bytes, an iterator over sections, or a volume. Takes no memory.
    #[inline(always)]
    pub fn body(&self) -> Body<'v, 'a>
        ensures { body_view result ≡ body_of self.now }
    {
        match shape_of(&self.frame) {
            Shape::Leaf => Body::Leaf(self.frame.body),
            Shape::Group => Body::Group(Sections::of(self.frame.body, self.volumes, self.left - 1)),
            Shape::Volume => match self.volumes.split_first() {
                Some((volume, _)) => Body::Nested(volume),
                // `volumes` begins with the volume that is the body, so this case does not occur.
                None => Body::Leaf(self.frame.body),
            },
        }
    }

    /// Returns an iterator over the sections of a group, in order. It does not enter groups among
    /// them. There are no sections if the section is not a group. Takes no memory.
    pub fn sections(&self) -> Sections<'v, 'a>
        ensures { sections_from result.0 ≡ sections_in (body_of self.now) }
    {
        match self.body() {
            Body::Group(sections) => return sections,
            Body::Leaf(_) | Body::Nested(_) => {}
        }
        Sections::default()
    }

    /// Returns the bytes of a leaf, or None if the section is not a leaf. The bytes are a slice of
    /// the bytes that were read, which outlives the view.
    pub fn leaf(&self) -> Option<&'a [u8]>
        ensures { option_map (λ b. b.now) result ≡ leaf_of (body_of self.now) }
    {
        match self.body() {
            Body::Leaf(bytes) => Some(bytes),
            Body::Group(_) | Body::Nested(_) => None,
        }
    }

    /// Returns the number of bytes of the body.
    pub fn body_len(&self) -> u64
        ensures { result ≡ body_len (body_of self.now) }
    {
        self.frame.body.len() as u64
    }
}
