//! A walk over a volume that puts its canonical image into any sink.

ghost use Rattle.std.specs.Prelude.{◌≡◌, ◌≤◌, ◌<◌, ◌-◌, ◌%◌, [], drop, true, false};
ghost use Rattle.fv_base.specs.Words.{data_limit};
ghost use Rattle.fv_file.specs.Words.{is_summed, file_sum_for};
ghost use Rattle.fv_section.specs.Words.{stream_of};
ghost use Rattle.fv_tree.specs.Words.{files_from, sections_from, attributes_of, content_of, data_len_of, body_view};
ghost use Rattle.fv_tree.specs.Words.{volumes_in, volumes_in_files, volumes_in_file, volumes_in_sections};
ghost use Rattle.fv_tree.specs.Words.{volumes_in_body};
ghost use Rattle.fv_canon.specs.inner.ImageOf.{image_of, stored_of, stored_file, written_data, written_frames, body_image};
ghost use Rattle.fv_canon.specs.inner.ImageOf.{starts_in, files_bytes};
ghost use Rattle.fv_canon.specs.LayoutForms.{BeginsWithStarts};
ghost use Rattle.fv_canon.specs.StoredFiles.{stored_bytes};
ghost use Rattle.fv_canon.specs.inner.FileWalks.{ArePlaced};
ghost use Rattle.fv_canon.specs.inner.SummingSinks.{ImageTakes, sums};

use crate::data_body::data_body;
use crate::layout_walk::skip_starts;
use crate::pads_and_headers::{
    filler_of, put_ext_pad, put_file_head, put_gap, put_section_head, put_state, size_for, used_end,
};
use crate::summing_sink::SummingSink;
use fv_base::field::up_to_8;
use fv_base::{Polarity, Sink, fill};
use fv_file::FIXED_CHECKSUM;
use fv_head::{first_edge, put_head};
use fv_rows::{Part, TreeWalk};
use fv_tree::{Body, FileView, Sections, VolumeView};

// Returns the byte that, added to a sum of bytes, makes it 0 modulo 256.
fn complement(sum: u8) -> u8
    ensures value { result ≡ (256 - sum) % 256 }
    ensures small { sum < 256 }
{
    0u8.wrapping_sub(sum)
}

// Puts the sections of a stream. Zero bytes take the place of the bytes between the sections and of
// the tail. A stream without sections has no tail. `starts` begins with the starts of the files of
// the volumes in these sections. Returns the starts after them. `put_body`, `put_file`, `put_files`
// and `put_volume` use and return `starts` in the same way; `file_sum`, `put_image` and
// `put_body_image` use `starts` in the same way, but do not return starts.
#[cycle(put)]
#[tactic(auto, using(crate::proofs::LaidSectionLaws::front_none))]
fn put_sections<'s, S: Sink>(
    out: &mut SummingSink<'_, S>,
    sections: Sections<'_, '_>,
    starts: &'s [u64],
) -> &'s [u64]
    requires laid { BeginsWithStarts (volumes_in_sections (sections_from sections.0)) starts.now }
    ensures bytes { ImageTakes S.takes out.old
        (stream_of (written_frames 0 (sections_from sections.entry.0) starts.now) sections.entry.1) out.new }
    ensures rest { result.now ≡ drop (starts_in (volumes_in_sections (sections_from sections.entry.0))) starts.now }
{
    let mut gap = 0;
    let mut rest = starts;
    let mut walk = sections;
    let mut is_empty = true;
    while let Some(section) = walk.next_section() {
        // `known` tells the proof that the section was read. So the section is shorter than 4 GiB,
        // and its body fits the form of its header.
        section.known();
        fill(out, 0, gap);
        put_section_head(out, &section);
        rest = put_body(out, section.body(), rest);
        gap = filler_of(&section);
        is_empty = false;
    }
    if !is_empty {
        fill(out, 0, u64::from(walk.tail()));
    }
    rest
}

// Puts the body of a section, or the data of a file.
#[cycle(put)]
fn put_body<'s, S: Sink>(
    out: &mut SummingSink<'_, S>,
    body: Body<'_, '_>,
    starts: &'s [u64],
) -> &'s [u64]
    requires laid { BeginsWithStarts (volumes_in_body (body_view body)) starts.now }
    ensures bytes { ImageTakes S.takes out.old (body_image (body_view body.entry) starts.now) out.new }
    ensures rest { result.now ≡ drop (starts_in (volumes_in_body (body_view body.entry))) starts.now }
{
    match body {
        Body::Leaf(bytes) => {
            out.put(bytes);
            starts
        }
        Body::Group(sections) => put_sections(out, sections, starts),
        Body::Nested(volume) => put_volume(out, volume, starts),
    }
}

// Returns the file checksum of a file. If the file has the checksum attribute, a walk over the data
// sums their bytes. Nothing is put.
#[cycle(put)]
fn file_sum<S: Sink>(out: &mut SummingSink<'_, S>, file: &FileView<'_>, starts: &[u64]) -> u8
    requires laid { BeginsWithStarts (volumes_in_file file.now) starts.now }
    requires puts { is_summed (attributes_of file.now) ≡ true → sums out.now.mode ≡ false }
    ensures value { result ≡ file_sum_for (attributes_of file.now) (written_data (content_of file.now) starts.now) }
    ensures none { ImageTakes S.takes out.old [] out.new }
{
    if !file.attributes().is_summed() {
        return FIXED_CHECKSUM;
    }
    out.begin_sum();
    put_body(out, data_body(file), starts);
    complement(out.end_sum())
}

// Returns the part of `starts` that follows the starts of the files of the volumes in a file. The
// walk has a function of its own, because a `TreeWalk` is large, and its stack space is zeroed on
// every call of the function that holds it.
#[inline(never)]
fn skip_file<'s>(file: &FileView<'_>, starts: &'s [u64]) -> &'s [u64]
    requires { BeginsWithStarts (volumes_in_file file.now) starts.now }
    ensures { result.now ≡ drop (starts_in (volumes_in_file file.now)) starts.now }
{
    skip_starts(TreeWalk::inside(&Part::File(file)), starts)
}

// Puts a file. While the data of another file are being summed, a file with the checksum attribute
// adds only its State byte (`summing_sink` explains why).
#[cycle(put)]
#[tactic(auto, using(crate::proofs::SumWalks::state_adds, crate::proofs::DataBodyLaws::data_volumes))]
fn put_file<'s, S: Sink>(
    out: &mut SummingSink<'_, S>,
    file: &FileView<'_>,
    polarity: Polarity,
    starts: &'s [u64],
) -> &'s [u64]
    requires laid { BeginsWithStarts (volumes_in_file file.now) starts.now }
    requires most { data_len_of file.now ≤ data_limit }
    ensures bytes { ImageTakes S.takes out.old (stored_bytes polarity (stored_file file.now starts.now)) out.new }
    ensures rest { result.now ≡ drop (starts_in (volumes_in_file file.now)) starts.now }
{
    if out.is_summing() && file.attributes().is_summed() {
        put_state(out, polarity);
        return skip_file(file, starts);
    }
    // The file was read (`known`), so the walk puts as many data bytes as were read.
    file.known();
    let sum = file_sum(out, file, starts);
    put_file_head(out, file, sum, polarity);
    put_body(out, data_body(file), starts)
}

// Puts the bytes of a volume from the edge `first` on: for each file the pads of the gap, the file,
// and erased bytes up to the next edge; then erased bytes up to the volume's end. `own` lists the
// starts of these files, and `total` is the length of the volume.
#[cycle(put)]
fn put_files<'s, S: Sink>(
    out: &mut SummingSink<'_, S>,
    files: &[FileView<'_>],
    own: &[u64],
    polarity: Polarity,
    first: u64,
    total: u64,
    starts: &'s [u64],
) -> &'s [u64]
    requires placed { ArePlaced total first files.now own.now }
    requires laid { BeginsWithStarts (volumes_in_files (files_from files.now)) starts.now }
    ensures bytes { ImageTakes S.takes out.old
        (files_bytes polarity total first (stored_of (files_from files.now) starts.now) own.now) out.new }
    ensures rest { result.now ≡ drop (starts_in (volumes_in_files (files_from files.now))) starts.now }
{
    let mut edge = first;
    let mut rest = starts;
    for (i, file) in files.iter().enumerate() {
        // The file was read (`known`), so the walk puts as many data bytes as were read.
        file.known();
        let start = own[i];
        put_gap(out, start - edge, polarity);
        rest = put_file(out, file, polarity, rest);
        let end = start + size_for(file.data_len());
        edge = up_to_8(end);
        fill(out, polarity.erased(), edge - end);
    }
    fill(out, polarity.erased(), total - edge);
    rest
}

// Puts the image of a volume: its header, the pad with the extended header, and its files.
#[cycle(put)]
fn put_volume<'s, S: Sink>(
    out: &mut SummingSink<'_, S>,
    volume: &VolumeView<'_>,
    starts: &'s [u64],
) -> &'s [u64]
    requires laid { BeginsWithStarts (volumes_in volume.now) starts.now }
    ensures bytes { ImageTakes S.takes out.old (image_of volume.now starts.now) out.new }
    ensures rest { result.now ≡ drop (starts_in (volumes_in volume.now)) starts.now }
{
    let head = volume.head();
    let files = volume.files();
    let polarity = head.attributes().polarity();
    let first = first_edge(head);
    let (own, inner) = starts.split_at(files.len());
    let used = used_end(files, own, first) as u32;
    put_head(out, head);
    put_ext_pad(out, head, used);
    put_files(out, files, own, polarity, first, head.length(), inner)
}

// Puts the canonical image of a volume into any sink.
pub(crate) fn put_image<S: Sink>(out: &mut S, volume: &VolumeView<'_>, starts: &[u64])
    requires laid { BeginsWithStarts (volumes_in volume.now) starts.now }
    ensures { S.takes out.old (image_of volume.now starts.now) out.new }
{
    put_volume(&mut SummingSink::new(out), volume, starts);
}

// Puts a body into any sink.
pub(crate) fn put_body_image<S: Sink>(out: &mut S, body: Body<'_, '_>, starts: &[u64])
    requires laid { BeginsWithStarts (volumes_in_body (body_view body)) starts.now }
    ensures { S.takes out.old (body_image (body_view body.entry) starts.now) out.new }
{
    put_body(&mut SummingSink::new(out), body, starts);
}
