//! The pieces of a canonical image: pads, gaps, and the headers of files and sections.

ghost use Rattle.std.specs.Prelude.{◌⊎◌, ◌≡◌, ◌≤◌, ◌<◌, ◌+◌, ◌-◌, ◌%◌, ◌^◌, ℕ, [], ◌∷◌, ◌++◌, map, replicate};
ghost use Rattle.fv_file.specs.Words.{attributes_by, file_head_of, state_byte};
ghost use Rattle.fv_section.specs.Words.{up_to_4, FitsForm, section_head_of};
ghost use Rattle.fv_tree.specs.Words.{file_name_of, attributes_of, data_len_of, file_kind_of, body_of};
ghost use Rattle.fv_tree.specs.Words.{section_is_extended, section_kind_of, body_len, section_len};
ghost use Rattle.fv_canon.specs.Layouts.{placement_item};
ghost use Rattle.fv_canon.specs.StoredFiles.{ext_pad, gap_bytes, head_len_for, pad_bytes, size_for};
ghost use Rattle.fv_canon.specs.inner.FileWalks.{ArePlaced, used_by};
ghost use Rattle.fv_base.specs.Words.{erased_byte, data_limit, volume_limit};
ghost use Rattle.fv_head.specs.Words.{canonical_end, first_edge, polarity_of};

use fv_base::field::up_to_8;
use fv_base::{Polarity, Sink, fill};
use fv_file::offsets::{HEADER_LEN, LARGE_HEADER_LEN, SHORT_SIZE_LIMIT};
use fv_file::{NEW_STATE_ON_ONES, NEW_STATE_ON_ZEROS, file_head_bytes, pad_head_bytes};
use fv_head::{VolumeHead, len_of_ext, put_ext};
use fv_section::{section_head_bytes, section_header_len};
use fv_tree::{FileView, SectionView};

// Returns the number of zero bytes between a section and the next section.
pub(crate) fn filler_of(section: &SectionView<'_, '_>) -> u64
    requires { section_len section.now < 2 ^ 32 }
    ensures { result ≡ up_to_4 (section_len section.now) - section_len section.now }
{
    let size = section_header_len(section.extended()) + section.body_len();
    (size + 3) / 4 * 4 - size
}

// Puts the header of a section.
pub(crate) fn put_section_head<S: Sink>(out: &mut S, section: &SectionView<'_, '_>)
    requires { FitsForm (section_is_extended section.now) (body_len (body_of section.now)) }
    ensures { S.takes out.old (section_head_of (section_kind_of section.now) (section_is_extended section.now)
        (body_len (body_of section.now))) out.new }
{
    out.put(section_head_bytes(section.kind(), section.extended(), section.body_len()).as_slice());
}

// Puts a pad of `size` bytes.
#[tactic(auto, unfolding(crate::specs::StoredFiles::pad_bytes))]
fn put_pad<S: Sink>(out: &mut S, size: u64, polarity: Polarity)
    requires least { 24 ≤ size }
    requires most { size ≤ 0xffffff }
    ensures { S.takes out.old (pad_bytes polarity size) out.new }
{
    out.put(pad_head_bytes(size, polarity).as_slice());
    fill(out, polarity.erased(), size - 24);
}

/// The largest pad in a gap, in bytes: the greatest multiple of 8 that fits in the field `Size`.
const PAD_MOST: u64 = 0xff_fff8;

/// The size in bytes of each pad except the last, in a gap of more than `PAD_MOST` bytes.
const LONG_PAD: u64 = 0xff_ff00;

// Puts the pads of a gap of `gap` bytes.
#[tactic(auto, using(crate::proofs::PadLaws::gap_none))]
pub(crate) fn put_gap<S: Sink>(out: &mut S, gap: u64, polarity: Polarity)
    requires fits { (gap ≡ 0) ⊎ (24 ≤ gap) }
    requires multiple { gap % 8 ≡ 0 }
    ensures { S.takes out.old (gap_bytes polarity gap) out.new }
{
    if gap == 0 {
        return;
    }
    let mut left = gap;
    while left > PAD_MOST {
        put_pad(out, LONG_PAD, polarity);
        left -= LONG_PAD;
    }
    put_pad(out, left, polarity);
}

// Returns the length of the header of a file with `data_len` bytes of data. The header is large if
// the size does not fit in a short header.
pub(crate) fn header_len_for(data_len: u64) -> u64
    requires { data_len < 2 ^ 62 }
    ensures { result ≡ head_len_for data_len }
{
    if HEADER_LEN as u64 + data_len > SHORT_SIZE_LIMIT {
        LARGE_HEADER_LEN as u64
    } else {
        HEADER_LEN as u64
    }
}

// Returns the size of a file with `data_len` bytes of data, including its header.
pub(crate) fn size_for(data_len: u64) -> u64
    requires { data_len < 2 ^ 62 }
    ensures { result ≡ size_for data_len }
{
    header_len_for(data_len) + data_len
}

// Puts the header of a file, with the file checksum `sum`.
pub(crate) fn put_file_head<S: Sink>(out: &mut S, file: &FileView<'_>, sum: u8, polarity: Polarity)
    requires most { data_len_of file.now ≤ data_limit }
    ensures { S.takes out.old (file_head_of (file_name_of file.now) (file_kind_of file.now)
        (attributes_by (attributes_of file.now)) (data_len_of file.now) sum polarity) out.new }
{
    let name = file.name();
    let head = file_head_bytes(
        name,
        file.kind(),
        file.attributes(),
        file.data_len(),
        sum,
        polarity,
    );
    out.put(head.as_slice());
}

// Puts the pad with the extended header, if there is one, and erased bytes up to the first edge.
// The pad directly follows the volume header. `used` is the value that is put into each used-size
// entry.
pub(crate) fn put_ext_pad<S: Sink>(out: &mut S, head: &VolumeHead<'_>, used: u32)
    ensures { S.takes out.old (ext_pad (polarity_of head.now.attributes) head.now.ext used
        ++ replicate (first_edge head.now head.now.ext - canonical_end head.now head.now.ext)
        (erased_byte (polarity_of head.now.attributes))) out.new }
{
    let polarity = head.attributes().polarity();
    if let Some(ext) = head.ext() {
        let header = u64::from(head.header_len());
        let len = u64::from(len_of_ext(ext));
        out.put(pad_head_bytes(24 + len, polarity).as_slice());
        put_ext(out, ext, used);
        let end = header + 24 + len;
        fill(out, polarity.erased(), up_to_8(end) - end);
    }
}

// Returns the end of the last file, or the first edge if there is no file.
pub(crate) fn used_end(files: &[FileView<'_>], own: &[u64], first: u64) -> u64
    requires { (total : ℕ) × ArePlaced total first files.now own.now }
    ensures used { result ≡ used_by first (map placement_item files.now) own.now }
    ensures most { result ≤ volume_limit }
{
    if files.is_empty() {
        return first;
    }
    let last = files.len() - 1;
    own[last] + size_for(files[last].data_len())
}

// Puts the State byte of a file.
pub(crate) fn put_state<S: Sink>(out: &mut S, polarity: Polarity)
    ensures { S.takes out.old (state_byte polarity ∷ []) out.new }
{
    let state = match polarity {
        Polarity::Ones => NEW_STATE_ON_ONES,
        Polarity::Zeros => NEW_STATE_ON_ZEROS,
    };
    out.put(&[state]);
}
