//! The pieces of a volume's body: its cells, and what is there in place of a cell.

ghost use Rattle.std.specs.Prelude.{◌≡◌, ◌%◌, ◌≤◌, ◌<◌, true, length, take, IfSome, None};
ghost use Rattle.fv_base.specs.Words.{all_are, erased_byte, le_at};
ghost use Rattle.fv_file.specs.Words.{file_header_len_at, header_sum_of, leading_count, skips_data};
ghost use Rattle.fv_survey.specs.PieceRules as rules;
ghost use Rattle.fv_survey.specs.inner.Pieces.{IsPiece};
ghost use Rattle.fv_survey.specs.PieceRules.{piece_by};

use crate::findings::Findings;
use crate::portion::no_name;
use crate::systems::Files;
use fv_base::field::{bytes_from, field, u32_at, u64_at, up_to_8};
use fv_base::{FaultKind, FileSystem, Guid, Polarity, all_are, guid_at, sum8};
use fv_file::file_type::FFS_PAD;
use fv_file::offsets::{HEADER_LEN, LARGE_HEADER_LEN, STATE_OFFSET};
use fv_file::{CellWalk, FileState, file_state};

// How the cells of a body are read: the file system, the erase polarity, and whether the volume is
// cut off.
#[derive(Clone, Copy)]
pub(crate) struct Layout {
    pub(crate) files: Files,
    pub(crate) polarity: Polarity,
    pub(crate) is_cut: bool,
}

// What a piece is.
#[derive(Clone, Copy, Debug, PartialEq, Eq)]
pub(crate) enum Sort {
    File,
    Pad,
    Dead,
    Stub,
    Free,
    Lost,
}

// A piece of a body: `header` bytes, then data up to `size`, then filler up to `span`.
#[derive(Clone, Copy)]
pub(crate) struct Piece {
    pub(crate) sort: Sort,
    pub(crate) header: usize,
    pub(crate) size: usize,
    pub(crate) span: usize,
    pub(crate) code: u8,
    pub(crate) findings: Findings,
    pub(crate) name: Guid,
    // Whether the piece is a file, and its state, by the bits that count, is marked for update.
    pub(crate) is_marked: bool,
}

// The length of a file's header, and the size of the file, which the header states.
#[derive(Clone, Copy)]
struct Sizes {
    header: usize,
    size: u64,
}

// Returns a piece that has no header and no name.
#[tactic(auto, unfolding(crate::specs::PieceRules::plain_piece))]
fn plain(sort: Sort, span: usize, findings: Findings) -> Piece
    ensures { result ≡ rules.plain_piece sort span findings }
{
    Piece {
        sort,
        header: 0,
        size: span,
        span,
        code: 0,
        findings,
        name: no_name(),
        is_marked: false,
    }
}

// Returns the field `Size` of the header at the start of the bytes.
fn short_size(rest: &[u8]) -> u64
    requires { 24 ≤ length rest.now }
    ensures { result ≡ le_at 20 3 rest.now }
{
    let size = field(rest, 20, 3);
    u64::from(u32::from_le_bytes([size[0], size[1], size[2], 0]))
}

// Returns the length of the header at the start of the bytes.
fn header_at(rest: &[u8], files: Files) -> usize
    requires { 24 ≤ length rest.now }
    ensures { result ≡ rules.header_len_by files rest.now }
{
    if rest[19] % 2 != 1 {
        return HEADER_LEN;
    }
    match files {
        Files::Ffs3 => LARGE_HEADER_LEN,
        Files::Ffs1 => HEADER_LEN,
        Files::Ffs2 | Files::Store | Files::Unknown => {
            if short_size(rest) == 0 {
                28
            } else {
                HEADER_LEN
            }
        }
    }
}

// Returns the size of a file whose header has this length.
fn size_at(rest: &[u8], header: usize) -> u64
    requires least { 24 ≤ length rest.now }
    requires multiple { length rest.now % 8 ≡ 0 }
    ensures { result ≡ rules.size_by header rest.now }
{
    if header == HEADER_LEN {
        short_size(rest)
    } else if rest.len() < LARGE_HEADER_LEN {
        0
    } else if header == 28 {
        u64::from(u32_at(rest, 24))
    } else {
        u64_at(rest, 24)
    }
}

// Returns the sizes in the header at the start of the bytes.
#[tactic(auto, unfolding(crate::specs::PieceRules::sizes_by))]
fn sizes_at(rest: &[u8], files: Files) -> Sizes
    requires least { 24 ≤ length rest.now }
    requires multiple { length rest.now % 8 ≡ 0 }
    ensures sizes { result ≡ rules.sizes_by files rest.now }
    ensures least { 24 ≤ result.header }
{
    let header = header_at(rest, files);
    Sizes {
        header,
        size: size_at(rest, header),
    }
}

// Returns whether the size is at least the length of the header, and at most `len`.
fn fits(sizes: Sizes, len: usize) -> bool
    ensures { result ≡ rules.fits sizes len }
{
    sizes.header as u64 <= sizes.size && sizes.size <= len as u64
}

// Returns the sum of a header's bytes, with the file checksum and State taken as zero.
fn header_sum(header: &[u8]) -> u8
    requires { 24 ≤ length header.now }
    ensures { result ≡ header_sum_of header.now }
{
    sum8(&header[..17])
        .wrapping_add(sum8(field(header, 18, 5)))
        .wrapping_add(sum8(bytes_from(header, HEADER_LEN)))
}

// Returns whether the header lies within the bytes and sums to zero.
#[tactic(auto, unfolding(crate::specs::PieceRules::sums_to_zero))]
fn sums_to_zero(rest: &[u8], header: usize) -> bool
    requires { 24 ≤ header }
    ensures zero { result ≡ rules.sums_to_zero header rest.now }
    ensures within { result ≡ true → header ≤ length rest.now }
{
    header <= rest.len() && header_sum(&rest[..header]) == 0
}

// Returns whether a file checksum covers the data, or is a value that tools write if it does not.
fn is_usual_sum(rest: &[u8]) -> bool
    requires { 24 ≤ length rest.now }
    ensures { result ≡ rules.is_usual_sum rest.now }
{
    rest[19] / 64 % 2 == 1 || rest[17] == 0xaa || rest[17] == 0x5a || rest[17] == 0
}

// Returns whether the specification defines a type, or leaves it to others.
fn is_usual_type(kind: u8) -> bool
    ensures { result ≡ rules.is_usual_type kind }
{
    (1 <= kind && kind <= 0x0f) || 0xc0 <= kind
}

// Returns whether a state is usual in a file that was written.
fn is_usual_state(state: Option<FileState>) -> bool
    ensures { result ≡ rules.is_usual_state state }
{
    matches!(
        state,
        Some(FileState::DataValid | FileState::Marked | FileState::Deleted)
    )
}

// Returns whether the bytes begin with a file header that shows no fault, apart from its header
// checksum.
#[tactic(auto, unfolding(crate::specs::PieceRules::has_usable_header))]
fn has_usable_header(rest: &[u8], layout: Layout) -> bool
    requires { length rest.now % 8 ≡ 0 }
    ensures usable { result ≡ rules.has_usable_header layout rest.now }
    ensures long { result ≡ true → 24 ≤ length rest.now }
{
    rest.len() >= HEADER_LEN
        && is_usual_state(file_state(rest[STATE_OFFSET], layout.polarity))
        && is_usual_type(rest[18])
        && is_usual_sum(rest)
        && fits(sizes_at(rest, layout.files), rest.len())
}

// Returns whether the bytes begin with a file header that shows no fault.
#[tactic(auto, unfolding(crate::specs::PieceRules::has_sound_header))]
fn has_sound_header(rest: &[u8], layout: Layout) -> bool
    requires { length rest.now % 8 ≡ 0 }
    ensures { result ≡ rules.has_sound_header layout rest.now }
{
    has_usable_header(rest, layout) && sums_to_zero(rest, sizes_at(rest, layout.files).header)
}

// The number of erased bytes that end lost bytes.
const RUN: usize = 256;

// Returns whether the first 256 bytes, or all bytes if there are fewer, are erased.
fn begins_run(rest: &[u8], polarity: Polarity) -> bool
    requires { 0 < length rest.now }
    ensures { result ≡ all_are (erased_byte polarity) (take 256 rest.now) }
{
    let erased = polarity.erased();
    rest[0] == erased && all_are(&rest[..rest.len().min(RUN)], erased)
}

// Returns whether a piece that can be read may begin here.
#[tactic(auto, unfolding(crate::specs::PieceRules::resumes))]
fn resumes(rest: &[u8], layout: Layout) -> bool
    requires some { 0 < length rest.now }
    requires multiple { length rest.now % 8 ≡ 0 }
    ensures { result ≡ rules.resumes layout rest.now }
{
    begins_run(rest, layout.polarity) || has_sound_header(rest, layout)
}

// Returns how many bytes come before the next place at which a piece may begin. Looks at each byte
// a bounded number of times: at most 256 bytes from each word of 8 bytes on.
fn lost_len(rest: &[u8], layout: Layout) -> usize
    requires some { 0 < length rest.now }
    requires multiple { length rest.now % 8 ≡ 0 }
    ensures { result ≡ rules.lost_len layout rest.now }
{
    let mut at = 8;
    while at < rest.len() && !resumes(bytes_from(rest, at), layout) {
        at += 8;
    }
    at
}

// Returns how many bytes at the start are erased.
fn erased_len(rest: &[u8], polarity: Polarity) -> usize
    ensures count { result ≡ leading_count (erased_byte polarity) rest.now }
    ensures within { result ≤ length rest.now }
{
    let erased = polarity.erased();
    let mut at = 0;
    while at < rest.len() && rest[at] == erased {
        at += 1;
    }
    at
}

// Returns the piece at the start of `rest`, where no header begins.
#[tactic(auto, unfolding(crate::specs::PieceRules::space_piece))]
fn space_piece(rest: &[u8], layout: Layout) -> Piece
    requires some { 0 < length rest.now }
    requires multiple { length rest.now % 8 ≡ 0 }
    ensures { result ≡ rules.space_piece layout rest.now }
{
    if all_are(rest, layout.polarity.erased()) {
        return plain(Sort::Free, rest.len(), Findings::NONE);
    }
    let why = Findings::of(FaultKind::FreeSpace);
    let erased = erased_len(rest, layout.polarity);
    if erased >= 8 {
        plain(Sort::Free, erased / 8 * 8, why)
    } else {
        plain(Sort::Lost, lost_len(rest, layout), why)
    }
}

// Returns the state that State shows without the bits 0x40 and 0x80.
#[tactic(auto, unfolding(crate::specs::PieceRules::counted_state))]
fn counted_state(byte: u8, polarity: Polarity) -> Option<FileState>
    ensures { result ≡ rules.counted_state polarity byte }
{
    let counted = match polarity {
        Polarity::Ones => 255 - (255 - byte) % 64,
        Polarity::Zeros => byte % 64,
    };
    file_state(counted, polarity)
}

// Returns whether the file is valid by the bits of State that count.
fn is_alive(rest: &[u8], polarity: Polarity) -> bool
    requires { 24 ≤ length rest.now }
    ensures { result ≡ rules.is_alive_by polarity rest.now }
{
    matches!(
        counted_state(rest[STATE_OFFSET], polarity),
        Some(FileState::DataValid | FileState::Marked)
    )
}

// Returns whether a file is a file, a pad or a dead file.
#[tactic(auto, unfolding(crate::specs::PieceRules::sort_by))]
fn sort_at(rest: &[u8], polarity: Polarity) -> Sort
    requires { 24 ≤ length rest.now }
    ensures { result ≡ rules.sort_by polarity rest.now }
{
    if !is_alive(rest, polarity) {
        Sort::Dead
    } else if rest[18] == FFS_PAD {
        Sort::Pad
    } else {
        Sort::File
    }
}

// Returns whether the file is not a pad, and is marked for update.
fn is_marked(rest: &[u8], polarity: Polarity) -> bool
    requires { 24 ≤ length rest.now }
    ensures { result ≡ rules.is_marked_by polarity rest.now }
{
    let state = counted_state(rest[STATE_OFFSET], polarity);
    matches!(state, Some(FileState::Marked)) && rest[18] != FFS_PAD
}

// Returns whether the last two bytes of the file are the tail of an FFS1 file.
#[tactic(auto, unfolding(crate::specs::PieceRules::is_tailed))]
fn is_tailed(rest: &[u8], files: Files, sizes: Sizes) -> bool
    requires long { 24 ≤ length rest.now }
    requires within { sizes.header ≤ length rest.now }
    ensures tailed { result ≡ rules.is_tailed files sizes rest.now }
    ensures two { result ≡ true → 2 ≤ sizes.size }
{
    matches!(files, Files::Ffs1) && rest[19] % 2 == 1 && sizes.header as u64 + 2 <= sizes.size
}

// Returns the piece of a file, a pad or a dead file.
#[tactic(auto, unfolding(crate::specs::PieceRules::file_piece))]
fn file_piece(rest: &[u8], layout: Layout, sizes: Sizes, findings: Findings) -> Piece
    requires long { 24 ≤ length rest.now }
    requires header { sizes.header ≤ sizes.size }
    requires within { sizes.size ≤ length rest.now }
    ensures { result ≡ rules.file_piece layout sizes findings rest.now }
{
    let size = sizes.size as usize;
    Piece {
        sort: sort_at(rest, layout.polarity),
        header: sizes.header,
        size: if is_tailed(rest, layout.files, sizes) {
            size - 2
        } else {
            size
        },
        span: up_to_8(sizes.size) as usize,
        code: rest[18],
        findings,
        name: guid_at(rest, 0),
        is_marked: is_marked(rest, layout.polarity),
    }
}

// Returns whether a cell may begin at the start of these bytes.
#[tactic(auto, unfolding(crate::specs::PieceRules::may_begin_cell))]
fn may_begin_cell(rest: &[u8], layout: Layout) -> bool
    requires { length rest.now % 8 ≡ 0 }
    ensures { result ≡ rules.may_begin_cell layout rest.now }
{
    let erased = layout.polarity.erased();
    rest.is_empty()
        || (rest[0] == erased && (rest.len() < HEADER_LEN || rest[STATE_OFFSET] == erased))
        || has_usable_header(rest, layout)
}

// Returns whether a file with these sizes is read at the start of `rest`: the file fits, and its
// header checksum is right or a cell may begin at its end.
fn is_read_whole(rest: &[u8], layout: Layout, sizes: Sizes) -> bool
    requires least { 24 ≤ sizes.header }
    requires multiple { length rest.now % 8 ≡ 0 }
    ensures whole { result ≡ rules.is_read_whole layout sizes rest.now }
    ensures fit { result ≡ true → (sizes.header ≤ sizes.size) × (sizes.size ≤ length rest.now) }
{
    if !fits(sizes, rest.len()) {
        return false;
    }
    let end = up_to_8(sizes.size) as usize;
    sums_to_zero(rest, sizes.header) || may_begin_cell(bytes_from(rest, end), layout)
}

// Returns whether a file with these sizes is read in a volume that is cut off: the file goes past
// the end, and its header checksum is right.
fn is_read_cut(rest: &[u8], layout: Layout, sizes: Sizes) -> bool
    requires { 24 ≤ sizes.header }
    ensures cut { result ≡ rules.is_read_cut layout sizes rest.now }
    ensures fit { result ≡ true → sizes.header ≤ length rest.now }
{
    layout.is_cut && sizes.size > rest.len() as u64 && sums_to_zero(rest, sizes.header)
}

// Returns the sizes of the file at the start of `rest`, if the file is read although the strict
// reader rejects it.
#[tactic(auto, unfolding(crate::specs::PieceRules::read_sizes))]
fn read_sizes(rest: &[u8], layout: Layout, sizes: Sizes) -> Option<Sizes>
    requires least { 24 ≤ sizes.header }
    requires multiple { length rest.now % 8 ≡ 0 }
    ensures sizes { result ≡ rules.read_sizes layout sizes rest.now }
    ensures within { IfSome result (λ s. (24 ≤ s.header) × (s.header ≤ s.size) × (s.size ≤ length rest.now)) }
{
    if is_read_whole(rest, layout, sizes) {
        Some(sizes)
    } else if is_read_cut(rest, layout, sizes) {
        Some(Sizes {
            header: sizes.header,
            size: rest.len() as u64,
        })
    } else {
        None
    }
}

// Returns whether the file checksum is right for the data of a file with these sizes.
fn has_data_sum(rest: &[u8], sizes: Sizes) -> bool
    requires long { 24 ≤ length rest.now }
    requires header { sizes.header ≤ sizes.size }
    requires within { sizes.size ≤ length rest.now }
    ensures { result ≡ rules.has_data_sum sizes rest.now }
{
    if rest[19] / 64 % 2 == 1 {
        let data = field(rest, sizes.header, sizes.size as usize - sizes.header);
        sum8(data).wrapping_add(rest[17]) == 0
    } else {
        rest[17] == 0xaa
    }
}

// Returns whether the fixed bit and the file checksum are not checked: the file is a pad, or is not
// valid by the bits of State that count.
fn skips_data(rest: &[u8], polarity: Polarity) -> bool
    requires { 24 ≤ length rest.now }
    ensures { result ≡ skips_data (rules.is_alive_by polarity rest.now) rest.now }
{
    !is_alive(rest, polarity) || rest[18] == FFS_PAD
}

// Returns whether the header is short, or the files are of FFS3.
fn may_be_large(rest: &[u8], files: Files) -> bool
    requires { 24 ≤ length rest.now }
    ensures { result ≡ rules.may_be_large_in files rest.now }
{
    rest[19] % 2 != 1 || matches!(files, Files::Ffs3)
}

// Returns whether the file ends within the bytes, and Size is zero if the header has 32 bytes.
fn has_stated_size(rest: &[u8], stated: Sizes) -> bool
    requires { 24 ≤ length rest.now }
    ensures { result ≡ rules.has_stated_size stated rest.now }
{
    stated.size <= rest.len() as u64 && (stated.header != LARGE_HEADER_LEN || short_size(rest) == 0)
}

// Returns whether the file is not fixed, or its fixed bit is not checked.
fn may_move(rest: &[u8], polarity: Polarity) -> bool
    requires { 24 ≤ length rest.now }
    ensures { result ≡ rules.may_move polarity rest.now }
{
    skips_data(rest, polarity) || rest[19] / 4 % 2 != 1
}

// Returns whether the file checksum is right, or is not checked.
fn has_sound_data(rest: &[u8], layout: Layout, sizes: Sizes) -> bool
    requires long { 24 ≤ length rest.now }
    requires header { sizes.header ≤ sizes.size }
    requires within { sizes.size ≤ length rest.now }
    ensures { result ≡ rules.has_sound_data layout sizes rest.now }
{
    skips_data(rest, layout.polarity)
        || is_tailed(rest, layout.files, sizes)
        || has_data_sum(rest, sizes)
}

// Returns the findings of a file that is read although the strict reader rejects it with a fault of
// this kind. `stated` are the sizes in its header.
fn file_findings(
    rest: &[u8],
    layout: Layout,
    stated: Sizes,
    sizes: Sizes,
    kind: FaultKind,
) -> Findings
    requires least { 24 ≤ sizes.header }
    requires size { sizes.header ≤ sizes.size }
    requires within { sizes.size ≤ length rest.now }
    ensures { result ≡ rules.file_findings kind layout stated sizes rest.now }
{
    let has_state = file_state(rest[STATE_OFFSET], layout.polarity).is_some();
    let has_sum = sums_to_zero(rest, sizes.header);
    let may_be_large = may_be_large(rest, layout.files);
    let has_size = has_stated_size(rest, stated);
    let may_move = may_move(rest, layout.polarity);
    let has_data = has_sound_data(rest, layout, sizes);
    Findings::of(kind)
        .with_if(!has_state, FaultKind::FileState)
        .with_if(!has_sum, FaultKind::FileHeaderSum)
        .with_if(!may_be_large, FaultKind::LargeFile)
        .with_if(!has_size, FaultKind::FileSize)
        .with_if(!may_move, FaultKind::Fixed)
        .with_if(!has_data, FaultKind::FileSum)
}

// Returns the piece at the start of `rest`, where the strict reader finds a fault of this kind.
fn damaged_piece(rest: &[u8], layout: Layout, kind: FaultKind) -> Piece
    requires long { 24 ≤ length rest.now }
    requires multiple { length rest.now % 8 ≡ 0 }
    ensures { result ≡ rules.damaged_piece kind layout rest.now }
{
    let stated = sizes_at(rest, layout.files);
    match read_sizes(rest, layout, stated) {
        Some(sizes) => {
            let findings = file_findings(rest, layout, stated, sizes, kind);
            file_piece(rest, layout, sizes, findings)
        }
        None => plain(Sort::Lost, lost_len(rest, layout), Findings::of(kind)),
    }
}

// Returns the file system by whose rules the strict reader reads the files.
fn strict_system(files: Files) -> FileSystem
    ensures { result ≡ rules.system_by files }
{
    match files {
        Files::Ffs3 => FileSystem::Ffs3,
        Files::Ffs2 | Files::Ffs1 | Files::Store | Files::Unknown => FileSystem::Ffs2,
    }
}

// Returns the kind of the first fault of the strict cell at the start of `rest`, where a header
// begins.
fn strict_kind(rest: &[u8], layout: Layout) -> Option<FaultKind>
    requires header { rules.may_be_header layout.polarity rest.now ≡ true }
    requires multiple { length rest.now % 8 ≡ 0 }
    ensures { result ≡ rules.strict_kind layout rest.now }
{
    let mut walk = CellWalk::of(rest, 0, strict_system(layout.files), layout.polarity);
    match walk.next_cell() {
        Ok(_) => None,
        Err(fault) => Some(fault.kind),
    }
}

// Returns whether a state is the state of a stub.
fn is_stub_state(state: Option<FileState>) -> bool
    ensures { result ≡ rules.is_stub_state state }
{
    matches!(
        state,
        Some(FileState::Construction | FileState::HeaderInvalid)
    )
}

// Returns the length of a stub.
fn stub_len(rest: &[u8]) -> usize
    requires { 24 ≤ length rest.now }
    ensures { result ≡ file_header_len_at rest.now }
{
    if rest[19] % 2 == 1 {
        LARGE_HEADER_LEN
    } else {
        HEADER_LEN
    }
}

// Returns the piece of the strict cell at the start of `rest`, which is not free.
#[tactic(auto, unfolding(crate::specs::PieceRules::sound_piece))]
fn sound_piece(rest: &[u8], layout: Layout) -> Piece
    requires sound { rules.strict_kind layout rest.now ≡ None }
    requires long { 24 ≤ length rest.now }
    requires multiple { length rest.now % 8 ≡ 0 }
    ensures { result ≡ rules.sound_piece layout rest.now }
{
    if is_stub_state(file_state(rest[STATE_OFFSET], layout.polarity)) {
        return plain(Sort::Stub, stub_len(rest), Findings::NONE);
    }
    let sizes = sizes_at(rest, layout.files);
    file_piece(rest, layout, sizes, Findings::NONE)
}

// Returns the piece at the start of `rest`, where a header may begin.
fn headed_piece(rest: &[u8], layout: Layout) -> Piece
    requires header { rules.may_be_header layout.polarity rest.now ≡ true }
    requires long { 24 ≤ length rest.now }
    requires multiple { length rest.now % 8 ≡ 0 }
    ensures { result ≡ rules.headed_piece (rules.strict_kind layout rest.now) layout rest.now }
{
    match strict_kind(rest, layout) {
        None => sound_piece(rest, layout),
        Some(kind) => damaged_piece(rest, layout, kind),
    }
}

// Returns whether a header may begin the bytes: there are 24 bytes, and State is not erased.
fn may_be_header(rest: &[u8], polarity: Polarity) -> bool
    ensures may { result ≡ rules.may_be_header polarity rest.now }
    ensures long { result ≡ true → 24 ≤ length rest.now }
{
    rest.len() >= HEADER_LEN && rest[STATE_OFFSET] != polarity.erased()
}

// Returns the piece at the start of `rest`, the part of a body that is left.
#[tactic(auto, unfolding(crate::specs::PieceRules::piece_by))]
pub(crate) fn piece_at(rest: &[u8], layout: Layout) -> Piece
    requires some { 0 < length rest.now }
    requires multiple { length rest.now % 8 ≡ 0 }
    ensures is { result ≡ piece_by layout rest.now }
    ensures lies { IsPiece (length rest.now) result }
{
    if may_be_header(rest, layout.polarity) {
        headed_piece(rest, layout)
    } else {
        space_piece(rest, layout)
    }
}
