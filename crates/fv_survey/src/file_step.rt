//! The step of a survey through the cells of a volume.

ghost use Rattle.std.specs.Prelude.{◌≡◌, ◌+◌, ◌<◌, ◌^◌, length, IfOk, IfErr};
ghost use Rattle.fv_base.specs.Words.{out_of_memory};
ghost use Rattle.fv_tree.specs.Words.{holds_sections};
ghost use Rattle.fv_survey.specs.Fitting.{Fits};
ghost use Rattle.fv_survey.specs.inner.Pieces.{IsPiece};
ghost use Rattle.fv_survey.specs.Portions.{portion_form, stack};
ghost use Rattle.fv_survey.specs.Reading.{cells_after, cells_inside, cells_row, data_reading, file_inside, piece_inside, piece_said};

use crate::findings::Findings;
use crate::pieces::{Layout, Piece, Sort, piece_at};
use crate::portion::{Opening, Portion, Reading, put};
use crate::row::{Row, RowKind};
use crate::volume_step::enter_lost;
use fv_base::{Fault, Polarity, all_are};
use fv_file::file_type::{FREEFORM, MM_CORE_STANDALONE, PEI_CORE};

// Returns whether the data of files of this type are sections.
fn holds_sections(code: u8) -> bool
    ensures { result ≡ holds_sections code }
{
    code == FREEFORM || (PEI_CORE <= code && code <= MM_CORE_STANDALONE)
}

// Returns what the data of a file, a pad or a deleted file are read as.
fn data_reading(polarity: Polarity, sort: Sort, code: u8, bytes: &[u8]) -> Reading
    ensures { result ≡ data_reading polarity sort code bytes.now }
{
    match sort {
        Sort::File => {
            if holds_sections(code) {
                Reading::Sections(Findings::NONE)
            } else {
                Reading::Run(RowKind::Data)
            }
        }
        Sort::Pad => {
            if all_are(bytes, polarity.erased()) {
                Reading::Leaf(RowKind::Pad, Findings::NONE)
            } else {
                Reading::Run(RowKind::PadData)
            }
        }
        _ => Reading::Run(RowKind::Dead),
    }
}

// Returns what the row of a piece says.
fn piece_said(piece: &Piece) -> Opening
    ensures { result ≡ piece_said piece.now.sort piece.now }
{
    match piece.sort {
        Sort::Free => Opening::plain(RowKind::Free, piece.findings),
        Sort::Stub => Opening::plain(RowKind::Stub, piece.findings),
        Sort::Lost => Opening::plain(RowKind::Lost, piece.findings),
        Sort::File | Sort::Pad | Sort::Dead => {
            Opening::file(piece.code, piece.findings, piece.name)
        }
    }
}

// Puts the header, the data and the filler of a file, a pad or a deleted file on the stack.
fn enter_file<'a>(
    portions: &mut Vec<Portion<'a>>,
    cells: Portion<'a>,
    piece: Piece,
    polarity: Polarity,
) -> Result<(), Fault>
    requires room { cells.at + length cells.bytes.now < 2 ^ 63 }
    requires piece { IsPiece (length cells.bytes.now) piece }
    requires shallow { cells.nest.depth < 400 }
    ensures inside { IfOk result (λ _. stack portions.new.items
        ≡ file_inside polarity piece (portion_form cells.entry) (stack portions.old.items)) }
    ensures err { IfErr result (λ f. f ≡ out_of_memory) }
{
    let nest = cells.nest.inside();
    let filler = Reading::Leaf(RowKind::Filler, Findings::NONE);
    let header = Reading::Leaf(RowKind::FileHeader, Findings::NONE);
    let data = &cells.bytes[piece.header..piece.size];
    let reading = data_reading(polarity, piece.sort, piece.code, data);
    put(portions, cells.cut(filler, nest, piece.size, piece.span))?;
    put(portions, cells.cut(reading, nest, piece.header, piece.size))?;
    put(portions, cells.cut(header, nest, 0, piece.header))
}

// Puts the portions in a piece on the stack.
fn enter_piece<'a>(
    portions: &mut Vec<Portion<'a>>,
    cells: Portion<'a>,
    piece: Piece,
    polarity: Polarity,
) -> Result<(), Fault>
    requires room { cells.at + length cells.bytes.now < 2 ^ 63 }
    requires piece { IsPiece (length cells.bytes.now) piece }
    requires shallow { cells.nest.depth < 400 }
    ensures inside { IfOk result (λ _. stack portions.new.items
        ≡ piece_inside polarity piece.sort piece (portion_form cells.entry) (stack portions.old.items)) }
    ensures err { IfErr result (λ f. f ≡ out_of_memory) }
{
    match piece.sort {
        Sort::Free | Sort::Stub => Ok(()),
        Sort::Lost => enter_lost(portions, cells, piece.span),
        Sort::File | Sort::Pad | Sort::Dead => enter_file(portions, cells, piece, polarity),
    }
}

// Takes the step over the first piece of some cells, and returns its row.
pub(crate) fn cells_step<'a>(
    portions: &mut Vec<Portion<'a>>,
    cells: Portion<'a>,
    layout: Layout,
) -> Result<Row, Fault>
    requires fits { Fits (portion_form cells) }
    requires reading { cells.reading ≡ Reading.Cells layout }
    ensures row { IfOk result (λ r. r ≡ cells_row layout (portion_form cells.entry)) }
    ensures inside { IfOk result (λ _. stack portions.new.items
        ≡ cells_inside layout (portion_form cells.entry) (cells_after layout (portion_form cells.entry) (stack portions.old.items))) }
    ensures err { IfErr result (λ f. f ≡ out_of_memory) }
{
    let piece = piece_at(cells.bytes, layout);
    put(
        portions,
        cells.cut(cells.reading, cells.nest, piece.span, cells.bytes.len()),
    )?;
    enter_piece(portions, cells, piece, layout.polarity)?;
    Ok(cells.row(piece_said(&piece), piece.span))
}
