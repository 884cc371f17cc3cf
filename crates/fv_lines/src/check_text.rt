//! The notes of `check` on pads whose data bytes are not all erased, and its last line.

ghost use Rattle.std.specs.Prelude.{◌≡◌, List};
ghost use Rattle.fv_file.specs.Words.{CellForm, TileLeft, cell_form};
ghost use Rattle.fv_lines.specs.Notes.{written_in, pad_line, pad_note, pad_notes, verdict_line};

use fv_base::{Polarity, Sink};
use fv_file::{Cell, CellWalk};
use fv_text::put_decimal;

// Returns how many of the bytes are not erased.
fn written_in(bytes: &[u8], polarity: Polarity) -> u64
    ensures { result ≡ written_in polarity bytes.now }
{
    let erased = polarity.erased();
    let mut count = 0;
    for byte in bytes {
        if *byte == erased {
            continue;
        }
        count += 1;
    }
    count
}

// Puts the note on a pad with `count` data bytes that are not erased, unless `count` is 0.
fn put_pad_note<S: Sink>(out: &mut S, offset: u64, count: u64)
    ensures { S.takes out.old (pad_line offset count) out.new }
{
    if count == 0 {
        return;
    }
    out.put(b"note pad at ");
    put_decimal(out, offset);
    out.put(b" holds ");
    put_decimal(out, count);
    out.put(b" bytes\n");
}

// Puts the note on a cell, if it is a pad whose data bytes are not all erased.
fn put_cell<S: Sink>(out: &mut S, cell: &Cell<'_>, polarity: Polarity)
    ensures { S.takes out.old (pad_note polarity (cell_form cell.now)) out.new }
{
    match *cell {
        Cell::Pad {
            offset,
            payload,
            ..
        } => put_pad_note(out, offset, written_in(payload, polarity)),
        _ => {}
    }
}

/// Puts a line, in order, for each cell of a walk that is a pad with data bytes which are not all
/// erased. The line shows the offset of the pad in the volume and how many of its data bytes are not
/// erased. Takes no memory.
pub fn put_pad_notes<S: Sink>(out: &mut S, walk: CellWalk<'_>, polarity: Polarity)
    ensures { (cs : List CellForm) → TileLeft cs walk.entry → S.takes out.old (pad_notes polarity cs) out.new }
{
    let mut walk = walk;
    while let Ok(Some(cell)) = walk.next_cell() {
        put_cell(out, &cell, polarity);
    }
}

/// Puts the line that says whether a volume is its own canonical image. (PI specification, volume
/// 3, section 3.2.)
pub fn put_verdict<S: Sink>(out: &mut S, is_same: bool)
    ensures { S.takes out.old (verdict_line is_same) out.new }
{
    if is_same {
        out.put(b"canonical\n");
    } else {
        out.put(b"not canonical\n");
    }
}
