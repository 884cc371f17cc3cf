//! The notes of `check` on the pads of a volume.

ghost use Rattle.std.specs.Prelude.{ℕ, List};
ghost use Rattle.fv_tree.specs.Words.{Accepted, Meaning};
ghost use Rattle.fv_command.specs.inner.CheckRuns.{NotedPads};

use fv_base::Sink;
use fv_file::CellWalk;
use fv_head::verify_fv;
use fv_lines::put_pad_notes;

/// Puts the notes on the pads of the input, which is a volume. `is_same` says whether the volume is
/// its own canonical image. In a canonical image, every pad in the body contains only erased data
/// bytes. (The pad file that holds the extended header lies before the body.) So there is nothing
/// to note, and the cells do not have to be read.
pub fn put_pads<S: Sink>(out: &mut S, input: &[u8], is_same: bool)
    requires { (m : Meaning) × Accepted input.now m }
    ensures { (text : List ℕ) × NotedPads input.now is_same text × S.takes out.old text out.new }
{
    if is_same {
        return;
    }
    let Ok(extent) = verify_fv(input) else {
        return;
    };
    let walk = CellWalk::of(input, extent.first, extent.file_system, extent.polarity);
    put_pad_notes(out, walk, extent.polarity);
}
