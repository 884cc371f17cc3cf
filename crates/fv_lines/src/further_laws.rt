//! Laws over the definitions of this crate. None of these functions does anything: their contracts
//! are the laws.

ghost use Rattle.std.specs.Prelude.{◌≡◌, ◌+◌, ℕ, List};
ghost use Rattle.fv_file.specs.Words.{CellForm};
ghost use Rattle.fv_head.specs.declared.extent.Extent.{Extent};
ghost use Rattle.fv_tree.specs.Words.{BeginsTiled};
ghost use Rattle.fv_lines.specs.CellTexts.{sums_of};

/// The sums that `cells` shows, with the bytes before the body, are the length of the volume. (PI
/// specification, volume 3, section 3.2.1, FvLength.)
pub fn cells_add_up()
    ensures { (b : List ℕ) (e : Extent) (cells : List CellForm) → BeginsTiled e cells b
        → e.first + ((sums_of cells).files + (sums_of cells).pads + (sums_of cells).deleted + (sums_of cells).filler + (sums_of cells).free)
        ≡ e.length }
{}
