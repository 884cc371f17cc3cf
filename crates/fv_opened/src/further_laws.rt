//! Laws of the definitions. The functions do nothing: their contracts are the laws.

ghost use Rattle.std.specs.Prelude.{◌≡◌, ℕ, List, Bool, false};
ghost use Rattle.fv_lines.specs.Words.{ListText};
ghost use Rattle.fv_rows.specs.Words.{tree_rows};
ghost use Rattle.fv_tree.specs.Words.{Meaning};
ghost use Rattle.fv_opened.specs.OpenedTexts.{HasNothingPacked, OpenedListText};

/// If a volume has no packed section, the text of `list --open` is the text of `list`.
pub fn nothing_packed()
    ensures only { (m : Meaning) (ran_out : Bool) (text : List ℕ) → HasNothingPacked (tree_rows m)
        → OpenedListText m ran_out text → ListText m text × (ran_out ≡ false) }
    ensures all { (m : Meaning) (text : List ℕ) → HasNothingPacked (tree_rows m) → ListText m text → OpenedListText m false text }
{}
