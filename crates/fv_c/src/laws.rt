//! Laws over the definitions of this crate.

ghost use Rattle.std.specs.Prelude.{◌≡◌, [], ◌∷◌, ℕ, List, Some, map, slice_get};
ghost use Rattle.std.specs.List.{filter};
ghost use Rattle.fv_tree.specs.Words.{FileMeaning, Meaning, SectionMeaning, SectionMeanings, Sectioned};
ghost use Rattle.fv_tree.specs.Words.{Accepted, plain_of, content_of, leaf_of, body_of};
ghost use Rattle.fv_rows.specs.Words.{VolumeNode, FileNode, SectionNode, rows_in_content, rows_of_sections};
ghost use Rattle.fv_c.specs.TreeParts.{NodeRow, is_first, is_held_by, no_parent, node_rows, rows_held, rows_of_parts};
ghost use Rattle.fv_c.specs.ReportedTree.{IsNodeIn, bytes_at};
ghost use Rattle.fv_c.specs.ReportedSections.{IsStreamNodeIn, deeper_row};
ghost use Rattle.fv_c.specs.declared.tree.FvNode.{FvNode};

/// States which rows `fvp_volume_tree` writes for the parts of each part. The volume itself is the
/// only row of depth 0, and has no parent. The rows with the parent `n` are exactly the parts that
/// row number `n` holds, in order and numbered from 0: the files of a volume, the sections of a
/// file or a group, the volume of a section. Their depth is one more than the depth of row `n`.
/// There are none if row `n` holds bytes, or if there is no row `n`. (PI specification, volume 3,
/// sections 3.2.1, 3.2.3 and 3.2.4.)
pub fn rows_have_their_parent()
    ensures first { (m : Meaning) → filter is_first (node_rows m) ≡ rows_of_parts no_parent 0 0 (VolumeNode m ∷ []) }
    ensures inner { (m : Meaning) (n : ℕ) → filter (is_held_by n) (node_rows m)
        ≡ rows_held n (slice_get (node_rows m) n) }
{}

/// States which bytes of the input are at the places of the rows that `fvp_volume_tree` writes. At
/// the place of a volume, the input has bytes that are a volume with the same meaning. At the place
/// of a file with plain data it has these data, and at the place of a section that holds bytes it
/// has these bytes. (PI specification, volume 3, sections 3.2.1, 3.2.3 and 3.2.4.)
pub fn rows_have_their_bytes()
    ensures volume { (input : List ℕ) (rows : List FvNode) (row : FvNode) (r : NodeRow) (m : Meaning)
        → IsNodeIn input rows row r → r.node ≡ VolumeNode m → Accepted (bytes_at input row) m }
    ensures file { (input : List ℕ) (rows : List FvNode) (row : FvNode) (r : NodeRow) (f : FileMeaning) (b : List ℕ)
        → IsNodeIn input rows row r → r.node ≡ FileNode f → plain_of (content_of f) ≡ Some b → bytes_at input row ≡ b }
    ensures section { (input : List ℕ) (rows : List FvNode) (row : FvNode) (r : NodeRow) (s : SectionMeaning) (b : List ℕ)
        → IsNodeIn input rows row r → r.node ≡ SectionNode s → leaf_of (body_of s) ≡ Some b → bytes_at input row ≡ b }
{}

/// States the same of the rows that `fvp_sections_tree` writes.
pub fn stream_rows_have_their_bytes()
    ensures volume { (input : List ℕ) (rows : List FvNode) (row : FvNode) (r : NodeRow) (m : Meaning)
        → IsStreamNodeIn input rows row r → r.node ≡ VolumeNode m → Accepted (bytes_at input row) m }
    ensures file { (input : List ℕ) (rows : List FvNode) (row : FvNode) (r : NodeRow) (f : FileMeaning) (b : List ℕ)
        → IsStreamNodeIn input rows row r → r.node ≡ FileNode f → plain_of (content_of f) ≡ Some b → bytes_at input row ≡ b }
    ensures section { (input : List ℕ) (rows : List FvNode) (row : FvNode) (r : NodeRow) (s : SectionMeaning) (b : List ℕ)
        → IsStreamNodeIn input rows row r → r.node ≡ SectionNode s → leaf_of (body_of s) ≡ Some b → bytes_at input row ≡ b }
{}

/// States that the rows of a stream of sections are the rows of a file's data that are this stream,
/// without the depth of these data. (PI specification, volume 3, sections 3.2.3 and 3.2.4.)
pub fn streams_have_the_rows_of_data()
    ensures { (depth nesting tail : ℕ) (sections : SectionMeanings)
        → rows_in_content depth nesting (Sectioned sections tail)
        ≡ map (deeper_row depth nesting) (rows_of_sections 0 0 0 sections) }
{}
