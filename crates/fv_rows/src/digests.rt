//! The digests of the parts of a volume, one row after another.

ghost use Rattle.std.specs.Prelude.{ℕ, List, Option, ◌∷◌};
ghost use Rattle.fv_rows.specs.TreeRows.{NodeMeaning, TreeRow};
ghost use Rattle.fv_rows.specs.RowWalks.{part_node, row_of};

use crate::tree_walk::Row;

/// The digests of volumes, files and leaf sections, for a walk that visits the rows of a volume in
/// their order. A value is the state of the walk: it knows the digests of the rows that are still
/// to come.
pub trait Digests: Copy {
    /// The state covers these rows: they are the rows that are still to come, and their digests are
    /// available.
    ghost covers: { Self → List TreeRow → Type 0 };

    /// Relates a part to its digest, or to None.
    ghost of_node: { NodeMeaning → Option (List ℕ) → Type 0 };

    /// Returns the digest of the next row's part, or None. The state must cover this row and the
    /// rows after it. Afterwards it covers the rows after it.
    fn next_digest(&mut self, row: &Row<'_, '_>) -> Option<[u8; 32]>
        requires { (rest : List TreeRow) × covers self.old (row_of row.now ∷ rest) }
        ensures digest { of_node (part_node row.now.part) result }
        ensures left { (rest : List TreeRow) → covers self.old (row_of row.now ∷ rest) → covers self.new rest };
}
