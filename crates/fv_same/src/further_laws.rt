//! Laws of the parts of an image. The functions do nothing: their contracts are the laws.

ghost use Rattle.std.specs.Prelude.{◌≡◌, ◌≤◌, ◌+◌, ℕ, List, [], ◌∷◌, ◌++◌, length, Option, Some, true, false};
ghost use Rattle.std.specs.BTreeMap.{is_at};
ghost use Rattle.std.specs.List.{list_any};
ghost use Rattle.fv_base.specs.declared.flash.Polarity.{Polarity};
ghost use Rattle.fv_budget.specs.declared.budget.Budget.{Budget};
ghost use Rattle.fv_file.specs.Words.{file_type_at, is_valid_state};
ghost use Rattle.fv_levels.specs.Words.{SourceForm};
ghost use Rattle.fv_survey.specs.Words.{Forest, Nest, is_file, is_leaf, sort_by};
ghost use Rattle.fv_survey.specs.Words.{rows_of};
ghost use Rattle.fv_survey.specs.declared.row.Row.{Row};
ghost use Rattle.fv_survey.specs.declared.row.RowKind.TheVariants as kinds;
ghost use Rattle.fv_same.specs.Meant.{around_at, bytes_of_row, file_counts, state_by};
ghost use Rattle.fv_same.specs.Parts.{PlacedPart, ReaderForm, is_opened_row, items_from, part_as, parts_among, reader_after};
ghost use Rattle.fv_same.specs.Sameness.{Same};
ghost use Rattle.fv_same.specs.Superseded.{NameKey, key_cmp, named_row, role_in};
ghost use Rattle.fv_same.specs.declared.meant.Around.{Around};
ghost use Rattle.fv_same.specs.declared.meant.Around.TheVariants as arounds;
ghost use Rattle.fv_same.specs.declared.meant.Role.TheVariants as roles;

/// To mean the same is an equivalence.
pub fn same_is_an_equivalence()
    ensures itself { (s : Budget) (a : List ℕ) → Same s a a }
    ensures turned { (s : Budget) (a b : List ℕ) → Same s a b → Same s b a }
    ensures third { (s : Budget) (a b c : List ℕ) → Same s a b → Same s b c → Same s a c }
{}

/// Neither a pad, nor a deleted, unfinished or superseded file, nor any other row that does not
/// count, nor the rows in it have parts. (PI specification, volume 3, section 3.2.3.)
pub fn outside_has_no_parts()
    // A pad does not count.
    ensures pads { (names : List NameKey) (around : List Around) (b : List ℕ) (row : Row) → row.kind ≡ kinds.File → row.code ≡ 0xf0
        → role_in names around b row ≡ roles.Out }

    // A file whose data are not valid does not count: it was deleted, or never finished.
    ensures dead { (names : List NameKey) (around : List Around) (b : List ℕ) (row : Row) (start : ℕ) (polarity : Polarity)
        → row.kind ≡ kinds.File → around_at around row.depth ≡ Some (arounds.Volume start polarity)
        → is_valid_state (state_by polarity (bytes_of_row b row)) ≡ false → role_in names around b row ≡ roles.Out }

    // A file that is marked for update does not count if a file of its name in its volume is not marked.
    ensures superseded { (names : List NameKey) (around : List Around) (b : List ℕ) (row : Row) (name : NameKey)
        → named_row around b row ≡ Some (name, true) → list_any (is_at (key_cmp name)) names ≡ true
        → role_in names around b row ≡ roles.Out }

    // A row that does not count, and the rows in it, have no parts.
    ensures rows { (inside : ℕ → List (Option PlacedPart)) (sources : List SourceForm) (x : ReaderForm) (row : Row) (below : Forest)
        (from to : ℕ) → role_in x.updates x.around x.bytes row ≡ roles.Out → row.depth ≤ length x.around
        → Nest (row.depth + 1) from to below → is_leaf row.kind ≡ false
        → parts_among (items_from inside sources x (row ∷ rows_of below)) ≡ [] }
{}

/// A file counts, unless it is superseded, exactly if the survey reads it as a file, and not as a pad
/// or a dead file. (PI specification, volume 3, section 3.2.3.)
pub fn surveyed_files_count()
    ensures { (polarity : Polarity) (r : List ℕ) → 24 ≤ length r → file_counts polarity (file_type_at r) r ≡ is_file (sort_by polarity r) }
{}

/// How a section is packed does not count, if it is opened: the row is a part that says nothing, the
/// parts of its contents follow, and then the parts of the rows after it. (PI specification, volume
/// 3, sections 3.2.5.2 and 3.2.5.7.)
pub fn packing_does_not_count()
    ensures { (inside : ℕ → List (Option PlacedPart)) (sources : List SourceForm) (x : ReaderForm) (row : Row) (rows : List Row)
        → role_in x.updates x.around x.bytes row ≡ roles.Packed → is_opened_row sources x row ≡ true
        → parts_among (items_from inside sources x (row ∷ rows)) ≡ part_as false x row kinds.Packed []
        ∷ (parts_among (inside x.next) ++ parts_among (items_from inside sources (reader_after sources x row) rows)) }
{}
