//! Laws of the definitions. The functions do nothing: their contracts are the laws.

ghost use Rattle.std.specs.Prelude.{◌≡◌, ◌↔◌, drop, Some};
ghost use Rattle.std.specs.List.{AllByRecursion};
ghost use Rattle.fv_base.specs.declared.guid.Guid.{Guid};
ghost use Rattle.fv_rows.specs.Words.{tree_rows};
ghost use Rattle.fv_tree.specs.Words.{FileMeaning, Meaning, file_named, files_of};
ghost use Rattle.fv_extract.specs.OpenedParts.{HasNoVolume, InVolume, LacksFile, Nowhere, SearchEnd, VolumeSearch, end_in};
ghost use Rattle.fv_extract.specs.Progresses.{at_start};
ghost use Rattle.fv_extract.specs.declared.progress.Progress.{Progress};

/// If the volume itself has a file with the name, the search ends in this volume, and no packed
/// section is unread.
pub fn own_file()
    ensures { (name : Guid) (m : Meaning) (f : FileMeaning) (end : SearchEnd) → file_named name (files_of m) ≡ Some f
        → VolumeSearch name m end ↔ (end ≡ InVolume m at_start) }
{}

/// If a volume has neither a volume nor a packed section in it, the search ends in this volume or
/// nowhere, and no packed section is unread.
pub fn alone()
    ensures { (name : Guid) (m : Meaning) (end : SearchEnd) → AllByRecursion (λ r. HasNoVolume r.node) (drop 1 (tree_rows m))
        → VolumeSearch name m end ↔ (end ≡ end_in (file_named name (files_of m)) m at_start) }
{}

/// The volume in which a search ends has a file with the name. If a search ends nowhere, no volume
/// among the rows of the searched volume has such a file.
pub fn ends()
    ensures found { (name : Guid) (m v : Meaning) (s : Progress) → VolumeSearch name m (InVolume v s)
        → (f : FileMeaning) × (file_named name (files_of v) ≡ Some f) }
    ensures absent { (name : Guid) (m : Meaning) (s : Progress) → VolumeSearch name m (Nowhere s)
        → AllByRecursion (λ r. LacksFile name r.node) (tree_rows m) }
{}
