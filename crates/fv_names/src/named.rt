//! The name and the mark of a file, for the index and for the order of names.

ghost use Rattle.std.specs.Prelude.{◌≡◌};
ghost use Rattle.fv_base.specs.declared.guid.Guid.{Guid};
ghost use Rattle.fv_names.specs.NamedFiles.{NamedFile};

use fv_base::Guid;

/// A file with a name, which may be marked for update. (PI specification, volume 3, section
/// 3.2.3.1.)
pub trait Named {
    /// The file's name, and whether the file is marked.
    ghost named: { Self → NamedFile };

    /// Returns the file's name, `Name`.
    fn name(&self) -> Guid
        ensures { result ≡ (named self.now).name };

    /// Returns whether the file is marked for update (`EFI_FILE_MARKED_FOR_UPDATE`).
    fn is_marked(&self) -> bool
        ensures { result ≡ (named self.now).marked };
}

/// A file with a name. (PI specification, volume 3, section 3.2.3.1.)
pub trait WithName {
    /// The file's name.
    ghost name_of: { Self → Guid };

    /// Returns the file's name, `Name`.
    fn name(&self) -> Guid
        ensures { result ≡ name_of self.now };
}
