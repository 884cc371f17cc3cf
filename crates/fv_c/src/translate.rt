//! Translates values between the types of C and the types of the other crates.

ghost use Rattle.std.specs.Prelude.{◌≡◌, ◌≢◌, [], map, IfOk, OnErr};

use std::alloc::{AllocError, Global};

// A value that C and the other crates represent by different types.
pub(crate) trait Translate {
    // The type on the other side.
    type Target: Drop;

    ghost translated: { Self → Self.Target };

    // Returns the value, translated to the type of the other side.
    fn translate(&self) -> Self::Target
        ensures { result ≡ translated self.now };
}

// Returns the values, each translated to the type of the other side.
pub(crate) fn translate_all<T: Translate>(
    alloc: Global,
    list: &[T],
) -> Result<Vec<T::Target>, AllocError>
    ensures values { IfOk result (λ v. v.items ≡ map T.translated list.now) }

    // Memory runs out only if there are values.
    ensures some { OnErr result (list.now ≢ []) }
{
    let mut translated = Vec::with_capacity(alloc, list.len())?;
    for value in list {
        translated.push(value.translate())?;
    }
    Ok(translated)
}
