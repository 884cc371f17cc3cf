//! Laws of the definitions. The functions do nothing: their contracts are the laws.

ghost use Rattle.std.specs.Prelude.{◌≡◌, ℕ, List, length};
ghost use Rattle.fv_x86.specs.Filter.{unfiltered};

/// The filter keeps the number of bytes.
pub fn lengths_stay()
    ensures { (bytes : List ℕ) → length (unfiltered bytes) ≡ length bytes }
{}
