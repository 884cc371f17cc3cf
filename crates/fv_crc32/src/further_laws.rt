//! Laws of the definitions. The functions do nothing: their contracts are the laws.

ghost use Rattle.std.specs.Prelude.{◌≡◌, ◌∷◌, ◌++◌, ◌<◌, ℕ, List};
ghost use Rattle.std.specs.List.{AllByRecursion};
ghost use Rattle.fv_crc32.specs.Crc32.{IsByte, crc32};

/// A change of one byte changes the checksum.
pub fn changed_bytes_change_the_sum()
    ensures { (front back : List ℕ) (b c : ℕ) → AllByRecursion IsByte front → AllByRecursion IsByte back → IsByte b → IsByte c → crc32 (front ++ b ∷ back) ≡ crc32 (front ++ c ∷ back) → b ≡ c }
{}
