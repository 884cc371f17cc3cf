//! Laws of the definitions. The functions do nothing: their contracts are the laws.

ghost use Rattle.std.specs.Prelude.{◌≡◌, ◌≤◌, ◌+◌, ◌*◌, ℕ, List, length, Ok, Some};
ghost use Rattle.std.specs.List.{AllByRecursion};
ghost use Rattle.fv_budget.specs.Words.{contents_limit};
ghost use Rattle.fv_budget.specs.declared.budget.Budget.{Budget};
ghost use Rattle.fv_open.specs.Words.{opened};
ghost use Rattle.fv_open.specs.declared.way.Way.{Way};
ghost use Rattle.fv_levels.specs.AllLevels.{AreLevels, attempts_of, levels_of};
ghost use Rattle.fv_levels.specs.Attempts.{Attempt, IsTried, outcome_of};
ghost use Rattle.fv_levels.specs.Sources.{LevelsForm, packed_of};

/// An image has exactly one list of sources and one list of closed sections, within a budget.
pub fn one_result()
    ensures some { (image : List ℕ) (s : Budget) → AreLevels image s (levels_of image s) (attempts_of image s) }
    ensures only { (image : List ℕ) (s : Budget) (levels : LevelsForm) (attempts : List Attempt) → AreLevels image s levels attempts
        → levels ≡ levels_of image s }
{}

/// Nothing is left out: each packed section of each source is tried, or lies in contents that are
/// stored in the source as they are, which are a source. Each attempt gives a source or a closed
/// section.
pub fn no_section_is_missing()
    ensures tried { (image : List ℕ) (s : Budget) (levels : LevelsForm) (attempts : List Attempt) → AreLevels image s levels attempts
        → AllByRecursion (λ x. IsTried x.0 attempts) (packed_of 0 levels.sources) }
    ensures count { (image : List ℕ) (s : Budget) (levels : LevelsForm) (attempts : List Attempt) → AreLevels image s levels attempts
        → length levels.sources + length levels.closed ≡ length attempts + 1 }
{}

/// The number of sources is at most the number of bytes in the budget divided by 65,536, plus 2,
/// because each opened section counts for at least 65,536 bytes.
pub fn few_sources()
    ensures { (image : List ℕ) (s : Budget) (levels : LevelsForm) (attempts : List Attempt) → AreLevels image s levels attempts
        → 65536 * length levels.sources ≤ s.left + 131071 }
{}

/// The contents of an opened section are what the section contains, by the format of its type, in at
/// most as many bytes as the budget allows. (PI specification, volume 3, sections 3.2.5.2 and
/// 3.2.5.7.)
pub fn contents_by_format()
    ensures { (s : Budget) (depth : ℕ) (b : List ℕ) (x : Way × List ℕ) → outcome_of s depth b ≡ Ok x
        → (limit : ℕ) × (contents_limit s ≡ Some limit) × (opened limit b ≡ Ok x) }
{}
