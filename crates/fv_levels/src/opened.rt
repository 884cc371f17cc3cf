//! The contents of an opened section.

ghost use Rattle.std.specs.Prelude.{◌≤◌};

use crate::place::Origin;

// The contents of an opened section, and the number of opened sections around its bytes.
#[derive(Drop)]
pub(crate) struct OpenedSection {
    pub(crate) depth: usize,
    pub(crate) origin: Origin,
    pub(crate) contents: Vec<u8>,
    ghost shallow: { depth ≤ 8 },
}
