//! Hand-off block lists.

ghost use Rattle.std.specs.Prelude.{◌≡◌};
ghost use Rattle.fv_hob.specs.Lists.{IsReadList};

use crate::hob::Hob;
use std::marker::Model;

/// A hand-off block list. Only `read_hobs` makes a value of this type. Its first block is a
/// hand-off information table (PHIT), and its last block is the only end block. Contracts see it as
/// the list of its blocks. (PI specification, volume 3, section 5.)
#[derive(Drop)]
pub struct HobList {
    list: Vec<Hob>,
}

impl Model for HobList {
    ghost use Rattle.std.specs.Prelude.{List};
    ghost use Rattle.fv_hob.specs.Hobs.{HobForm};
    ghost use Rattle.fv_hob.specs.Lists.{IsReadList};

    ghost Value = { List HobForm };

    ghost view = { λ l. l.list.items };

    ghost invariant = { λ l. IsReadList l.list.items };
}

impl HobList {
    // Makes the list of these blocks.
    pub(crate) fn from_vec(list: Vec<Hob>) -> HobList
        requires { IsReadList list.items }
        ensures { result ≡ list.items }
    {
        HobList { list }
    }

    /// Returns the blocks in the order of their bytes, with the end block last.
    pub fn as_slice(&self) -> &[Hob]
        ensures blocks { result.now ≡ self.now }

        // Some bytes are this list.
        ensures read { IsReadList self.now }
    {
        self.list.as_slice()
    }
}
