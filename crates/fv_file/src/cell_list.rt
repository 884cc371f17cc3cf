//! A list of cells.

ghost use Rattle.std.specs.Prelude.{◌≡◌, map};
ghost use Rattle.fv_file.specs.CellForms.{cell_form};

use crate::cell::Cell;
use std::marker::Model;

/// The cells of a volume's body, in order. In contracts, it is the list of these cells, each as a
/// `CellForm`. (PI specification, volume 3, sections 3.2.2 and 3.2.3.)
#[derive(Drop)]
pub struct Cells<'a> {
    list: Vec<Cell<'a>>,
}

impl<'a> Model for Cells<'a> {
    ghost use Rattle.std.specs.Prelude.{List, map};
    ghost use Rattle.fv_file.specs.Cells.{CellForm};
    ghost use Rattle.fv_file.specs.CellForms.{cell_form};

    ghost Value = { List CellForm };

    ghost view = { λ c. map cell_form c.list.items };
}

impl<'a> Cells<'a> {
    // Makes a list of the cells in a vector. Takes no memory.
    pub(crate) fn from_vec(list: Vec<Cell<'a>>) -> Cells<'a>
        ensures { result ≡ map cell_form list.entry.items }
    {
        Cells { list }
    }

    /// Returns the cells, in order.
    pub fn as_slice(&self) -> &[Cell<'a>]
        ensures { map cell_form result.now ≡ self.now }
    {
        self.list.as_slice()
    }
}
