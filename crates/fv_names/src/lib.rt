//! An index of the names of a volume's files. It finds files with the same name and mark (twins), and
//! superseded files. The order of the names, which takes less memory, finds the file with a name.
//! Only `NameIndex::of`, `NameIndex::refill` and `NameOrder::of` take memory.
#![tactic(auto)]

mod name_index;
mod name_order;
mod named;

pub use name_index::NameIndex;
pub use name_order::NameOrder;
pub use named::{Named, WithName};
