//! A tolerant reading of EDK II's variable stores, and of the signature lists in their variables: an
//! account of each byte by rows, which a walk makes one after another. Any bytes can be read, and no
//! call allocates memory. (VariableFormat.h of EDK II; UEFI specification, section 32.4.1.)
#![tactic(auto)]

mod format;
mod row;
mod sign;
mod signatures;
mod step;
#[cfg(test)]
mod tests;
mod walk;

pub use format::{Authentication, StoreFormat, StoreHeader, Variable, VariableStatus};
pub use row::{Finding, Part, Row};
pub use signatures::ListHeader;
pub use walk::RowWalk;
