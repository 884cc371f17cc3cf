//! Tests of the public calls of `fv_base`, `fv_head`, `fv_file`, `fv_section`, `fv_depex`, `fv_hob`,
//! `fv_tree`, `fv_survey` and `fv_marks`, with one module for each crate. They compare calls with
//! results that were worked out by hand or by another reader, where neither a run of the program nor
//! the library for C shows these results. So they would also find an error in a definition, which no
//! proof finds.
#![tactic(auto)]

#[cfg(test)]
mod base;
#[cfg(test)]
mod checks;
#[cfg(test)]
mod depex;
#[cfg(test)]
mod faults;
#[cfg(test)]
mod file;
#[cfg(test)]
mod head;
#[cfg(test)]
mod hob;
#[cfg(test)]
mod marks;
#[cfg(test)]
mod parts;
#[cfg(test)]
mod section;
#[cfg(test)]
mod spelling;
#[cfg(test)]
mod survey;
#[cfg(test)]
mod tree;
