//! The order of the names of some files.

ghost use Rattle.std.specs.Prelude.{◌≡◌, ◌<◌, ◌&&◌, nat_lt, length, map, get_or, IfOk, IfErr};
ghost use Rattle.std.specs.List.{position};
ghost use Rattle.std.specs.Ordering.{is_lt};
ghost use Rattle.fv_base.specs.Words.{out_of_memory};
ghost use Rattle.fv_base.specs.declared.guid.Guid.{Guid};
ghost use Rattle.fv_names.specs.NamedFiles.{is_name};
ghost use Rattle.fv_names.specs.NameIndexes.{Entry, Halves, IsIndex, IsNameOrder, entries_of, halves_cmp, halves_of, numbers_in};
ghost use Rattle.fv_names.specs.NameIndexes.{numbers_of};

use crate::name_index::{NameIndex, halves};
use crate::named::WithName;
use fv_base::{Fault, Guid};
use std::alloc::Global;

/// The numbers of some files, in the order of the files' names. The files are numbered from 0 in
/// their own order. A search for a name reads the names of the files, so an order takes 4 bytes for
/// each file. (PI specification, volume 3, section 3.2.3.)
#[derive(Drop)]
pub struct NameOrder {
    numbers: Vec<u32>,
}

/// Returns whether a name precedes another. Both are given as two numbers.
pub(crate) fn is_before(one: (u64, u64), other: (u64, u64)) -> bool
    ensures { result ≡ is_lt (halves_cmp one other) }
{
    one.0 < other.0 || (one.0 == other.0 && one.1 < other.1)
}

// Returns whether there is a file with this number, and its name precedes this name, which is given
// as two numbers.
fn precedes<F: WithName>(files: &[F], number: u32, key: (u64, u64)) -> bool
    ensures { (g : Guid) → result ≡ (nat_lt number (length (map F.name_of files.now))
        && is_lt (halves_cmp (halves_of (get_or (map F.name_of files.now) number g)) key)) }
{
    let Some(file) = files.get(number as usize) else {
        return false;
    };
    is_before(halves(file.name()), key)
}

impl NameOrder {
    /// Returns the numbers of the files in the order of an index.
    ///
    /// # Errors
    ///
    /// OutOfMemory at 0, only if the index has an entry.
    pub fn of(alloc: Global, index: &NameIndex) -> Result<NameOrder, Fault>
        // The numbers are the numbers of the index's entries, in the same order.
        ensures found { IfOk result (λ order. numbers_of order ≡ numbers_in (entries_of index.now)) }

        // The only error is OutOfMemory, and only if the index has an entry.
        ensures err { IfErr result (λ f. f ≡ out_of_memory) }
        ensures some { IfErr result (λ _. 0 < length (entries_of index.now)) }
    {
        let mut numbers = Vec::with_capacity(alloc, index.len())?;
        for place in 0..index.len() {
            numbers.push(index.number_at(place))?;
        }
        Ok(NameOrder { numbers })
    }

    /// Returns the number of the first file with this name, or None if no file has it. The order
    /// must be the order of the names of these files. Takes no memory.
    pub fn get<F: WithName>(&self, files: &[F], name: &Guid) -> Option<u32>
        requires { IsNameOrder (map F.name_of files.now) (numbers_of self.now) }
        ensures { result ≡ position (is_name name.now) (map F.name_of files.now) }
    {
        let key = halves(*name);
        // Files with the same name are in their own order, so the first of them has the name's first
        // place.
        let first = self
            .numbers
            .as_slice()
            .partition_point(|number| precedes(files, *number, key));
        let number = *self.numbers.get(first)?;
        if halves(files[number as usize].name()) == key {
            return Some(number);
        }
        None
    }
}
