//! The index of the names of some files.

ghost use Rattle.std.specs.Prelude.{◌≡◌, ◌<◌, ◌≤◌, ◌^◌, List, length, map, take, get_or, true, false, IsSorted, IsTrue, IfOk};
ghost use Rattle.std.specs.Prelude.{OnOk, IfErr};
ghost use Rattle.std.specs.List.{Contains, list_any};
ghost use Rattle.std.specs.List.Sorted.{IsPartitionPoint};
ghost use Rattle.std.specs.Ordering.{is_lt};
ghost use Rattle.fv_base.specs.Words.{out_of_memory};
ghost use Rattle.fv_base.specs.declared.guid.Guid.{Guid};
ghost use Rattle.fv_names.specs.NamedFiles.{NamedFile, NoTwins, is_twin, replaced_by};
ghost use Rattle.fv_names.specs.NameIndexes.{NeighboursDiffer, Entry, IsIndex, IsName, IsSixteenBytes, entries_of, entry_cmp};
ghost use Rattle.fv_names.specs.NameIndexes.{halves_cmp, halves_in, halves_of, names_in};
ghost use Rattle.fv_names.specs.inner.NameOrders.{AreTwins, IsShared, IsTwinAt, mark_at};

use crate::name_order::is_before;
use crate::named::Named;
use fv_base::{Fault, Guid};
use std::alloc::Global;

// A name as two numbers, together with the number of its file.
type NumberedName = ((u64, u64), u32);

/// The names of some files in sorted order, each with the number of its file. The files are
/// numbered from 0 in their own order. The index shows which files share a name. (PI specification,
/// volume 3, section 3.2.3.)
#[derive(Drop)]
pub struct NameIndex {
    sorted: Vec<NumberedName>,
}

// Returns sixteen bytes as two numbers.
fn numbers_in(bytes: [u8; 16]) -> (u64, u64)
    ensures is { result ≡ halves_in bytes }
    ensures sixteen { IsSixteenBytes bytes }
{
    let mut front = [0u8; 8];
    front.copy_from_slice(&bytes[..8]);
    let mut back = [0u8; 8];
    back.copy_from_slice(&bytes[8..]);
    (u64::from_le_bytes(front), u64::from_le_bytes(back))
}

// Returns a name as two numbers, which compare faster than sixteen bytes.
pub(crate) fn halves(name: Guid) -> (u64, u64)
    ensures is { result ≡ halves_of name }
    ensures sixteen { IsName name }
{
    numbers_in(name.to_bytes())
}

// Returns whether the file with this number is marked for update.
fn is_marked_at<F: Named>(files: &[F], number: u32) -> bool
    requires { number < length files.now }
    ensures { (d : NamedFile) → result ≡ mark_at (map F.named files.now) d number }
{
    files[number as usize].is_marked()
}

// Returns whether two entries belong to files with the same name and the same mark.
fn are_twins<F: Named>(files: &[F], one: NumberedName, other: NumberedName) -> bool
    requires one { one.1 < length files.now }
    requires other { other.1 < length files.now }
    ensures yes { IsTrue result → (d : NamedFile) → AreTwins (map F.named files.now) d one other }
    ensures all { (d : NamedFile) → AreTwins (map F.named files.now) d one other → IsTrue result }
{
    one.0 == other.0 && is_marked_at(files, one.1) == is_marked_at(files, other.1)
}

impl NameIndex {
    /// Builds the index of these files. There must be fewer than 2 ^ 32 files.
    ///
    /// # Errors
    ///
    /// OutOfMemory at 0, only if there is a file.
    pub fn of<F: Named>(alloc: Global, files: &[F]) -> Result<NameIndex, Fault>
        requires { length files.now < 2 ^ 32 }

        // The entries are the files' names, each with the number of its file, sorted by name and
        // then by number.
        ensures found { IfOk result (λ index. IsIndex (names_in (map F.named files.now)) (entries_of index)) }

        // The only error is OutOfMemory, and only if there is a file.
        ensures err { IfErr result (λ f. f ≡ out_of_memory) }
        ensures some { IfErr result (λ _. 0 < length files.now) }
    {
        let sorted = Vec::with_capacity(alloc, files.len())?;
        let mut index = NameIndex { sorted };
        index.refill(files)?;
        Ok(index)
    }

    /// Makes this index the index of these files, in place of the files that it was built from.
    /// Takes no new memory if there are at most as many files as before. There must be fewer than
    /// 2 ^ 32 files.
    ///
    /// # Errors
    ///
    /// OutOfMemory at 0, only if there is a file.
    pub fn refill<F: Named>(&mut self, files: &[F]) -> Result<(), Fault>
        requires { length files.now < 2 ^ 32 }

        // The entries are the files' names, each with the number of its file, sorted by name and
        // then by number.
        ensures found { OnOk result (IsIndex (names_in (map F.named files.now)) (entries_of self.new)) }

        // The only error is OutOfMemory, and only if there is a file.
        ensures err { IfErr result (λ f. f ≡ out_of_memory) }
        ensures some { IfErr result (λ _. 0 < length files.now) }
    {
        self.sorted.clear();
        for file in files {
            let number = self.sorted.len() as u32;
            self.sorted.push((halves(file.name()), number))?;
        }
        self.sorted.sort_unstable();
        Ok(())
    }

    /// Returns the number of entries, which is the number of files.
    pub fn len(&self) -> usize
        ensures { result ≡ length (entries_of self.now) }
    {
        self.sorted.len()
    }

    /// Returns the number of the file whose name is at this place. Places are counted from 0 in the
    /// order of the names. There must be an entry at this place.
    pub fn number_at(&self, place: usize) -> u32
        requires { place < length (entries_of self.now) }
        ensures { (e : Entry) → result ≡ (get_or (entries_of self.now) place e).1 }
    {
        self.sorted[place].1
    }

    /// Returns whether no two of the files have the same name. The entries must be sorted.
    pub fn are_distinct(&self) -> bool
        requires { IsSorted entry_cmp (entries_of self.now) }
        ensures distinct { IsTrue result → NeighboursDiffer (entries_of self.now) }
        ensures all { NeighboursDiffer (entries_of self.now) → IsTrue result }
    {
        for next in 1..self.sorted.len() {
            if self.sorted[next - 1].0 == self.sorted[next].0 {
                return false;
            }
        }
        true
    }

    // Returns whether one of the two entries preceding the entry at a place is its twin. (Only one
    // entry precedes the entry at place 1, and is compared twice.) For `first_twin` this is enough.
    // If an entry further back is a twin, and these two are not, both have the name of this entry,
    // because the entries are sorted by name, and both have the other mark. So they are twins of
    // each other. The later of them has a lower number than this entry, so the file of this entry
    // is not the first that has an earlier twin.
    pub(crate) fn has_twin<F: Named>(&self, files: &[F], place: usize) -> bool
        requires index { IsIndex (names_in (map F.named files.now)) (entries_of self.now) }
        requires first { 0 < place }
        requires last { place < length (entries_of self.now) }
        ensures yes { IsTrue result
            → (d : NamedFile) (e : Entry) → IsTwinAt (map F.named files.now) d (entries_of self.now) e place }
        ensures all { (d : NamedFile) (e : Entry) → IsTwinAt (map F.named files.now) d (entries_of self.now) e place
            → IsTrue result }
    {
        let entry = self.sorted[place];
        are_twins(files, self.sorted[place - 1], entry)
            || are_twins(files, self.sorted[place.saturating_sub(2)], entry)
    }

    /// Returns the number of the first file that has an earlier twin, or the number of files if
    /// none has. Twins have the same name, and both or neither of them is marked. The index must be
    /// the index of these files.
    pub fn first_twin<F: Named>(&self, files: &[F]) -> usize
        requires { IsIndex (names_in (map F.named files.now)) (entries_of self.now) }
        ensures most { result ≤ length files.now }
        ensures none { NoTwins is_twin (take result (map F.named files.now)) }
        ensures first { result < length files.now → (d : NamedFile)
            → list_any (is_twin (get_or (map F.named files.now) result d)) (take result (map F.named files.now))
            ≡ true }
    {
        let mut first = files.len();
        for place in 1..self.sorted.len() {
            let number = self.sorted[place].1 as usize;
            if number < first && self.has_twin(files, place) {
                first = number;
            }
        }
        first
    }

    // Returns the first place whose name does not precede this name. Both are given as two numbers.
    fn place_of(&self, key: (u64, u64)) -> usize
        ensures most { result ≤ length (entries_of self.now) }
        ensures parted { IsSorted entry_cmp (entries_of self.now)
            → IsPartitionPoint (λ (e : Entry). is_lt (halves_cmp e.0 key) ≡ true)
            (λ (e : Entry). is_lt (halves_cmp e.0 key) ≡ false) (entries_of self.now) result }
    {
        self.sorted
            .as_slice()
            .partition_point(|entry| is_before(entry.0, key))
    }

    // Returns whether two entries have this name.
    pub(crate) fn is_shared(&self, name: Guid) -> bool
        ensures yes { IsSorted entry_cmp (entries_of self.now) → IsTrue result
            → (e : Entry) → IsShared (entries_of self.now) e (halves_of name) }
        ensures all { IsSorted entry_cmp (entries_of self.now)
            → (e : Entry) → IsShared (entries_of self.now) e (halves_of name) → IsTrue result }
    {
        let key = halves(name);
        let second = self.place_of(key) + 1;
        second < self.sorted.len() && self.sorted[second].0 == key
    }

    /// Returns whether one of the files replaces this file: this file is marked for update, and
    /// the other has the same name and is not marked. The file must be one of the files of the
    /// index, and no two of these files may be twins.
    pub fn is_replaced<F: Named>(&self, file: &F) -> bool
        ensures { (fs : List NamedFile) → IsIndex (names_in fs) (entries_of self.now) → NoTwins is_twin fs
            → Contains fs (F.named file.now) → result ≡ list_any (replaced_by (F.named file.now)) fs }
    {
        // No two files are twins, so a file with the same name has the other mark.
        file.is_marked() && self.is_shared(file.name())
    }
}
