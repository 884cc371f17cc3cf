//! Reading a source row by row.

ghost use Rattle.std.specs.Prelude.{◌≡◌, ◌+◌, ◌^◌, ◌<◌, option_map, IfOk, IfErr, IsTrue};
ghost use Rattle.fv_levels.specs.Words.{is_packed_row, source_form};
ghost use Rattle.fv_base.specs.Words.{out_of_memory};
ghost use Rattle.fv_same.specs.inner.Placed.{placed_form};
ghost use Rattle.fv_same.specs.Meant.{bytes_of_row};
ghost use Rattle.fv_same.specs.Parts.{comes_before, contents_of, contents_with, count_before, is_contents, is_from, is_opened_row};
ghost use Rattle.fv_same.specs.Parts.{part_as, part_of, part_with, reader_after};
ghost use Rattle.fv_same.specs.inner.Readers.{reader_form};

use crate::meant::{Around, Role};
use crate::part::{Part, PartPlace};
use crate::role::{bytes_of_row, go_into, is_aside};
use crate::superseded::{NameKey, role_in};
use fv_base::Fault;
use fv_levels::{Levels, Origin, Source};
use fv_survey::{Row, RowKind};
use std::collections::BTreeSet;

const COMPRESSION: u8 = 0x01;

const GUID_DEFINED: u8 = 0x02;

/// A source that is read.
#[derive(Drop)]
pub(crate) struct Reader<'a> {
    // The number of the source.
    pub(crate) number: usize,
    // The number of opened sections around it.
    pub(crate) level: usize,
    pub(crate) bytes: &'a [u8],
    // The number of the next source that may be the contents of a section of this source.
    pub(crate) next: usize,
    // The rows around the next row.
    pub(crate) around: Vec<Around>,
    // The names of the files of the source that are not marked for update.
    pub(crate) updates: BTreeSet<NameKey>,
}

// Returns whether a source comes from the section at this offset of a source.
fn is_from(number: usize, offset: u64, origin: Option<Origin>) -> bool
    ensures { result ≡ is_from number offset origin }
{
    match origin {
        None => false,
        Some(origin) => origin.place.source == number && origin.place.offset == offset,
    }
}

// Returns whether a source, if there is one, is the contents of the section at this offset of a source.
fn is_contents(number: usize, offset: u64, source: &Option<Source<'_>>) -> bool
    ensures { result ≡ is_contents number offset (option_map source_form source.now) }
{
    match source {
        None => false,
        Some(source) => is_from(number, offset, source.origin),
    }
}

// Returns whether a source comes before the contents of the sections of a source.
fn comes_before(number: usize, origin: Option<Origin>) -> bool
    ensures { result ≡ comes_before number origin }
{
    match origin {
        None => true,
        Some(origin) => origin.place.source < number,
    }
}

/// Returns the number of the first source that may be the contents of a section of this source.
pub(crate) fn count_before(levels: &Levels<'_>, number: usize) -> usize
    ensures { result ≡ count_before number levels.now.sources }
{
    for before in 0..levels.count() {
        let Some(source) = levels.source(before) else {
            return before;
        };
        if !comes_before(number, source.origin) {
            return before;
        }
    }
    levels.count()
}

// Returns whether a row is the row of a packed section.
fn is_packed_row(row: &Row) -> bool
    ensures { result ≡ is_packed_row row.now }
{
    matches!(row.kind, RowKind::Section) && (row.code == COMPRESSION || row.code == GUID_DEFINED)
}

impl<'a> Reader<'a> {
    // Returns whether the row is the row of a packed section whose contents are the next source.
    fn is_opened_row(&self, levels: &Levels<'_>, row: &Row) -> bool
        ensures opened { result ≡ is_opened_row levels.now.sources (reader_form self.now) row.now }
        ensures room { IsTrue result → self.now.next + 1 < 2 ^ 64 }
    {
        is_packed_row(row)
            && self.next < levels.count()
            && is_contents(self.number, row.offset, &levels.source(self.next))
    }

    // Returns the part of this kind that the row is, with these bytes, or the bytes outside of the
    // meaning.
    fn part_as(&self, outside: bool, row: &Row, kind: RowKind, bytes: &'a [u8]) -> Part<'a>
        ensures { placed_form result ≡ part_as outside (reader_form self.now) row.now kind bytes.now }
    {
        let place = PartPlace {
            source: self.number,
            offset: row.offset,
            length: row.length,
        };
        Part {
            place,
            level: self.level,
            depth: row.depth,
            kind,
            bytes,
            outside,
        }
    }

    // Returns the part of a row with this role, if there is one.
    fn part_with(&self, role: Role, opened: bool, row: &Row) -> Option<Part<'a>>
        ensures { option_map placed_form result ≡ part_with role opened (reader_form self.now) row.now }
    {
        match role {
            Role::Packed if opened => Some(self.part_as(false, row, RowKind::Packed, &[])),
            Role::Whole | Role::Packed => {
                Some(self.part_as(false, row, row.kind, bytes_of_row(self.bytes, row)))
            }
            Role::Out if is_aside(self.around.as_slice(), self.bytes, row) => {
                Some(self.part_as(true, row, row.kind, bytes_of_row(self.bytes, row)))
            }
            Role::Out | Role::Through(_) => None,
        }
    }

    /// Reads a row. Returns its part, if there is one, and the number of the source that is read after
    /// it, if there is one.
    pub(crate) fn read_row(
        &mut self,
        levels: &Levels<'_>,
        row: &Row,
    ) -> Result<(Option<Part<'a>>, Option<usize>), Fault>
        ensures part { IfOk result (λ x. option_map placed_form x.0 ≡ part_of levels.now.sources (reader_form self.old) row.now) }
        ensures contents { IfOk result (λ x. x.1 ≡ contents_of levels.now.sources (reader_form self.old) row.now) }
        ensures after { IfOk result (λ _. reader_form self.new ≡ reader_after levels.now.sources (reader_form self.old) row.now) }
        ensures err { IfErr result (λ f. f ≡ out_of_memory) }
    {
        let role = role_in(&self.updates, self.around.as_slice(), self.bytes, row);
        let opened = self.is_opened_row(levels, row);
        let part = self.part_with(role, opened, row);
        let contents = match role {
            Role::Packed if opened => Some(self.next),
            _ => None,
        };
        go_into(&mut self.around, row, role)?;
        if opened {
            self.next += 1;
        }
        Ok((part, contents))
    }
}
