//! The portions of an image that are still to be surveyed.

ghost use Rattle.std.specs.Prelude.{◌≡◌, ◌+◌, ◌-◌, ◌≤◌, ◌<◌, ◌^◌, length, IfOk, IfErr};
ghost use Rattle.fv_base.specs.Words.{out_of_memory};
ghost use Rattle.fv_survey.specs.Portions.{ahead, cut, inside, no_name, opened, portion_form, row_of, searched, stack};
ghost use Rattle.fv_survey.specs.Reading.{file_opening, plain_opening, section_opening, volume_opening};

use crate::findings::Findings;
use crate::pieces::Layout;
use crate::row::{Row, RowKind};
use fv_base::limits::DEPTH_LIMIT;
use fv_base::{Fault, Guid};

// What some bytes are read as.
#[derive(Clone, Copy)]
pub(crate) enum Reading {
    // A leaf row of this kind, with these findings.
    Leaf(RowKind, Findings),
    // Bytes without a structure: leaf rows of this kind, and the volumes that are found among them.
    Run(RowKind),
    // Bytes that should be a part of a volume, and cannot be read as one for these reasons.
    Lost(Findings),
    // A volume.
    Volume,
    // The cells of a volume.
    Cells(Layout),
    // Sections. The findings are about the place of the first section.
    Sections(Findings),
}

// How deep a portion lies.
#[derive(Clone, Copy)]
pub(crate) struct Nesting {
    // The number of rows around it.
    pub(crate) depth: u16,
    // How many groups and opened volumes may still nest in it.
    pub(crate) levels: u8,
    // How often volumes that are found by their signatures may still nest in it.
    pub(crate) found: u8,
}

impl Nesting {
    // Returns the nesting of the rows in a row.
    pub(crate) fn inside(self) -> Nesting
        requires { self.depth < 400 }
        ensures { result ≡ inside self }
    {
        Nesting {
            depth: self.depth + 1,
            levels: self.levels,
            found: self.found,
        }
    }

    // Returns the nesting of the content of a group or an opened volume.
    pub(crate) fn opened(self) -> Nesting
        requires { 0 < self.levels }
        ensures { result ≡ opened self }
    {
        Nesting {
            depth: self.depth,
            levels: self.levels - 1,
            found: self.found,
        }
    }

    // Returns the nesting of a volume that was found by its signature.
    pub(crate) fn searched(self) -> Nesting
        requires { 0 < self.found }
        ensures { result ≡ searched self }
    {
        Nesting {
            depth: self.depth,
            levels: DEPTH_LIMIT,
            found: self.found - 1,
        }
    }
}

// What a row says, apart from its place.
#[derive(Clone, Copy)]
pub(crate) struct Opening {
    pub(crate) kind: RowKind,
    pub(crate) code: u8,
    pub(crate) found: bool,
    pub(crate) findings: Findings,
    pub(crate) name: Guid,
}

// Returns the name of a row that has none.
pub(crate) fn no_name() -> Guid
    ensures { result ≡ no_name }
{
    Guid::from_bytes([0; 16])
}

impl Opening {
    // Returns what a leaf row, or a row of lost bytes, says.
    pub(crate) fn plain(kind: RowKind, findings: Findings) -> Opening
        ensures { result ≡ plain_opening kind findings }
    {
        Opening {
            kind,
            code: 0,
            found: false,
            findings,
            name: no_name(),
        }
    }

    // Returns what the row of a section says.
    pub(crate) fn section(code: u8, findings: Findings) -> Opening
        ensures { result ≡ section_opening code findings }
    {
        Opening {
            kind: RowKind::Section,
            code,
            found: false,
            findings,
            name: no_name(),
        }
    }

    // Returns what the row of a file, a pad or a deleted file says.
    pub(crate) fn file(code: u8, findings: Findings, name: Guid) -> Opening
        ensures { result ≡ file_opening code findings name }
    {
        Opening {
            kind: RowKind::File,
            code,
            found: false,
            findings,
            name,
        }
    }

    // Returns what the row of a volume says, which was found by its signature or is the body of a
    // section.
    pub(crate) fn volume(found: bool, findings: Findings, name: Guid) -> Opening
        ensures { result ≡ volume_opening found findings name }
    {
        Opening {
            kind: RowKind::Volume,
            code: 0,
            found,
            findings,
            name,
        }
    }
}

// Bytes of an image that are still to be surveyed.
#[derive(Clone, Copy)]
pub(crate) struct Portion<'a> {
    pub(crate) reading: Reading,
    pub(crate) nest: Nesting,
    // The offset in bytes from the start of the image.
    pub(crate) at: u64,
    pub(crate) bytes: &'a [u8],
}

impl<'a> Portion<'a> {
    // Returns the bytes from `from` to `to` as a portion of their own.
    pub(crate) fn cut(self, reading: Reading, nest: Nesting, from: usize, to: usize) -> Portion<'a>
        requires order { from ≤ to }
        requires within { to ≤ length self.bytes.now }
        requires room { self.at + length self.bytes.now < 2 ^ 63 }
        ensures { portion_form result ≡ cut reading nest from to (portion_form self.entry) }
    {
        Portion {
            reading,
            nest,
            at: self.at + from as u64,
            bytes: &self.bytes[from..to],
        }
    }

    // Returns the row that begins where the portion begins, with `size` bytes.
    pub(crate) fn row(self, opening: Opening, size: usize) -> Row
        ensures { result ≡ row_of opening size (portion_form self.entry) }
    {
        Row {
            kind: opening.kind,
            depth: self.nest.depth,
            code: opening.code,
            found: opening.found,
            findings: opening.findings,
            offset: self.at,
            length: size as u64,
            name: opening.name,
        }
    }
}

// Puts a portion on the stack, unless it has no bytes.
pub(crate) fn put<'a>(portions: &mut Vec<Portion<'a>>, portion: Portion<'a>) -> Result<(), Fault>
    ensures put { IfOk result (λ _. stack portions.new.items ≡ ahead (portion_form portion.entry) (stack portions.old.items)) }
    ensures err { IfErr result (λ f. f ≡ out_of_memory) }
{
    if !portion.bytes.is_empty() {
        portions.push(portion)?;
    }
    Ok(())
}
