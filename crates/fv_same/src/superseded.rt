//! Superseded files.

ghost use Rattle.std.specs.Prelude.{◌≡◌, IfOk, IfErr};
ghost use Rattle.fv_base.specs.Words.{out_of_memory};
ghost use Rattle.fv_levels.specs.Words.{source_form};
ghost use Rattle.fv_same.specs.Superseded.{is_superseded, named_by, named_row, role_in, updates_of, with_update};

use crate::meant::{Around, Role};
use crate::role::{around_at, bytes_of_row, file_counts, go_into, role_of, state_by};
use fv_base::Fault;
use fv_base::field::u64_at;
use fv_file::FileState;
use fv_levels::Source;
use fv_survey::{Row, RowKind};
use std::alloc::Global;
use std::collections::BTreeSet;

/// A name in a volume: the offset of the volume, and the two halves of the name.
pub(crate) type NameKey = (u64, (u64, u64));

// Returns the name of a file in a volume, and whether the file is marked for update, if the file counts.
fn named_by(parent: Option<Around>, code: u8, bytes: &[u8]) -> Option<(NameKey, bool)>
    ensures { result ≡ named_by parent code bytes.now }
{
    match parent {
        Some(Around::Volume(start, polarity)) if file_counts(polarity, code, bytes) => {
            let is_marked = matches!(state_by(polarity, bytes), Some(FileState::Marked));
            Some(((start, (u64_at(bytes, 0), u64_at(bytes, 8))), is_marked))
        }
        _ => None,
    }
}

// Returns the same for a row of these bytes, after the rows that `around` is about.
fn named_row(around: &[Around], bytes: &[u8], row: &Row) -> Option<(NameKey, bool)>
    ensures { result ≡ named_row around.now bytes.now row.now }
{
    match row.kind {
        RowKind::File => named_by(
            around_at(around, row.depth),
            row.code,
            bytes_of_row(bytes, row),
        ),
        _ => None,
    }
}

// Adds the name of a file that is not marked.
fn add_update(names: &mut BTreeSet<NameKey>, named: Option<(NameKey, bool)>) -> Result<(), Fault>
    ensures added { IfOk result (λ _. names.new.keys ≡ with_update names.old.keys named) }
    ensures err { IfErr result (λ f. f ≡ out_of_memory) }
{
    if let Some((name, false)) = named {
        names.insert(name)?;
    }
    Ok(())
}

/// Returns the names of the files of a source that are not marked for update.
pub(crate) fn updates_of(alloc: Global, source: &Source<'_>) -> Result<BTreeSet<NameKey>, Fault>
    ensures updates { IfOk result (λ names. names.keys ≡ updates_of (source_form source.now)) }
    ensures err { IfErr result (λ f. f ≡ out_of_memory) }
{
    let mut walk = source.walk(alloc)?;
    let mut around = Vec::new(alloc);
    let mut names = BTreeSet::new(alloc);
    while let Some(row) = walk.next_row(alloc)? {
        let named = named_row(around.as_slice(), source.bytes, &row);
        add_update(&mut names, named)?;
        let role = role_of(around.as_slice(), source.bytes, &row);
        go_into(&mut around, &row, role)?;
    }
    Ok(names)
}

// Returns whether a file is marked for update, and its update has one of these names.
fn is_superseded(names: &BTreeSet<NameKey>, named: Option<(NameKey, bool)>) -> bool
    ensures { result ≡ is_superseded names.now.keys named }
{
    match named {
        Some((name, true)) => names.contains(&name),
        _ => false,
    }
}

/// Returns the role of a row of these bytes, after the rows that `around` is about.
pub(crate) fn role_in(names: &BTreeSet<NameKey>, around: &[Around], bytes: &[u8], row: &Row) -> Role
    ensures { result ≡ role_in names.now.keys around.now bytes.now row.now }
{
    if is_superseded(names, named_row(around, bytes, row)) {
        return Role::Out;
    }
    role_of(around, bytes, row)
}
