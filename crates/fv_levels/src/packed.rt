//! The packed sections of a source.

ghost use Rattle.std.specs.Prelude.{◌≡◌, IfOk, IfErr};
ghost use Rattle.fv_base.specs.Words.{field, out_of_memory};
ghost use Rattle.fv_levels.specs.Sources.{is_packed_row, packed_rows, source_form};

use crate::levels::Source;
use fv_base::Fault;
use fv_survey::{Row, RowKind};
use std::alloc::Global;

const COMPRESSION: u8 = 0x01;

const GUID_DEFINED: u8 = 0x02;

// Returns whether a row is the row of a packed section.
fn is_packed_row(row: &Row) -> bool
    ensures { result ≡ is_packed_row row.now }
{
    matches!(row.kind, RowKind::Section) && (row.code == COMPRESSION || row.code == GUID_DEFINED)
}

/// Returns the rows of the packed sections among the rows of the survey of a source.
pub(crate) fn packed_rows(alloc: Global, source: &Source<'_>) -> Result<Vec<Row>, Fault>
    ensures rows { IfOk result (λ rows. rows.items ≡ packed_rows (source_form source.now)) }
    ensures err { IfErr result (λ f. f ≡ out_of_memory) }
{
    let mut walk = source.walk(alloc)?;
    let mut rows = Vec::new(alloc);
    while let Some(row) = walk.next_row(alloc)? {
        if is_packed_row(&row) {
            rows.push(row)?;
        }
    }
    Ok(rows)
}

/// Returns the bytes of a row.
pub(crate) fn row_bytes<'a>(bytes: &'a [u8], row: &Row) -> &'a [u8]
    ensures { result.now ≡ field row.now.offset row.now.length bytes.now }
{
    let from = (row.offset as usize).min(bytes.len());
    let rest = &bytes[from..];
    let size = (row.length as usize).min(rest.len());
    &rest[..size]
}
