//! The caller's buffer.

ghost use Rattle.std.specs.Prelude.{◌≡◌, ◌<◌, ◌≤◌, ◌++◌, length, drop, map, IfOk, IfErr};
ghost use Rattle.fv_base.specs.Words.{fault_number};
ghost use Rattle.fv_c.specs.Reports.{no_fault, reported_fault};
ghost use Rattle.fv_c.specs.inner.Rows.{IsWritten};

use crate::reports::{BUFFER_TOO_SMALL, FvFault, NO_FAULT, set_fault};
use crate::translate::Translate;
use fv_base::Fault;

// Writes the elements at the start of the buffer. The rest of the buffer is unchanged.
pub(crate) fn put_first<T: Copy>(rows: &[T], buffer: &mut [T])
    requires { length rows.now ≤ length buffer.old }
    ensures { buffer.new ≡ rows.now ++ drop (length rows.now) buffer.old }
{
    let (front, _) = buffer.split_at_mut(rows.len());
    front.copy_from_slice(rows);
}

// Writes the elements at the start of the buffer and returns 0. If the buffer has fewer elements,
// returns 256 and leaves it unchanged.
pub(crate) fn put_all<T: Copy>(rows: &[T], buffer: &mut [T]) -> u32
    ensures { IsWritten rows.now buffer.old buffer.new result }
{
    if buffer.len() < rows.len() {
        return BUFFER_TOO_SMALL;
    }
    put_first(rows, buffer);
    0
}

// Does the same as `put_all`, and sets `count` to the number of elements in both cases.
pub(crate) fn put_rows<T: Copy>(rows: &[T], buffer: &mut [T], count: &mut u64) -> u32
    ensures written { IsWritten rows.now buffer.old buffer.new result }
    ensures count { count.new ≡ length rows.now }
{
    *count = rows.len() as u64;
    put_all(rows, buffer)
}

// Does the same as `put_rows`, and reports that there is no fault.
pub(crate) fn put_found<T: Copy>(
    rows: &[T],
    buffer: &mut [T],
    count: &mut u64,
    fault: &mut FvFault,
) -> u32
    ensures written { IsWritten rows.now buffer.old buffer.new result }
    ensures count { count.new ≡ length rows.now }
    ensures fault { fault.new ≡ no_fault }
{
    *fault = NO_FAULT;
    put_rows(rows, buffer, count)
}

// Translates the values, and writes the results at the start of the buffer. The rest of the buffer
// is unchanged.
fn put_each<T: Translate>(values: &[T], buffer: &mut [T::Target])
    requires { length values.now ≤ length buffer.old }
    ensures { buffer.new ≡ map T.translated values.now ++ drop (length values.now) buffer.old }
{
    for i in 0..values.len() {
        buffer[i] = values[i].translate();
    }
}

// Translates the values, and does the same as `put_found` for the results, without making a list of
// them.
pub(crate) fn put_translated<T: Translate>(
    values: &[T],
    buffer: &mut [T::Target],
    count: &mut u64,
    fault: &mut FvFault,
) -> u32
    ensures written { IsWritten (map T.translated values.now) buffer.old buffer.new result
        × (count.new ≡ length values.now) }
    ensures fault { fault.new ≡ no_fault }
{
    *fault = NO_FAULT;
    *count = values.len() as u64;
    if buffer.len() < values.len() {
        return BUFFER_TOO_SMALL;
    }
    put_each(values, buffer);
    0
}

// Does the same as `put_found` if elements were found, and otherwise reports the fault.
pub(crate) fn put_result<T: Copy>(
    found: Result<Vec<T>, Fault>,
    buffer: &mut [T],
    count: &mut u64,
    fault: &mut FvFault,
) -> u32
    ensures ok { IfOk found (λ rows. IsWritten rows.items buffer.old buffer.new result
        × (count.new ≡ length rows.items) × (fault.new ≡ no_fault)) }
    ensures err { IfErr found (λ f. (result ≡ fault_number f.kind) × (0 < result) × (result < 256)
        × (fault.new ≡ reported_fault f) × (buffer.new ≡ buffer.old) × (count.new ≡ count.old)) }
{
    match found {
        Ok(rows) => put_found(rows.as_slice(), buffer, count, fault),
        Err(f) => set_fault(f, fault),
    }
}
