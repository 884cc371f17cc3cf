//! The walk over some bytes that lends their rows one after another.

ghost use Rattle.std.specs.Prelude.{◌≡◌, ◌+◌, ◌≤◌, ◌<◌, ◌^◌, [], ◌∷◌, ◌++◌, length, List, IfSome, IfNone};
ghost use Rattle.fv_variables.specs.Honesty.{IsHonest, Nowhere};
ghost use Rattle.fv_variables.specs.Reading.{rows_of, signature_rows};
ghost use Rattle.fv_variables.specs.Rows.{Follow, variables_of};
ghost use Rattle.fv_variables.specs.SignatureLists.{AreSignatures, all_signatures, JoinsLists, SignatureForm};
ghost use Rattle.fv_variables.specs.Stores.{AreRead, BeginsStore, IsStore, fields_of};
ghost use Rattle.fv_variables.specs.declared.format.StoreFormat.{StoreFormat};
ghost use Rattle.fv_variables.specs.declared.format.Variable.{Variable};

use crate::row::Row;
use crate::step::{Reading, step_at};
use fv_base::field::bytes_from;
use std::marker::Model;

/// A walk over the rows of some bytes, which are made one after another and not kept. Contracts see
/// the list of the rows that are left.
#[derive(Drop)]
pub struct RowWalk<'a> {
    // What the rest is read as, its offset in bytes from the first byte, and the rest itself.
    reading: Reading,
    at: u64,
    rest: &'a [u8],
}

impl<'a> Model for RowWalk<'a> {
    ghost use Rattle.std.specs.Prelude.{List, length, ◌+◌, ◌<◌, ◌^◌};
    ghost use Rattle.fv_variables.specs.declared.row.Row.{Row};
    ghost use Rattle.fv_variables.specs.Reading.{IsRead, rows_left};

    ghost Value = { List Row };

    ghost view = { λ w. rows_left w.reading w.at w.rest.now };

    ghost invariant = { λ w. IsRead w.reading (length w.rest.now) × (w.at + length w.rest.now < 2 ^ 63) };
}

impl<'a> RowWalk<'a> {
    /// Starts a walk over the rows of some bytes, such as the body of a volume whose file system is
    /// the variable store (EFI_SYSTEM_NV_DATA_FV_GUID). Any bytes can be read, and the time of the
    /// whole walk is linear in their number. (VariableFormat.h of EDK II.)
    pub fn of_stores(bytes: &'a [u8]) -> RowWalk<'a>
        // The rows are the rows of the bytes, by the rules of the reading.
        ensures rows { result ≡ rows_of bytes.now }

        // Every byte is in exactly one row, and the rows are in the order of their offsets.
        ensures tiling { Follow 0 (length bytes.now) result }

        // Each row says what is so in the bytes at its offset, and bytes are unread only for the
        // reason that their finding gives.
        ensures honest { IsHonest bytes.now Nowhere result }

        // If the bytes begin with the header of a store, and variables follow it one after another,
        // the variables among the rows begin with these variables, whatever follows them.
        ensures chain { (format : StoreFormat) (vs : List Variable) → BeginsStore format vs bytes.now
            → (more : List Variable) × (fields_of result ≡ vs ++ more) }

        // If the bytes are a store as EDK II writes it, the variables among the rows are exactly the
        // variables of the store, in their order, and no row has a finding.
        ensures store { (format : StoreFormat) (vs : List Variable) → IsStore format vs bytes.now → AreRead result vs }
    {
        RowWalk {
            reading: Reading::Outside,
            at: 0,
            rest: bytes,
        }
    }

    /// Starts a walk over the rows of signature lists, such as the data of the variables PK, KEK, db
    /// and dbx: the headers of the lists, and the signatures. Any bytes can be read, and the time of
    /// the whole walk is linear in their number. (UEFI specification, section 32.4.1.)
    pub fn of_signatures(bytes: &'a [u8]) -> RowWalk<'a>
        // The rows are the rows of the bytes, by the rules of the reading.
        ensures rows { result ≡ signature_rows bytes.now }

        // Every byte is in exactly one row, and the rows are in the order of their offsets.
        ensures tiling { Follow 0 (length bytes.now) result }

        // Each row says what is so in the bytes at its offset, and bytes are unread only for the
        // reason that their finding gives.
        ensures honest { IsHonest bytes.now Nowhere result }

        // If the bytes are signature lists as they are written, the signatures among the rows are
        // exactly the signatures of the lists, in their order, and no row has a finding.
        ensures lists { (lists : List (List SignatureForm)) → JoinsLists lists bytes.now → AreSignatures bytes.now result (all_signatures lists) }
    {
        RowWalk {
            reading: Reading::Lists,
            at: 0,
            rest: bytes,
        }
    }

    /// Returns the next row, or None after the last one.
    pub fn next_row(&mut self) -> Option<Row>
        // The returned row is the first of the rows that are left, and the others are still left.
        ensures some { IfSome result (λ r. self.old ≡ r ∷ self.new) }

        // None is returned only if no rows are left.
        ensures none { IfNone result ((self.old ≡ []) × (self.new ≡ [])) }
    {
        if self.rest.is_empty() {
            return None;
        }
        let step = step_at(self.rest, self.reading);
        let row = Row {
            part: step.part,
            finding: step.finding,
            offset: self.at,
            length: step.length as u64,
        };
        self.reading = step.next;
        self.at += step.length as u64;
        self.rest = bytes_from(self.rest, step.length);
        Some(row)
    }

    /// Returns the row of the next variable, or None after the last variable. No variable is passed
    /// over.
    pub fn next_variable(&mut self) -> Option<Row>
        // The returned row is the first of the variables that are left, and the others are still
        // left.
        ensures some { IfSome result (λ r. variables_of self.old ≡ r ∷ variables_of self.new) }

        // None is returned only if no variables are left.
        ensures none { IfNone result ((variables_of self.old ≡ []) × (self.new ≡ [])) }
    {
        while let Some(row) = self.next_row() {
            if row.is_variable() {
                return Some(row);
            }
        }
        None
    }
}
