//! The steps of a reading: what the first row is, and how the bytes after it are read.

ghost use Rattle.std.specs.Prelude.{◌≡◌, ◌≤◌, ◌<◌, ◌+◌, length};
ghost use Rattle.fv_variables.specs.Format.{has_start_id, header_len, variable_in};
ghost use Rattle.fv_variables.specs.Reading.{IsRead, chain_step, filler_after, filler_step, gap_step, header_finding, header_step};
ghost use Rattle.fv_variables.specs.Reading.{outside_step, plain_step, step_at, store_end, store_step, unread_step, variable_step, within, working_step};

use crate::format::{STORE_HEADER_LEN, StoreFormat, header_in, variable_in};
use crate::row::{Finding, Part};
use crate::sign::{Sign, first_sign, sign_at};
use crate::signatures::{list_step, signature_step};
use fv_base::all_are;
use fv_base::field::{u16_at, u32_at, u64_at};

// An erased byte.
const ERASED: u8 = 0xff;

// StartId of each variable: VARIABLE_DATA.
const START_ID: u16 = 0x55aa;

// VARIABLE_STORE_FORMATTED.
const FORMATTED: u8 = 0x5a;

// VARIABLE_STORE_HEALTHY.
const HEALTHY: u8 = 0xfe;

// The length of the header of a working block in bytes.
const WORKING_HEADER_LEN: usize = 32;

// What bytes are read as.
#[derive(Clone, Copy)]
pub(crate) enum Reading {
    // Bytes outside of stores.
    Outside,
    // The rest of a store: the format of its variables, the number of bytes that are left of it, and
    // the number of filler bytes that come first.
    Store(StoreFormat, usize, usize),
    // Signature lists.
    Lists,
    // The rest of a signature list: the number of bytes that are left of it, and SignatureSize.
    List(usize, usize),
}

// A step of a reading: what the first row says, its length, and how the bytes after it are read.
#[derive(Clone, Copy)]
pub(crate) struct Step {
    pub(crate) part: Part,
    pub(crate) finding: Option<Finding>,
    pub(crate) length: usize,
    pub(crate) next: Reading,
}

// Returns how the bytes are read that follow a part of a store, of which `left` bytes are left.
fn within(format: StoreFormat, left: usize, filler: usize) -> Reading
    ensures { result ≡ within format left filler }
{
    if left == 0 {
        Reading::Outside
    } else {
        Reading::Store(format, left, filler)
    }
}

// Returns the step over bytes that should be erased. If they are not, they are unread.
fn plain_step(bytes: &[u8], finding: Finding) -> Step
    ensures { result ≡ plain_step finding bytes.now }
{
    if !all_are(bytes, ERASED) {
        return unread_step(bytes, finding);
    }
    Step {
        part: Part::Free,
        finding: None,
        length: bytes.len(),
        next: Reading::Outside,
    }
}

// Returns the step over bytes that are not read.
fn unread_step(bytes: &[u8], finding: Finding) -> Step
    ensures { result ≡ unread_step finding bytes.now }
{
    Step {
        part: Part::Unread,
        finding: Some(finding),
        length: bytes.len(),
        next: Reading::Outside,
    }
}

// Returns the length of the store at the start of the bytes: Size, if it is possible.
fn store_end(bytes: &[u8]) -> usize
    requires { 32 ≤ length bytes.now }
    ensures is { result ≡ store_end bytes.now }
    ensures lies { (28 ≤ result) × (result ≤ length bytes.now) }
{
    let size = u32_at(bytes, 16) as usize;
    if STORE_HEADER_LEN <= size && size <= bytes.len() {
        size
    } else {
        bytes.len()
    }
}

// Returns what is wrong with the header of the store at the start of the bytes.
fn header_finding(bytes: &[u8]) -> Option<Finding>
    requires { 32 ≤ length bytes.now }
    ensures { result ≡ header_finding bytes.now }
{
    let size = u32_at(bytes, 16) as usize;
    if size < STORE_HEADER_LEN || bytes.len() < size {
        Some(Finding::StoreSize)
    } else if bytes[20] != FORMATTED || bytes[21] != HEALTHY {
        Some(Finding::StoreState)
    } else {
        None
    }
}

// Returns the step over the header of a store.
fn header_step(bytes: &[u8], format: StoreFormat) -> Step
    requires { 32 ≤ length bytes.now }
    ensures { result ≡ header_step format bytes.now }
{
    Step {
        part: Part::StoreHeader(header_in(bytes, format)),
        finding: header_finding(bytes),
        length: STORE_HEADER_LEN,
        next: within(format, store_end(bytes) - STORE_HEADER_LEN, 0),
    }
}

// Returns the step over a working block.
fn working_step(bytes: &[u8]) -> Step
    requires { 32 ≤ length bytes.now }
    ensures { result ≡ working_step bytes.now }
{
    let queue = u64_at(bytes, 24);
    let (finding, length) = if queue <= (bytes.len() - WORKING_HEADER_LEN) as u64 {
        (None, WORKING_HEADER_LEN + queue as usize)
    } else {
        (Some(Finding::QueueSize), bytes.len())
    };
    Step {
        part: Part::WorkingBlock,
        finding,
        length,
        next: Reading::Outside,
    }
}

// Returns the step over the bytes before the first store or working block.
fn gap_step(bytes: &[u8]) -> Step
    ensures { result ≡ gap_step bytes.now }
{
    plain_step(&bytes[..first_sign(bytes)], Finding::NoStore)
}

// Returns the step over bytes outside of stores.
fn outside_step(bytes: &[u8]) -> Step
    ensures { result ≡ outside_step bytes.now }
{
    match sign_at(bytes) {
        Sign::Store(format) => header_step(bytes, format),
        Sign::Working => working_step(bytes),
        Sign::Nothing => gap_step(bytes),
    }
}

// Returns the number of filler bytes after a variable of `size` bytes, if `left` bytes are left of
// its store.
fn filler_after(size: usize, left: usize) -> usize
    ensures { result ≡ filler_after size left }
{
    ((4 - size % 4) % 4).min(left)
}

// Returns whether the bytes begin with StartId.
fn has_start_id(bytes: &[u8]) -> bool
    ensures { result ≡ has_start_id bytes.now }
{
    bytes.len() >= 2 && u16_at(bytes, 0) == START_ID
}

// Returns the step over a variable, whose header is within the rest of its store.
fn variable_step(content: &[u8], format: StoreFormat) -> Step
    requires { header_len format ≤ length content.now }
    ensures { result ≡ variable_step format (variable_in format content.now) content.now }
{
    let variable = variable_in(content, format);
    let header = format.header_len();
    let (part, size) = if variable.is_unfinished() {
        (Part::Unfinished, header)
    } else {
        let size = header + variable.name_size as usize + variable.data_size as usize;
        (Part::Variable(variable), size)
    };
    if content.len() < size {
        return unread_step(content, Finding::VariableSize);
    }
    let left = content.len() - size;
    Step {
        part,
        finding: None,
        length: size,
        next: within(format, left, filler_after(size, left)),
    }
}

// Returns the step over the rest of a store, where a variable may begin.
fn chain_step(content: &[u8], format: StoreFormat) -> Step
    ensures { result ≡ chain_step format content.now }
{
    if !has_start_id(content) {
        plain_step(content, Finding::StartId)
    } else if content.len() < format.header_len() {
        unread_step(content, Finding::VariableSize)
    } else {
        variable_step(content, format)
    }
}

// Returns the step over the filler after a variable.
fn filler_step(format: StoreFormat, left: usize, filler: usize) -> Step
    requires { filler ≤ left }
    ensures { result ≡ filler_step format left filler }
{
    Step {
        part: Part::Filler,
        finding: None,
        length: filler,
        next: within(format, left - filler, 0),
    }
}

// Returns the first step over the bytes.
pub(crate) fn step_at(bytes: &[u8], reading: Reading) -> Step
    requires { IsRead reading (length bytes.now) }
    ensures { result ≡ step_at reading bytes.now }
{
    match reading {
        Reading::Outside => outside_step(bytes),
        Reading::Lists => list_step(bytes),
        Reading::List(left, size) => signature_step(bytes, left, size),
        Reading::Store(format, left, filler) => {
            if filler > 0 {
                filler_step(format, left, filler)
            } else {
                chain_step(&bytes[..left], format)
            }
        }
    }
}
