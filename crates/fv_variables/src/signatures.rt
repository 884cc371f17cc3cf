//! The steps of a reading of signature lists, which the variables PK, KEK, db and dbx have as data.
//! (UEFI specification, section 32.4.1.)

ghost use Rattle.std.specs.Prelude.{◌≡◌, ◌≤◌, ◌<◌, ◌+◌, length};
ghost use Rattle.fv_variables.specs.Signatures.{has_list_sizes, list_in, list_step, signature_step, within_list};

use crate::row::{Finding, Part};
use crate::step::{Reading, Step};
use fv_base::field::u32_at;
use fv_base::{Guid, guid_at};

// The length of the header of a list in bytes, without SignatureHeader.
const LIST_HEADER_LEN: usize = 28;

// The least length of a signature in bytes: the length of SignatureOwner.
const LEAST_SIGNATURE: usize = 16;

/// The header of a signature list, EFI_SIGNATURE_LIST. (UEFI specification, section 32.4.1.)
#[derive(Clone, Copy, Debug, PartialEq, Eq)]
pub struct ListHeader {
    /// SignatureType, for example EFI_CERT_X509_GUID or EFI_CERT_SHA256_GUID.
    pub signature_type: Guid,
    /// SignatureListSize: the length of the list in bytes, including its headers.
    pub list_size: u32,
    /// SignatureHeaderSize: the length of SignatureHeader in bytes.
    pub header_size: u32,
    /// SignatureSize: the length of each signature in bytes, including SignatureOwner.
    pub signature_size: u32,
}

// Returns the header of the list at the start of the bytes.
fn list_in(bytes: &[u8]) -> ListHeader
    requires { 28 ≤ length bytes.now }
    ensures { result ≡ list_in bytes.now }
{
    ListHeader {
        signature_type: guid_at(bytes, 0),
        list_size: u32_at(bytes, 16),
        header_size: u32_at(bytes, 20),
        signature_size: u32_at(bytes, 24),
    }
}

// Returns whether a list begins with the bytes: there is a header, and its sizes are possible.
fn has_list_sizes(bytes: &[u8]) -> bool
    ensures { result ≡ has_list_sizes bytes.now }
{
    if bytes.len() < LIST_HEADER_LEN {
        return false;
    }
    let list = list_in(bytes);
    LEAST_SIGNATURE <= list.signature_size as usize
        && LIST_HEADER_LEN + list.header_size as usize <= list.list_size as usize
        && list.list_size as usize <= bytes.len()
}

// Returns how the bytes after a part of a list are read, of which `left` bytes are left.
fn within_list(left: usize, size: usize) -> Reading
    ensures { result ≡ within_list left size }
{
    if left == 0 {
        Reading::Lists
    } else {
        Reading::List(left, size)
    }
}

// Returns the step over the header of a list.
pub(crate) fn list_step(bytes: &[u8]) -> Step
    ensures { result ≡ list_step bytes.now }
{
    if !has_list_sizes(bytes) {
        return Step {
            part: Part::Unread,
            finding: Some(Finding::ListSize),
            length: bytes.len(),
            next: Reading::Lists,
        };
    }
    let list = list_in(bytes);
    let header = LIST_HEADER_LEN + list.header_size as usize;
    Step {
        part: Part::ListHeader(list),
        finding: None,
        length: header,
        next: within_list(
            list.list_size as usize - header,
            list.signature_size as usize,
        ),
    }
}

// Returns the step over a signature of `size` bytes in a list, of which `left` bytes are left.
pub(crate) fn signature_step(bytes: &[u8], left: usize, size: usize) -> Step
    requires least { 16 ≤ size }
    requires inside { left ≤ length bytes.now }
    ensures { result ≡ signature_step left size bytes.now }
{
    if left < size {
        return Step {
            part: Part::Unread,
            finding: Some(Finding::SignatureSize),
            length: left,
            next: Reading::Lists,
        };
    }
    Step {
        part: Part::Signature(guid_at(bytes, 0)),
        finding: None,
        length: size,
        next: within_list(left - size, size),
    }
}
