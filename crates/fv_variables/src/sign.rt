//! The signatures of stores and of working blocks.

ghost use Rattle.std.specs.Prelude.{◌≡◌, ◌≤◌, length};
ghost use Rattle.fv_variables.specs.Signs.{begins_sign, first_sign, sign_by, sign_of};

use crate::format::StoreFormat;
use fv_base::field::{bytes_from, field};

// The number of bytes in which a signature is looked for: the length of the header of a working
// block, which is longer than the header of a store.
const SIGNED_LEN: usize = 32;

// What begins with some bytes.
#[derive(Clone, Copy, Debug, PartialEq, Eq)]
pub(crate) enum Sign {
    // A store of this format.
    Store(StoreFormat),
    // A working block.
    Working,
    // Neither.
    Nothing,
}

// gEfiVariableGuid.
const PLAIN: [u8; 16] = [
    0x16, 0x36, 0xcf, 0xdd, 0x75, 0x32, 0x64, 0x41, 0x98, 0xb6, 0xfe, 0x85, 0x70, 0x7f, 0xfe, 0x7d,
];

// gEfiAuthenticatedVariableGuid.
const AUTHENTICATED: [u8; 16] = [
    0x78, 0x2c, 0xf3, 0xaa, 0x7b, 0x94, 0x9a, 0x43, 0xa1, 0x80, 0x2e, 0x14, 0x4e, 0xc3, 0x77, 0x92,
];

// gEdkiiWorkingBlockSignatureGuid.
const WORKING: [u8; 16] = [
    0x2b, 0x29, 0x58, 0x9e, 0x68, 0x7c, 0x7d, 0x49, 0xa0, 0xce, 0x65, 0x00, 0xfd, 0x9f, 0x1b, 0x95,
];

// Returns what this signature begins.
fn sign_of(signature: &[u8]) -> Sign
    ensures { result ≡ sign_of signature.now }
{
    if signature == &PLAIN[..] {
        Sign::Store(StoreFormat::Plain)
    } else if signature == &AUTHENTICATED[..] {
        Sign::Store(StoreFormat::Authenticated)
    } else if signature == &WORKING[..] {
        Sign::Working
    } else {
        Sign::Nothing
    }
}

// Returns what begins with the bytes.
pub(crate) fn sign_at(bytes: &[u8]) -> Sign
    ensures { result ≡ sign_by bytes.now }
{
    if bytes.len() < SIGNED_LEN {
        return Sign::Nothing;
    }
    sign_of(field(bytes, 0, 16))
}

// Returns whether a store or a working block begins with the bytes.
fn begins_sign(bytes: &[u8]) -> bool
    ensures { result ≡ begins_sign bytes.now }
{
    !matches!(sign_at(bytes), Sign::Nothing)
}

// Returns how many bytes lie before the first store or working block, or the number of all bytes.
pub(crate) fn first_sign(bytes: &[u8]) -> usize
    ensures is { result ≡ first_sign bytes.now }
    ensures within { result ≤ length bytes.now }
{
    let mut at = 0;
    while at < bytes.len() && !begins_sign(bytes_from(bytes, at)) {
        at += 1;
    }
    at
}
