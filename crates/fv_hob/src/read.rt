//! Reading hand-off lists.

ghost use Rattle.std.specs.Prelude.{◌≡◌, ◌≢◌, ◌≤◌, ℕ, List, drop, length, take, None, Some, IfOk, IfErr};
ghost use Rattle.fv_base.specs.inner.Verdicts.{first_fault};
ghost use Rattle.fv_base.specs.Words.{IsFirstFault};
ghost use Rattle.fv_hob.specs.HobChecks.{BeginsBlock, IsFirstHobFault, BeginsTable, hob_checks, is_hob_len};
ghost use Rattle.fv_hob.specs.HobChecks.{hob_out_of_memory};
ghost use Rattle.fv_hob.specs.Hobs.{HobForm, hob_len_at};
ghost use Rattle.fv_hob.specs.Lists.{IsHobList};

use crate::block_kinds::{has_shape, hob_in};
use crate::fault::{HobFault, HobFaultKind};
use crate::hob::Hob;
use crate::hob_list::HobList;
use crate::hob_type;
use crate::offsets::header;
use fv_base::field::{bytes_from, u16_at};
use std::alloc::Global;

// Returns whether a block may have this length: a multiple of 8, and at least 8, the length of the
// header.
fn is_hob_len(len: usize) -> bool
    ensures { result ≡ is_hob_len len }
{
    len >= header::LEN && len % 8 == 0
}

// Returns the length of the block at the start of `rest`, or the kind of fault of the first check
// that fails. `first` says whether this is the first block of the list.
fn check_block(rest: &[u8], first: bool) -> Result<usize, HobFaultKind>
    ensures ok { IfOk result (λ len. (first_fault (hob_checks first rest.now) ≡ None) × (len ≡ hob_len_at rest.now)) }
    ensures err { IfErr result (λ kind. first_fault (hob_checks first rest.now) ≡ Some kind) }
{
    if rest.is_empty() {
        return Err(HobFaultKind::NoEnd);
    }
    if rest.len() < header::LEN {
        return Err(HobFaultKind::Short);
    }
    let code = u16_at(rest, header::HOB_TYPE);
    let len = usize::from(u16_at(rest, header::HOB_LENGTH));
    if !is_hob_len(len) {
        return Err(HobFaultKind::Length);
    }
    if len > rest.len() {
        return Err(HobFaultKind::Short);
    }
    if first && code != hob_type::HANDOFF {
        return Err(HobFaultKind::First);
    }
    if !has_shape(code, len) {
        return Err(HobFaultKind::Shape);
    }
    Ok(len)
}

// Returns the block at the offset `at`, or the first fault there.
fn block_at(bytes: &[u8], at: usize, first: bool) -> Result<&[u8], HobFault>
    requires { at ≤ length bytes.now }
    ensures found { IfOk result (λ block. BeginsBlock first block.now (drop at bytes.now)) }
    ensures place { IfErr result (λ f. f.offset ≡ at) }
    ensures first { IfErr result (λ f. IsFirstFault (hob_checks first (drop at bytes.now)) f.kind) }
{
    let rest = bytes_from(bytes, at);
    match check_block(rest, first) {
        Ok(len) => Ok(&rest[..len]),
        Err(kind) => {
            let offset = at as u64;
            Err(HobFault { kind, offset })
        }
    }
}

// Returns the blocks, of which the end block is the last, and the number of their bytes.
fn read_blocks(alloc: Global, bytes: &[u8]) -> Result<(Vec<Hob>, usize), HobFault>
    ensures found { IfOk result (λ p. (p.1 ≤ length bytes.now) × IsHobList p.0.items (take p.1 bytes.now)) }
    ensures first { IfErr result (λ f. f ≢ hob_out_of_memory → IsFirstHobFault bytes.now f) }
    ensures memory { IfErr result (λ f. f ≡ hob_out_of_memory → BeginsTable bytes.now) }
{
    let mut hobs = Vec::new(alloc);
    let mut at = 0;
    loop {
        let block = block_at(bytes, at, hobs.is_empty())?;
        let hob = hob_in(alloc, block)?;
        at += block.len();
        let ends = hob.code() == hob_type::END;
        hobs.push(hob)?;
        if ends {
            return Ok((hobs, at));
        }
    }
}

/// Reads the hand-off block list at the start of the bytes, up to its first end block
/// (EFI_HOB_TYPE_END_OF_HOB_LIST). Returns the list and its length in bytes, including the end
/// block. The bytes after the end block are not read. The input may be any bytes. (PI
/// specification, volume 3, section 5.)
///
/// # Errors
///
/// The first block with a fault determines the error. Its checks come in this order: NoEnd if no
/// bytes are left, Short if fewer than 8 are left, Length (HobLength), Short if fewer than
/// HobLength are left, First (HobType of the first block), Shape (HobLength for this HobType). The
/// offset, in bytes from the first byte of `bytes`, points to the block's header, or to the end of
/// the bytes for NoEnd. OutOfMemory is at offset 0.
pub fn read_hobs(alloc: Global, bytes: &[u8]) -> Result<(HobList, u64), HobFault>
    // The bytes begin with the returned list, and the returned number is its length in bytes.
    ensures found { IfOk result (λ p. (p.1 ≤ length bytes.now) × IsHobList p.0 (take p.1 bytes.now)) }

    // They begin with no other list.
    ensures only { IfOk result (λ p. (all : List HobForm) (n : ℕ) → n ≤ length bytes.now
        → IsHobList all (take n bytes.now) → (all ≡ p.0) × (n ≡ p.1)) }

    // If an error other than OutOfMemory is returned, the bytes do not begin with a list.
    ensures none { IfErr result
        (λ f. f ≢ hob_out_of_memory → (all : List HobForm) (n : ℕ) → IsHobList all (take n bytes.now) → ⊥) }

    // An error other than OutOfMemory comes from the first block that fails a check, and names the
    // first check that this block fails.
    ensures first { IfErr result (λ f. f ≢ hob_out_of_memory → IsFirstHobFault bytes.now f) }

    // Memory runs out only if the bytes begin with a hand-off information table.
    ensures memory { IfErr result (λ f. f ≡ hob_out_of_memory → BeginsTable bytes.now) }
{
    let (hobs, at) = read_blocks(alloc, bytes)?;
    Ok((HobList::from_vec(hobs), at as u64))
}
