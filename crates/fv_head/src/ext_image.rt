//! The bytes of an extended header, with a given used size.

ghost use Rattle.std.specs.Prelude.{◌≡◌, ◌+◌, ◌≤◌, length, IfOk, IfErr};
ghost use Rattle.fv_base.specs.Words.{out_of_memory, ext_limit};
ghost use Rattle.fv_head.specs.Ext.{IsExt};
ghost use Rattle.fv_head.specs.HeadReads.{IsReadExt};
ghost use Rattle.fv_head.specs.ExtImage.{payload_with, entry_bytes, entries_bytes, entries_len, ext_len, ext_spelled};

use crate::ext::{ExtEntry, ExtHeader, is_used_size};
use crate::head_image::{put_u16, put_u32};
use fv_base::{ByteList, Fault, ListSink, Sink};
use std::alloc::Global;

// Returns the length of the entries in bytes, including their headers.
fn len_of_entries(entries: &[ExtEntry<'_>]) -> u32
    requires { entries_len entries.now ≤ ext_limit }
    ensures { result ≡ entries_len entries.now }
{
    let mut len = 0;
    for entry in entries {
        len += 4 + entry.payload().len() as u32;
    }
    len
}

/// Returns the length of an extended header in bytes, `ExtHeaderSize`: 20, plus the lengths of its
/// entries and of its tail. Takes no memory. (PI specification, volume 3, section 3.2.1.2.)
pub fn len_of_ext(ext: &ExtHeader<'_>) -> u32
    ensures len { result ≡ ext_len ext.now }
    ensures most { ext_len ext.now ≤ ext_limit }

    // There are bytes that form an extended header with the meaning of `ext`.
    ensures read { IsReadExt ext.now }
{
    let _name = ext.name();
    20 + len_of_entries(ext.entries()) + ext.tail().len() as u32
}

// Puts the payload of an entry into a sink. If the entry holds the used size, the value is `used`.
fn put_payload<S: Sink>(out: &mut S, entry: &ExtEntry<'_>, used: u32)
    ensures { S.takes out.old (payload_with used entry.now) out.new }
{
    let payload = entry.payload();
    if is_used_size(entry.kind(), payload) {
        put_u32(out, used);
    } else {
        out.put(payload);
    }
}

// Puts an entry into a sink. If it holds the used size, the value is `used`.
fn put_entry<S: Sink>(out: &mut S, entry: &ExtEntry<'_>, used: u32)
    requires { 4 + length entry.now.1 ≤ ext_limit }
    ensures { S.takes out.old (entry_bytes used entry.now) out.new }
{
    put_u16(out, 4 + entry.payload().len() as u16);
    put_u16(out, entry.kind());
    put_payload(out, entry, used);
}

// Puts the entries into a sink, one after the other. The value of each used size is `used`.
fn put_entries<S: Sink>(out: &mut S, entries: &[ExtEntry<'_>], used: u32)
    requires { entries_len entries.now ≤ ext_limit }
    ensures { S.takes out.old (entries_bytes used entries.now) out.new }
{
    for entry in entries {
        put_entry(out, entry, used);
    }
}

/// Puts an extended header into the sink `out`: `FvName`, `ExtHeaderSize`, the entries and the
/// tail. The value of each used size (the 4-byte payload of an entry of type
/// `EFI_FV_EXT_TYPE_USED_SIZE_TYPE`) is `used`, in bytes. Takes no memory. (PI specification,
/// volume 3, section 3.2.1.2.)
pub fn put_ext<S: Sink>(out: &mut S, ext: &ExtHeader<'_>, used: u32)
    ensures bytes { S.takes out.old (ext_spelled ext.now used) out.new }
    ensures len { length (ext_spelled ext.now used) ≡ ext_len ext.now }
    ensures most { ext_len ext.now ≤ ext_limit }
{
    let len = len_of_ext(ext);
    out.put(&ext.name().to_bytes());
    put_u32(out, len);
    put_entries(out, ext.entries(), used);
    out.put(ext.tail());
}

/// Returns the bytes of an extended header, as `put_ext` puts them. The value of each used size is
/// `used`. (PI specification, volume 3, section 3.2.1.2.)
///
/// # Errors
///
/// OutOfMemory at offset 0.
pub fn ext_bytes(alloc: Global, ext: &ExtHeader<'_>, used: u32) -> Result<ByteList, Fault>
    ensures bytes { IfOk result (λ bytes. bytes ≡ ext_spelled ext.now used) }

    // The bytes are an extended header with the same meaning.
    ensures again { IfOk result (λ bytes. IsExt ext.now bytes) }

    // The only error is OutOfMemory.
    ensures err { IfErr result (λ f. f ≡ out_of_memory) }
{
    let mut out = ListSink::with_room(alloc, len_of_ext(ext) as usize)?;
    put_ext(&mut out, ext, used);
    out.finish()
}
