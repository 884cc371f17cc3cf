//! Reading an input, and selecting a volume in it.

ghost use Rattle.std.specs.Prelude.{IfOk, IfErr};
ghost use Rattle.fv_command.specs.RunInputs.{Gives, GivingStops, TakenAt};
ghost use Rattle.fv_text.specs.Words.{view_of};

use fv_base::{Fault, Port, read_input};
use fv_head::verify_fv;
use fv_text::read_hex;
use std::alloc::Global;
use std::io::Read;

/// Reads an input to its end: bytes, or hexadecimal text that spells them.
///
/// # Errors
///
/// ReadFault at the number of bytes read so far, if the reader fails or the reads run out. Length
/// at the limit of a volume, if the input has more bytes than this limit; for text, if it spells
/// more bytes, or has more than 1,073,741,824 bytes itself. For text also ReadFault at 0, if it is
/// not an even number of digits. OutOfMemory.
pub fn read_bytes<R: Read>(alloc: Global, hex: bool, reader: &mut Port<R>) -> Result<Vec<u8>, Fault>
    ensures ok { IfOk result (λ v. Gives hex (view_of R.remaining reader.old)
        (view_of R.remaining reader.new) v.items) }
    ensures err { IfErr result (GivingStops hex (view_of R.remaining reader.old)
        (view_of R.remaining reader.new)) }
{
    if hex {
        read_hex(alloc, reader)
    } else {
        read_input(alloc, reader)
    }
}

/// Returns the volume at byte `at` of an input: as many bytes from there on as its header says. If
/// no volume begins there, returns all bytes from there on (none, if `at` is past the end of the
/// input). If `at` is None, returns the whole input. (PI specification, volume 3, section 3.2.1.)
pub fn taken_at(input: &[u8], at: Option<u64>) -> &[u8]
    ensures { TakenAt at input.now result.now }
{
    let Some(at) = at else {
        return input;
    };
    let rest = &input[at.min(input.len() as u64) as usize..];
    match verify_fv(rest) {
        Ok(extent) => &rest[..extent.length as usize],
        Err(_) => rest,
    }
}
