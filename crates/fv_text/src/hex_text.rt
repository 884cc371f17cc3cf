//! Hexadecimal text as an input: digits in upper or lower case, and white space, which is ignored.

ghost use Rattle.std.specs.Prelude.{◌≡◌, ◌≤◌, ◌%◌, ⊤, [], ℕ, List, false, length, IfOk, IfErr, OnOk, vec_len};
ghost use Rattle.fv_base.specs.Words.{volume_limit, inner_of, has_erred};
ghost use Rattle.fv_text.specs.inner.HexDecoding.{Decodes, DecodesPairs};
ghost use Rattle.fv_text.specs.HexIn.{SpellsWhole, TextStops, TextFault, DigitsSpell, squeezed};

use crate::hex_digits::{push_pairs, take_odd};
use crate::white_space::squeeze;
use fv_base::limits::{TEXT_LIMIT, VOLUME_LIMIT};
use fv_base::{Collector, Fault, FaultKind, Port, read_to_end};
use std::alloc::{AllocError, Global};
use std::io::Read;

/// The state of decoding a text, piece after piece. It keeps neither the text nor more bytes than a
/// volume may have.
#[derive(Drop)]
struct Decoder {
    /// The digit that waits for the second digit of its pair, and after it the digits of the
    /// current piece.
    digits: Vec<u8>,
    /// The bytes that the earlier digits spell, unless they were dropped.
    bytes: Vec<u8>,
    /// Whether the text contained something that is not a digit.
    is_wrong: bool,
    /// Whether there were more bytes than a volume may have. Such bytes are dropped, because the
    /// text will be rejected.
    is_long: bool,
}

impl Decoder {
    // Makes a decoder that has taken no text.
    fn new(alloc: Global) -> Decoder
        ensures { Decodes result [] }
    {
        Decoder {
            digits: Vec::new(alloc),
            bytes: Vec::new(alloc),
            is_wrong: false,
            is_long: false,
        }
    }

    // Decodes the digits, whose number is even, and drops them. The text is wrong if a pair is not
    // two digits.
    fn decode(&mut self) -> Result<(), AllocError>
        requires right { self.old.is_wrong ≡ false }
        requires even { vec_len self.old.digits % 2 ≡ 0 }
        ensures read { OnOk result (DecodesPairs self.old self.new) }
        ensures small { vec_len self.old.digits ≤ volume_limit → vec_len self.old.bytes ≤ volume_limit
            → OnOk result (vec_len self.new.bytes ≤ volume_limit) }
        ensures empty { OnOk result (self.new.digits.items ≡ []) }
    {
        if self.bytes.len() + self.digits.len() / 2 > VOLUME_LIMIT as usize {
            self.is_long = true;
            self.bytes.clear();
        }
        self.is_wrong = !push_pairs(&mut self.digits, &mut self.bytes)?;
        self.digits.clear();
        Ok(())
    }

    // Returns the bytes that the whole text spells. The fault is ReadFault at 0 if the text is not
    // an even number of digits, otherwise Length at the limit of a volume if the text spells more
    // bytes.
    fn finish(self) -> Result<Vec<u8>, Fault>
        ensures read { (text : List ℕ) → Decodes self text
            → IfOk result (λ v. DigitsSpell (squeezed text) v.items × (length v.items ≤ volume_limit)) }
        ensures err { (text : List ℕ) → Decodes self text → IfErr result (TextFault text) }
    {
        let Decoder {
            digits,
            bytes,
            is_wrong,
            is_long,
        } = self;
        if is_wrong || !digits.is_empty() {
            Err(Fault::outer(FaultKind::ReadFault, 0))
        } else if is_long {
            Err(Fault::outer(FaultKind::Length, VOLUME_LIMIT))
        } else {
            Ok(bytes)
        }
    }
}

impl Collector for Decoder {
    ghost holds = { Decodes };

    // No clause is about the memory of a decoder.
    ghost lacks = { λ _ _. ⊤ };

    // A text that was found wrong stays wrong.
    fn take(&mut self, piece: &[u8]) -> Result<(), AllocError> {
        if self.is_wrong {
            return Ok(());
        }
        squeeze(piece, &mut self.digits)?;
        let last = take_odd(&mut self.digits);
        self.decode()?;
        if let Some(digit) = last {
            self.digits.push(digit)?;
        }
        Ok(())
    }
}

/// Reads hexadecimal text to its end, and decodes it. A read that returns `Interrupted` is
/// repeated, and counts as a read.
///
/// # Errors
///
/// ReadFault at the number of bytes of text read so far, if the reader fails or the reads run out.
/// Length at 268,435,456, if the text has more than 1,073,741,824 bytes; otherwise ReadFault at 0,
/// if the text is not an even number of digits; otherwise Length at 268,435,456, if it spells more
/// bytes than that. OutOfMemory.
pub fn read_hex<R: Read>(alloc: Global, reader: &mut Port<R>) -> Result<Vec<u8>, Fault>
    // The text was read to its end, and has at most 2 ^ 30 bytes. The input is the bytes that its
    // digits spell in pairs, without the white space, and is not longer than a volume may be.
    ensures read { IfOk result (λ v. SpellsWhole (R.remaining (inner_of reader.old)) (R.remaining (inner_of reader.new))
        v.items) }

    ensures err { IfErr result (TextStops (R.remaining (inner_of reader.old)) (R.remaining (inner_of reader.new))
        (has_erred reader.new)) }
{
    let mut decoder = Decoder::new(alloc);
    read_to_end(alloc, reader, TEXT_LIMIT as u32, &mut decoder)?;
    decoder.finish()
}
