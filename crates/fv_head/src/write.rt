//! Writes a volume header or an extended header to a port.

ghost use Rattle.std.specs.Prelude.{◌≡◌, ℕ, List, IfErr, OnErr, OnOk, true};
ghost use Rattle.std.specs.Io.KnownBytes.{Appends};
ghost use Rattle.fv_base.specs.Words.{WriteStops, inner_of, has_erred};
ghost use Rattle.fv_head.specs.HeadReads.{IsCanonicalHead};
ghost use Rattle.fv_head.specs.ExtImage.{ext_spelled};

use crate::ext::ExtHeader;
use crate::ext_image::put_ext;
use crate::head::VolumeHead;
use crate::head_image::put_head;
use fv_base::{Fault, Port, WriteSink};
use std::io::Write;

/// Writes the volume header of the canonical image to a port, as `head_bytes` returns it. Takes no
/// memory. (PI specification, volume 3, section 3.2.1.1.)
///
/// # Errors
///
/// WriteFault if a write fails or takes no byte. Its offset is the number of bytes written in this
/// call, and exactly that many bytes of the header were written.
pub fn write_head<W: Write>(head: &VolumeHead<'_>, writer: &mut Port<W>) -> Result<(), Fault>
    ensures ok { OnOk result ((bytes : List ℕ) × IsCanonicalHead head.now bytes
        × Appends (W.contents (inner_of writer.old)) (W.contents (inner_of writer.new)) bytes) }
    ensures err { IfErr result (λ f. (bytes : List ℕ) × IsCanonicalHead head.now bytes
        × WriteStops (W.contents (inner_of writer.old)) (W.contents (inner_of writer.new)) bytes f) }
    ensures fine { OnOk result (has_erred writer.new ≡ has_erred writer.old) }
    ensures erred { OnErr result (has_erred writer.new ≡ true) }
{
    let mut out = WriteSink::new(writer);
    put_head(&mut out, head);
    out.outcome()
}

/// Writes an extended header to a port, as `ext_bytes` returns it: the value of each used size is
/// `used`. Takes no memory. (PI specification, volume 3, section 3.2.1.2.)
///
/// # Errors
///
/// WriteFault, as for `write_head`.
pub fn write_ext<W: Write>(
    ext: &ExtHeader<'_>,
    used: u32,
    writer: &mut Port<W>,
) -> Result<(), Fault>
    ensures ok { OnOk result
        (Appends (W.contents (inner_of writer.old)) (W.contents (inner_of writer.new)) (ext_spelled ext.now used)) }
    ensures err { IfErr result
        (WriteStops (W.contents (inner_of writer.old)) (W.contents (inner_of writer.new)) (ext_spelled ext.now used)) }
    ensures fine { OnOk result (has_erred writer.new ≡ has_erred writer.old) }
    ensures erred { OnErr result (has_erred writer.new ≡ true) }
{
    let mut out = WriteSink::new(writer);
    put_ext(&mut out, ext, used);
    out.outcome()
}
