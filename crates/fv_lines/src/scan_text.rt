//! The lines of `scan`, and the place of a volume in an image.

ghost use Rattle.std.specs.List.{flat_map};
ghost use Rattle.fv_lines.specs.ScanLines.{volume_line, volume_place};

use fv_base::Sink;
use fv_flash::FoundVolume;
use fv_text::put_decimal;

/// Puts the place of a volume: its offset in bytes from the first byte of the image, and its length
/// in bytes. No line feed follows.
pub fn put_volume_place<S: Sink>(out: &mut S, offset: u64, length: u64)
    ensures { S.takes out.old (volume_place offset length) out.new }
{
    out.put(b"volume at ");
    put_decimal(out, offset);
    out.put(b" length ");
    put_decimal(out, length);
}

// Puts the line of a volume.
fn put_volume<S: Sink>(out: &mut S, volume: FoundVolume)
    ensures { S.takes out.old (volume_line volume) out.new }
{
    put_volume_place(out, volume.offset, volume.length);
    out.put(b"\n");
}

/// Puts a line for each of the volumes.
pub fn put_volumes<S: Sink>(out: &mut S, volumes: &[FoundVolume])
    ensures { S.takes out.old (flat_map volume_line volumes.now) out.new }
{
    for volume in volumes {
        put_volume(out, *volume);
    }
}
