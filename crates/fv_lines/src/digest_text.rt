//! The digest at the end of a line of `list`.

ghost use Rattle.std.specs.Prelude.{◌++◌, codes};
ghost use Rattle.hex.specs.Hex.{encode_lower};
ghost use Rattle.fv_lines.specs.ListTexts.{digest_text};

use fv_base::Sink;

// Puts a digest as it appears at the end of a line: in lower-case hexadecimal digits.
fn put_sum<S: Sink>(out: &mut S, sum: &[u8; 32])
    ensures { S.takes out.old (codes " sha256 " ++ encode_lower sum.now) out.new }
{
    let mut text = [0u8; 64];
    let Ok(()) = hex::encode_to_slice(&sum[..], &mut text) else {
        unreachable!()
    };
    out.put(b" sha256 ");
    out.put(&text);
}

/// Puts the digest at the end of the line of a volume, a file or a section. Puts nothing if there
/// is no digest.
pub fn put_digest<S: Sink>(out: &mut S, digest: Option<[u8; 32]>)
    ensures { S.takes out.old (digest_text digest) out.new }
{
    match digest {
        Some(sum) => put_sum(out, &sum),
        None => {}
    }
}
