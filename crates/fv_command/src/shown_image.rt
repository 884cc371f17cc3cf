//! An image, put as it is or as lines of hexadecimal digits: the canonical image of a volume, or a
//! flash image in which each volume is replaced by its canonical image.

ghost use Rattle.std.specs.Prelude.{ℕ, List};
ghost use Rattle.fv_canon.specs.Words.{NormalisesAll, IsImage};
ghost use Rattle.fv_text.specs.Words.{IsHexText, ShowsBytes};

use fv_base::Sink;
use fv_canon::{LaidImage, LaidVolume, put_canonical, put_laid_image};
use fv_text::{HexSink, LentSink};

/// An image that is not kept in memory, but can be put into a sink.
pub trait Image {
    /// These bytes are the image.
    ghost is: { Self → List ℕ → Type 0 };

    /// Puts the image.
    fn put_into<S: Sink>(&self, out: &mut S)
        ensures { (bytes : List ℕ) × is self.now bytes × S.takes out.old bytes out.new };
}

impl<'a> Image for LaidVolume<'a> {
    ghost is = { IsImage };

    fn put_into<S: Sink>(&self, out: &mut S) {
        put_canonical(self.volume(), self.layout(), out);
    }
}

impl<'a> Image for LaidImage<'a> {
    ghost is = { NormalisesAll };

    fn put_into<S: Sink>(&self, out: &mut S) {
        put_laid_image(self, out);
    }
}

// Puts the image into the sink `below`, as lines of digits, and returns that sink.
fn put_digits<S: Sink, I: Image>(below: S, image: &I) -> S
    ensures { (bytes : List ℕ) × (text : List ℕ) × I.is image.now bytes × IsHexText bytes text
        × S.takes below text result }
{
    let mut lines = HexSink::new(below);
    image.put_into(&mut lines);
    lines.finish()
}

/// Puts the image: as lines of digits if `hex` is true, otherwise as it is.
pub fn put_shown_image<S: Sink, I: Image>(out: &mut S, hex: bool, image: &I)
    ensures { (bytes : List ℕ) × (text : List ℕ) × I.is image.now bytes × ShowsBytes hex bytes text
        × S.takes out.old text out.new }
{
    if hex {
        let _lent = put_digits(LentSink::new(out), image);
    } else {
        image.put_into(out);
    }
}
