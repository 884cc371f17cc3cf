//! Laws of the definitions. The functions do nothing: their contracts are the laws.

ghost use Rattle.std.specs.Prelude.{◌≡◌, ◌⊎◌, ℕ, List, Ok, Err, true, false};
ghost use Rattle.fv_packed.specs.declared.fault.PackedFault.{PackedFault};
ghost use Rattle.fv_tiano.specs.Words.{tiano, bits_of};
ghost use Rattle.fv_tiano.specs.declared.width.Width.TheVariants as widths;
ghost use Rattle.fv_open.specs.Contents.{by_way, opened, standard};
ghost use Rattle.fv_open.specs.SectionStreams.{IsStream, is_stream};
ghost use Rattle.fv_open.specs.declared.fault.OpenFault.{OpenFault};
ghost use Rattle.fv_open.specs.declared.way.Way.{Way};
ghost use Rattle.fv_open.specs.declared.way.Way.TheVariants as ways;

/// Bytes pass the test of a stream of sections exactly if they split into sections and a tail. (PI
/// specification, volume 3, section 3.2.4.)
pub fn streams_pass()
    ensures only { (b : List ℕ) → is_stream b ≡ true → IsStream b }
    ensures all { (b : List ℕ) → IsStream b → is_stream b ≡ true }
{}

/// The data of a compression section of CompressionType 1 have one meaning. They are the compression
/// of the UEFI specification if that gives a stream of sections. Otherwise they are Tiano's.
pub fn standard_data()
    ensures uefi { (limit : ℕ) (b contents : List ℕ) → tiano (bits_of widths.Uefi) limit b ≡ Ok contents → IsStream contents
        → standard limit b ≡ Ok (ways.Uefi, contents) }
    ensures other { (limit : ℕ) (b contents : List ℕ) → tiano (bits_of widths.Uefi) limit b ≡ Ok contents → (IsStream contents → ⊥)
        → standard limit b ≡ by_way ways.Tiano (tiano (bits_of widths.Tiano) limit b) }
    ensures none { (limit : ℕ) (b : List ℕ) (f : PackedFault) → tiano (bits_of widths.Uefi) limit b ≡ Err f
        → standard limit b ≡ by_way ways.Tiano (tiano (bits_of widths.Tiano) limit b) }
{}

/// A section has contents, or a first fault, and never both.
pub fn every_section()
    ensures either { (limit : ℕ) (b : List ℕ)
        → ((o : Way × List ℕ) × (opened limit b ≡ Ok o)) ⊎ ((f : OpenFault) × (opened limit b ≡ Err f)) }
    ensures never { (limit : ℕ) (b : List ℕ) (o : Way × List ℕ) (f : OpenFault)
        → opened limit b ≡ Ok o → opened limit b ≡ Err f → ⊥ }
{}
