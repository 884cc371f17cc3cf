//! Further laws of layouts and canonical images, over the definitions. None of these functions does
//! anything: their contracts are the laws.

ghost use Rattle.std.specs.Prelude.{◌↔◌, ◌≡◌, ◌⊎◌, List, ℕ};
ghost use Rattle.fv_base.specs.declared.fault.Fault.{Fault};
ghost use Rattle.fv_tree.specs.Words.{Accepted, Meaning, NotRead};
ghost use Rattle.fv_base.specs.Words.{IsBytes};
ghost use Rattle.fv_flash.specs.Words.{Found};
ghost use Rattle.fv_canon.specs.FlashImages.{NormalisesAll, RejectsAll};
ghost use Rattle.fv_canon.specs.Headline.{MeanSame, NormalisesTo};
ghost use Rattle.fv_canon.specs.RenewedImages.{MeanSameAllIffSameRenewedImage};
ghost use Rattle.fv_canon.specs.ImageRules.{OneImage, OneMeaning, InOrder, painted, PadsRule};
ghost use Rattle.fv_canon.specs.ImageChecks.{CanonicalImagesStay};
ghost use Rattle.fv_canon.specs.InputRejections.{OnlyWhatDoesNotFitIsRejected, Rejects, WhatDoesNotFitIsRejected};
ghost use Rattle.fv_canon.specs.Layouts.{Fits};
ghost use Rattle.fv_canon.specs.LayoutForms.{AreAllStarts, AreAllLeastStarts};
ghost use Rattle.fv_canon.specs.LayoutFaults.{Unfit};
ghost use Rattle.fv_canon.specs.PlacedBytes.{ShowsPlaced, PlacedBytes};

/// A meaning has at most one canonical image. If two meanings differ, and each of them is the
/// meaning of some bytes, they never have the same image.
#[tactic(auto, using(crate::proofs::OneImageLaws::image_one, crate::proofs::HeadlineLaws::one_meaning_of))]
pub fn one_image()
    ensures image { OneImage }
    ensures meaning { OneMeaning }
{}

/// A volume fits exactly if it has a layout. A volume with a fault of its layout does not fit.
#[tactic(auto, using(crate::proofs::VolumeListLaws::laid_fit, crate::proofs::FitLaws::fits_laid, crate::proofs::FitLaws::unfit_none))]
pub fn fits()
    ensures laid { (m : Meaning) (starts : List ℕ) → AreAllStarts m starts → Fits m }
    ensures lays { (m : Meaning) → Fits m → (starts : List ℕ) × AreAllStarts m starts }
    ensures unfit { (m : Meaning) (depth : ℕ) (f : Fault) → Unfit m depth f → Fits m → ⊥ }
{}

/// The layout of a volume has at most one fault.
#[tactic(auto, using(crate::proofs::FitLaws::first_fault))]
pub fn one_fault()
    ensures { (m : Meaning) (depth : ℕ) (f g : Fault) → Unfit m depth f → Unfit m depth g → f ≡ g }
{}

/// If the least starts of each volume, at every level, are a placement, they are the layout.
#[tactic(auto, using(crate::proofs::FitLaws::least_are))]
pub fn least_starts()
    ensures { (m : Meaning) (starts : List ℕ) → AreAllLeastStarts m starts → AreAllStarts m starts }
{}

/// A gap whose length is a multiple of 8 and at least 24 is one pad if it has at most 0xFFFFF8
/// bytes. Otherwise it begins with a pad of 0xFFFF00 bytes, and at least 256 bytes are left for the
/// pads after it.
#[tactic(auto, using(crate::proofs::PadLaws::pads_rule))]
pub fn pads()
    ensures { PadsRule }
{}

/// If spans are in order, do not overlap and end within `total` bytes, exactly one list of `total`
/// bytes contains them and is erased elsewhere: the list that joins the spans and the erased bytes
/// around them.
pub fn one_list_shows()
    ensures { (erased total : ℕ) (placed : List PlacedBytes) (bytes : List ℕ) → InOrder total 0 placed
        → ShowsPlaced total erased placed bytes ↔ (bytes ≡ painted erased total 0 placed) }
{}

/// Bytes have at most one meaning. So two volumes have the same meaning exactly if their meanings
/// are equal.
pub fn one_reading()
    ensures meaning { (b : List ℕ) (m k : Meaning) → Accepted b m → Accepted b k → m ≡ k }
    ensures same { (a b : List ℕ) (m k : Meaning) → Accepted a m → Accepted b k → MeanSame a b ↔ (m ≡ k) }
{}

/// Either a volume fits, or its layout has a fault. So a volume that does not fit is rejected as
/// NoRoom or TopAlignment.
#[tactic(auto, using(crate::proofs::FitLaws::fits_or, crate::proofs::FitLaws::unfit_is_refused))]
pub fn what_does_not_fit_is_rejected()
    ensures either { (m : Meaning) → Fits m ⊎ ((f : Fault) × Unfit m 0 f) }
    ensures rejected { WhatDoesNotFitIsRejected }
{}

/// An input that is rejected as NoRoom or TopAlignment is a volume that does not fit. An input that
/// is rejected with any other fault is not a volume.
pub fn only_what_does_not_fit_is_rejected()
    ensures { OnlyWhatDoesNotFitIsRejected }
{}

/// The volumes of a flash image are all canonical, as `check_image` reports them, exactly if
/// `normalise_image` leaves the image as it is.
pub fn canonical_images_stay()
    ensures { CanonicalImagesStay }
{}

/// Every input is a volume, or it is not a volume and has a first fault. Every input has a
/// canonical image or is rejected, and never both. So no case is missing from the faults.
pub fn every_input()
    ensures read { (input : List ℕ) → IsBytes input → ((m : Meaning) × Accepted input m) ⊎ ((f : Fault) × NotRead input f) }
    ensures either { (input : List ℕ) → IsBytes input
        → ((image : List ℕ) × NormalisesTo input image) ⊎ ((f : Fault) × Rejects input f) }
    ensures never { (input image : List ℕ) (f : Fault) → NormalisesTo input image → Rejects input f → ⊥ }
{}

/// An input is rejected with at most one fault.
pub fn one_rejection()
    ensures { (input : List ℕ) (f g : Fault) → Rejects input f → Rejects input g → f ≡ g }
{}

/// A flash image has a renewed image, in which each volume is replaced by its canonical image, or it
/// is rejected, and never both.
pub fn every_image()
    ensures either { (b : List ℕ) → IsBytes b
        → ((renewed : List ℕ) × NormalisesAll b renewed) ⊎ ((f : Fault) × RejectsAll b f) }
    ensures never { (b renewed : List ℕ) (f : Fault) → NormalisesAll b renewed → RejectsAll b f → ⊥ }
{}

/// A renewed image stays as it is if it is renewed again and the same volumes are found in it. Other
/// volumes may be found in it: a header before a volume may be rejected because of bytes of the
/// volume that are outside of its meaning, and the canonical image has other bytes there.
pub fn renewed_images_stay()
    ensures { (b renewed places : List ℕ)
        → NormalisesAll b renewed → Found b places → Found renewed places → NormalisesAll renewed renewed }
{}

/// Two flash images have the same renewed image exactly if volumes of the same lengths and with the
/// same meanings are found in them at the same offsets, and every byte outside these volumes is the
/// same. So two results of `normalise --all` differ exactly if the images differ in something other
/// than bytes of their volumes that have no meaning.
pub fn equal_renewed_images()
    ensures { MeanSameAllIffSameRenewedImage }
{}
