//! The headline, with a law for each clause of its first two sentences. Two accepted volumes whose
//! canonical layouts fit have the same meaning exactly if their canonical images are byte-equal. An
//! accepted volume whose layout fits normalises to an accepted volume of the same length and
//! meaning that normalises to itself, with each file's data aligned and each checksum right. An
//! accepted volume whose layout does not fit is rejected as NoRoom or TopAlignment, and no other
//! input is rejected with these faults. The laws of this third sentence are in `further_laws`, and
//! `normalise` has clauses for it.
//!
//! None of these functions does anything: their contracts are the laws.

ghost use Rattle.fv_canon.specs.Headline.{DataAreAligned, EachVolumeHasItsImage, ImageIsItsOwnImage};
ghost use Rattle.fv_canon.specs.Headline.{ImageKeepsLengthAndMeaning};
ghost use Rattle.fv_canon.specs.Headline.{SameMeaningIffSameImage, SumsAreRight};
ghost use Rattle.fv_canon.specs.Headline.{WhatFitsHasAnImage};

/// Two volumes that have canonical images have the same meaning exactly if these images are equal.
pub fn same_meaning_iff_same_image()
    ensures { SameMeaningIffSameImage }
{}

/// The canonical image of a volume is as long as the volume, and is accepted as a volume with the
/// same meaning.
pub fn image_keeps_length_and_meaning()
    ensures { ImageKeepsLengthAndMeaning }
{}

/// The canonical image of a volume normalises to itself.
pub fn image_is_its_own_image()
    ensures { ImageIsItsOwnImage }
{}

/// In the canonical image of a volume the data of each file are aligned, counted from the volume's
/// first byte. Each volume inside is its own canonical image, so this is true at every level. (PI
/// specification, volume 3, section 3.2.3.1.)
#[tactic(auto, using(crate::proofs::AlignedLaws::data_are_aligned))]
pub fn data_are_aligned()
    ensures { DataAreAligned }
{}

/// The canonical image of a volume begins with its header, whose 16-bit words sum to zero. Cells
/// tile the rest, and the checksums of the files and pads among them are right: the header of each
/// sums to zero, a file's file checksum is right, and a pad's file checksum is 0xAA. If there is an
/// extended header, the pad that holds it is one of these pads. Each volume inside is its own
/// canonical image, so this is true at every level. (PI specification, volume 3, sections 3.2.1.1
/// and 3.2.3.1.)
pub fn sums_are_right()
    ensures { SumsAreRight }
{}

/// For a volume and for each volume inside it, some bytes have that volume's meaning, and the
/// canonical image of the outer volume contains that volume's canonical image as consecutive bytes.
/// So a law of all canonical images holds at every level.
#[tactic(auto, using(crate::proofs::InsideImageLaws::each_volume_has_its_image))]
pub fn each_volume_has_its_image()
    ensures { EachVolumeHasItsImage }
{}

/// A volume fits exactly if it has a canonical image.
#[tactic(auto, using(crate::proofs::ImageLaws::what_fits_has_an_image))]
pub fn what_fits_has_an_image()
    ensures { WhatFitsHasAnImage }
{}
