//! Laws over the definitions of this crate. None of these functions does anything: their contracts
//! are the laws.

ghost use Rattle.std.specs.Prelude.{◌≡◌, ◌≤◌, ◌<◌, ◌*◌, ◌%◌, ◌^◌, ℕ, List, [], ◌∷◌, length};
ghost use Rattle.fv_base.specs.Words.{IsBytes};
ghost use Rattle.fv_base.specs.declared.fault.FaultKind.{FaultKind};
ghost use Rattle.fv_file.specs.Words.{CellForm, Tiles};
ghost use Rattle.fv_head.specs.Words.{BeginsVolume, HeadFields};
ghost use Rattle.fv_head.specs.declared.extent.Extent.{Extent};
ghost use Rattle.fv_section.specs.Words.{FrameForm, Splits};
ghost use Rattle.fv_survey.specs.declared.pieces.Layout.{Layout};
ghost use Rattle.fv_survey.specs.declared.systems.Files.TheVariants as files;
ghost use Rattle.fv_survey.specs.Agreement.{ReadAs, SameExtent, SectionsAs};
ghost use Rattle.fv_survey.specs.CleanReading.{Agree, IsCleanImage, IsCleanVolume, IsVolumePortion};
ghost use Rattle.fv_survey.specs.FindingSets.{has_finding};
ghost use Rattle.fv_survey.specs.Forests.{Forest, IsForest};
ghost use Rattle.fv_survey.specs.Honesty.{IsHonest, whole_stream};
ghost use Rattle.fv_survey.specs.PieceRules.{system_by};
ghost use Rattle.fv_survey.specs.Portions.{PortionForm};
ghost use Rattle.fv_survey.specs.Reading.{survey_of_sections, whole_image};
ghost use Rattle.fv_survey.specs.Reads.{Reads};
ghost use Rattle.fv_survey.specs.Runs.{PassesNothing};
ghost use Rattle.fv_survey.specs.Tiling.{Tile, TileEach};
ghost use Rattle.fv_survey.specs.VolumeRules.{breaks, header_findings, parts_by};
ghost use Rattle.fv_tree.specs.Words.{Accepted, Denotes, Meaning};

/// The tolerant reading of a volume agrees with the strict reading: a volume has a meaning, in which
/// groups and opened volumes nest at most n deep, exactly if it is read without findings. Volumes
/// that are found by their signatures, and the data of superseded files, may have findings. (PI
/// specification, volume 3, sections 3.2.1 to 3.2.5.)
pub fn volumes_agree()
    // A volume with a meaning is read without findings.
    ensures clean { (n : ℕ) (b : List ℕ) (m : Meaning) → Denotes n b m → IsCleanVolume n b }

    // A volume that is read without findings has a meaning.
    ensures means { (n : ℕ) (b : List ℕ) → IsBytes b → IsCleanVolume n b → (m : Meaning) × Denotes n b m }

    // The rows of a volume of FvLength bytes that is not a variable store have no findings exactly if it has a meaning.
    ensures rows { (n : ℕ) (p : PortionForm) (f : Forest) → IsVolumePortion n p → Reads f (p ∷ []) → Agree n p f }
{}

/// The tolerant reading of a part agrees with the strict reading, if there is one: the same lengths,
/// at the same places, without findings. (PI specification, volume 3, sections 3.2.1 to 3.2.4.)
pub fn parts_agree()
    // Bytes that begin with a volume have the same extent.
    ensures header { (b : List ℕ) (h : HeadFields) (e : Extent) → BeginsVolume h e b → SameExtent e b }

    // The cells of a body are its pieces.
    ensures cells { (layout : Layout) (at : ℕ) (cells : List CellForm) (r : List ℕ) → length r % 8 ≡ 0
        → Tiles (system_by layout.files) layout.polarity at cells r → ReadAs layout at cells r }

    // The frames of a stream are its sections.
    ensures sections { (frames : List FrameForm) (tail : ℕ) (b : List ℕ) → Splits frames tail b
        → SectionsAs 0 frames tail b }
{}

/// The strict reading accepts an image that is not a variable store exactly if the image is surveyed
/// as one volume in which no row has findings, apart from volumes that were found in it, and the
/// rows in superseded files. (PI specification, volume 3, sections 3.2.1 to 3.2.5.)
pub fn images_agree()
    // The survey of an accepted image is one clean volume.
    ensures clean { (b : List ℕ) (m : Meaning) (f : Forest) → Accepted b m → Reads f (whole_image b) → IsCleanImage b f }

    // An image whose survey is one clean volume, and not a variable store, is accepted.
    ensures accepted { (b : List ℕ) (f : Forest) → IsBytes b → ((parts_by b).files ≡ files.Store → ⊥)
        → Reads f (whole_image b) → IsCleanImage b f → (m : Meaning) × Accepted b m }
{}

/// A kind of fault is a finding of a volume header exactly if the header breaks the rule with this
/// kind. (PI specification, volume 3, section 3.2.1.1.)
pub fn headers_have_all_findings()
    ensures { (kind : FaultKind) (b : List ℕ) → has_finding kind (header_findings b) ≡ breaks kind b }
{}

/// The survey of a stream of sections, such as the contents of a packed section, keeps the laws of
/// the survey of an image. (PI specification, volume 3, section 3.2.4.)
pub fn sections_keep_the_laws()
    // Every byte is in exactly one leaf row.
    ensures tiling { (b : List ℕ) → length b < 2 ^ 63 → Tile (length b) (survey_of_sections b) }

    // The leaf rows in each row tile it.
    ensures inside { (b : List ℕ) → length b < 2 ^ 63 → TileEach (survey_of_sections b) }

    // The rows in a row lie one after another from its first byte to its end, and are one deeper than it.
    ensures nesting { (b : List ℕ) → length b < 2 ^ 63 → (f : Forest) × IsForest (length b) (survey_of_sections b) f }

    // No place where a volume may begin is passed over in bytes that no structure explains further.
    ensures passes { (b : List ℕ) → length b < 2 ^ 63
        → (f : Forest) × IsForest (length b) (survey_of_sections b) f × PassesNothing b 0 f }

    // Each finding of a row says what is so, and bytes are lost or unread only for a reason that a finding gives.
    ensures honest { (b : List ℕ) → length b < 2 ^ 63
        → (f : Forest) × IsForest (length b) (survey_of_sections b) f × IsHonest b (whole_stream b ∷ []) [] f }

    // There are at most two rows for each byte.
    ensures few { (b : List ℕ) → length (survey_of_sections b) ≤ 2 * length b }
{}
