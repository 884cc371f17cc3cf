//! Laws over the definitions of this crate. None of these functions does anything: their contracts
//! are the laws.

ghost use Rattle.std.specs.Prelude.{◌⊎◌, ◌<◌, ℕ, List, drop, length};
ghost use Rattle.fv_base.specs.Words.{IsFirstFault};
ghost use Rattle.fv_base.specs.declared.fault.Fault.{Fault};
ghost use Rattle.fv_section.specs.FrameChecks.{IsFirstFrameFault, frame_checks};
ghost use Rattle.fv_section.specs.Frames.{FrameForm, Splits};
ghost use Rattle.fv_section.specs.StreamReads.{HasFrameAt};

/// At each offset within a stream there is a section, or a check of the section there has the first
/// fault, and never both. (PI specification, volume 3, section 3.2.4.)
pub fn every_frame()
    ensures either { (b : List ℕ) (at : ℕ) → at < length b
        → ((g : FrameForm) × HasFrameAt g at b) ⊎ ((f : Fault) × IsFirstFault (frame_checks at (drop at b)) f) }
    ensures never { (b : List ℕ) (at : ℕ) (g : FrameForm) (f : Fault)
        → HasFrameAt g at b → IsFirstFault (frame_checks at (drop at b)) f → ⊥ }
{}

/// Bytes are a stream of sections, or have a first fault, and never both. (PI specification, volume
/// 3, section 3.2.4.)
pub fn every_stream()
    ensures either { (b : List ℕ)
        → ((frames : List FrameForm) × (tail : ℕ) × Splits frames tail b) ⊎ ((f : Fault) × IsFirstFrameFault b f) }
    ensures never { (b : List ℕ) (frames : List FrameForm) (tail : ℕ) (f : Fault)
        → Splits frames tail b → IsFirstFrameFault b f → ⊥ }
{}
