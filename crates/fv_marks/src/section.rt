//! Sections at their offsets in a stream, without a loan of the stream.

ghost use Rattle.std.specs.Prelude.{◌≡◌, ◌+◌, ◌≤◌, length, IfSome, IfNone};
ghost use Rattle.fv_section.specs.Words.{FrameForm, HasFrameAt};
ghost use Rattle.fv_marks.specs.inner.MarkSteps.{IsSection};

use fv_section::{next_frame, section_header_len};
use fv_tree::{Shape, shape_of};

/// A section in its stream: how its body is read, the offsets at which the body begins and ends,
/// and the offset at which the next section would begin, in bytes from the stream's start.
#[derive(Clone, Copy)]
pub(crate) struct Section {
    pub(crate) shape: Shape,
    pub(crate) start: usize,
    pub(crate) end: usize,
    pub(crate) next: usize,
}

// Returns the section at the offset `at`, or None if no section begins there.
pub(crate) fn section_at(stream: &[u8], at: usize) -> Option<Section>
    ensures some { IfSome result (λ s. (f : FrameForm) × HasFrameAt f at stream.now × IsSection f s × (s.end ≤ length stream.now)) }
    ensures none { IfNone result ((g : FrameForm) → HasFrameAt g at stream.now → ⊥) }
{
    let Ok(Some(frame)) = next_frame(stream, at as u64) else {
        return None;
    };
    let start = at + section_header_len(frame.extended) as usize;
    let end = start + frame.body.len();
    Some(Section {
        shape: shape_of(&frame),
        start,
        end,
        next: (end + 3) / 4 * 4,
    })
}
