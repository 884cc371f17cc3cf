//! Walking over the frames of a stream, and splitting a stream into its frames.

ghost use Rattle.std.specs.Prelude.{◌≡◌, ◌≢◌, ◌+◌, ◌<◌, ◌≤◌, ◌^◌, ◌∷◌, [], ℕ, List, length, drop};
ghost use Rattle.std.specs.Prelude.{IfOk, IfErr, IfSome, IfNone};
ghost use Rattle.std.specs.Iterator.{YieldsFirstBy, item_count};
ghost use Rattle.fv_base.specs.Words.{out_of_memory};
ghost use Rattle.fv_section.specs.FrameChecks.{IsFirstFrameFault};
ghost use Rattle.fv_section.specs.Frames.{FrameForm, Splits, frame_len, up_to_4};
ghost use Rattle.fv_section.specs.StreamReads.{HasFrameAt, FramesWithin, frame_form, frame_in};

use crate::frame::{Frame, frame_in, next_frame, section_header_len};
use crate::frame_list::Frames;
use fv_base::Fault;
use std::alloc::Global;
use std::marker::Model;

// Returns the offset at which a frame ends.
fn end_of(frame: &Frame) -> u64
    requires { frame.now.offset + frame_len (frame_form frame.now) < 2 ^ 63 }
    ensures { result ≡ frame.now.offset + frame_len (frame_form frame.now) }
{
    frame.offset + section_header_len(frame.extended) + frame.body.len() as u64
}

// Returns the offset at which the next frame begins if a frame ends at the offset `end`.
fn up_to_4(end: u64) -> u64
    requires { end < 2 ^ 63 }
    ensures { result ≡ up_to_4 end }
{
    (end + 3) / 4 * 4
}

// Returns the number of frames of a stream and the number of bytes after the last frame, or the
// stream's first fault.
fn stream_size(stream: &[u8]) -> Result<(u64, u8), Fault>
    ensures found { IfOk result (λ r. (fs : List FrameForm) × Splits fs r.1 stream.now × (length fs ≡ r.0)) }
    ensures first { IfErr result (λ f. IsFirstFrameFault stream.now f) }
    ensures bound { IfErr result (λ f. f.place.offset ≤ length stream.now) }
{
    let mut count = 0;
    let mut end = 0;
    while let Some(frame) = next_frame(stream, up_to_4(end))? {
        end = end_of(&frame);
        count += 1;
    }
    let tail = stream.len() as u64 - end;
    Ok((count, tail as u8))
}

// Returns the frame that begins at the offset `at`, and the offset at which the next frame would
// begin.
fn frame_at(stream: &[u8], at: u64) -> (Frame<'_>, u64)
    requires { HasFrameAt (frame_in at (drop at stream.now)) at stream.now }
    ensures frame { frame_form result.0 ≡ frame_in at (drop at stream.now) }
    ensures next { result.1 ≡ up_to_4 (at + frame_len (frame_form result.0)) }
{
    let frame = frame_in(&stream[at as usize..], at);
    let next = up_to_4(end_of(&frame));
    (frame, next)
}

/// A walk over the frames of a stream, which returns one frame after another. Contracts see it as
/// the list of the remaining frames and the number of bytes after the last frame. (PI
/// specification, volume 3, section 3.2.4.)
#[derive(Drop)]
pub struct FrameWalk<'a> {
    stream: &'a [u8],
    at: u64,
    left: u64,
    tail: u8,
}

impl<'a> Model for FrameWalk<'a> {
    ghost use Rattle.std.specs.Prelude.{ℕ, List};
    ghost use Rattle.fv_section.specs.Frames.{FrameForm};
    ghost use Rattle.fv_section.specs.StreamReads.{frames_from, HasFrames};

    ghost Value = { List FrameForm × ℕ };

    ghost view = { λ w. (frames_from w.left w.at w.stream.now, w.tail) };

    ghost invariant = { λ w. HasFrames w.left w.at w.stream.now };
}

impl<'a> FrameWalk<'a> {
    /// Checks all frames of a stream, and starts a walk over them. The offsets of the frames count
    /// from the stream's start. Allocates no memory. (PI specification, volume 3, section 3.2.4.)
    ///
    /// # Errors
    ///
    /// SectionTail or SectionSize, as for `next_frame`, at the first offset where a section should
    /// begin and none does.
    pub fn of(stream: &'a [u8]) -> Result<FrameWalk<'a>, Fault>
        // The stream splits into the frames and the tail of the walk.
        ensures found { IfOk result (λ w. Splits w.0 w.1 stream.now) }

        // It splits in no other way.
        ensures only { IfOk result
            (λ w. (fs : List FrameForm) (tail : ℕ) → Splits fs tail stream.now → (fs ≡ w.0) × (tail ≡ w.1)) }

        // If an error is returned, the bytes do not split into frames and a tail.
        ensures none { IfErr result (λ _. (fs : List FrameForm) (tail : ℕ) → Splits fs tail stream.now → ⊥) }

        // The error names the first check that fails where the next frame should begin.
        ensures first { IfErr result (IsFirstFrameFault stream.now) }

        // The offset of the error is at most the stream's length.
        ensures bound { IfErr result (λ f. f.place.offset ≤ length stream.now) }
    {
        let (left, tail) = stream_size(stream)?;
        Ok(FrameWalk {
            stream,
            at: 0,
            left,
            tail,
        })
    }

    /// Returns the next frame, or None after the last one. The call cannot fail, because all frames
    /// were checked when the walk began. Allocates no memory. (PI specification, volume 3, section
    /// 3.2.4.)
    pub fn next_frame(&mut self) -> Option<Frame<'a>>
        // The returned frame is the first of the remaining frames, and the others still remain.
        // None is returned only if no frame remained. The tail does not change.
        ensures some { IfSome result (λ f. self.old.0 ≡ frame_form f ∷ self.new.0) }
        ensures none { IfNone result ((self.old.0 ≡ []) × (self.new.0 ≡ [])) }
        ensures tail { self.new.1 ≡ self.old.1 }
    {
        if self.left == 0 {
            return None;
        }
        let (frame, next) = frame_at(self.stream, self.at);
        self.at = next;
        self.left -= 1;
        Some(frame)
    }

    /// Returns the number of remaining frames.
    pub fn frames_left(&self) -> usize
        ensures { result ≡ length self.now.0 }
    {
        self.left as usize
    }

    /// Returns the number of bytes after the last frame, 0 to 3.
    pub fn tail(&self) -> u8
        ensures { result ≡ self.now.1 }
    {
        self.tail
    }
}

/// An iterator over the remaining frames. Its `next` is `next_frame`.
impl<'a> Iterator for FrameWalk<'a> {
    type Item = Frame<'a>;

    ghost next_gives = { YieldsFirstBy frame_form (λ walk. walk.0) };

    ghost remaining = { item_count (λ walk. walk.0) };

    fn next(&mut self) -> Option<Frame<'a>> {
        self.next_frame()
    }
}

/// Returns the frames of a stream. Their offsets count from the stream's start. A stream splits
/// into frames in only one way. An empty stream has no frames. (PI specification, volume 3, section
/// 3.2.4.)
///
/// # Errors
///
/// SectionTail or SectionSize, as for `next_frame`, at the first offset where a section should
/// begin and none does. OutOfMemory at offset 0.
pub fn frames(alloc: Global, stream: &[u8]) -> Result<Frames<'_>, Fault>
    // The stream splits into these frames and this tail.
    ensures found { IfOk result (λ s. Splits s.0 s.1 stream.now) }

    // It splits in no other way.
    ensures only { IfOk result
        (λ s. (fs : List FrameForm) (tail : ℕ) → Splits fs tail stream.now → (fs ≡ s.0) × (tail ≡ s.1)) }

    // If an error other than OutOfMemory is returned, the bytes do not split into frames and a
    // tail.
    ensures none { IfErr result
        (λ f. f ≢ out_of_memory → (fs : List FrameForm) (tail : ℕ) → Splits fs tail stream.now → ⊥) }

    // An error other than OutOfMemory names the first check that fails where the next frame should
    // begin.
    ensures first { IfErr result (λ f. f ≢ out_of_memory → IsFirstFrameFault stream.now f) }

    // Every frame lies within the stream. The offset of an error is at most the stream's length.
    ensures lies { IfOk result (λ s. FramesWithin (length stream.now) s.0) }
    ensures bound { IfErr result (λ f. f.place.offset ≤ length stream.now) }

    // An empty stream is never rejected, not even because memory runs out.
    ensures some { IfErr result (λ _. 0 < length stream.now) }
{
    let mut walk = FrameWalk::of(stream)?;
    let mut list = Vec::with_capacity(alloc, walk.frames_left())?;
    while let Some(frame) = walk.next_frame() {
        list.push(frame)?;
    }
    Ok(Frames::from_parts(list, walk.tail()))
}
