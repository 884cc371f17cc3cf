//! The frames of a stream.

ghost use Rattle.std.specs.Prelude.{◌≡◌, map};
ghost use Rattle.fv_section.specs.StreamReads.{frame_form};

use crate::frame::Frame;
use std::marker::Model;

/// The frames of a stream in order, and the number of bytes after the last frame. Contracts see the
/// list of the frames and that number. (PI specification, volume 3, section 3.2.4.)
#[derive(Drop)]
pub struct Frames<'a> {
    list: Vec<Frame<'a>>,
    tail: u8,
}

impl<'a> Model for Frames<'a> {
    ghost use Rattle.std.specs.Prelude.{ℕ, List, map};
    ghost use Rattle.fv_section.specs.Frames.{FrameForm};
    ghost use Rattle.fv_section.specs.StreamReads.{frame_form};

    ghost Value = { List FrameForm × ℕ };

    ghost view = { λ s. (map frame_form s.list.items, s.tail) };
}

impl<'a> Frames<'a> {
    // Makes a `Frames` of the frames in a vector and the number of bytes after the last frame.
    // Allocates no memory.
    pub(crate) fn from_parts(list: Vec<Frame<'a>>, tail: u8) -> Frames<'a>
        ensures { result ≡ (map frame_form list.entry.items, tail) }
    {
        Frames { list, tail }
    }

    /// Returns the frames in order.
    pub fn as_slice(&self) -> &[Frame<'a>]
        ensures { map frame_form result.now ≡ self.now.0 }
    {
        self.list.as_slice()
    }

    /// Returns the number of bytes after the last frame, 0 to 3.
    pub fn tail(&self) -> u8
        ensures { result ≡ self.now.1 }
    {
        self.tail
    }
}
