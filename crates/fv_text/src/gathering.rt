//! A sink that gathers small pieces.

ghost use Rattle.std.specs.Prelude.{◌≡◌, ◌≤◌, ◌+◌, [], length, take};
ghost use Rattle.fv_text.specs.SinkAdapters.{Gathered};
ghost use Rattle.fv_text.specs.inner.SinkAdapterLaws.{gathered_by};

use crate::copying::copy_to;
use fv_base::Sink;

/// The maximum number of bytes that wait.
const ROOM: usize = 8192;

/// A sink that gathers small pieces, of at most 8,192 bytes each, and puts them into the sink below
/// together. `finish` puts the bytes that still wait.
#[derive(Drop)]
pub struct GatheringSink<S: Sink> {
    /// The sink into which the pieces are put.
    below: S,
    /// The waiting bytes, followed by old contents.
    room: [u8; ROOM],
    /// The number of bytes that wait.
    filled: usize,
    ghost fits: { filled ≤ 8192 },
}

impl<S: Sink> GatheringSink<S> {
    /// Makes a sink in which no bytes wait.
    pub fn new(below: S) -> GatheringSink<S>
        ensures below { result.below ≡ below }
        ensures filled { result.filled ≡ 0 }
    {
        GatheringSink {
            below,
            room: [0; ROOM],
            filled: 0,
        }
    }

    // Puts the waiting bytes into the sink below. This function is not inlined, so that the
    // compiler inlines `put`: a small piece is then copied right where `put` is called.
    #[inline(never)]
    fn pass(&mut self)
        ensures takes { Gathered S.takes self.old.below (take self.old.filled self.old.room) []
            self.new.below (take self.new.filled self.new.room) }
        ensures filled { self.new.filled ≡ 0 }
    {
        self.below.put(&self.room[..self.filled]);
        self.filled = 0;
    }

    // Puts the waiting bytes into the sink below, unless there is room for `count` more.
    fn make_room(&mut self, count: usize)
        requires { count ≤ 8192 }
        ensures takes { Gathered S.takes self.old.below (take self.old.filled self.old.room) []
            self.new.below (take self.new.filled self.new.room) }
        ensures room { self.new.filled + count ≤ 8192 }
    {
        if count > ROOM - self.filled {
            self.pass();
        }
    }

    // Puts the waiting bytes into the sink below, and then these bytes.
    #[inline(never)]
    #[tactic(auto, using(crate::proofs::GatheringLemmas::passed_on))]
    fn pass_on(&mut self, bytes: &[u8])
        ensures { Gathered S.takes self.old.below (take self.old.filled self.old.room) bytes.now
            self.new.below (take self.new.filled self.new.room) }
    {
        self.pass();
        self.below.put(bytes);
    }

    // Adds the bytes to the waiting bytes. There must be room for them.
    fn keep(&mut self, bytes: &[u8])
        requires { self.old.filled + length bytes.now ≤ 8192 }
        ensures { Gathered S.takes self.old.below (take self.old.filled self.old.room) bytes.now
            self.new.below (take self.new.filled self.new.room) }
    {
        copy_to(&mut self.room, self.filled, bytes);
        self.filled += bytes.len();
    }

    /// Puts the bytes that still wait into the sink below, and returns that sink.
    pub fn finish(self) -> S
        ensures { S.takes self.below (take self.filled self.room) result }
    {
        let GatheringSink {
            below,
            room,
            filled,
        } = self;
        let mut out = below;
        out.put(&room[..filled]);
        out
    }
}

/// The bytes put into the sink below, followed by the bytes that wait, are all that this sink took.
impl<S: Sink> Sink for GatheringSink<S> {
    ghost takes = { λ s bytes t. Gathered S.takes s.below (take s.filled s.room) bytes t.below (take t.filled t.room) };

    ghost laws = { gathered_by S.takes (λ s. s.below) (λ s. take s.filled s.room) S.laws };

    fn put(&mut self, bytes: &[u8]) {
        if bytes.len() <= ROOM {
            self.make_room(bytes.len());
            self.keep(bytes);
        } else {
            self.pass_on(bytes);
        }
    }
}
