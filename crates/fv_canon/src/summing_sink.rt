//! The sink of a walk over a volume. It puts the bytes that it takes into the sink below it, or
//! sums them.
//!
//! The header of a file with the checksum attribute contains a checksum of the file's data, and
//! comes before the data. So a walk goes over the data of such a file twice: it sums them first,
//! and then it puts them. The data may contain a volume, which may have files with this attribute
//! too. While the data of the outer file are being summed, such an inner file adds only its State
//! byte: its header without the file checksum and State sums to 0, and its file checksum and its
//! data sum to 0. So its data are skipped, and no byte is summed more than once, however deep such
//! files nest.

ghost use Rattle.std.specs.Prelude.{◌≡◌, false, true};
ghost use Rattle.fv_canon.specs.inner.SummingSinks.{ImageTakes, image_by, sums, total_of};

use fv_base::{Sink, sum8};

/// How a `SummingSink` treats the bytes that it takes.
#[derive(Clone, Copy, Drop)]
pub(crate) enum Mode {
    /// The sink puts the bytes into the sink below it.
    Putting,
    /// The sink sums the bytes, and puts nothing. The number is the sum so far, modulo 256.
    Summing(u8),
}

/// A sink that puts the bytes that it takes into the sink below it. Between `begin_sum` and
/// `end_sum` it sums them instead, and puts nothing.
#[derive(Drop)]
pub(crate) struct SummingSink<'a, S: Sink> {
    below: &'a mut S,
    mode: Mode,
}

impl<'a, S: Sink> Sink for SummingSink<'a, S> {
    ghost takes = { ImageTakes S.takes };

    ghost laws = { image_by S.laws };

    fn put(&mut self, bytes: &[u8]) {
        match self.mode {
            Mode::Putting => self.below.put(bytes),
            Mode::Summing(total) => self.mode = Mode::Summing(total.wrapping_add(sum8(bytes))),
        }
    }
}

impl<'a, S: Sink> SummingSink<'a, S> {
    // Makes a sink that puts into the sink `below`.
    pub(crate) fn new(below: &'a mut S) -> SummingSink<'a, S>
        ensures same_sink { result.below.ghost_name ≡ below.entry.ghost_name }
        ensures now { result.below.now ≡ below.old }
        ensures puts { sums result.mode ≡ false }
    {
        SummingSink {
            below,
            mode: Mode::Putting,
        }
    }

    // Returns whether the sink sums the bytes that it takes.
    pub(crate) fn is_summing(&self) -> bool
        ensures { result ≡ sums self.now.mode }
    {
        match self.mode {
            Mode::Putting => false,
            Mode::Summing(_) => true,
        }
    }

    // Begins a sum.
    pub(crate) fn begin_sum(&mut self)
        ensures same_sink { self.new.below.ghost_name ≡ self.old.below.ghost_name }
        ensures now { self.new.below.now ≡ self.old.below.now }
        ensures sums { sums self.new.mode ≡ true }
        ensures total { total_of self.new.mode ≡ 0 }
    {
        self.mode = Mode::Summing(0);
    }

    // Ends the sum and returns it, modulo 256.
    pub(crate) fn end_sum(&mut self) -> u8
        ensures same_sink { self.new.below.ghost_name ≡ self.old.below.ghost_name }
        ensures now { self.new.below.now ≡ self.old.below.now }
        ensures puts { sums self.new.mode ≡ false }
        ensures total { result ≡ total_of self.old.mode }
    {
        let total = match self.mode {
            Mode::Putting => 0,
            Mode::Summing(total) => total,
        };
        self.mode = Mode::Putting;
        total
    }
}
