//! A sink that is borrowed.

ghost use Rattle.std.specs.Prelude.{◌≡◌};
ghost use Rattle.fv_text.specs.SinkAdapters.{LentTakes};
ghost use Rattle.fv_text.specs.inner.SinkAdapterLaws.{lent_by};

use fv_base::Sink;

/// A sink that passes all bytes to a borrowed sink. A `HexSink` or a `GatheringSink` owns the sink
/// below it. If that sink is a `LentSink`, the caller keeps the sink that takes the bytes.
#[derive(Drop)]
pub struct LentSink<'a, S: Sink> {
    sink: &'a mut S,
}

impl<'a, S: Sink> LentSink<'a, S> {
    /// Makes a sink that lends this sink.
    pub fn new(sink: &'a mut S) -> LentSink<'a, S>
        ensures name { result.sink.ghost_name ≡ sink.entry.ghost_name }
        ensures now { result.sink.now ≡ sink.old }
    {
        LentSink { sink }
    }
}

/// The lent sink takes the bytes.
impl<'a, S: Sink> Sink for LentSink<'a, S> {
    ghost takes = { LentTakes S.takes (λ s. s.sink.now) (λ s. s.sink.ghost_name) };

    ghost laws = { lent_by S.takes (λ s. s.sink.now) (λ s. s.sink.ghost_name) S.laws };

    fn put(&mut self, bytes: &[u8]) {
        self.sink.put(bytes);
    }
}
