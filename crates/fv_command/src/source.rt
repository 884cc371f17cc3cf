//! The source of an input's bytes.

ghost use Rattle.std.specs.Io.{ReadsAtMost};
ghost use Rattle.std.specs.Io.KnownBytes.{ReadConsumes};
ghost use Rattle.std.specs.IoError.{error_kind};
ghost use Rattle.std.specs.Prelude.{◌≡◌, IsErrAnd, Ok};
ghost use Rattle.fv_command.specs.PlanRuns.{unread};

use std::io;
use std::io::{ErrorKind, Read};

/// The source of an input's bytes.
#[derive(Drop)]
pub enum Source<S: Read, F: Read> {
    /// Standard input.
    Standard(S),
    /// A file.
    File(F),
    /// A file that could not be opened: every read fails.
    Missing,
    /// There is no such input: it has no bytes.
    NoInput,
}

impl<S: Read, F: Read> Read for Source<S, F> {
    ghost remaining = { unread S.remaining F.remaining };

    fn read(&mut self, buf: &mut [u8]) -> io::Result<usize>
        // A read gives bytes of the reader or the file inside, or an error. No clause says that a
        // read fails only if that reader or file does.
        ensures bound { ReadsAtMost result buf.new }
        ensures bytes { ReadConsumes (unread S.remaining F.remaining self.old) (unread S.remaining F.remaining self.new)
            result buf.new }

        // Every read of a file that could not be opened fails with NotFound, so it is not repeated.
        ensures missing { self.old ≡ Source.Missing → (self.new ≡ Source.Missing)
            × IsErrAnd result (λ e. error_kind e ≡ ErrorKind.NotFound) }

        // A read of an input that does not exist finds its end.
        ensures no_input { self.old ≡ Source.NoInput → (self.new ≡ Source.NoInput) × (result ≡ Ok 0) }
    {
        match self {
            Source::Standard(reader) => reader.read(buf),
            Source::File(file) => file.read(buf),
            Source::Missing => Err(io::Error::from(ErrorKind::NotFound)),
            Source::NoInput => Ok(0),
        }
    }
}
