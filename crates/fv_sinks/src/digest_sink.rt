//! A sink that keeps only the digest of the bytes that it takes.

ghost use Rattle.std.specs.Prelude.{◌≡◌, ℕ, List, []};
ghost use Rattle.sha2.specs.Sha256.{sha256};
ghost use Rattle.fv_sinks.specs.DigestSinks.{DigestTakes, HasTaken};
ghost use Rattle.fv_sinks.specs.inner.SinkLaws.{digest_by};

use fv_base::Sink;
use sha2::{Digest, Sha256};

/// A sink that computes the SHA-256 of the bytes that it takes.
#[derive(Drop)]
pub struct DigestSink {
    hasher: Sha256,
}

impl DigestSink {
    /// Makes a sink that has taken no bytes.
    pub fn new() -> DigestSink
        ensures { HasTaken result [] }
    {
        DigestSink {
            hasher: Sha256::new(),
        }
    }

    /// Returns the SHA-256 of all the bytes that the sink took.
    pub fn finish(self) -> [u8; 32]
        ensures { (message : List ℕ) → HasTaken self message → result ≡ sha256 message }
    {
        let DigestSink { hasher } = self;
        hasher.finalize()
    }
}

/// The sink takes all of the bytes, after the bytes that it took before.
impl Sink for DigestSink {
    ghost takes = { DigestTakes (λ s. s.hasher) };

    ghost laws = { digest_by (λ s. s.hasher) };

    fn put(&mut self, bytes: &[u8]) {
        self.hasher.update(bytes);
    }
}
