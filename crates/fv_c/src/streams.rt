//! Streams of sections.

ghost use Rattle.std.specs.Prelude.{◌≡◌, ◌≢◌, [], true, false};

use fv_tree::StreamView;

// Returns whether a stream has no section.
pub(crate) fn is_empty(stream: &StreamView<'_>) -> bool
    ensures none { result ≡ true → stream.now.0 ≡ [] }
    ensures some { result ≡ false → stream.now.0 ≢ [] }
{
    let mut sections = stream.sections();
    sections.next_section().is_none()
}
