//! The data of a file in the form of a section's body, so that one walk covers both.

ghost use Rattle.std.specs.Prelude.{◌≡◌};
ghost use Rattle.fv_canon.specs.inner.ImageOf.{data_body};
ghost use Rattle.fv_tree.specs.Words.{body_view};

use fv_tree::{Body, Content, FileView};

// Returns the data of a file in the form of a section's body.
pub(crate) fn data_body<'v, 'a>(file: &'v FileView<'a>) -> Body<'v, 'a>
    ensures { body_view result ≡ data_body file.now }
{
    match file.content() {
        Content::Plain(bytes) => Body::Leaf(bytes),
        Content::Stream(sections) => Body::Group(sections),
    }
}
