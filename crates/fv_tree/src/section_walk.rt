//! A walk over the sections of a file.

ghost use Rattle.std.specs.Prelude.{◌≡◌};
ghost use Rattle.std.specs.Iterator.{YieldsFirst, item_count};
ghost use Rattle.fv_tree.specs.LookupInstances.{preorder};
ghost use Rattle.fv_tree.specs.Meaning.{content_of};
ghost use Rattle.fv_tree.specs.MeaningParts.{sections_in_data};

use crate::view::{Body, FileView, SectionView, Sections};
use arrayvec::ArrayVec;
use std::marker::Model;
use std::mem::replace;

/// A walk over the sections of a file in preorder: a group is followed by the sections in it. The
/// sections of a nested volume are not visited. Contracts see the list of the sections that are
/// left. (PI specification, volume 3, section 3.2.4.)
#[derive(Drop)]
pub struct SectionWalk<'v, 'a> {
    // The sections that are left in the innermost group that the walk is in, or in the file if the
    // walk is not in a group.
    sections: Sections<'v, 'a>,
    // The sections that are left around this group: first the sections of the file, then the
    // sections of each group around it, from the outermost group inwards. Groups nest at most eight
    // deep.
    outer: ArrayVec<Sections<'v, 'a>, 8>,
}

impl<'v, 'a> Model for SectionWalk<'v, 'a> {
    ghost use Rattle.std.specs.Prelude.{List, [], ◌∷◌, ◌++◌};
    ghost use Rattle.std.specs.Coded.{coded_list};
    ghost use Rattle.fv_tree.specs.inner.Codes.{section_code};
    ghost use Rattle.fv_tree.specs.Meaning.{SectionMeaning};

    ghost Value = { List SectionMeaning };

    ghost coded = { coded_list section_code };

    ghost use Rattle.fv_tree.specs.SectionWalks.{AreLevels, left_in};

    ghost view = { λ w. left_in (w.outer.items ++ w.sections ∷ []) };

    ghost invariant = { λ w. AreLevels 0 (w.outer.items ++ w.sections ∷ []) };
}

impl<'v, 'a> SectionWalk<'v, 'a> {
    /// Starts a walk over all sections of a file. A file whose data are plain bytes has none. Takes
    /// no memory. (PI specification, volume 3, section 3.2.4.)
    #[tactic(auto, using(crate::proofs::SectionWalkLaws::file_nests))]
    pub fn of(file: &'v FileView<'a>) -> SectionWalk<'v, 'a>
        ensures { result ≡ preorder (sections_in_data (content_of file.now)) }
    {
        file.known();
        SectionWalk {
            sections: file.sections(),
            outer: ArrayVec::new(),
        }
    }
}

/// Returns the first of the remaining sections, and keeps the others. Returns None after the last
/// section. Takes no memory.
impl<'v, 'a> Iterator for SectionWalk<'v, 'a> {
    type Item = SectionView<'v, 'a>;

    ghost next_gives = { YieldsFirst (λ left. left) };

    ghost remaining = { item_count (λ left. left) };

    fn next(&mut self) -> Option<SectionView<'v, 'a>> {
        loop {
            if let Some(section) = self.sections.next_section() {
                let Body::Group(inside) = section.body() else {
                    return Some(section);
                };
                let around = replace(&mut self.sections, inside);
                self.outer.push(around);
                return Some(section);
            }
            self.sections = self.outer.pop()?;
        }
    }
}
