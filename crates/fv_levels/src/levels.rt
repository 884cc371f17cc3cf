//! The sources of an image at every level, and the packed sections that are not opened.

ghost use Rattle.std.specs.Prelude.{◌≡◌, ◌≤◌, ◌<◌, [], ◌∷◌, length, option_map, slice_get, IfErr, IfOk, IfSome, OnOk};
ghost use Rattle.fv_base.specs.Words.{out_of_memory};
ghost use Rattle.fv_levels.specs.Attempts.{levels_with};
ghost use Rattle.fv_levels.specs.inner.Outcomes.{outcome_form};
ghost use Rattle.fv_levels.specs.inner.Opening.{HasRoom};
ghost use Rattle.fv_levels.specs.Sources.{image_source, rows_of, source_form};

use crate::attempt::Outcome;
use crate::opened::OpenedSection;
use crate::place::{Closed, Origin, PackedPlace};
use fv_base::Fault;
use fv_survey::SurveyWalk;
use std::alloc::Global;
use std::marker::Model;

/// A source: the image, or the contents of a packed section of an earlier source.
#[derive(Clone, Copy)]
pub struct Source<'a> {
    /// The number of opened sections around the bytes: 0 for the image, and otherwise 1 to 8.
    pub depth: usize,
    /// The bytes.
    pub bytes: &'a [u8],
    /// The section that the bytes are the contents of. None for the image.
    pub origin: Option<Origin>,
}

impl<'a> Source<'a> {
    /// Starts a walk over the rows of the survey of the source: of the image, or of the contents of a
    /// section, which are a stream of sections. (PI specification, volume 3, section 3.2.)
    ///
    /// # Errors
    ///
    /// OutOfMemory at offset 0.
    pub fn walk(&self, alloc: Global) -> Result<SurveyWalk<'a>, Fault>
        ensures rows { IfOk result (λ w. w ≡ rows_of (source_form self.now)) }
        ensures err { IfErr result (λ f. f ≡ out_of_memory) }
    {
        match self.origin {
            None => SurveyWalk::of(alloc, self.bytes),
            Some(_) => SurveyWalk::of_sections(alloc, self.bytes),
        }
    }
}

/// All levels of an image: the sources, which are the image and the contents of the packed sections
/// that are opened, and the packed sections that are not opened.
#[derive(Drop)]
pub struct Levels<'a> {
    image: &'a [u8],
    opened: Vec<OpenedSection>,
    closed: Vec<Closed>,
}

impl<'a> Model for Levels<'a> {
    ghost use Rattle.std.specs.Prelude.{◌∷◌, map};
    ghost use Rattle.fv_levels.specs.Sources.{LevelsForm, image_source, opened_source};

    ghost Value = { LevelsForm };

    ghost view = { λ w. record {
      sources = image_source w.image.now ∷ map opened_source w.opened.items;
      closed = w.closed.items;
    } };
}

impl<'a> Levels<'a> {
    // Returns the image as the only source.
    pub(crate) fn of(alloc: Global, image: &'a [u8]) -> Levels<'a>
        ensures sources { result.sources ≡ image_source image.now ∷ [] }
        ensures closed { result.closed ≡ [] }
    {
        Levels {
            image,
            opened: Vec::new(alloc),
            closed: Vec::new(alloc),
        }
    }

    /// Returns the number of the sources. It is at least 1.
    pub fn count(&self) -> usize
        ensures { result ≡ length self.now.sources }
    {
        self.opened.len() + 1
    }

    /// Returns the source with this number, if there is one. Source 0 is the image.
    pub fn source(&self, number: usize) -> Option<Source<'_>>
        ensures source { option_map source_form result ≡ slice_get self.now.sources number }

        // There are at most 8 opened sections around the bytes.
        ensures depth { IfSome result (λ s. s.depth ≤ 8) }
    {
        if number == 0 {
            return Some(Source {
                depth: 0,
                bytes: self.image,
                origin: None,
            });
        }
        let section = self.opened.get(number - 1)?;
        Some(Source {
            depth: section.depth,
            bytes: section.contents.as_slice(),
            origin: Some(section.origin),
        })
    }

    /// Returns the packed sections that are not opened, in the order of the sources and, in each
    /// source, of the rows of its survey.
    pub fn closed(&self) -> &[Closed]
        ensures { result.now ≡ self.now.closed }
    {
        self.closed.as_slice()
    }

    // Keeps the outcome of an attempt to open the packed section at this place.
    pub(crate) fn keep(&mut self, place: PackedPlace, outcome: Outcome) -> Result<(), Fault>
        requires { HasRoom place.depth (outcome_form outcome) }
        ensures kept { OnOk result (self.new ≡ levels_with self.old (record { place = place; outcome = outcome_form outcome } ∷ [])) }
        ensures err { IfErr result (λ f. f ≡ out_of_memory) }
    {
        match outcome {
            Outcome::Opened(way, contents) => self.opened.push(OpenedSection {
                depth: place.depth + 1,
                origin: Origin { place, way },
                contents,
            })?,
            Outcome::Closed(reason) => self.closed.push(Closed { place, reason })?,
        }
        Ok(())
    }
}
