//! The walk over the parts of an image at every level.

ghost use Rattle.std.specs.Prelude.{◌≡◌, ◌++◌, ◌∷◌, [], IfOk, IfErr, IfSome, IfNone, option_to_list};
ghost use Rattle.fv_base.specs.Words.{out_of_memory};
ghost use Rattle.fv_same.specs.inner.Placed.{placed_form};
ghost use Rattle.fv_same.specs.Parts.{asides_among, asides_of, parts_among, placed_parts};
ghost use Rattle.fv_same.specs.inner.Walks.{Steps};

use crate::part::Part;
use crate::walk::{SourceWalk, walk_in, walk_of};
use fv_base::Fault;
use fv_budget::NESTING_LIMIT;
use fv_levels::Levels;
use std::alloc::Global;
use std::marker::Model;

/// A step of a walk.
#[derive(Clone, Copy)]
pub(crate) enum Step<'a> {
    /// Nothing is left.
    End,
    /// A source has no more rows.
    Over,
    /// A row, and its part, if there is one.
    Row(Option<Part<'a>>),
}

// Puts a source on the stack, and then the contents of a section of it, if they are read next.
fn put<'a>(
    walks: &mut Vec<SourceWalk<'a>>,
    walk: SourceWalk<'a>,
    inner: Option<SourceWalk<'a>>,
) -> Result<(), Fault>
    ensures put { IfOk result (λ _. walks.new.items ≡ (walks.old.items ++ walk.entry ∷ []) ++ option_to_list inner.entry) }
    ensures err { IfErr result (λ f. f ≡ out_of_memory) }
{
    walks.push(walk)?;
    if let Some(inner) = inner {
        walks.push(inner)?;
    }
    Ok(())
}

/// A walk over the parts of an image at every level.
#[derive(Drop)]
pub(crate) struct PartWalk<'a, 'b> {
    levels: &'a Levels<'b>,
    // The sources that are read. The last is the contents of a section of the one before it, and is
    // read first.
    walks: Vec<SourceWalk<'a>>,
}

impl<'a, 'b> Model for PartWalk<'a, 'b> {
    ghost use Rattle.std.specs.Prelude.{length};
    ghost use Rattle.fv_same.specs.inner.Walks.{WalkForm, stack_items};

    ghost Value = { WalkForm };

    ghost view = { λ w. record {
      items = stack_items w.levels.now.sources w.walks.items;
      reading = length w.walks.items;
    } };
}

impl<'a, 'b> PartWalk<'a, 'b> {
    /// Starts a walk over the parts of an image.
    pub(crate) fn of(alloc: Global, levels: &'a Levels<'b>) -> Result<PartWalk<'a, 'b>, Fault>
        ensures parts { IfOk result (λ w. parts_among w.items ≡ placed_parts levels.now) }
        ensures asides { IfOk result (λ w. asides_among w.items ≡ asides_of levels.now) }
        ensures err { IfErr result (λ f. f ≡ out_of_memory) }
    {
        let mut walks = Vec::new(alloc);
        if let Some(walk) = walk_of(alloc, levels, 0, NESTING_LIMIT)? {
            walks.push(walk)?;
        }
        Ok(PartWalk { levels, walks })
    }

    // Takes the next step.
    fn step(&mut self, alloc: Global) -> Result<Step<'a>, Fault>
        ensures step { IfOk result (λ s. Steps self.old s self.new) }
        ensures err { IfErr result (λ f. f ≡ out_of_memory) }
    {
        let Some(mut walk) = self.walks.pop() else {
            return Ok(Step::End);
        };
        let Some(row) = walk.rows.next_row(alloc)? else {
            return Ok(Step::Over);
        };
        let (part, contents) = walk.reader.read_row(self.levels, &row)?;
        let room = walk.room;
        let inner = walk_in(alloc, self.levels, contents, room)?;
        put(&mut self.walks, walk, inner)?;
        Ok(Step::Row(part))
    }

    /// Returns the next part, or None after the last one.
    ///
    /// # Errors
    ///
    /// OutOfMemory at offset 0. What the walk has left is not specified then.
    pub(crate) fn next_part(&mut self, alloc: Global) -> Result<Option<Part<'a>>, Fault>
        ensures some { IfOk result (λ o. IfSome o (λ p. parts_among self.old.items ≡ placed_form p ∷ parts_among self.new.items)) }
        ensures none { IfOk result (λ o. IfNone o ((parts_among self.old.items ≡ []) × (parts_among self.new.items ≡ []))) }
        ensures err { IfErr result (λ f. f ≡ out_of_memory) }
    {
        loop {
            match self.step(alloc)? {
                Step::End => return Ok(None),
                Step::Row(Some(part)) if !part.outside => return Ok(Some(part)),
                Step::Over | Step::Row(_) => {}
            }
        }
    }

    /// Returns the next bytes outside of the meaning, or None after the last.
    ///
    /// # Errors
    ///
    /// OutOfMemory at offset 0. What the walk has left is not specified then.
    pub(crate) fn next_aside(&mut self, alloc: Global) -> Result<Option<&'a [u8]>, Fault>
        ensures some { IfOk result (λ o. IfSome o (λ b. asides_among self.old.items ≡ b.now ∷ asides_among self.new.items)) }
        ensures none { IfOk result (λ o. IfNone o ((asides_among self.old.items ≡ []) × (asides_among self.new.items ≡ []))) }
        ensures err { IfErr result (λ f. f ≡ out_of_memory) }
    {
        loop {
            match self.step(alloc)? {
                Step::End => return Ok(None),
                Step::Row(Some(part)) if part.outside => return Ok(Some(part.bytes)),
                Step::Over | Step::Row(_) => {}
            }
        }
    }
}
