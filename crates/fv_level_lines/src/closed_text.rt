//! The lines of the packed sections that are not opened.

ghost use Rattle.std.specs.List.{flat_map};
ghost use Rattle.fv_level_lines.specs.LevelTexts.{closed_line, reason_text};

use crate::source_text::put_place;
use fv_base::Sink;
use fv_levels::{Closed, Reason};
use fv_opened::{put_spent, put_too_deep, put_unopened};

// Puts why a section is not opened, and ends its line.
fn put_reason<S: Sink>(out: &mut S, reason: Reason)
    ensures { S.takes out.old (reason_text reason) out.new }
{
    match reason {
        Reason::Fault(fault) => put_unopened(out, fault),
        Reason::TooDeep => put_too_deep(out),
        Reason::Spent => put_spent(out),
    }
}

// Puts the line of a section that is not opened.
fn put_closed_line<S: Sink>(out: &mut S, closed: &Closed)
    ensures { S.takes out.old (closed_line closed.now) out.new }
{
    out.put(b"closed");
    put_place(out, &closed.place);
    put_reason(out, closed.reason);
}

/// Puts the lines of the sections that are not opened.
pub(crate) fn put_closed<S: Sink>(out: &mut S, sections: &[Closed])
    ensures { S.takes out.old (flat_map closed_line sections.now) out.new }
{
    for closed in sections {
        put_closed_line(out, closed);
    }
}
