//! Putting the line of a comparison into a sink.

ghost use Rattle.std.specs.Prelude.{◌≤◌, ◌+◌, ◌*◌, ◌≡◌, length, option_copied, Some, IfSome};
ghost use Rattle.fv_compare.specs.ComparisonLines.{compare_line, path_text, step_text, difference_word};

use fv_base::Sink;
use fv_text::put_decimal;
use fv_tree::{Difference, DifferenceKind, Step};

// Puts a step: `file` or `section`, its number, and a space.
fn put_step<S: Sink>(out: &mut S, step: Step)
    ensures text { S.takes out.old (step_text step) out.new }
    ensures short { length (step_text step) ≤ 29 }
{
    match step {
        Step::File(number) => {
            out.put(b"file ");
            put_decimal(out, number);
            out.put(b" ");
        }
        Step::Section(number) => {
            out.put(b"section ");
            put_decimal(out, number);
            out.put(b" ");
        }
    }
}

// Puts the steps, from the outer volume down.
fn put_path<S: Sink>(out: &mut S, steps: &[Step])
    ensures text { S.takes out.old (path_text steps.now) out.new }
    ensures short { length (path_text steps.now) ≤ 29 * length steps.now }
{
    for step in steps {
        put_step(out, *step);
    }
}

// Returns the text of a kind of difference.
fn difference_word(word: DifferenceKind) -> &'static str
    ensures text { result.now ≡ difference_word word }
    ensures short { length result.now ≤ 17 }
{
    match word {
        DifferenceKind::ZeroVector => "zero vector",
        DifferenceKind::FileSystem => "file system",
        DifferenceKind::Length => "length",
        DifferenceKind::VolumeAttributes => "volume attributes",
        DifferenceKind::Reserved => "reserved",
        DifferenceKind::BlockMap => "block map",
        DifferenceKind::ExtendedHeader => "extended header",
        DifferenceKind::FileCount => "file count",
        DifferenceKind::Name => "name",
        DifferenceKind::Type => "type",
        DifferenceKind::Attributes => "attributes",
        DifferenceKind::Data => "data",
        DifferenceKind::SectionCount => "section count",
        DifferenceKind::Tail => "tail",
        DifferenceKind::Form => "form",
        DifferenceKind::Shape => "shape",
        DifferenceKind::Body => "body",
    }
}

// Puts the line that shows where two volumes first differ.
fn put_difference<S: Sink>(out: &mut S, difference: &Difference)
    ensures line { S.takes out.old (compare_line (Some difference.now)) out.new }
    ensures short { length (compare_line (Some difference.now)) ≤ 31 + 29 * length difference.now.0 }
{
    out.put(b"different at ");
    put_path(out, difference.steps());
    out.put(difference_word(difference.word()).as_bytes());
    out.put(b"\n");
}

// Puts the line for two volumes: where they first differ, or that they have the same meaning.
pub(crate) fn put_line<S: Sink>(out: &mut S, found: Option<&Difference>)
    requires few { IfSome (option_copied found) (λ d. length d.0 ≤ 18) }
    ensures line { S.takes out.old (compare_line (option_copied found.entry)) out.new }
    ensures short { length (compare_line (option_copied found.entry)) ≤ 553 }
{
    match found {
        Some(difference) => put_difference(out, difference),
        None => out.put(b"same\n"),
    }
}
