//! The steps of a survey through bytes without a structure, lost bytes and volumes.

ghost use Rattle.std.specs.Prelude.{◌≡◌, ◌+◌, ◌≤◌, ◌<◌, ◌^◌, true, length, IfOk, IfErr};
ghost use Rattle.fv_base.specs.Words.{out_of_memory};
ghost use Rattle.fv_survey.specs.Fitting.{Fits};
ghost use Rattle.fv_survey.specs.inner.Fitting.{is_filed};
ghost use Rattle.fv_survey.specs.Portions.{inside, portion_form, row_of, stack};
ghost use Rattle.fv_survey.specs.Reading.{body_inside, lost_inside, parts_inside, run_after, run_inside, run_row, volume_inside, volume_said};
ghost use Rattle.fv_survey.specs.VolumeRules.{parts_by};
ghost use Rattle.fv_survey.specs.inner.Bounds.{PartsLie};

use crate::findings::Findings;
use crate::header::{first_start, volume_end};
use crate::names::name_findings;
use crate::parts::{Parts, parts_of};
use crate::pieces::Layout;
use crate::portion::{Nesting, Opening, Portion, Reading, put};
use crate::row::{Row, RowKind};
use crate::systems::Files;
use fv_base::{Fault, FaultKind};
use std::alloc::Global;

// Takes the step into the first `size` bytes of a portion, which are lost.
pub(crate) fn enter_lost<'a>(
    portions: &mut Vec<Portion<'a>>,
    portion: Portion<'a>,
    size: usize,
) -> Result<(), Fault>
    requires room { portion.at + length portion.bytes.now < 2 ^ 63 }
    requires within { size ≤ length portion.bytes.now }
    requires shallow { portion.nest.depth < 400 }
    ensures inside { IfOk result (λ _. stack portions.new.items
        ≡ lost_inside size (portion_form portion.entry) (stack portions.old.items)) }
    ensures err { IfErr result (λ f. f ≡ out_of_memory) }
{
    let unread = Reading::Run(RowKind::Unread);
    put(
        portions,
        portion.cut(unread, portion.nest.inside(), 0, size),
    )
}

// Puts the portions of the body of a volume on the stack.
fn enter_body<'a>(
    portions: &mut Vec<Portion<'a>>,
    volume: Portion<'a>,
    parts: Parts,
    nest: Nesting,
) -> Result<(), Fault>
    requires room { volume.at + length volume.bytes.now < 2 ^ 63 }
    requires first { parts.first ≤ length volume.bytes.now }
    ensures inside { IfOk result (λ _. stack portions.new.items
        ≡ body_inside parts.files nest parts (portion_form volume.entry) (stack portions.old.items)) }
    ensures err { IfErr result (λ f. f ≡ out_of_memory) }
{
    let end = volume.bytes.len();
    let reading = match parts.files {
        Files::Store => Reading::Run(RowKind::Store),
        Files::Unknown => Reading::Lost(Findings::of(FaultKind::FileSystem)),
        Files::Ffs1 | Files::Ffs2 | Files::Ffs3 => {
            return enter_cells(portions, volume, parts, nest);
        }
    };
    put(portions, volume.cut(reading, nest, parts.first, end))
}

// Puts the cells of a body on the stack, and the last bytes of a body whose length is not a multiple
// of 8.
fn enter_cells<'a>(
    portions: &mut Vec<Portion<'a>>,
    volume: Portion<'a>,
    parts: Parts,
    nest: Nesting,
) -> Result<(), Fault>
    requires room { volume.at + length volume.bytes.now < 2 ^ 63 }
    requires first { parts.first ≤ length volume.bytes.now }
    requires files { is_filed parts.files ≡ true }
    ensures inside { IfOk result (λ _. stack portions.new.items
        ≡ body_inside parts.files nest parts (portion_form volume.entry) (stack portions.old.items)) }
    ensures err { IfErr result (λ f. f ≡ out_of_memory) }
{
    let end = volume.bytes.len();
    let whole = parts.first + (end - parts.first) / 8 * 8;
    let layout = Layout {
        files: parts.files,
        polarity: parts.polarity,
        is_cut: parts.is_cut,
    };
    let odd = Reading::Lost(Findings::of(FaultKind::Length));
    put(portions, volume.cut(odd, nest, whole, end))?;
    put(
        portions,
        volume.cut(Reading::Cells(layout), nest, parts.first, whole),
    )
}

// Takes the step into a volume, which is all bytes of the portion.
fn enter_volume<'a>(
    portions: &mut Vec<Portion<'a>>,
    volume: Portion<'a>,
    parts: Parts,
) -> Result<(), Fault>
    requires room { volume.at + length volume.bytes.now < 2 ^ 63 }
    requires lie { PartsLie (length volume.bytes.now) parts }
    requires shallow { volume.nest.depth < 400 }
    ensures inside { IfOk result (λ _. stack portions.new.items
        ≡ parts_inside (inside volume.entry.nest) parts (portion_form volume.entry) (stack portions.old.items)) }
    ensures err { IfErr result (λ f. f ≡ out_of_memory) }
{
    let nest = volume.nest.inside();
    let none = Findings::NONE;
    let header = Reading::Leaf(RowKind::VolumeHeader, none);
    let between = Reading::Run(RowKind::Between);
    let ext = Reading::Leaf(RowKind::ExtHeader, none);
    let filler = Reading::Leaf(RowKind::Filler, none);
    enter_body(portions, volume, parts, nest)?;
    put(
        portions,
        volume.cut(filler, nest, parts.ext_end, parts.first),
    )?;
    put(portions, volume.cut(ext, nest, parts.ext, parts.ext_end))?;
    put(portions, volume.cut(between, nest, parts.header, parts.ext))?;
    put(portions, volume.cut(header, nest, 0, parts.header))
}

// Returns what the row of the volume says that is these bytes.
fn volume_said(alloc: Global, found: bool, bytes: &[u8], parts: Parts) -> Result<Opening, Fault>
    requires long { 56 ≤ length bytes.now }
    requires parts { parts ≡ parts_by bytes.now }
    requires lies { PartsLie (length bytes.now) parts }
    ensures said { IfOk result (λ o. o ≡ volume_said found bytes.now) }
    ensures err { IfErr result (λ f. f ≡ out_of_memory) }
{
    let names = name_findings(alloc, bytes, parts)?;
    Ok(Opening::volume(found, parts.findings.union(names), parts.name))
}

// Takes the step into a volume, which is all bytes of the portion, and returns its row.
pub(crate) fn volume_step<'a>(
    alloc: Global,
    portions: &mut Vec<Portion<'a>>,
    volume: Portion<'a>,
    found: bool,
) -> Result<Row, Fault>
    requires room { volume.at + length volume.bytes.now < 2 ^ 63 }
    requires long { 56 ≤ length volume.bytes.now }
    requires shallow { volume.nest.depth < 400 }
    ensures row { IfOk result (λ r. r ≡ row_of (volume_said found volume.entry.bytes.now) (length volume.entry.bytes.now) (portion_form volume.entry)) }
    ensures inside { IfOk result (λ _. stack portions.new.items
        ≡ volume_inside (portion_form volume.entry) (stack portions.old.items)) }
    ensures err { IfErr result (λ f. f ≡ out_of_memory) }
{
    let parts = parts_of(volume.bytes);
    let said = volume_said(alloc, found, volume.bytes, parts)?;
    enter_volume(portions, volume, parts)?;
    Ok(volume.row(said, volume.bytes.len()))
}

// Takes the step over the first row of bytes without a structure, and returns this row.
pub(crate) fn run_step<'a>(
    alloc: Global,
    portions: &mut Vec<Portion<'a>>,
    run: Portion<'a>,
    kind: RowKind,
) -> Result<Row, Fault>
    requires fits { Fits (portion_form run) }
    requires reading { run.reading ≡ Reading.Run kind }
    ensures row { IfOk result (λ r. r ≡ run_row kind (portion_form run.entry)) }
    ensures inside { IfOk result (λ _. stack portions.new.items
        ≡ run_inside (portion_form run.entry) (run_after kind (portion_form run.entry) (stack portions.old.items))) }
    ensures err { IfErr result (λ f. f ≡ out_of_memory) }
{
    let start = first_start(run.bytes);
    if start > 0 {
        put(
            portions,
            run.cut(run.reading, run.nest, start, run.bytes.len()),
        )?;
        return Ok(run.row(Opening::plain(kind, Findings::NONE), start));
    }
    if run.nest.found == 0 {
        let deep = Findings::of(FaultKind::Depth);
        return Ok(run.row(Opening::plain(RowKind::Unread, deep), run.bytes.len()));
    }
    let size = volume_end(run.bytes);
    put(
        portions,
        run.cut(run.reading, run.nest, size, run.bytes.len()),
    )?;
    let volume = run.cut(Reading::Volume, run.nest.searched(), 0, size);
    volume_step(alloc, portions, volume, true)
}
