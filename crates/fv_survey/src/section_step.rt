//! The step of a survey through sections.

ghost use Rattle.std.specs.Prelude.{◌≡◌, ◌+◌, ◌≤◌, ◌<◌, ◌^◌, false, length, IfOk, IfErr};
ghost use Rattle.fv_base.specs.Words.{out_of_memory};
ghost use Rattle.fv_survey.specs.Fitting.{Fits};
ghost use Rattle.fv_survey.specs.inner.Fitting.{IsPlace, body_at_place};
ghost use Rattle.fv_survey.specs.Portions.{inside, portion_form, stack};
ghost use Rattle.fv_survey.specs.Reading.{body_reading, sections_after, sections_inside, sections_row};
ghost use Rattle.fv_survey.specs.SectionRules.{begins_section, begins_usual, body_form, is_opened, may_follow, next_section, place_findings, section_findings};

use crate::findings::Findings;
use crate::portion::{Nesting, Opening, Portion, Reading, put};
use crate::row::{Row, RowKind};
use crate::volume_step::enter_lost;
use fv_base::{Fault, FaultKind};
use fv_head::is_one_volume;
use fv_section::section_type::{DISPOSABLE, FIRMWARE_VOLUME_IMAGE};
use fv_section::{next_frame, section_header_len};

const COMPRESSION: u8 = 0x01;

const GUID_DEFINED: u8 = 0x02;

// The last type of a section that the specification defines.
const LAST_TYPE: u8 = 0x1c;

// How the body of a section is read.
#[derive(Clone, Copy, PartialEq, Eq)]
pub(crate) enum BodyForm {
    // The sections of a group.
    Group,
    // One volume.
    Volume,
    // The body of a compressed or GUID-defined section, which is not opened.
    Packed,
    // Bytes without a structure.
    Plain,
}

impl BodyForm {
    // Returns how the body of a section of this type is read.
    fn of(code: u8, body: &[u8]) -> BodyForm
        ensures { result ≡ body_form code body.now }
    {
        if code == DISPOSABLE {
            BodyForm::Group
        } else if code == FIRMWARE_VOLUME_IMAGE && is_one_volume(body) {
            BodyForm::Volume
        } else if code == COMPRESSION || code == GUID_DEFINED {
            BodyForm::Packed
        } else {
            BodyForm::Plain
        }
    }

    // Returns whether the body is opened: it is a group or a volume.
    fn is_opened(self) -> bool
        ensures { result ≡ is_opened self }
    {
        matches!(self, BodyForm::Group | BodyForm::Volume)
    }

    // Returns what a body of this form is read as.
    fn reading(self) -> Reading
        ensures { result ≡ body_reading self }
    {
        match self {
            BodyForm::Group => Reading::Sections(Findings::NONE),
            BodyForm::Volume => Reading::Volume,
            BodyForm::Packed => Reading::Run(RowKind::Packed),
            BodyForm::Plain => Reading::Run(RowKind::Body),
        }
    }
}

// The section that some bytes begin with: the length of its header, its length, its type, how its
// body is read, and where the next section begins.
#[derive(Clone, Copy)]
struct SectionPlace {
    header: usize,
    size: usize,
    code: u8,
    form: BodyForm,
    next: usize,
}

// Returns whether a section may follow here: one begins, or there are no more bytes.
fn may_follow(rest: &[u8]) -> bool
    ensures { result ≡ may_follow rest.now }
{
    next_frame(rest, 0).is_ok()
}

// Returns whether a section begins here, of a type that the specification defines.
fn begins_usual(rest: &[u8]) -> bool
    ensures { result ≡ begins_usual rest.now }
{
    match next_frame(rest, 0) {
        Ok(Some(frame)) => 1 <= frame.kind && frame.kind <= LAST_TYPE,
        _ => false,
    }
}

// Returns where the next section begins after a section of `size` bytes: at the next multiple of 4;
// or directly after the section, if only there a section begins.
fn next_section(rest: &[u8], size: usize) -> usize
    requires { size ≤ length rest.now }
    ensures { result ≡ next_section size rest.now }
{
    let next = ((size + 3) / 4 * 4).min(rest.len());
    if !may_follow(&rest[next..]) && begins_usual(&rest[size..]) {
        size
    } else {
        next
    }
}

// Returns the section that the bytes begin with, or why they begin with no section.
fn section_at(rest: &[u8]) -> Result<SectionPlace, Findings>
    requires { 0 < length rest.now }
    ensures found { IfOk result (λ s. IsPlace rest.now s) }
    ensures none { IfErr result (λ f. (begins_section rest.now ≡ false) × (f ≡ section_findings rest.now)) }
{
    match next_frame(rest, 0) {
        Ok(Some(frame)) => {
            let header = section_header_len(frame.extended) as usize;
            let size = header + frame.body.len();
            Ok(SectionPlace {
                header,
                size,
                code: frame.kind,
                form: BodyForm::of(frame.kind, frame.body),
                next: next_section(rest, size),
            })
        }
        Err(fault) => Err(Findings::of(fault.kind)),
        Ok(None) => unreachable!(),
    }
}

// Returns the body of a section as a portion in the section.
fn body_portion<'a>(sections: Portion<'a>, section: SectionPlace) -> Portion<'a>
    requires room { sections.at + length sections.bytes.now < 2 ^ 63 }
    requires header { section.header ≤ section.size }
    requires size { section.size ≤ length sections.bytes.now }
    requires shallow { sections.nest.depth < 400 }
    ensures { portion_form result ≡ body_at_place (inside sections.entry.nest) section (portion_form sections.entry) }
{
    let nest = sections.nest.inside();
    let form = section.form;
    if form.is_opened() && nest.levels == 0 {
        let deep = Reading::Lost(Findings::of(FaultKind::Depth));
        return sections.cut(deep, nest, section.header, section.size);
    }
    let nest = if form.is_opened() {
        nest.opened()
    } else {
        nest
    };
    sections.cut(form.reading(), nest, section.header, section.size)
}

// Returns the findings of a section that begins at the offset `at` of `size` bytes: its place is wrong
// if it is not a multiple of 4.
fn place_findings(at: usize, size: usize) -> Findings
    ensures { result ≡ place_findings at size }
{
    Findings::NONE.with_if(at % 4 != 0 && at < size, FaultKind::SectionSize)
}

// Takes the step over a section, and returns its row.
fn section_step<'a>(
    portions: &mut Vec<Portion<'a>>,
    sections: Portion<'a>,
    section: SectionPlace,
    odd: Findings,
) -> Result<Row, Fault>
    requires fits { Fits (portion_form sections) }
    requires reading { sections.reading ≡ Reading.Sections odd }
    requires place { IsPlace sections.bytes.now section }
    ensures row { IfOk result (λ r. r ≡ sections_row odd (portion_form sections.entry)) }
    ensures inside { IfOk result (λ _. stack portions.new.items
        ≡ sections_inside (portion_form sections.entry) (sections_after (portion_form sections.entry) (stack portions.old.items))) }
    ensures err { IfErr result (λ f. f ≡ out_of_memory) }
{
    let end = sections.bytes.len();
    let place = place_findings(section.next, end);
    let filler = Reading::Leaf(RowKind::Filler, Findings::NONE);
    let header = Reading::Leaf(RowKind::SectionHeader, Findings::NONE);
    put(
        portions,
        sections.cut(Reading::Sections(place), sections.nest, section.next, end),
    )?;
    put(
        portions,
        sections.cut(filler, sections.nest, section.size, section.next),
    )?;
    put(portions, body_portion(sections, section))?;
    put(
        portions,
        sections.cut(header, sections.nest.inside(), 0, section.header),
    )?;
    let is_deep = section.form.is_opened() && sections.nest.levels == 0;
    let findings = odd.with_if(is_deep, FaultKind::Depth);
    Ok(sections.row(Opening::section(section.code, findings), section.size))
}

// Takes the step over the first of some sections, or over bytes that begin with no section, and
// returns its row.
pub(crate) fn sections_step<'a>(
    portions: &mut Vec<Portion<'a>>,
    sections: Portion<'a>,
    odd: Findings,
) -> Result<Row, Fault>
    requires fits { Fits (portion_form sections) }
    requires reading { sections.reading ≡ Reading.Sections odd }
    ensures row { IfOk result (λ r. r ≡ sections_row odd (portion_form sections.entry)) }
    ensures inside { IfOk result (λ _. stack portions.new.items
        ≡ sections_inside (portion_form sections.entry) (sections_after (portion_form sections.entry) (stack portions.old.items))) }
    ensures err { IfErr result (λ f. f ≡ out_of_memory) }
{
    match section_at(sections.bytes) {
        Ok(section) => section_step(portions, sections, section, odd),
        Err(findings) => {
            let size = sections.bytes.len();
            enter_lost(portions, sections, size)?;
            Ok(sections.row(Opening::plain(RowKind::Lost, findings), size))
        }
    }
}
