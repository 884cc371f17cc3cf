//! Reads the arguments of each command into a plan.

ghost use Rattle.clap.specs.Words.{App, first_value, found_of};
ghost use Rattle.fv_arguments.specs.Options.{flag_in};
ghost use Rattle.fv_arguments.specs.inner.CommandWords.{AreRightFor, AsksOrFails, IsParsed, ParsesOrFails, list_task};
ghost use Rattle.fv_arguments.specs.CommandLines.{AsksBy, HasInput, IsAtWord, IsImageWords, IsInstanceWord, IsNumberWord};
ghost use Rattle.fv_arguments.specs.CommandLines.{IsNumeralOf, IsPartBy, IsPathText, IsPathWord, IsVolumeWords};
ghost use Rattle.fv_base.specs.Words.{guid_read};
ghost use Rattle.std.specs.String.{string_bytes};
ghost use Rattle.std.specs.Prelude.{◌≡◌, ◌≤◌, ℕ, List, Some, codes, drop, length, map, if◌then◌else◌};
ghost use Rattle.std.specs.Prelude.{option_and_then, option_map, IfErr, IfOk, IfSome, SomeIff};
ghost use Rattle.std.specs.Str.Parse.{IsNumeral, digits_value};

use crate::rules::rules_of;
use crate::words::WordFault;
use clap::ArgMatches;
use clap::error::ErrorKind;
use fv_base::Guid;
use fv_plan::{Command, ImageFile, Part, Plan, Task, VolumeFile};
use std::alloc::{AllocError, Global};

/// An error of the kind OutOfMemory becomes OutOfMemory, and any other error becomes Words.
impl From<clap::Error> for WordFault {
    ghost use Rattle.clap.specs.Words.{kind_of};
    ghost use Rattle.clap.specs.declared.error.kind.ErrorKind.TheVariants as error_kinds;
    ghost use Rattle.fv_arguments.specs.declared.words.WordFault.TheVariants.{Words, OutOfMemory};
    ghost use Rattle.std.specs.Prelude.{◌≡◌, ◌≢◌};

    ghost from_gives = { λ e f. (kind_of e ≡ error_kinds.OutOfMemory → f ≡ OutOfMemory)
        × (kind_of e ≢ error_kinds.OutOfMemory → f ≡ Words) };

    fn from(error: clap::Error) -> WordFault {
        WordFault::by_memory(error.kind() == ErrorKind::OutOfMemory)
    }
}

// Returns the file that the argument with this name gives, if it is given.
fn file_of(
    alloc: Global,
    matches: &ArgMatches<'_>,
    name: &str,
) -> Result<Option<String>, AllocError>
    ensures { IfOk result (λ f. option_map string_bytes f ≡ first_value (found_of matches.now) name.now) }
{
    match matches.get_str(name) {
        Some(path) => Ok(Some(String::from_str(alloc, path)?)),
        None => Ok(None),
    }
}

// Reads a decimal number, which may have a plus before it.
pub(crate) fn decimal(text: &str) -> Result<u64, WordFault>
    ensures { ParsesOrFails (IsNumberWord 64 text.now) result }
{
    match text.parse() {
        Ok(n) => Ok(n),
        Err(_) => Err(WordFault::Words),
    }
}

// Reads a hexadecimal number without a prefix. Its digits are in upper or lower case.
fn hexadecimal(digits: &str) -> Result<u64, WordFault>
    ensures { ParsesOrFails (IsNumeralOf 16 64 digits.now) result }
{
    if digits.starts_with('+') {
        return Err(WordFault::Words);
    }
    match u64::from_str_radix(digits, 16) {
        Ok(n) => Ok(n),
        Err(_) => Err(WordFault::Words),
    }
}

// Reads the byte at which a volume begins: a decimal number, or `0x` and hexadecimal digits.
pub(crate) fn volume_offset(text: &str) -> Result<u64, WordFault>
    ensures { ParsesOrFails (λ n. IsAtWord (Some text.now) (Some n)) result }
{
    match text.strip_prefix("0x") {
        Some(digits) => hexadecimal(digits),
        None => decimal(text),
    }
}

// Reads the byte at which a volume begins, or returns None if there is no text.
fn volume_offset_of(text: Option<&str>) -> Result<Option<u64>, WordFault>
    ensures { ParsesOrFails (IsAtWord (option_map (λ s. s.now) text.entry)) result }
{
    match text {
        Some(text) => Ok(Some(volume_offset(text)?)),
        None => Ok(None),
    }
}

// Returns the input of a command: the byte at which the volume begins, and the file, each if it is
// given.
fn input_of(
    alloc: Global,
    matches: &ArgMatches<'_>,
) -> Result<(Option<u64>, Option<String>), WordFault>
    ensures { (app : App) (rest : List (List ℕ)) → IsParsed app rest matches.now
        → ParsesOrFails (λ i. HasInput app rest i.0 i.1) result }
{
    let at = volume_offset_of(matches.get_str("at"))?;
    Ok((at, file_of(alloc, matches, "file")?))
}

// Returns whether the flag with this name is given.
fn is_given(matches: &ArgMatches<'_>, name: &str) -> bool
    ensures { (app : App) (rest : List (List ℕ)) → IsParsed app rest matches.now → result ≡ flag_in app name.now rest }
{
    matches.get_one::<bool>(name).unwrap_or(false)
}

// Returns the first task if the flag is given, otherwise the other task.
fn task_by(given: bool, task: Task, other: Task) -> Task
    ensures { result ≡ if given then task else other }
{
    if given { task } else { other }
}

// Reads the arguments of `normalise` or `check`. If the flag `--all` is given, the task is `whole`,
// for an image with all its volumes. Otherwise it is `single`, for one volume. With the flag,
// `--at` is wrong.
fn on_image(
    alloc: Global,
    matches: &ArgMatches<'_>,
    whole: Task,
    single: Task,
) -> Result<Command, WordFault>
    ensures normalise { whole ≡ Task.NormaliseAll → single ≡ Task.Normalise
        → AsksOrFails (codes "normalise") matches.now result }
    ensures check { whole ≡ Task.CheckAll → single ≡ Task.Check → AsksOrFails (codes "check") matches.now result }
{
    let all = is_given(matches, "all");
    let (at, file) = input_of(alloc, matches)?;
    if all && at.is_some() {
        return Err(WordFault::Words);
    }
    let task = task_by(all, whole, single);
    Ok(Command::Single { task, at, file })
}

// Returns the task of `list`, by whether the flags `--sums` and `--open` are given. Returns None if
// both are given.
fn list_task(sums: bool, opened: bool) -> Option<Task>
    ensures { result ≡ list_task sums opened }
{
    match (sums, opened) {
        (false, false) => Some(Task::List),
        (true, false) => Some(Task::ListSums),
        (false, true) => Some(Task::ListOpened),
        (true, true) => None,
    }
}

// Reads the arguments of `list`: a volume, and whether the list shows digests or goes through packed
// sections.
fn list(alloc: Global, matches: &ArgMatches<'_>) -> Result<Command, WordFault>
    ensures { AsksOrFails (codes "list") matches.now result }
{
    let (sums, opened) = (is_given(matches, "sums"), is_given(matches, "open"));
    let (at, file) = input_of(alloc, matches)?;
    match list_task(sums, opened) {
        Some(task) => Ok(Command::Single { task, at, file }),
        None => Err(WordFault::Words),
    }
}

// Returns the image with this path and this base, if both are given. If only one of the two is
// given, the arguments are wrong.
fn image_of(
    alloc: Global,
    path: Option<&str>,
    base: Option<&str>,
) -> Result<Option<ImageFile>, WordFault>
    ensures { ParsesOrFails (IsImageWords (option_map (λ s. s.now) path.entry) (option_map (λ s. s.now) base.entry)) result }
{
    match (path, base) {
        (None, None) => Ok(None),
        (Some(path), Some(base)) => Ok(Some(ImageFile {
            path: String::from_str(alloc, path)?,
            base: decimal(base)?,
        })),
        _ => Err(WordFault::Words),
    }
}

// Reads the arguments of `hobs`: a list, and the image in which its volumes are looked up.
fn hobs(alloc: Global, matches: &ArgMatches<'_>) -> Result<Command, WordFault>
    ensures { AsksOrFails (codes "hobs") matches.now result }
{
    let (path, base) = (matches.get_str("image"), matches.get_str("base"));
    Ok(Command::Hobs {
        file: file_of(alloc, matches, "file")?,
        image: image_of(alloc, path, base)?,
    })
}

// Reads a section type: one or two hexadecimal digits, in upper or lower case. Returns None if the
// text is anything else.
pub(crate) fn section_type(text: &str) -> Option<u8>
    ensures { SomeIff result (IsNumeral 16 text.now × (length text.now ≤ 2)) (digits_value 16 text.now) }
{
    if text.len() > 2 || text.starts_with('+') {
        return None;
    }
    match u8::from_str_radix(text, 16) {
        Ok(kind) => Some(kind),
        Err(_) => None,
    }
}

// Reads a section type, or returns None if there is no text.
fn section_of(text: Option<&str>) -> Result<Option<u8>, WordFault>
    ensures { ParsesOrFails (λ kind. (kind ≡ option_map (digits_value 16) (option_map (λ s. s.now) text.entry))
        × IfSome (option_map (λ s. s.now) text.entry) (λ s. IsNumeral 16 s × (length s ≤ 2))) result }
{
    let Some(text) = text else {
        return Ok(None);
    };
    match section_type(text) {
        Some(kind) => Ok(Some(kind)),
        None => Err(WordFault::Words),
    }
}

// Reads the name of a file, which is a GUID and must be given.
pub(crate) fn name_of(text: Option<&str>) -> Result<Guid, WordFault>
    ensures { ParsesOrFails (λ name. option_and_then guid_read (option_map (λ s. s.now) text.entry) ≡ Some name) result }
{
    let Some(text) = text else {
        return Err(WordFault::Words);
    };
    match Guid::parse(text) {
        Some(name) => Ok(name),
        None => Err(WordFault::Words),
    }
}

// Reads which of the sections with the same type is meant: the first if no number is given.
pub(crate) fn instance_of(text: Option<&str>) -> Result<u32, WordFault>
    ensures { ParsesOrFails (IsInstanceWord (option_map (λ s. s.now) text.entry)) result }
{
    let Some(text) = text else {
        return Ok(1);
    };
    match text.parse() {
        Ok(instance) => Ok(instance),
        Err(_) => Err(WordFault::Words),
    }
}

// Returns the part of a volume that these texts name.
fn part_of(
    name: Option<&str>,
    section: Option<&str>,
    instance: Option<&str>,
) -> Result<Part, WordFault>
    ensures { ParsesOrFails (IsPartBy (option_map (λ s. s.now) name.entry) (option_map (λ s. s.now) section.entry)
        (option_map (λ s. s.now) instance.entry)) result }
{
    Ok(Part {
        name: name_of(name)?,
        section: section_of(section)?,
        instance: instance_of(instance)?,
    })
}

// Reads the arguments of `extract`: a volume, the part of it that is written, and whether the part
// may be in a packed section.
fn extract(alloc: Global, matches: &ArgMatches<'_>) -> Result<Command, WordFault>
    ensures { AsksOrFails (codes "extract") matches.now result }
{
    let (section, instance) = (matches.get_str("section"), matches.get_str("instance"));
    let part = part_of(matches.get_str("name"), section, instance)?;
    let opened = is_given(matches, "open");
    let (at, file) = input_of(alloc, matches)?;
    let task = task_by(opened, Task::ExtractOpened(part), Task::Extract(part));
    Ok(Command::Single { task, at, file })
}

// Reads a decimal number without a sign.
pub(crate) fn unsigned_decimal(digits: &str) -> Result<u64, WordFault>
    ensures { ParsesOrFails (IsNumeralOf 10 64 digits.now) result }
{
    if digits.starts_with('+') {
        return Err(WordFault::Words);
    }
    match digits.parse() {
        Ok(n) => Ok(n),
        Err(_) => Err(WordFault::Words),
    }
}

// Reads the path of a section: decimal numbers with points between them.
fn section_path(alloc: Global, text: &str) -> Result<Vec<u64>, WordFault>
    ensures { ParsesOrFails (λ path. IsPathText text.now path.items) result }
{
    let mut path = Vec::new(alloc);
    let mut rest = text;
    while let Some((number, after)) = rest.split_once('.') {
        path.push(unsigned_decimal(number)?)?;
        rest = after;
    }
    path.push(unsigned_decimal(rest)?)?;
    Ok(path)
}

// Reads the path of a section, or returns None if there is no text.
fn section_path_of(alloc: Global, text: Option<&str>) -> Result<Option<Vec<u64>>, WordFault>
    ensures { ParsesOrFails (IsPathWord (option_map (λ s. s.now) text.entry)) result }
{
    match text {
        Some(text) => Ok(Some(section_path(alloc, text)?)),
        None => Ok(None),
    }
}

// Reads the arguments of `open`: a section, or a volume and the path of a section in it.
fn open_section(alloc: Global, matches: &ArgMatches<'_>) -> Result<Command, WordFault>
    ensures { AsksOrFails (codes "open") matches.now result }
{
    let path = section_path_of(alloc, matches.get_str("section"))?;
    let (at, file) = input_of(alloc, matches)?;
    Ok(Command::Open { path, at, file })
}

// Returns the volume in the file with this path, which must be given, and the byte at which it
// begins there.
fn volume_of(alloc: Global, path: Option<&str>, at: Option<&str>) -> Result<VolumeFile, WordFault>
    ensures { ParsesOrFails (IsVolumeWords (option_map (λ s. s.now) path.entry) (option_map (λ s. s.now) at.entry)) result }
{
    let Some(path) = path else {
        return Err(WordFault::Words);
    };
    Ok(VolumeFile {
        path: String::from_str(alloc, path)?,
        at: volume_offset_of(at)?,
    })
}

// Reads the arguments of `compare`: two volumes.
fn compare(alloc: Global, matches: &ArgMatches<'_>) -> Result<Command, WordFault>
    ensures { AsksOrFails (codes "compare") matches.now result }
{
    let (at, other_at) = (matches.get_str("at"), matches.get_str("other-at"));
    let first = volume_of(alloc, matches.get_str("first"), at)?;
    let second = volume_of(alloc, matches.get_str("second"), other_at)?;
    Ok(Command::Compare { first, second })
}

// Returns the file with this path, which must be given.
fn path_of(alloc: Global, path: Option<&str>) -> Result<String, WordFault>
    ensures { ParsesOrFails (λ file. Some (string_bytes file) ≡ option_map (λ s. s.now) path.entry) result }
{
    match path {
        Some(path) => Ok(String::from_str(alloc, path)?),
        None => Err(WordFault::Words),
    }
}

// Reads the arguments of `same`: two files, all of which are read.
fn same(alloc: Global, matches: &ArgMatches<'_>) -> Result<Command, WordFault>
    ensures { AsksOrFails (codes "same") matches.now result }
{
    let first = path_of(alloc, matches.get_str("first"))?;
    let second = path_of(alloc, matches.get_str("second"))?;
    Ok(Command::Same { first, second })
}

// Reads the arguments of `cells`: a volume.
fn cells(alloc: Global, matches: &ArgMatches<'_>) -> Result<Command, WordFault>
    ensures { AsksOrFails (codes "cells") matches.now result }
{
    let (at, file) = input_of(alloc, matches)?;
    let task = Task::Cells;
    Ok(Command::Single { task, at, file })
}

// Reads the arguments of `unfix`: a volume.
fn unfix(alloc: Global, matches: &ArgMatches<'_>) -> Result<Command, WordFault>
    ensures { AsksOrFails (codes "unfix") matches.now result }
{
    let (at, file) = input_of(alloc, matches)?;
    let task = Task::Unfix;
    Ok(Command::Single { task, at, file })
}

// Reads the arguments of `scan`: a file, all of which is read.
fn scan(alloc: Global, matches: &ArgMatches<'_>) -> Result<Command, WordFault>
    ensures { AsksOrFails (codes "scan") matches.now result }
{
    let file = file_of(alloc, matches, "file")?;
    Ok(Command::Single {
        task: Task::Scan,
        at: None,
        file,
    })
}

// Reads the arguments of `survey`: a file, all of which is read, and whether the survey goes through
// packed sections.
fn survey(alloc: Global, matches: &ArgMatches<'_>) -> Result<Command, WordFault>
    ensures { AsksOrFails (codes "survey") matches.now result }
{
    let task = task_by(is_given(matches, "open"), Task::SurveyOpened, Task::Survey);
    let file = file_of(alloc, matches, "file")?;
    Ok(Command::Single {
        task,
        at: None,
        file,
    })
}

// Returns the command with this name and the arguments that the parser found.
fn command_of(alloc: Global, name: &str, matches: &ArgMatches<'_>) -> Result<Command, WordFault>
    ensures { AsksOrFails name.now matches.now result }
{
    match name {
        "normalise" => on_image(alloc, matches, Task::NormaliseAll, Task::Normalise),
        "hobs" => hobs(alloc, matches),
        "list" => list(alloc, matches),
        "extract" => extract(alloc, matches),
        "check" => on_image(alloc, matches, Task::CheckAll, Task::Check),
        "cells" => cells(alloc, matches),
        "unfix" => unfix(alloc, matches),
        "scan" => scan(alloc, matches),
        "survey" => survey(alloc, matches),
        "compare" => compare(alloc, matches),
        "same" => same(alloc, matches),
        "open" => open_section(alloc, matches),
        _ => Err(WordFault::Words),
    }
}

/// Reads the arguments of the command with this name. The first of the arguments is the name
/// itself.
///
/// # Errors
///
/// Words, if no command has this name or the arguments are wrong. OutOfMemory.
pub fn parse_command(alloc: Global, name: &str, words: &[String]) -> Result<Plan, WordFault>
    ensures asks { IfOk result (AsksBy name.now (drop 1 (map string_bytes words.now))) }

    // Right arguments are never rejected as wrong.
    ensures wrong { IfErr result (λ f. f ≡ WordFault.Words
        → AreRightFor name.now (drop 1 (map string_bytes words.now)) → ⊥) }
{
    let matches = rules_of(alloc, name)?.try_get_matches_from(words)?;
    let hex = is_given(&matches, "hex");
    let command = command_of(alloc, name, &matches)?;
    Ok(Plan { hex, command })
}
