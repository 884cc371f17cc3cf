//! Explains to a person why arguments are rejected.

ghost use Rattle.fv_arguments.specs.CommandLines.{AreRight};
ghost use Rattle.std.specs.String.{string_bytes};
ghost use Rattle.std.specs.Prelude.{IfSome, map};

use crate::options::{
    decimal, instance_of, name_of, section_type, unsigned_decimal, volume_offset,
};
use crate::rules::rules_of;
use crate::words::{WordFault, parse_words};
use clap::ArgMatches;
use clap::error::ErrorKind;
use std::alloc::{AllocError, Global};

// The options whose values are numbers, digits or GUIDs.
const OPTIONS: [&str; 6] = ["name", "section", "instance", "at", "other-at", "base"];

// Returns whether a text is the path of a section: decimal numbers with points between them.
fn is_section_path(text: &str) -> bool {
    text.split('.')
        .all(|number| unsigned_decimal(number).is_ok())
}

// Returns whether this value of an option of a command is right. The value of `--image` is the path
// of a file, and may be any text.
fn is_right(command: &str, option: &str, value: &str) -> bool {
    match option {
        "name" => name_of(Some(value)).is_ok(),
        "section" if command == "open" => is_section_path(value),
        "section" => section_type(value).is_some(),
        "instance" => instance_of(Some(value)).is_ok(),
        "base" => decimal(value).is_ok(),
        _ => volume_offset(value).is_ok(),
    }
}

// Returns the first option of a command whose value is wrong, and the value.
fn wrong_value<'a>(command: &str, matches: &ArgMatches<'a>) -> Option<(&'static str, &'a str)> {
    for option in OPTIONS {
        match matches.get_str(option) {
            Some(value) if !is_right(command, option, value) => return Some((option, value)),
            _ => {}
        }
    }
    None
}

// Returns the rule of a command that its arguments break, if the parser accepts them and each value
// is right. Each command has at most one such rule.
fn broken_rule(name: &str) -> &'static str {
    match name {
        "extract" => "'--name' is missing",
        "compare" | "same" => "two files are needed",
        "hobs" => "'--image' and '--base' must be given together",
        "list" => "'--sums' and '--open' cannot be given together",
        _ => "'--all' and '--at' cannot be given together",
    }
}

// Returns whether there is a command with this name.
fn is_command(name: &str) -> bool {
    matches!(
        name,
        "normalise"
            | "list"
            | "cells"
            | "unfix"
            | "extract"
            | "open"
            | "check"
            | "scan"
            | "survey"
            | "compare"
            | "same"
            | "hobs"
    )
}

// Returns the sentence of a parser's message that names the argument. The rest of the message is
// about the usage of the parser's own options, which this program does not have.
fn sentence_of(message: &str) -> &str {
    let text = message.strip_prefix("error: ").unwrap_or(message);
    match text.split_once("\n\n") {
        Some((sentence, _)) => sentence,
        None => text,
    }
}

// Returns a sentence that says why the parser rejects an argument.
fn parser_reason(alloc: Global, error: clap::Error) -> Result<String, AllocError> {
    if error.kind() == ErrorKind::DisplayHelp {
        return String::from_str(alloc, "there is no help text");
    }
    let message = format!(in alloc; "{error}")?;
    String::from_str(alloc, sentence_of(message.as_str()))
}

// Returns a sentence about the fault in the arguments of the command with this name. The first of
// the arguments is the name itself.
fn reason(alloc: Global, name: &str, words: &[String]) -> Result<String, AllocError> {
    if !is_command(name) {
        return format!(in alloc; "unknown command '{name}'");
    }
    let matches = match rules_of(alloc, name)?.try_get_matches_from(words) {
        Ok(matches) => matches,
        Err(error) => return parser_reason(alloc, error),
    };
    match wrong_value(name, &matches) {
        Some((option, value)) => format!(in alloc; "invalid value '{value}' for '--{option}'"),
        None => String::from_str(alloc, broken_rule(name)),
    }
}

/// Returns a sentence about the fault in a command line, as far as it can be named: the argument
/// that was rejected, the option whose value is wrong, or the argument that is missing. The first
/// argument is the program's name. Returns None if the arguments are right, or if memory ran out.
/// The sentence contains the arguments as they are, control characters too.
pub fn what_is_wrong(alloc: Global, words: &[String]) -> Option<String>
    // A sentence is returned only if the arguments are wrong.
    ensures { IfSome result (λ _. AreRight (map string_bytes words.now) → ⊥) }
{
    match parse_words(alloc, words) {
        Err(WordFault::Words) => reason(alloc, words.get(1)?.as_str(), &words[1..]).ok(),
        _ => None,
    }
}
