//! The rules of the commands: the flags, options and files that each command takes.

ghost use Rattle.clap.specs.Words.{App, Rule, app_of, new_rule, rule_of, with_rule};
ghost use Rattle.fv_arguments.specs.Options.{compare_app, extract_app, flag_app, flag_rule, hobs_app, list_app};
ghost use Rattle.fv_arguments.specs.Options.{one_input_app, open_app, option_rule, same_app, survey_app};
ghost use Rattle.fv_arguments.specs.inner.CommandWords.{app_named};
ghost use Rattle.std.specs.Prelude.{◌≡◌, codes, false, IfOk};

use clap::{Arg, ArgAction, Command};
use std::alloc::{AllocError, Global};

// Makes a flag with this name.
fn flag<'a>(alloc: Global, name: &'static str) -> Arg<'a>
    ensures rule { rule_of result ≡ flag_rule name.now }
    ensures local { result.global ≡ false }
{
    Arg::new(alloc, name).long(name).action(ArgAction::SetTrue)
}

// Makes an option with this name, which takes one value.
fn option<'a>(alloc: Global, name: &'static str) -> Arg<'a>
    ensures rule { rule_of result ≡ option_rule name.now }
    ensures local { result.global ≡ false }
{
    Arg::new(alloc, name).long(name)
}

// Adds this argument to the rules, unless memory ran out while they were made.
fn add<'a>(rules: Result<Command<'a>, AllocError>, arg: Arg<'a>) -> Result<Command<'a>, AllocError>
    ensures { (app : App) (rule : Rule) → IfOk rules.entry (λ c. app_of c ≡ app) → rule_of arg.entry ≡ rule
        → arg.entry.global ≡ false → IfOk result (λ c. app_of c ≡ with_rule app rule) }
{
    rules?.arg(arg)
}

// Adds a volume in an input to the rules: the byte at which it begins, and the file.
fn add_volume<'a>(
    alloc: Global,
    rules: Result<Command<'a>, AllocError>,
) -> Result<Command<'a>, AllocError>
    ensures { (app : App) → IfOk rules.entry (λ c. app_of c ≡ app)
        → IfOk result (λ c. app_of c ≡ with_rule (with_rule app (option_rule (codes "at"))) (new_rule (codes "file"))) }
{
    let at = add(rules, option(alloc, "at"));
    add(at, Arg::new(alloc, "file"))
}

// Makes the rules that every command has: the flag `--hex`, which says that inputs and outputs are
// hexadecimal text.
fn text_rules<'a>(alloc: Global) -> Result<Command<'a>, AllocError>
    ensures { IfOk result (λ c. app_of c ≡ flag_app) }
{
    Command::new(alloc, "fvtool").arg(flag(alloc, "hex"))
}

// Makes the rules of a command that takes a volume and a flag with this name.
fn flag_rules<'a>(alloc: Global, name: &'static str) -> Result<Command<'a>, AllocError>
    ensures { IfOk result (λ c. app_of c
        ≡ with_rule (with_rule (with_rule flag_app (flag_rule name.now)) (option_rule (codes "at"))) (new_rule (codes "file"))) }
{
    add_volume(alloc, add(text_rules(alloc), flag(alloc, name)))
}

// Makes the rules of a command that takes a file, all of which is read.
fn file_rules<'a>(alloc: Global) -> Result<Command<'a>, AllocError>
    ensures { IfOk result (λ c. app_of c ≡ one_input_app) }
{
    add(text_rules(alloc), Arg::new(alloc, "file"))
}

// Makes the rules of `survey`.
fn survey_rules<'a>(alloc: Global) -> Result<Command<'a>, AllocError>
    ensures { IfOk result (λ c. app_of c ≡ survey_app) }
{
    let opened = add(text_rules(alloc), flag(alloc, "open"));
    add(opened, Arg::new(alloc, "file"))
}

// Makes the rules of `hobs`. Whether the image and its base are given together is checked after
// parsing.
fn hobs_rules<'a>(alloc: Global) -> Result<Command<'a>, AllocError>
    ensures { IfOk result (λ c. app_of c ≡ hobs_app) }
{
    let image = add(text_rules(alloc), option(alloc, "image"));
    let base = add(image, option(alloc, "base"));
    add(base, Arg::new(alloc, "file"))
}

// Makes the rules of `list`. Whether both flags are given is checked after parsing.
fn list_rules<'a>(alloc: Global) -> Result<Command<'a>, AllocError>
    ensures { IfOk result (λ c. app_of c ≡ list_app) }
{
    let sums = add(text_rules(alloc), flag(alloc, "sums"));
    let opened = add(sums, flag(alloc, "open"));
    add_volume(alloc, opened)
}

// Makes the rules of `extract`. Whether a file is named is checked after parsing.
fn extract_rules<'a>(alloc: Global) -> Result<Command<'a>, AllocError>
    ensures { IfOk result (λ c. app_of c ≡ extract_app) }
{
    let name = add(text_rules(alloc), option(alloc, "name"));
    let section = add(name, option(alloc, "section"));
    let instance = add(section, option(alloc, "instance"));
    let opened = add(instance, flag(alloc, "open"));
    add_volume(alloc, opened)
}

// Makes the rules of `open`: a section in an input, or a volume and the path of a section in it.
fn open_rules<'a>(alloc: Global) -> Result<Command<'a>, AllocError>
    ensures { IfOk result (λ c. app_of c ≡ open_app) }
{
    let section = add(text_rules(alloc), option(alloc, "section"));
    add_volume(alloc, section)
}

// Makes the rules of `compare`, which has two inputs. Whether both are named is checked after
// parsing.
fn compare_rules<'a>(alloc: Global) -> Result<Command<'a>, AllocError>
    ensures { IfOk result (λ c. app_of c ≡ compare_app) }
{
    let at = add(text_rules(alloc), option(alloc, "at"));
    let other_at = add(at, option(alloc, "other-at"));
    let first = add(other_at, Arg::new(alloc, "first"));
    add(first, Arg::new(alloc, "second"))
}

// Makes the rules of `same`, which has two inputs. Whether both are named is checked after parsing.
fn same_rules<'a>(alloc: Global) -> Result<Command<'a>, AllocError>
    ensures { IfOk result (λ c. app_of c ≡ same_app) }
{
    let first = add(text_rules(alloc), Arg::new(alloc, "first"));
    add(first, Arg::new(alloc, "second"))
}

// Makes the rules of the command with this name. `cells` and `unfix` take a volume. A name
// that is not a command gets the same rules, and is rejected after parsing.
pub(crate) fn rules_of<'a>(alloc: Global, name: &str) -> Result<Command<'a>, AllocError>
    ensures { IfOk result (λ c. app_of c ≡ app_named name.now) }
{
    match name {
        "normalise" => flag_rules(alloc, "all"),
        "check" => flag_rules(alloc, "all"),
        "list" => list_rules(alloc),
        "hobs" => hobs_rules(alloc),
        "extract" => extract_rules(alloc),
        "compare" => compare_rules(alloc),
        "open" => open_rules(alloc),
        "scan" => file_rules(alloc),
        "survey" => survey_rules(alloc),
        "same" => same_rules(alloc),
        _ => add_volume(alloc, text_rules(alloc)),
    }
}
