//! Reading a command line.

ghost use Rattle.std.specs.String.{string_bytes};
ghost use Rattle.std.specs.Prelude.{◌≡◌, ◌≤◌, false, length, map, true, IfErr, IfOk, Ok};
ghost use Rattle.fv_arguments.specs.CommandLines.{AreRight, Asks, plan_without_arguments};

use crate::options::parse_command;
use fv_plan::{Command, Plan, Task};
use std::alloc::{AllocError, AllocFailed, Global};
use std::io;
use std::io::ErrorKind;

/// Why a command line is rejected.
#[derive(Clone, Copy, Debug, PartialEq, Eq)]
pub enum WordFault {
    /// The arguments do not name a command, or are wrong for the command that they name.
    Words,
    /// Memory ran out.
    OutOfMemory,
}

impl WordFault {
    // Returns OutOfMemory if memory ran out, otherwise Words.
    pub(crate) fn by_memory(ran_out: bool) -> WordFault
        ensures memory { ran_out ≡ true → result ≡ WordFault.OutOfMemory }
        ensures other { ran_out ≡ false → result ≡ WordFault.Words }
    {
        if ran_out {
            WordFault::OutOfMemory
        } else {
            WordFault::Words
        }
    }
}

/// A failed allocation becomes OutOfMemory.
impl From<AllocError> for WordFault {
    ghost use Rattle.fv_arguments.specs.declared.words.WordFault.TheVariants.{OutOfMemory};

    ghost from_gives = { λ _ f. f ≡ OutOfMemory };

    fn from(_error: AllocError) -> WordFault {
        WordFault::OutOfMemory
    }
}

/// A value for which there was no memory becomes OutOfMemory.
impl<T: Drop> From<AllocFailed<T>> for WordFault {
    ghost use Rattle.fv_arguments.specs.declared.words.WordFault.TheVariants.{OutOfMemory};

    ghost from_gives = { λ _ f. f ≡ OutOfMemory };

    fn from(_error: AllocFailed<T>) -> WordFault {
        WordFault::OutOfMemory
    }
}

/// An error of the kind OutOfMemory becomes OutOfMemory, and any other error becomes Words.
impl From<io::Error> for WordFault {
    ghost use Rattle.std.specs.IoError.{error_kind};
    ghost use Rattle.std.specs.Prelude.{◌≡◌, ◌≢◌};
    ghost use Rattle.std.specs.declared.io.ErrorKind.TheVariants as error_kinds;
    ghost use Rattle.fv_arguments.specs.declared.words.WordFault.TheVariants.{Words, OutOfMemory};

    ghost from_gives = { λ e f. (error_kind e ≡ error_kinds.OutOfMemory → f ≡ OutOfMemory)
        × (error_kind e ≢ error_kinds.OutOfMemory → f ≡ Words) };

    fn from(error: io::Error) -> WordFault {
        WordFault::by_memory(error.kind() == ErrorKind::OutOfMemory)
    }
}

/// Reads a command line, whose first argument is the program's name. If no argument follows it, the
/// plan is to normalise hexadecimal text from standard input.
///
/// # Errors
///
/// Words, if the arguments do not name a command, or are wrong for the command that they name.
/// OutOfMemory.
pub fn parse_words(alloc: Global, words: &[String]) -> Result<Plan, WordFault>
    ensures none { length words.now ≤ 1 → result ≡ Ok plan_without_arguments }

    // A plan is returned only if the arguments are right, and it is the plan that they ask for.
    ensures right { IfOk result (Asks (map string_bytes words.now)) }

    // Right arguments are never rejected as wrong: the only error for them is OutOfMemory.
    ensures wrong { IfErr result (λ f. f ≡ WordFault.Words → AreRight (map string_bytes words.now) → ⊥) }
{
    if words.len() <= 1 {
        return Ok(Plan {
            hex: true,
            command: Command::Single {
                task: Task::Normalise,
                at: None,
                file: None,
            },
        });
    }
    parse_command(alloc, words[1].as_str(), &words[1..])
}
