//! How a run ended.

ghost use Rattle.std.specs.Prelude.{◌≡◌};
ghost use Rattle.fv_command.specs.Endings.{exit_code};

/// How a run ended.
#[derive(Clone, Copy, Debug, PartialEq, Eq)]
pub enum Status {
    /// Everything that was requested was written.
    Done,
    /// Two volumes differ in meaning, a volume is not its own canonical image, or a part does not
    /// exist.
    Different,
    /// A volume of an image was rejected, and everything that was requested was written.
    Faulty,
    /// Memory ran out while a packed section was opened, or while its contents were read, and what
    /// was found without this section was written. Or memory ran out in a survey, and its first
    /// lines were written.
    Incomplete,
    /// An input was rejected, memory ran out, or a write failed.
    Refused,
    /// The command line is wrong.
    WrongArguments,
}

impl Status {
    /// Returns the exit status of the process: 0 for Done, 1 for Different, 2 for Faulty, Incomplete
    /// and Refused, 3 for WrongArguments.
    pub fn code(self) -> u8
        ensures { result ≡ exit_code self }
    {
        match self {
            Status::Done => 0,
            Status::Different => 1,
            Status::Faulty => 2,
            Status::Incomplete => 2,
            Status::Refused => 2,
            Status::WrongArguments => 3,
        }
    }
}
