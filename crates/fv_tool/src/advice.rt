//! Messages for a person on standard error.

use crate::cause::Cause;
use fv_base::FaultKind;
use std::fmt;
use std::io::ErrorKind;

/// The version of the program, as in the file `VERSION` (`tools/version --write`).
pub const VERSION: &str = "2.1.0-dev";

/// The forms of the command line, as in `docs/PROGRAM.md`.
pub const SYNOPSIS: &str = "\
    fvtool\n\
    fvtool normalise [--at N | --all] [--hex] [FILE]\n\
    fvtool list [--sums | --open] [--at N] [--hex] [FILE]\n\
    fvtool cells [--at N] [--hex] [FILE]\n\
    fvtool unfix [--at N] [--hex] [FILE]\n\
    fvtool extract --name GUID [--section HH] [--instance N] [--open] [--at N] [--hex] [FILE]\n\
    fvtool open [--section PATH] [--at N] [--hex] [FILE]\n\
    fvtool check [--at N | --all] [--hex] [FILE]\n\
    fvtool scan [--hex] [FILE]\n\
    fvtool survey [--open] [--hex] [FILE]\n\
    fvtool compare [--at N] [--other-at N] [--hex] A B\n\
    fvtool same [--hex] A B\n\
    fvtool hobs [--image IMG --base N] [--hex] [FILE]";

/// What each command does, as in `docs/PROGRAM.md`.
pub const COMMANDS: &str = "\
    normalise  writes the canonical image of a volume; with --all of each volume in an image\n\
    list       lists the files and sections of a volume; with --sums also their SHA-256\n\
    cells      lists where each part of a volume lies\n\
    unfix      writes a copy of a volume in which no file is marked fixed\n\
    extract    writes a file of a volume, or a section of the file\n\
    open       writes the contents of a compressed or GUID-defined section\n\
    check      reports whether a volume is its own canonical image; with --all each volume\n\
    scan       finds the volumes in an image\n\
    survey     lists what each byte of an image is, also where a volume is rejected\n\
    compare    reports whether two volumes mean the same, or where they first differ\n\
    same       reports the same of two images of any bytes, and looks into packed sections\n\
    hobs       lists the blocks of a hand-off list\n\
    --open     goes through compressed and GUID-defined sections: for list, extract and survey\n\
    --at N     is for the volume that begins at byte N of the input: scan shows these numbers\n\
    --hex      is for inputs and outputs that are hexadecimal text\n\
    FILE       is the input; without FILE, standard input is read";

/// The manual page of the program, and the tools for two common questions.
pub const MORE: &str = "\
    man fvtool explains these commands\n\
    fv-same A B: are two images the same firmware? fv-unpack IMAGE FOLDER: what is in an image?";

/// What to do about an image without a volume at a multiple of 8.
pub const FURTHER: &str = "fv-unpack --list FILE looks further";

/// How to search for a volume that does not begin at a multiple of 8.
pub const SEARCH: &str = "\
    Byte 40 of a volume begins the text _FVH: if LC_ALL=C grep -abo _FVH FILE shows N:_FVH,\n\
    try fvtool list --at M FILE, where M is N - 40";

/// The message about an image with a rejected volume.
pub const FAULTY: &str = "\
    a volume was rejected, and its line shows the fault (man fvtool lists the faults; \
    fv-same, fv-unpack and fv-map read volumes with fault 15)";

/// The message about a run through packed sections in which memory ran out.
pub const RAN_OUT: &str = "\
    memory ran out while a packed section was opened or read, so the output does not have what is in \
    this section (try again with more memory)";

/// The message about a survey in which memory ran out.
pub const CUT_SHORT: &str = "\
    memory ran out, so the output has only the first lines (try again with more memory)";

/// What to do about a result that was not written.
pub const INCOMPLETE: &str = "check the exit status: the output is incomplete";

// The number of characters of a text that a message shows. A longer text is cut, so that a message
// fits into a pipe that nobody reads yet.
const SHOWN: usize = 1000;

/// A text of a person, such as a path or an argument. `Display` escapes control characters and all
/// other characters that a terminal may not show as they are. It shows the first 1000 characters,
/// and two dots if there are more.
#[derive(Clone, Copy)]
pub struct Escaped<'a>(pub &'a str);

impl fmt::Display for Escaped<'_> {
    fn fmt<W: fmt::Write>(&self, f: &mut fmt::Formatter<W>) -> fmt::Result {
        let mut left = SHOWN;
        for c in self.0.chars() {
            if left == 0 {
                return f.write_str("..");
            }
            left -= 1;
            match c {
                '\'' | '"' => f.write_char(c)?,
                _ => write!(f, "{}", c.escape_debug())?,
            }
        }
        Ok(())
    }
}

/// The head of a line about a file. `Display` writes the path and a colon, or nothing without a path.
#[derive(Clone, Copy)]
pub struct Head<'a>(pub Option<&'a str>);

impl fmt::Display for Head<'_> {
    fn fmt<W: fmt::Write>(&self, f: &mut fmt::Formatter<W>) -> fmt::Result {
        match self.0 {
            Some(path) => write!(f, "{}: ", Escaped(path)),
            None => Ok(()),
        }
    }
}

/// A message for a person, which `Display` writes. The message is not part of the result of a run.
#[derive(Clone, Copy)]
pub enum Advice<'a> {
    /// Standard input is read next.
    ReadsStandardInput,
    /// The file at this path cannot be opened, with an error of this kind.
    NotOpened(&'a str, ErrorKind),
    /// The file at this path is a folder.
    IsFolder(&'a str),
    /// The arguments are wrong, and this sentence says why.
    Mistake(&'a str),
    /// The argument with this number is not UTF-8. The program's name has the number 0.
    NotText(usize),
    /// The arguments are wrong. The message shows the forms of the command line.
    Synopsis,
    /// The arguments ask for help or for the version. The message has both.
    Help,
    /// The run was refused. The message is the meaning of the fault that stopped it, and what to do
    /// next.
    Refused(Cause<'a>),
    /// A volume of an image was rejected, and its line has the fault. The image is the file at this
    /// path, or None if it is not known or is standard input.
    Faulty(Option<&'a str>),
    /// Memory ran out in a packed section, and the result lacks what is in this section. The input is
    /// the file at this path, or None if it is not known or is standard input.
    Incomplete(Option<&'a str>),
    /// Memory ran out in a survey, and the result has only the first lines. The image is the file at
    /// this path, or None if it is not known or is standard input.
    CutShort(Option<&'a str>),
    /// A write of the result failed.
    NotWritten,
    /// The image has no volume. The message says how to search for one.
    NoVolume,
}

// Returns why a file cannot be opened.
fn reason(kind: ErrorKind) -> &'static str {
    match kind {
        ErrorKind::NotFound | ErrorKind::NotADirectory => "no such file",
        ErrorKind::PermissionDenied => "permission denied",
        _ => "cannot be opened",
    }
}

impl fmt::Display for Advice<'_> {
    fn fmt<W: fmt::Write>(&self, f: &mut fmt::Formatter<W>) -> fmt::Result {
        match self {
            Advice::ReadsStandardInput => f.write_str("fvtool: reading standard input"),
            Advice::NotOpened(path, kind) => {
                write!(f, "fvtool: {}: {}", Escaped(path), reason(*kind))
            }
            Advice::IsFolder(path) => write!(f, "fvtool: {}: is a folder", Escaped(path)),
            Advice::Mistake(sentence) => {
                write!(f, "fvtool: {} (see fvtool --help)", Escaped(sentence))
            }
            Advice::NotText(number) => write!(f, "fvtool: argument {number} is not UTF-8"),
            Advice::Synopsis => write!(f, "{SYNOPSIS}\n{MORE}"),
            Advice::Help => write!(
                f,
                "This is fvtool {VERSION}, which reads UEFI firmware volumes. Its commands:\n\
                {SYNOPSIS}\n{COMMANDS}\n{MORE}"
            ),
            Advice::Refused(cause) => write!(f, "fvtool: {cause}"),
            Advice::Faulty(path) => write!(f, "fvtool: {}{FAULTY}", Head(*path)),
            Advice::Incomplete(path) => write!(f, "fvtool: {}{RAN_OUT}", Head(*path)),
            Advice::CutShort(path) => write!(f, "fvtool: {}{CUT_SHORT}", Head(*path)),
            Advice::NotWritten => write!(f, "fvtool: {} ({INCOMPLETE})", FaultKind::WriteFault),
            Advice::NoVolume => write!(f, "fvtool: no volume was found ({FURTHER})\n{SEARCH}"),
        }
    }
}
