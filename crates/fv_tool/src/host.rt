//! The arguments, the files and the standard streams of a process.

ghost use Rattle.std.specs.Global.{Global};
ghost use Rattle.std.specs.IoError.{error_kind};
ghost use Rattle.std.specs.Prelude.{⊤, List, String, IfErr, IfOk};
ghost use Rattle.std.specs.Vec.Iter.{into_iter_items};
ghost use Rattle.std.specs.declared.io.ErrorKind.{ErrorKind};

use crate::advice::Advice;
use crate::marks::Marks;
use crate::output::Output;
use fv_command::Opener;
use std::env::{Args, FillError};
use std::fs::OpenFile;
use std::io::{IsTerminal, Stderr, Stdin, Write};
use std::rt::{Env, Files};
use std::{env, fs, io, str};

/// The root directory, which is opened only to occupy file descriptors. No message is written about
/// this path. The path is not `/`, so a FILE that is `/` still has its message.
pub const DESCRIPTOR_FILLER: &str = "/.";

/// A process: its arguments and its standard output.
pub trait Process {
    /// Standard output.
    type Writer: Write + Drop;

    /// The process has these arguments.
    ghost has_arguments: { Self → List (String Global) → Type 0 };

    /// The arguments of the process cannot be read, with an error of this kind.
    ghost arguments_fail_with: { Self → ErrorKind → Type 0 };

    /// The writer is standard output.
    ghost is_output: { Self → Self.Writer → Type 0 };

    /// Returns the arguments. The first one, the program's name, may be replaced by another text.
    ///
    /// # Errors
    ///
    /// OutOfMemory. Another error, if an argument after the first is not UTF-8.
    fn arguments(&self) -> io::Result<Args>
        ensures ok { IfOk result (λ arguments. has_arguments self.now (into_iter_items arguments)) }
        ensures err { IfErr result (λ error. arguments_fail_with self.now (error_kind error)) };

    /// Returns standard output.
    fn standard_output(&self) -> Self::Writer
        ensures { is_output self.now result };

    /// Returns whether standard error is a terminal, so that a person sees the messages at once.
    fn is_at_terminal(&self) -> bool;

    /// Writes the message to standard error. The message is not part of the result of the run: if it
    /// cannot be written, nothing changes.
    fn advise(&self, advice: Advice<'_>);

    /// Returns whether a message has named the file that was opened first, because it cannot be
    /// read. Only messages depend on it.
    fn has_named_first(&self) -> bool;

    /// Returns whether a message has named any file that cannot be read. Only messages depend on
    /// it.
    fn has_named_file(&self) -> bool;

    /// Returns whether standard output was asked to write any bytes. Only messages depend on it.
    fn has_written(&self) -> bool;

    /// Returns the number of the first argument of at most 1024 bytes that is not UTF-8, if there
    /// is such an argument. The program's name, which is not looked at, has the number 0. Only
    /// messages depend on it.
    fn not_text(&self) -> Option<usize>;
}

// The environment of a runtime, except that the first argument, the program's name, is empty. The
// name may be a path through any folder, so it need not be UTF-8, and nothing depends on it.
#[derive(Drop)]
struct Unnamed<'r, R> {
    rt: &'r R,
}

impl<R: Env> Env for Unnamed<'_, R> {
    fn arg(&self, i: usize, buf: &mut [u8]) -> Result<usize, FillError> {
        if i == 0 {
            return Ok(0);
        }
        self.rt.arg(i, buf)
    }

    fn var(&self, name: &str, buf: &mut [u8]) -> Result<usize, FillError> {
        self.rt.var(name, buf)
    }

    fn var_at(&self, i: usize, buf: &mut [u8]) -> Result<usize, FillError> {
        self.rt.var_at(i, buf)
    }
}

/// The process of a runtime.
#[derive(Drop)]
pub struct Host<'r, R> {
    rt: &'r R,
    marks: &'r Marks,
    input: Stdin,
    errors: Stderr,
}

impl<'r, R> Host<'r, R> {
    /// Returns the process of this runtime, with its standard input and standard error, and the
    /// marks for its messages.
    pub fn new(rt: &'r R, marks: &'r Marks, input: Stdin, errors: Stderr) -> Host<'r, R> {
        Host {
            rt,
            marks,
            input,
            errors,
        }
    }

    // Writes the message to standard error. If it cannot be written, nothing changes.
    fn write_message(&self, advice: Advice<'_>) {
        let _ = self.errors.eprintln(advice);
    }
}

impl<'r, R: Files> Host<'r, R> {
    // Names a file that cannot be opened, or a folder, which can be opened but not read. Returns
    // whether a message was written.
    fn explain_file(&self, path: &str, file: &io::Result<R::File>) -> bool {
        match file {
            Ok(file) => match file.metadata() {
                Ok(found) if found.is_dir() => self.write_message(Advice::IsFolder(path)),
                _ => return false,
            },
            Err(error) => self.write_message(Advice::NotOpened(path, error.kind())),
        }
        true
    }
}

/// The files and the standard input of the process. No clause says which they are, because the
/// standard library states nothing about them. Each method only calls that library.
impl<'r, R: Files + Input> Opener for Host<'r, R> {
    type File = R::File;

    type Standard = R::Reader;

    ghost opens = { λ _ _ _. ⊤ };

    ghost is_standard = { λ _ _. ⊤ };

    fn file_at(&self, path: &str) -> Option<R::File> {
        let file = fs::open(self.rt, path);
        if path != DESCRIPTOR_FILLER {
            self.marks.note_file(self.explain_file(path, &file));
        }
        file.ok()
    }

    fn standard_input(&self) -> R::Reader {
        if self.input.is_terminal() && self.errors.is_terminal() {
            self.write_message(Advice::ReadsStandardInput);
        }
        self.rt.reader()
    }

    // Returns the length that the system reports, if the file is a regular file.
    fn len_hint(&self, file: &R::File) -> usize {
        match file.metadata() {
            Ok(found) if found.is_file() => found.len() as usize,
            _ => 0,
        }
    }
}

/// The arguments and the standard output of the process. No clause says which they are, because the
/// standard library states nothing about them. Each method only calls that library.
impl<'r, R: Env + Print + AllocGlobal> Process for Host<'r, R> {
    type Writer = Output<'r, R>;

    ghost has_arguments = { λ _ _. ⊤ };

    ghost arguments_fail_with = { λ _ _. ⊤ };

    ghost is_output = { λ _ _. ⊤ };

    fn arguments(&self) -> io::Result<Args> {
        env::args(&(Unnamed { rt: self.rt }, self.rt.alloc()))
    }

    fn standard_output(&self) -> Output<'r, R> {
        Output::new(io::writer(self.rt), self.marks)
    }

    fn is_at_terminal(&self) -> bool {
        self.errors.is_terminal()
    }

    fn advise(&self, advice: Advice<'_>) {
        self.write_message(advice);
    }

    fn has_named_first(&self) -> bool {
        self.marks.has_named_first()
    }

    fn has_named_file(&self) -> bool {
        self.marks.has_named_file()
    }

    fn has_written(&self) -> bool {
        self.marks.has_written()
    }

    fn not_text(&self) -> Option<usize> {
        let mut buf = [0u8; 1024];
        for i in 1..usize::MAX {
            match self.rt.arg(i, &mut buf) {
                Ok(n) if str::from_utf8(&buf[..n]).is_err() => return Some(i),
                Err(FillError::NotPresent) => return None,
                _ => {}
            }
        }
        None
    }
}
