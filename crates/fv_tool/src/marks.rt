//! What a process remembers for its messages.

use std::cell::Cell;

/// What a process remembers while it runs. Only messages depend on it: it does not change the
/// result of a run.
#[derive(Drop)]
pub struct Marks {
    wrote: Cell<bool>,
    opened: Cell<bool>,
    named_first: Cell<bool>,
    named_later: Cell<bool>,
}

impl Marks {
    /// Returns the marks of a process that has not opened or written anything.
    pub fn new() -> Marks {
        Marks {
            wrote: Cell::new(false),
            opened: Cell::new(false),
            named_first: Cell::new(false),
            named_later: Cell::new(false),
        }
    }

    /// Remembers that standard output was asked to write bytes.
    pub fn note_output(&self) {
        self.wrote.set(true);
    }

    /// Remembers that a file of the run was opened, or could not be opened, and whether a message
    /// named it, because it cannot be read.
    pub fn note_file(&self, is_named: bool) {
        let is_later = self.opened.replace(true);
        if is_named && is_later {
            self.named_later.set(true);
        } else if is_named {
            self.named_first.set(true);
        }
    }

    /// Returns whether standard output was asked to write any bytes.
    pub fn has_written(&self) -> bool {
        self.wrote.get()
    }

    /// Returns whether a message named the file that was opened first.
    pub fn has_named_first(&self) -> bool {
        self.named_first.get()
    }

    /// Returns whether a message named any file.
    pub fn has_named_file(&self) -> bool {
        self.named_first.get() || self.named_later.get()
    }
}
