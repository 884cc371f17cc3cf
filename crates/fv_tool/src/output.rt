//! Standard output, which remembers whether anything was written to it.

use crate::marks::Marks;
use std::io;
use std::io::{Printer, Write};

/// Standard output. It notes in the marks of the process when it is asked to write bytes. The marks
/// are only for messages to a person: they do not change the bytes and the errors of the runtime.
#[derive(Drop)]
pub struct Output<'r, R> {
    printer: Printer<'r, R>,
    marks: &'r Marks,
}

impl<'r, R> Output<'r, R> {
    /// Returns standard output with these marks.
    pub fn new(printer: Printer<'r, R>, marks: &'r Marks) -> Output<'r, R> {
        Output { printer, marks }
    }
}

impl<R: Print> Write for Output<'_, R> {
    fn write(&mut self, buf: &[u8]) -> io::Result<usize> {
        if !buf.is_empty() {
            self.marks.note_output();
        }
        self.printer.write(buf)
    }

    fn flush(&mut self) -> io::Result<()> {
        self.printer.flush()
    }
}
