//! Readers of files and a writer to standard output that print their errors.

use std::cell::Cell;
use std::io::{self, ErrorKind, Read, Write};

/// A reader of a file that prints each error of a read on standard error, with the file's name, and also returns it. An
/// interrupted read is not printed.
#[derive(Drop)]
pub struct FaultTellingReader<'r, T, R> {
    pub rt: &'r T,
    pub name: &'r str,
    pub reader: R,
}

impl<'r, T: Eprint, R: Read> Read for FaultTellingReader<'r, T, R> {
    ghost remaining = { λ told. R.remaining told.reader };

    // Reads as the file does. A fault is told with the file's name and answered; an interrupted read is answered alone.
    fn read(&mut self, buf: &mut [u8]) -> io::Result<usize> {
        match self.reader.read(buf) {
            Ok(count) => Ok(count),
            Err(error) => {
                if error.kind() != ErrorKind::Interrupted {
                    let name = self.name;
                    let _ = eprintln!(self.rt; "jpath: {name}: {error}");
                }
                Err(error)
            }
        }
    }
}

/// A writer to standard output. If a write fails, it prints the error on standard error, and also returns it. Two
/// errors are returned but not printed: the write was interrupted, or the pipe is closed. If the pipe is closed, the
/// writer sets `is_pipe_closed` to true.
#[derive(Drop)]
pub struct FaultTellingWriter<'r, 'c, T, W> {
    pub rt: &'r T,
    pub is_pipe_closed: &'c Cell<bool>,
    pub writer: W,
}

impl<'r, 'c, T: Eprint, W: Write> Write for FaultTellingWriter<'r, 'c, T, W> {
    ghost contents = { λ told. W.contents told.writer };

    // Writes to standard output. Each fault is answered. It is told, too, but for a closed pipe, which is noted
    // instead, and an interrupted write.
    fn write(&mut self, buf: &[u8]) -> io::Result<usize> {
        match self.writer.write(buf) {
            Ok(count) => Ok(count),
            Err(error) => {
                match error.kind() {
                    ErrorKind::BrokenPipe => self.is_pipe_closed.set(true),
                    ErrorKind::Interrupted => (),
                    _ => {
                        let _ = eprintln!(self.rt; "jpath: standard output: {error}");
                    }
                }
                Err(error)
            }
        }
    }

    // Flushes standard output. A fault of that is answered alone, and not told.
    fn flush(&mut self) -> io::Result<()> {
        self.writer.flush()
    }
}
