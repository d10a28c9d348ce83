//! Standard output, buffered and written in large pieces.

ghost use Rattle.std.specs.Prelude.{◌≡◌, ◌<◌, ◌≤◌, [], ◌++◌, drop, length, true, OnOk, OnErr};

use jsonpath_streams::{IoFailed, Output};
use std::alloc::{AllocError, Global};
use std::mem;

// From so many bytes on, what is held is handed on.
const ROOM: usize = 65536;

/// A buffer of output bytes, and the writer to which the buffer is written.
#[derive(Drop)]
pub struct HeldOutput<W> {
    pub writer: W,
    pub bytes: Vec<u8>,
}

impl<W: Output> HeldOutput<W> {
    /// Makes an output buffer, empty at first, whose bytes will be written to this writer.
    pub fn new(alloc: Global, writer: W) -> HeldOutput<W>
        ensures writer { result.writer ≡ writer }
        ensures nothing { result.bytes.items ≡ [] }
    {
        HeldOutput {
            writer,
            bytes: Vec::new(alloc),
        }
    }

    /// Appends a text to the output buffer: all of it, or nothing if memory runs out. If the buffer is empty, the
    /// contents of the buffer and of `text` are swapped, and no byte is copied; else `text` keeps its bytes. So the
    /// caller has to clear `text` before reusing it.
    pub fn hold_text(&mut self, text: &mut Vec<u8>) -> Result<(), AllocError>
        ensures ok { OnOk result (W.written self.new.writer ++ self.new.bytes.items ≡ (W.written self.old.writer ++ self.old.bytes.items) ++ text.old.items) }
        ensures err { OnErr result (W.written self.new.writer ++ self.new.bytes.items ≡ W.written self.old.writer ++ self.old.bytes.items) }
    {
        if self.bytes.is_empty() {
            mem::swap(&mut self.bytes, text);
            return Ok(());
        }
        self.bytes.extend_from_slice(text.as_slice())
    }

    /// If the output buffer has 65536 bytes or more, writes all of them to the writer. If a write fails, the bytes that
    /// were not written are still in the buffer.
    pub fn flush_if_full(&mut self) -> Result<(), IoFailed>
        ensures same { W.written self.new.writer ++ self.new.bytes.items ≡ W.written self.old.writer ++ self.old.bytes.items }
        ensures relieved { OnOk result (length self.new.bytes.items < ROOM) }
        ensures failed { OnErr result (W.has_failed self.new.writer ≡ true) }
        ensures works { OnOk result (W.has_failed self.new.writer ≡ W.has_failed self.old.writer) }
    {
        if self.bytes.len() < ROOM {
            return Ok(());
        }
        self.flush()
    }

    /// Writes all bytes of this output buffer to its writer; the buffer is then empty. If a write fails, its error is
    /// returned, and the bytes that were not written are still in the buffer.
    pub fn flush(&mut self) -> Result<(), IoFailed>
        ensures same { W.written self.new.writer ++ self.new.bytes.items ≡ W.written self.old.writer ++ self.old.bytes.items }
        ensures flushed { OnOk result (self.new.bytes.items ≡ []) }
        ensures failed { OnErr result (W.has_failed self.new.writer ≡ true) }
        ensures works { OnOk result (W.has_failed self.new.writer ≡ W.has_failed self.old.writer) }
    {
        while !self.bytes.is_empty() {
            let count = self.writer.write(self.bytes.as_slice())?;
            drop_front(&mut self.bytes, count);
        }
        Ok(())
    }
}

// Takes so many bytes away from the front.
fn drop_front(bytes: &mut Vec<u8>, count: usize)
    requires { count ≤ length bytes.old.items }
    ensures { bytes.new.items ≡ drop count bytes.old.items }
{
    let rest = bytes.len() - count;
    bytes.as_mut_slice().copy_within(count.., 0);
    bytes.truncate(rest);
}
