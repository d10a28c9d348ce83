//! How a buffer is filled from its stream.

ghost use Rattle.std.specs.Prelude.{◌≡◌, ℕ, List, ◌++◌, ◌<◌, length, true, false, Err, IfOk, OnOk, OnErr};
ghost use Rattle.json_recognizer.specs.Buffer.{left, piece_of, MayCome, IsSound, IsReady, IsFirstOf, wrong_in};
ghost use Rattle.json_recognizer.specs.Stream.{found_in};

use crate::buffer::piece::Kind;
use crate::buffer::stream_buffer::StreamBuffer;
use jsonpath_streams::{Input, IoFailed};
use std::alloc::AllocError;

// How many bytes are asked for at a time.
const CHUNK: usize = 65536;

/// Why a stream of documents could not be read further.
#[derive(Clone, Copy, Debug, Drop, PartialEq, Eq)]
pub enum ReadFailure {
    /// An error of reading a stream of documents: a read of the stream failed.
    Failed,
    /// An error of reading a stream of documents: memory ran out.
    OutOfMemory,
}

impl From<AllocError> for ReadFailure {
    ghost use Rattle.json_recognizer.specs.declared.buffer.reading.ReadFailure.TheVariants.{OutOfMemory};

    ghost from_gives = { λ _ unread. unread ≡ OutOfMemory };

    fn from(_: AllocError) -> ReadFailure {
        ReadFailure::OutOfMemory
    }
}

impl StreamBuffer {
    /// Reads the stream until its next piece is found, and returns what that is: a document, wrong bytes in place of
    /// one, or, at the stream's end, blanks, possibly none. Errors: `Failed` if a read fails (all bytes that were read
    /// before stay in the buffer), or `OutOfMemory`.
    pub fn read_next_piece<R: Input>(&mut self, reader: &mut R) -> Result<Kind, ReadFailure>
        requires { IsReady self.old }
        ensures sound { IsSound self.new }
        ensures place { self.new.place ≡ self.old.place }
        ensures whole { (self.old.is_whole ≡ true → R.has_ended reader.old ≡ true) → self.new.is_whole ≡ true → R.has_ended reader.new ≡ true }
        ensures ok { OnOk result ((more : List ℕ) × (R.given reader.new ≡ R.given reader.old ++ more) × (left self.new ≡ left self.old ++ more)) }
        ensures first { IfOk result (λ kind. (later : List ℕ) → MayCome self.new later → IsFirstOf kind (piece_of self.new) (left self.new ++ later)) }
        ensures wrong { IfOk result (λ kind. kind ≡ Kind.Refused → (later : List ℕ) → MayCome self.new later → found_in (left self.new ++ later) ≡ wrong_in self.new) }
        ensures some { IfOk result (λ kind. kind ≡ Kind.Document → 0 < length (piece_of self.new)) }
        ensures end { IfOk result (λ kind. kind ≡ Kind.Blanks → self.new.is_whole ≡ true) }
        ensures err { OnErr result ((more : List ℕ) × (R.given reader.new ≡ R.given reader.old ++ more) × (result ≡ Err ReadFailure.Failed → left self.new ≡ left self.old ++ more)) }
        ensures unread { result ≡ Err ReadFailure.Failed → R.has_failed reader.new ≡ true }
    {
        'pieces: loop {
            if let Some(kind) = self.find_next_piece() {
                return Ok(kind);
            }
            self.read_more(reader)?;
        }
    }

    /// Reads more bytes of the stream into the buffer, or records that the stream has ended. An error if the read fails
    /// or memory runs out. The bytes that were in the buffer before stay there even then; but if memory runs out, the
    /// bytes that this call has just read may be lost.
    pub fn read_more<R: Input>(&mut self, reader: &mut R) -> Result<(), ReadFailure>
        requires ready { IsReady self.old }
        requires open { self.old.is_whole ≡ false }
        ensures ready { IsReady self.new }
        ensures ok { OnOk result ((more : List ℕ) × (R.given reader.new ≡ R.given reader.old ++ more) × (left self.new ≡ left self.old ++ more)) }
        ensures whole { OnOk result (self.new.is_whole ≡ true → (left self.new ≡ left self.old) × (R.has_ended reader.new ≡ true)) }
        ensures err { OnErr result ((more : List ℕ) × (R.given reader.new ≡ R.given reader.old ++ more) × (left self.new ≡ left self.old) × (self.new.is_whole ≡ false)) }
        ensures grows { OnOk result (self.new.is_whole ≡ false → length (left self.old) < length (left self.new)) }
        ensures place { self.new.place ≡ self.old.place }
        ensures failed { result ≡ Err ReadFailure.Failed → R.given reader.new ≡ R.given reader.old }
        ensures unread { result ≡ Err ReadFailure.Failed → R.has_failed reader.new ≡ true }
        ensures read { (result ≡ Err ReadFailure.Failed → ⊥) → R.has_failed reader.new ≡ R.has_failed reader.old }
    {
        self.drop_passed_bytes();
        self.make_room()?;
        let count = match reader.read(self.room.as_mut_slice()) {
            Ok(count) => count,
            Err(IoFailed) => return Err(ReadFailure::Failed),
        };
        self.bytes.extend_from_slice(&self.room[..count])?;
        self.is_whole = count == 0;
        Ok(())
    }

    // Makes the room into which a read puts bytes, if it is not made yet.
    fn make_room(&mut self) -> Result<(), AllocError>
        ensures rest { self.new ≡ record self.old { room = self.new.room } }
        ensures room { OnOk result (0 < length self.new.room.items) }
    {
        if self.room.is_empty() {
            self.room.resize(CHUNK, 0)?;
        }
        Ok(())
    }

    // Drops the bytes before the piece at hand, which are done with.
    fn drop_passed_bytes(&mut self)
        requires { IsReady self.old }
        ensures ready { IsReady self.new }
        ensures stays { left self.new ≡ left self.old }
        ensures whole { self.new.is_whole ≡ self.old.is_whole }
        ensures place { self.new.place ≡ self.old.place }
    {
        if self.start > 0 {
            let rest = self.bytes.len() - self.start;
            self.bytes.as_mut_slice().copy_within(self.start.., 0);
            self.bytes.truncate(rest);
            self.end -= self.start;
            self.seen -= self.start;
            self.start = 0;
        }
    }
}
