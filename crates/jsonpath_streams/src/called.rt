//! A reader or a writer of std, with the result of each call on it. No clause of std says when a read or a write
//! fails, so this is the one place that makes calls, and records their results.
ghost use Rattle.std.specs.Prelude.{◌≡◌, ◌<◌, ◌≤◌, [], ◌∷◌, ◌++◌, length, take, Ok, Err, IfOk, MatchResult};
ghost use Rattle.std.specs.IoError.{error_kind};
ghost use Rattle.std.specs.Io.KnownBytes.{ReadConsumes, WriteAppends};
ghost use Rattle.jsonpath_streams.specs.Answers.{is_interruption};
ghost use Rattle.jsonpath_streams.specs.History.{answered};

mod history;

use history::{Answer, History};
use std::io::{self, ErrorKind, Read, Write};

// A reader or a writer of std, with what each call on it answered.
#[derive(Drop)]
pub(crate) struct Called<S> {
    inner: S,
    history: History,
}

impl<S> Called<S> {
    // The stream before its first call.
    pub(crate) fn new(inner: S) -> Called<S>
        ensures { result.history.answers ≡ [] }
    {
        Called {
            inner,
            history: History::new(),
        }
    }
}

impl<R: Read> Called<R> {
    // Calls the reader once, and notes what it answers.
    pub(crate) fn read(&mut self, buffer: &mut [u8]) -> io::Result<usize>
        ensures bound { IfOk result (λ n. n ≤ length buffer.new) }
        ensures consumed { ReadConsumes (R.remaining self.old.inner) (R.remaining self.new.inner) result buffer.new }
        ensures noted { MatchResult result
            (λ n. self.new.history.answers ≡ self.old.history.answers ++ Ok (take n buffer.new) ∷ [])
            (λ error. self.new.history.answers ≡ self.old.history.answers ++ Err (is_interruption (error_kind error)) ∷ []) }
    {
        match self.inner.read(buffer) {
            Ok(n) => {
                self.history = self.history.with_answer(&Answer::Bytes(&buffer[..n]));
                Ok(n)
            }
            Err(error) => {
                self.history = self.history.with_answer(&answer_of_error(&error));
                Err(error)
            }
        }
    }
}

impl<W: Write> Called<W> {
    // Calls the writer once, and notes what it answers. A write that takes no byte of a piece that isn't empty is refused.
    pub(crate) fn write(&mut self, piece: &[u8]) -> io::Result<usize>
        ensures bound { IfOk result (λ n. n ≤ length piece.now) }
        ensures some { IfOk result (λ n. 0 < length piece.now → 0 < n) }
        ensures appended { WriteAppends (W.contents self.old.inner) (W.contents self.new.inner) result piece.now }
        ensures noted { MatchResult result
            (λ n. self.new.history.answers ≡ self.old.history.answers ++ Ok (take n piece.now) ∷ [])
            (λ error. self.new.history.answers ≡ self.old.history.answers ++ Err (is_interruption (error_kind error)) ∷ []) }
    {
        match self.inner.write(piece) {
            Ok(0) if !piece.is_empty() => {
                self.history = self.history.with_answer(&Answer::Refused);
                Err(io::Error::from(ErrorKind::WriteZero))
            }
            Ok(n) => {
                self.history = self.history.with_answer(&Answer::Bytes(&piece[..n]));
                Ok(n)
            }
            Err(error) => {
                self.history = self.history.with_answer(&answer_of_error(&error));
                Err(error)
            }
        }
    }
}

// What is noted of this error.
fn answer_of_error(error: &io::Error) -> Answer<'static>
    ensures { answered result ≡ Err (is_interruption (error_kind error.now)) }
{
    if is_interrupted(error) {
        Answer::Interrupted
    } else {
        Answer::Refused
    }
}

// Whether a call was only interrupted, and may be made again.
pub(crate) fn is_interrupted(error: &io::Error) -> bool
    ensures { result ≡ is_interruption (error_kind error.now) }
{
    matches!(error.kind(), ErrorKind::Interrupted)
}
