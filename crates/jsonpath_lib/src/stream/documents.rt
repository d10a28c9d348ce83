//! `Documents`, an iterator over the documents of a text or of a stream.
ghost use Rattle.std.specs.Prelude.{◌≡◌, ◌+◌, ◌≤◌, ◌^◌, codes, length, true, false, IfOk, IfErr, OnOk, OnErr};
ghost use Rattle.serde_json.specs.View.{view};
ghost use Rattle.jsonpath_select.specs.answer.AnswerText.{IsTextOf};
ghost use Rattle.json_recognizer.specs.Buffer.{piece_of, IsSound};

use crate::stream::document_fault::{self, DocumentFault, FaultKind};
use json_recognizer::{Kind, StreamBuffer};
use jsonpath_streams::{Bytes, Input};
use serde_json::Value;
use std::alloc::Global;

/// Iterator over the JSON documents of a text or stream, separated by whitespace (none is needed after a closing
/// bracket or quote, or a word such as `true`). It reads one document at a time: a log takes the memory of one record.
///
/// A number ends before whitespace, `[`, `{`, `"` or the stream's end; any other document is returned right after its
/// last byte. The first error is the last item. A syntax error is at the first byte with which no document can go on.
///
/// ```text
/// let log = b"{\"ms\": 7}\n{\"ms\": 900}\n[1][2]";
/// let slow = compile_path(alloc, "$[?(@.ms > 500)]")?;
/// let mut count = 0u64;
/// for record in Documents::new(alloc, log) {
///     if slow.exists(alloc, &record?)? {
///         count = count.saturating_add(1);
///     }
/// }
/// assert_eq!(rt; count, 1);
/// ```
#[derive(Drop)]
pub struct Documents<R> {
    alloc: Global,
    input: R,
    buffer: StreamBuffer,
    // How many bytes are passed.
    count: u64,
    is_over: bool,
    ghost within: { buffer.start ≤ length buffer.bytes.items },
}

impl<'a> Documents<Bytes<'a>> {
    ghost use Rattle.jsonpath_lib.specs.stream.Documents.{IsNew};

    /// An iterator over the documents of this text. The call allocates no memory.
    ///
    /// ```text
    /// assert!(rt; matches!(Documents::new(alloc, b"[1]").next(), Some(Ok(_))));
    /// ```
    pub fn new(alloc: Global, text: &'a [u8]) -> Documents<Bytes<'a>>
        ensures text { result.input.text.now ≡ text.now }
        ensures unread { result.input.at ≡ 0 }
        ensures begins { IsNew result }
    {
        Documents::of_input(alloc, Bytes::new(text))
    }
}

impl<R: Input> Documents<R> {
    ghost use Rattle.jsonpath_lib.specs.stream.Documents.{IsNew, IsPassed};
    ghost use Rattle.jsonpath_lib.specs.stream.Faults.{place_of_fault, Says, IsUnread};

    /// An iterator over the documents in the rest of this input. The call allocates no memory, and reads nothing yet.
    ///
    /// ```text
    /// let input = Checked::new("[1] [2]".as_bytes());
    /// assert!(rt; Documents::of_input(alloc, input).count() == 2);
    /// ```
    pub fn of_input(alloc: Global, input: R) -> Documents<R>
        ensures input { result.input ≡ input }
        ensures begins { IsNew result }
    {
        Documents {
            alloc,
            input,
            buffer: StreamBuffer::new(alloc),
            count: 0,
            is_over: false,
        }
    }

    // Reads the document at hand, and passes over it; then the documents go on.
    fn take_document(&mut self) -> Result<Value, DocumentFault>
        requires { IsSound self.old.buffer }
        ensures ok { IfOk result (λ document. IsTextOf (piece_of self.old.buffer) (view document)) }
        ensures passed { OnOk result (IsPassed self.old self.new) }
        ensures whole { self.new.buffer.is_whole ≡ self.old.buffer.is_whole }
        ensures input { self.new.input ≡ self.old.input }
        ensures over { OnErr result (self.new.is_over ≡ self.old.is_over) }
        ensures long { IfErr result (λ fault. fault.kind ≡ FaultKind.TooLong → (2 ^ 64 ≤ self.old.count + length (piece_of self.old.buffer)) × (place_of_fault fault ≡ self.old.buffer.place) × Says (codes "too many bytes") fault) }
        ensures unread { IfErr result (λ fault. (fault.kind ≡ FaultKind.TooLong → ⊥) → IsUnread fault.kind (piece_of self.old.buffer) fault) }
    {
        let text = self.buffer.current_piece();
        let place = self.buffer.line_and_column();
        let Some(count) = self.count.checked_add(text.len() as u64) else {
            let words = Some("too many bytes");
            return Err(DocumentFault::new(self.alloc, FaultKind::TooLong, place, words));
        };
        let document = document_fault::read_document(self.alloc, text, place)?;
        self.buffer.pass_piece();
        self.count = count;
        self.is_over = false;
        Ok(document)
    }
}

/// Returns the stream's next document, or the error with line and column; `None` at the end and after an error.
impl<R: Input + Drop> Iterator for Documents<R> {
    ghost use Rattle.std.specs.Iterator.{at_most};
    ghost use Rattle.jsonpath_lib.specs.stream.Documents.{Gives, most_left};

    type Item = Result<Value, DocumentFault>;

    ghost next_gives = { Gives R.given R.has_ended R.has_failed };

    ghost remaining = { λ documents. at_most (most_left documents) };

    fn next(&mut self) -> Option<Result<Value, DocumentFault>> {
        if self.is_over {
            return None;
        }
        self.is_over = true;
        self.buffer.begin_piece();
        match self.buffer.read_next_piece(&mut self.input) {
            Ok(Kind::Document) => Some(self.take_document()),
            Ok(Kind::Refused) => Some(Err(document_fault::of_piece(self.alloc, &self.buffer))),
            Ok(Kind::Blanks) => None,
            Err(failure) => Some(Err(document_fault::of_read(self.alloc, &self.buffer, failure))),
        }
    }
}
