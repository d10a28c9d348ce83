//! A text that is read character by character, with positions in bytes.

ghost use Rattle.std.specs.Prelude.{◌≡◌, ◌≤◌, ◌+◌, ◌∷◌, [], ℕ, Bool, Some, drop, length, IfOk, IsOkAnd, MatchResult};
ghost use Rattle.std.specs.List.{take_while};
ghost use Rattle.std.specs.Str.{IsUtf8};
ghost use Rattle.std.specs.Fn.{FnReturnsAt};
ghost use Rattle.jsonpath_paths.specs.RefusalTexts.{reader_error_text};
ghost use Rattle.jsonpath_paths.specs.text.TextPlace.{Place, ahead, past, span_to};
ghost use Rattle.jsonpath_paths.specs.text.Characters.{bytes_at, Computes};
ghost use Rattle.jsonpath_paths.specs.text.Spans.{IsSpan};

use std::alloc::AllocError;
use std::error::Error;
use std::fmt;
use std::marker::Model;

/// The error of reading a character when none is left in the text. `Display` prints `Eof`.
///
/// ```text
/// let mut reader = StrReader::new("");
/// assert!(rt; reader.next_char() == Err(ReaderError::Eof));
/// ```
#[derive(Clone, Copy, Debug, PartialEq, Eq)]
pub enum ReaderError {
    /// An error of reading a text character by character: no character is left, since the text is read to its end.
    Eof,
}

impl fmt::Display for ReaderError {
    ghost output = { λ error. Some (reader_error_text error) };

    fn fmt<W: fmt::Write>(&self, f: &mut fmt::Formatter<W>) -> fmt::Result {
        match self {
            ReaderError::Eof => f.write_str("Eof"),
        }
    }
}

impl Error for ReaderError {}

/// A span of a text: the byte position of its beginning and its length in bytes.
///
/// ```text
/// let mut reader = StrReader::new("$.a");
/// let dollar = StrRange { pos: 0, offset: 1 };
/// assert!(rt; reader.next_char() == Ok((dollar, '$')));
/// ```
#[derive(Clone, Copy, Debug, PartialEq, Eq)]
pub struct StrRange {
    /// Where the span begins: how many bytes of the text come before it.
    pub pos: usize,
    /// The length of the span, in bytes; the field is named as in the Rust crate `jsonpath_lib`.
    pub offset: usize,
}

impl StrRange {
    /// The span of `offset` bytes after the first `pos` bytes of a text. Named as in the Rust crate `jsonpath_lib`.
    ///
    /// ```text
    /// let word = StrRange::new(2, 3);
    /// assert!(rt; word.pos == 2 && word.offset == 3);
    /// ```
    pub fn new(pos: usize, offset: usize) -> StrRange
        ensures { result ≡ record { pos = pos; offset = offset } }
    {
        StrRange { pos, offset }
    }
}

/// Reads a text character by character, from its beginning on.
///
/// ```text
/// let mut reader = StrReader::new("a가b");
/// let _ = reader.next_char();
/// assert!(rt; reader.next_char() == Ok((StrRange::new(1, 3), '가')));
/// ```
#[derive(Drop)]
pub struct StrReader<'a> {
    text: &'a str,
    rest: &'a str,
    pos: usize,
}

impl<'a> Model for StrReader<'a> {
    ghost use Rattle.jsonpath_paths.specs.text.TextPlace.{Place, place_code};

    ghost Value = { Place };

    ghost coded = { place_code };

    ghost use Rattle.jsonpath_paths.specs.text.Reader.{place_of, IsAt};

    ghost view = { place_of };

    ghost invariant = { IsAt };
}

impl<'a> StrReader<'a> {
    /// Makes a `StrReader`, which reads this text character by character. Its position is at the beginning of the text.
    ///
    /// ```text
    /// let reader = StrReader::new("a가b");
    /// assert!(rt; reader.current_pos() == 0);
    /// ```
    pub fn new(text: &'a str) -> StrReader<'a>
        ensures { result ≡ record { text = text.now; pos = 0 } }
    {
        StrReader {
            text,
            rest: text,
            pos: 0,
        }
    }

    /// Returns the next character, but does not take it; `Eof` at the end of the text.
    ///
    /// ```text
    /// let mut reader = StrReader::new("가b");
    /// assert!(rt; reader.peek_char() == Ok('가'));
    /// assert!(rt; reader.current_pos() == 0);
    /// ```
    pub fn peek_char(&mut self) -> Result<char, ReaderError>
        ensures same { self.new ≡ self.old }
        ensures char { MatchResult result (λ c. ahead self.old ≡ c ∷ ahead (past self.old (c ∷ []))) (λ _. ahead self.old ≡ []) }
    {
        self.copy_of_place().next_char_without_span()
    }

    // A copy at the same place of the text, to look ahead with or to go on from.
    pub(crate) fn copy_of_place(&self) -> StrReader<'a>
        ensures { result ≡ self.now }
    {
        StrReader {
            text: self.text,
            rest: self.rest,
            pos: self.pos,
        }
    }

    /// Takes characters as long as `fun` is true for them, possibly none, and returns their span. Always returns `Ok`.
    ///
    /// ```text
    /// let mut reader = StrReader::new("ab.c");
    /// let word = reader.take_while(|c| *c != '.');
    /// assert!(rt; word == Ok(StrRange::new(0, 2)));
    /// ```
    pub fn take_while<F: Fn(&char) -> bool>(&mut self, fun: F) -> Result<StrRange, ReaderError>
    where
        F: Drop,
        requires { F.IsAlwaysCallable fun }
        ensures span { IsOkAnd result (λ s. s ≡ span_to self.old self.new) }
        ensures part { IsOkAnd result (λ s. IsSpan self.new.text s) }
        ensures run { (test : ℕ → Bool) → Computes (λ c b. FnReturnsAt F.Fn fun c b) test
            → self.new ≡ past self.old (take_while test (ahead self.old)) }
    {
        let start = self.current_pos();
        let mut ahead = self.copy_of_place();
        while let Ok(c) = ahead.next_char_without_span() {
            if !fun(&c) {
                break;
            }
            *self = ahead.copy_of_place();
        }
        Ok(StrRange::new(start, self.current_pos() - start))
    }

    /// Takes the next character and returns it with its span; `Eof` at the end of the text, where nothing changes.
    ///
    /// ```text
    /// let mut reader = StrReader::new("가b");
    /// assert!(rt; reader.next_char() == Ok((StrRange::new(0, 3), '가')));
    /// assert!(rt; reader.next_char() == Ok((StrRange::new(3, 1), 'b')));
    /// ```
    pub fn next_char(&mut self) -> Result<(StrRange, char), ReaderError>
        ensures char { MatchResult result (λ r. (ahead self.old ≡ r.1 ∷ ahead self.new) × (self.new ≡ past self.old (r.1 ∷ [])) × (r.0 ≡ span_to self.old self.new))
            (λ _. (ahead self.old ≡ []) × (self.new ≡ self.old)) }
        ensures part { IfOk result (λ r. IsSpan self.new.text r.0) }
    {
        let start = self.current_pos();
        match self.next_char_without_span() {
            Ok(c) => Ok((StrRange::new(start, self.current_pos() - start), c)),
            Err(fault) => Err(fault),
        }
    }

    // Takes the next character, and does not say where it stands. Refused at the end of the text.
    fn next_char_without_span(&mut self) -> Result<char, ReaderError>
        ensures char { MatchResult result (λ c. (ahead self.old ≡ c ∷ ahead self.new) × (self.new ≡ past self.old (c ∷ [])))
            (λ _. (ahead self.old ≡ []) × (self.new ≡ self.old)) }
    {
        let mut chars = self.rest.chars();
        match chars.next() {
            Some(c) => {
                let behind = chars.as_str();
                self.pos += self.rest.len() - behind.len();
                self.rest = behind;
                Ok(c)
            }
            None => Err(ReaderError::Eof),
        }
    }

    /// The reader's position: how many bytes of the text it has taken.
    ///
    /// ```text
    /// let mut reader = StrReader::new("가b");
    /// let _ = reader.next_char();
    /// assert!(rt; reader.current_pos() == 3);
    /// ```
    pub fn current_pos(&self) -> usize
        ensures pos { result ≡ self.now.pos }
        ensures within { result ≤ length self.now.text }
        ensures utf8 { IsUtf8 (drop result self.now.text) }
    {
        self.pos
    }

    /// The reader's whole text: what it has taken and what is left.
    ///
    /// ```text
    /// let mut reader = StrReader::new("가b");
    /// let _ = reader.next_char();
    /// assert!(rt; reader.origin_str() == "가b");
    /// ```
    pub fn origin_str(&self) -> &'a str
        ensures { result.now ≡ self.now.text }
    {
        self.text
    }

    /// Returns the part of the reader's whole text that is at the span; the reader's position stays. Precondition: the
    /// span is within the text and cuts no character. Named as in the Rust crate `jsonpath_lib`.
    ///
    /// ```text
    /// let mut reader = StrReader::new("ab.c");
    /// let word = reader.take_while(|c| *c != '.')?;
    /// assert!(rt; reader.read(&word) == "ab");
    /// ```
    pub fn read(&self, span: &StrRange) -> &'a str
        requires { IsSpan self.now.text span.now }
        ensures { result.now ≡ bytes_at self.now.text span.now }
    {
        &self.text[span.pos..span.pos + span.offset]
    }
}

/// Clones a reader: the clone has the same text and position. `clone` allocates no memory and always returns `Ok`.
impl<'a> Clone for StrReader<'a> {
    ghost use Rattle.std.specs.Prelude.{⊤};

    ghost is_clone = { λ reader copy. copy ≡ reader };

    ghost is_infallible = { λ _. ⊤ };

    fn clone(&self) -> Result<StrReader<'a>, AllocError> {
        Ok(self.copy_of_place())
    }
}
