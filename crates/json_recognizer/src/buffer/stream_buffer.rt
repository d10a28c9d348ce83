//! The buffer of a stream: the current document and the bytes read beyond it.

ghost use Rattle.std.specs.Prelude.{◌≡◌, ℕ, List, [], ◌++◌, ◌≤◌, ◌<◌, ◌-◌, ◌^◌, drop, length, slice_range, true, false, IfSome, IfNone, if◌then◌else◌};
ghost use Rattle.json_recognizer.specs.Blanks.{is_blank_text, blanks_len};
ghost use Rattle.json_recognizer.specs.Buffer.{left, piece_of, mark_if, MayCome, IsSound, IsReady, IsFirstOf, StandsBehind, wrong_in, place_of};
ghost use Rattle.json_recognizer.specs.Grammar.{max_depth};
ghost use Rattle.json_recognizer.specs.Lines.{behind_line, place_behind};
ghost use Rattle.json_recognizer.specs.Machine.{is_final};
ghost use Rattle.json_recognizer.specs.State.{frames};
ghost use Rattle.json_recognizer.specs.Stream.{found_in};

use crate::buffer::lines::{count_blanks, first_line_end, is_blank_text, place_after};
use crate::buffer::piece::{Kind, LineColumn};
use crate::machine::Mode;
use crate::state::{State, start};
use crate::stream::{Found, find_end, is_final};
use std::alloc::Global;

/// The bytes of a byte order mark in UTF-8.
pub const MARK: [u8; 3] = [0xef, 0xbb, 0xbf];

/// The bytes of a stream of documents that were read and not yet skipped: the current piece (a document, or wrong bytes
/// in place of one), and the bytes read after it.
#[derive(Drop)]
pub struct StreamBuffer {
    pub(super) bytes: Vec<u8>,
    // Where bytes come in.
    pub(super) room: Vec<u8>,
    // Where the piece at hand begins and ends.
    pub(super) start: usize,
    pub(super) end: usize,
    // How far the bytes are looked through, and where they lead.
    pub(super) seen: usize,
    state: State,
    pub(super) is_whole: bool,
    pub(super) place: LineColumn,
}

impl StreamBuffer {
    /// Makes an empty buffer, for a stream of which nothing was read yet.
    pub fn new(alloc: Global) -> StreamBuffer
        ensures ready { IsReady result }
        ensures empty { left result ≡ [] }
        ensures open { result.is_whole ≡ false }
        ensures place { StandsBehind result [] }
    {
        StreamBuffer {
            bytes: Vec::new(alloc),
            room: Vec::new(alloc),
            start: 0,
            end: 0,
            seen: 0,
            state: start(),
            is_whole: false,
            place: LineColumn { line: 1, column: 1 },
        }
    }

    /// The bytes of the stream's current piece: the document or the wrong bytes that were found last, and the blanks
    /// before them.
    pub fn current_piece(&self) -> &[u8]
        requires { IsSound self.now }
        ensures { result.now ≡ piece_of self.now }
    {
        &self.bytes[self.start..self.end]
    }

    /// The line and column (both from 1, the column in bytes) in the stream where the current piece begins. This piece
    /// is a document or wrong bytes in place of one, with the blanks before it.
    pub fn line_and_column(&self) -> LineColumn
        ensures { result ≡ self.now.place }
    {
        self.place
    }

    /// To be called if the stream's current piece is wrong bytes in place of a document: whether the piece is cut short
    /// by the stream's end. If true, the stream ends inside the document, and no byte is wrong. If false, the last byte
    /// of the piece is wrong. For any other piece the result means nothing.
    pub fn is_cut_short(&self) -> bool
        ensures cut { result ≡ true → wrong_in self.now ≡ Found.GoesOn }
        ensures byte { result ≡ false → wrong_in self.now ≡ Found.Refused (self.now.seen - self.now.start) }
    {
        self.end <= self.seen
    }

    /// Returns the line and column in the stream, both from 1 and the column in bytes, of the first wrong byte of the
    /// current piece. If the stream ends inside the document and no byte is wrong, returns those of the piece's last
    /// byte or, if this byte is a line end, the next line and the column 0, which is no byte's column. Only to be
    /// called if the piece is wrong bytes in place of a document; for any other piece the result has no meaning.
    pub fn place_of_refusal(&self) -> LineColumn
        requires { IsSound self.now }
        ensures { (passed stream : List ℕ) → StandsBehind self.now passed → (wrong_in self.now ≡ Found.GoesOn → piece_of self.now ≡ stream) → ((more : List ℕ) × (stream ≡ left self.now ++ more)) → result ≡ place_of (wrong_in self.now) passed stream }
    {
        if !self.is_cut_short() {
            return place_after(self.place, &self.bytes[self.start..self.seen]);
        }
        let behind = place_after(self.place, self.current_piece());
        LineColumn {
            line: behind.line,
            column: behind.column.saturating_sub(1),
        }
    }

    /// The line and column (both from 1, the column in bytes) just after all bytes of the stream that were read so far.
    pub fn place_behind_all(&self) -> LineColumn
        requires { self.now.start ≤ length self.now.bytes.items }
        ensures { (passed : List ℕ) → StandsBehind self.now passed → result ≡ place_behind (passed ++ left self.now) }
    {
        place_after(self.place, &self.bytes[self.start..])
    }

    /// Skips a byte order mark at the front of the stream, and returns whether there is one; `None` if more bytes have
    /// to be read to know.
    pub fn pass_byte_order_mark(&mut self) -> Option<bool>
        requires { IsReady self.old }
        ensures ready { IsReady self.new }
        ensures mark { IfSome result (λ is_marked. left self.old ≡ mark_if is_marked ++ left self.new) }
        ensures unread { IfNone result ((left self.new ≡ left self.old) × (self.new.is_whole ≡ false)) }
        ensures whole { self.new.is_whole ≡ self.old.is_whole }
    {
        let rest = &self.bytes[self.start..];
        if rest.starts_with(&MARK) {
            self.start += MARK.len();
            self.begin_piece();
            Some(true)
        } else if MARK.starts_with(rest) && !self.is_whole {
            None
        } else {
            Some(false)
        }
    }

    /// Searches the bytes read so far for the end of the next document, or for its first wrong byte. Returns what the
    /// bytes up to there are: a document, wrong bytes in place of one, or blanks. `None` if more bytes have to be read
    /// to know.
    pub fn find_next_piece(&mut self) -> Option<Kind>
        requires { IsReady self.old }
        ensures sound { IsSound self.new }
        ensures stays { left self.new ≡ left self.old }
        ensures whole { self.new.is_whole ≡ self.old.is_whole }
        ensures place { self.new.place ≡ self.old.place }
        ensures bytes { IfNone result (IsReady self.new × (self.new.is_whole ≡ false)) }
        ensures room { IfNone result (length (left self.new) < 2 ^ 64) }
        ensures first { IfSome result (λ kind. (more : List ℕ) → MayCome self.new more → IsFirstOf kind (piece_of self.new) (left self.new ++ more)) }
        ensures wrong { IfSome result (λ kind. kind ≡ Kind.Refused → (more : List ℕ) → MayCome self.new more → found_in (left self.new ++ more) ≡ wrong_in self.new) }
        ensures end { IfSome result (λ kind. kind ≡ Kind.Blanks → self.new.is_whole ≡ true) }
    {
        let rest = &self.bytes[self.seen..];
        match find_end(&mut self.state, rest) {
            Found::Ends(len) => {
                self.end = self.seen + len;
                Some(Kind::Document)
            }
            Found::Refused(len) => {
                self.seen += len;
                self.end = self.seen + 1;
                Some(Kind::Refused)
            }
            Found::GoesOn => {
                self.seen = self.bytes.len();
                if !self.is_whole {
                    return None;
                }
                self.end = self.seen;
                Some(self.kind_at_end())
            }
        }
    }

    // What the piece is that goes to the stream's end: a number, blanks, or a document that is cut short.
    fn kind_at_end(&self) -> Kind
        requires sound { IsSound self.now }
        requires depth { self.now.state.depth ≤ max_depth }
        ensures { result ≡ (if is_final self.now.state.mode (frames self.now.state.depth self.now.state.kinds) then Kind.Document else (if is_blank_text (piece_of self.now) then Kind.Blanks else Kind.Refused)) }
    {
        if is_final(&self.state) {
            Kind::Document
        } else if is_blank_text(self.current_piece()) {
            Kind::Blanks
        } else {
            Kind::Refused
        }
    }

    /// Begins the search for the end of the stream's current piece, a document or wrong bytes, anew at its first byte.
    pub fn begin_piece(&mut self)
        requires { self.old.start ≤ length self.old.bytes.items }
        ensures ready { IsReady self.new }
        ensures stays { left self.new ≡ left self.old }
        ensures whole { self.new.is_whole ≡ self.old.is_whole }
        ensures place { self.new.place ≡ self.old.place }
    {
        self.end = self.start;
        self.seen = self.start;
        self.state.mode = Mode::Value;
        self.state.depth = 0;
    }

    /// Skips the bytes of the stream's current piece, a document or wrong bytes. The next piece begins after them.
    #[inline(always)]
    pub fn pass_piece(&mut self)
        requires { IsSound self.old }
        ensures ready { IsReady self.new }
        ensures passed { left self.new ≡ drop (length (piece_of self.old)) (left self.old) }
        ensures whole { self.new.is_whole ≡ self.old.is_whole }
        ensures place { (passed : List ℕ) → StandsBehind self.old passed → StandsBehind self.new (passed ++ piece_of self.old) }
    {
        let end = self.end;
        self.begin_piece_at(end);
    }

    /// Skips the blanks at the front of the stream's current piece, which is a document or wrong bytes. The search for
    /// the end of this piece then begins anew, after these blanks.
    pub fn pass_blanks(&mut self)
        requires { IsSound self.old }
        ensures ready { IsReady self.new }
        ensures passed { left self.new ≡ drop (blanks_len (piece_of self.old)) (left self.old) }
        ensures whole { self.new.is_whole ≡ self.old.is_whole }
    {
        let behind = self.start + count_blanks(self.current_piece());
        self.begin_piece_at(behind);
    }

    /// Skips the bytes of the stream up to and including the first line end; if the bytes read so far have none, skips
    /// all of them. Returns whether the whole line was skipped: the line end was found, or the stream has ended.
    pub fn pass_line(&mut self) -> bool
        requires { IsReady self.old }
        ensures ready { IsReady self.new }
        ensures passed { result ≡ true → (more : List ℕ) → MayCome self.old more → behind_line (left self.old ++ more) ≡ left self.new ++ more }
        ensures open { result ≡ false → (self.new.is_whole ≡ false) × ((more : List ℕ) → behind_line (left self.old ++ more) ≡ behind_line (left self.new ++ more)) }
        ensures whole { self.new.is_whole ≡ self.old.is_whole }
    {
        let rest = &self.bytes[self.start..];
        match first_line_end(rest) {
            Some(at) => {
                let behind = self.start + at + 1;
                self.begin_piece_at(behind);
                true
            }
            None => {
                let end = self.bytes.len();
                self.begin_piece_at(end);
                self.is_whole
            }
        }
    }

    // Passes over the bytes up to this one: the next piece begins there.
    #[inline(always)]
    fn begin_piece_at(&mut self, at: usize)
        requires from { self.old.start ≤ at }
        requires within { at ≤ length self.old.bytes.items }
        ensures ready { IsReady self.new }
        ensures left { left self.new ≡ drop at self.old.bytes.items }
        ensures whole { self.new.is_whole ≡ self.old.is_whole }
        ensures place { (passed : List ℕ) → StandsBehind self.old passed → StandsBehind self.new (passed ++ slice_range self.old.bytes.items self.old.start at) }
    {
        self.place = place_after(self.place, &self.bytes[self.start..at]);
        self.start = at;
        self.begin_piece();
    }
}
