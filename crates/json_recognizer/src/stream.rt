//! Where a document of a stream ends, or its first wrong byte.
ghost use Rattle.std.specs.Prelude.{◌≡◌, ◌≤◌, ◌++◌, length, false, List, ℕ};
ghost use Rattle.json_recognizer.specs.Grammar.{max_depth};
ghost use Rattle.json_recognizer.specs.Machine.{is_final};
ghost use Rattle.json_recognizer.specs.State.{frames};
ghost use Rattle.json_recognizer.specs.Stream.{is_over, found_at, found_in, end_or, or_later, IsWithin};

use crate::machine::{Mode, NumberPart};
use crate::search::find_by_rows;
use crate::state::{State, start};
use crate::table::{mode_at, row_of};

/// The result of searching the next bytes of a stream for the end of the document that is being read.
#[derive(Clone, Copy, Debug, Drop)]
pub enum Found {
    /// A result of searching some bytes for the end of a JSON document: the document does not end in these bytes, and
    /// none of them is wrong. It may continue in later bytes.
    GoesOn,
    /// A result of searching the next bytes of a stream for the end of a document: the document ends after the first
    /// `n` of these bytes, where `n` is the field.
    Ends(usize),
    /// A result of searching some bytes for the end of a JSON document: one of these bytes is wrong, that is, no
    /// document can continue with it. The field is its index in these bytes, from 0.
    Refused(usize),
}

/// Whether the bytes read so far are a complete document, if the stream ends here. `state` is the state of the
/// recognizer, which checks a JSON text byte by byte.
pub fn is_final(state: &State) -> bool
    requires { state.now.depth ≤ max_depth }
    ensures { result ≡ is_final state.now.mode (frames state.now.depth state.now.kinds) }
{
    if state.depth > 0 {
        return false;
    }
    match state.mode {
        Mode::Behind => true,
        Mode::InNumber(part) => match part {
            NumberPart::AfterZero
            | NumberPart::InWhole
            | NumberPart::InFraction
            | NumberPart::InExponent => true,
            _ => false,
        },
        _ => false,
    }
}

/// Searches the next bytes of a stream, `piece`, for the end of the document being read, or for its first wrong byte.
/// Returns `GoesOn` if neither is found. `state` is the state of the recognizer, which checks a JSON text byte by byte;
/// the search updates it. Precondition: the document has not ended yet in this state.
pub fn find_end(state: &mut State, piece: &[u8]) -> Found
    requires depth { state.old.depth ≤ max_depth }
    requires open { is_over state.old ≡ false }
    ensures found { (more : List ℕ) → found_at state.old (piece.now ++ more) ≡ or_later result (length piece.now) (found_at state.new more) }
    ensures within { IsWithin result (length piece.now) }
    ensures open { result ≡ Found.GoesOn → is_over state.new ≡ false }
    ensures depth { state.new.depth ≤ max_depth }
{
    let mut row = row_of(state.mode);
    let found = find_by_rows(state, &mut row, piece);
    state.mode = mode_at(row);
    found
}

/// The number of bytes of the first document of a text, with the blanks before it; the length of the whole text if no
/// whole document is at its front.
pub fn first_document_len(text: &[u8]) -> usize
    ensures { result ≡ end_or (length text.now) (found_in text.now) }
{
    match find_end(&mut start(), text) {
        Found::Ends(len) => len,
        Found::Refused(_) => text.len(),
        Found::GoesOn => text.len(),
    }
}
