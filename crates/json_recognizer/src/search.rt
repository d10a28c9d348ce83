//! The search of a piece, by the rows of the table.
ghost use Rattle.std.specs.Prelude.{◌≡◌, ◌≤◌, ◌<◌, ◌+◌, ◌++◌, ◌⊎◌, length, get_or, true, false, List, ℕ, IfSome};
ghost use Rattle.json_recognizer.specs.Classes.{class_of};
ghost use Rattle.json_recognizer.specs.Grammar.{max_depth};
ghost use Rattle.json_recognizer.specs.Stream.{is_over, found_at, or_later, IsWithin};
ghost use Rattle.json_recognizer.specs.plan.Rows.{IsRow, IsOpen, IsLetter, mode_at, at_row, Steps, Reaches, FoundBy};

use crate::state::State;
use crate::steps::take_letter;
use crate::stream::Found;
use crate::table::{
    AFTER_NAME, BEHIND, FIRST, FIRST_NAME, IN_EXPONENT, IN_FRACTION, IN_WHOLE, NAME, NAME_CHARS,
    VALUE, VALUE_CHARS, letter_at,
};
use crate::text::{count_text, has_quote};

// Closes the text that is being read, and returns true; false if the document would end with it.
#[inline(always)]
fn close_text(state: &State, row: &mut usize) -> bool
    requires { (row.old ≡ 72) ⊎ (row.old ≡ 73) }
    ensures closed { result ≡ true → Steps (at_row state.now row.old) 34 (at_row state.now row.new) }
    ensures open { result ≡ true → is_over (at_row state.now row.new) ≡ false }
    ensures row { IsRow row.new }
    ensures stays { result ≡ false → row.new ≡ row.old }
{
    if *row == NAME_CHARS {
        *row = AFTER_NAME;
        return true;
    }
    if state.depth == 0 {
        return false;
    }
    *row = BEHIND;
    true
}

#[inline(always)]
fn is_in_text(row: usize) -> bool
    ensures { result ≡ true → (row ≡ 72) ⊎ (row ≡ 73) }
{
    row == VALUE_CHARS || row == NAME_CHARS
}

// Passes over characters of the text that is being read, if one is, and over its quote. Returns where the next byte is.
#[inline(always)]
fn pass_text(state: &State, row: &mut usize, piece: &[u8], at: usize) -> usize
    requires open { IsOpen state.now row.old }
    requires within { at ≤ length piece.now }
    ensures found { (s₀ : State) → Reaches s₀ piece.now at (at_row state.now row.old) → Reaches s₀ piece.now result (at_row state.now row.new) }
    ensures open { IsOpen state.now row.new }
    ensures within { (at ≤ result) × (result ≤ length piece.now) }
{
    if !is_in_text(*row) {
        return at;
    }
    let behind = at + count_text(&piece[at..]);
    if has_quote(piece, behind) && close_text(state, row) {
        return behind + 1;
    }
    behind
}

// Whether one more digit leaves a number in this row.
#[inline(always)]
fn takes_digits(row: usize) -> bool
    ensures { result ≡ true → (row ≡ 56) ⊎ (row ≡ 58) ⊎ (row ≡ 61) }
{
    row == IN_WHOLE || row == IN_FRACTION || row == IN_EXPONENT
}

// Whether the byte leaves the row: a blank before or behind a value or name, or one more digit of a number.
#[inline(always)]
fn stays_in(row: usize, byte: u8) -> bool
    requires { IsRow row }
    ensures { result ≡ true → IsLetter (mode_at row) (class_of byte) row }
{
    if row <= AFTER_NAME {
        return byte == b' ';
    }
    takes_digits(row) && byte.is_ascii_digit()
}

// Passes over the bytes that leave the row. Returns where the next byte is.
#[inline(always)]
fn pass_run(row: usize, piece: &[u8], at: usize) -> usize
    requires row { IsRow row }
    requires within { at ≤ length piece.now }
    ensures found { (s₀ s : State) → IsOpen s row → Reaches s₀ piece.now at (at_row s row) → Reaches s₀ piece.now result (at_row s row) }
    ensures within { (at ≤ result) × (result ≤ length piece.now) }
{
    let mut next = at;
    if row <= IN_EXPONENT {
        while next < piece.len() && stays_in(row, piece[next]) {
            next += 1;
        }
    }
    next
}

// The letter of the byte, for the quotes, commas, colons, brackets and blanks that come most often, without the table.
#[inline(always)]
fn likely_letter(row: usize, byte: u8) -> Option<u8>
    requires { IsRow row }
    ensures { IfSome result (λ letter. IsLetter (mode_at row) (class_of byte) letter) }
{
    if row <= FIRST {
        match byte {
            b'"' => Some(b'\''),
            b'[' => Some(b'('),
            b'{' => Some(b'+'),
            b' ' if row == VALUE => Some(b'0'),
            b']' if row == FIRST => Some(b')'),
            _ => None,
        }
    } else if row == BEHIND {
        match byte {
            b',' => Some(b','),
            b']' => Some(b')'),
            b'}' => Some(b'-'),
            _ => None,
        }
    } else if row <= FIRST_NAME {
        match byte {
            b'"' => Some(b'#'),
            b' ' if row == NAME => Some(b'3'),
            b'}' if row == FIRST_NAME => Some(b'-'),
            _ => None,
        }
    } else if row == AFTER_NAME && byte == b':' {
        Some(b'0')
    } else {
        None
    }
}

// Takes the next byte, whose letter this is.
#[inline(always)]
fn advance(state: &mut State, row: &mut usize, letter: u8, piece: &[u8], index: &mut usize) -> Found
    requires open { IsOpen state.old row.old }
    requires within { index.old < length piece.now }
    requires letter { IsLetter (mode_at row.old) (class_of (get_or piece.now index.old 0)) letter }
    ensures found { (s₀ : State) → Reaches s₀ piece.now index.old (at_row state.old row.old) → FoundBy s₀ piece.now result index.new (at_row state.new row.new) }
    ensures open { result ≡ Found.GoesOn → IsOpen state.new row.new }
    ensures next { result ≡ Found.GoesOn → index.new ≡ index.old + 1 }
    ensures ends { IsWithin result (length piece.now) }
    ensures depth { state.new.depth ≤ max_depth }
    ensures row { IsRow row.new }
{
    match take_letter(state, row, letter) {
        Found::GoesOn => {
            *index += 1;
            Found::GoesOn
        }
        Found::Ends(len) => Found::Ends(*index + len),
        Found::Refused(len) => Found::Refused(*index + len),
    }
}

// Takes the next bytes, as long as they are characters of a text, or such quotes, commas, colons, brackets and blanks.
#[inline(always)]
fn advance_likely(state: &mut State, row: &mut usize, piece: &[u8], index: &mut usize) -> Found
    requires open { IsOpen state.old row.old }
    requires within { index.old ≤ length piece.now }
    ensures found { (s₀ : State) → Reaches s₀ piece.now index.old (at_row state.old row.old) → FoundBy s₀ piece.now result index.new (at_row state.new row.new) }
    ensures open { result ≡ Found.GoesOn → IsOpen state.new row.new }
    ensures within { result ≡ Found.GoesOn → (index.old ≤ index.new) × (index.new ≤ length piece.now) }
    ensures ends { IsWithin result (length piece.now) }
    ensures depth { state.new.depth ≤ max_depth }
    ensures row { IsRow row.new }
{
    *index = pass_text(state, row, piece, *index);
    while *index < piece.len() {
        let Some(letter) = likely_letter(*row, piece[*index]) else {
            return Found::GoesOn;
        };
        match advance(state, row, letter, piece, index) {
            Found::GoesOn => {}
            found => return found,
        }
        *index = pass_text(state, row, piece, *index);
    }
    Found::GoesOn
}

// Searches the piece. A byte that only leads to another row is taken at once, with blanks or digits behind it; behind
// any other, but a number's comma, another such byte is likely.
#[inline(always)]
pub(crate) fn find_by_rows(state: &mut State, row: &mut usize, piece: &[u8]) -> Found
    requires open { IsOpen state.old row.old }
    ensures found { (more : List ℕ) → found_at (at_row state.old row.old) (piece.now ++ more) ≡ or_later result (length piece.now) (found_at (at_row state.new row.new) more) }
    ensures within { IsWithin result (length piece.now) }
    ensures open { result ≡ Found.GoesOn → is_over (at_row state.new row.new) ≡ false }
    ensures depth { state.new.depth ≤ max_depth }
    ensures row { IsRow row.new }
{
    let mut index = pass_text(state, row, piece, 0);
    while index < piece.len() {
        let letter = letter_at(*row, piece[index]);
        if letter >= 48 {
            *row = letter as usize;
            index = pass_run(*row, piece, index + 1);
            continue;
        }
        match advance(state, row, letter, piece, &mut index) {
            Found::GoesOn => {}
            found => return found,
        }
        if letter != b',' {
            match advance_likely(state, row, piece, &mut index) {
                Found::GoesOn => {}
                found => return found,
            }
        }
    }
    Found::GoesOn
}
