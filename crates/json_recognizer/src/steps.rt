//! What a letter of the table does to the state.
ghost use Rattle.std.specs.Prelude.{◌≡◌, ◌<◌, ◌≤◌, ◌-◌, ◌∷◌, true, false, List, ℕ};
ghost use Rattle.json_recognizer.specs.Classes.{class_of};
ghost use Rattle.json_recognizer.specs.Grammar.{max_depth};
ghost use Rattle.json_recognizer.specs.Machine.{apply, refused, top_of};
ghost use Rattle.json_recognizer.specs.State.{frames, next_of};
ghost use Rattle.json_recognizer.specs.Stream.{is_over, found_at, or_later, IsWithin};
ghost use Rattle.json_recognizer.specs.plan.Rows.{IsRow, IsOpen, IsLetter, mode_at, at_row, does};
ghost use Rattle.json_recognizer.specs.declared.machine.Move.TheVariants.{Opens, Shuts};

use crate::machine::Top;
use crate::state::{State, top};
use crate::stream::Found;
use crate::table::{BEHIND, FIRST, FIRST_NAME, NAME, NAME_CHARS, VALUE, VALUE_CHARS};

// Enters an array or object, and returns true; false, and nothing is changed, if it nests too deep.
#[inline(always)]
fn open(state: &mut State, row: &mut usize, is_object: bool) -> bool
    requires { state.old.depth ≤ max_depth }
    ensures goes { result ≡ true → apply (Opens is_object) (frames state.old.depth state.old.kinds) (max_depth - state.old.depth) ≡ next_of (at_row state.new row.new) }
    ensures refused { result ≡ false → apply (Opens is_object) (frames state.old.depth state.old.kinds) (max_depth - state.old.depth) ≡ refused }
    ensures stays { result ≡ false → state.new ≡ state.old }
    ensures depth { state.new.depth ≤ max_depth }
    ensures row { IsRow row.old → IsRow row.new }
{
    if state.depth == 127 {
        return false;
    }
    state.kinds[state.depth] = is_object;
    state.depth += 1;
    *row = if is_object { FIRST_NAME } else { FIRST };
    true
}

// Leaves the innermost array or object.
#[inline(always)]
fn shut(state: &mut State, row: &mut usize) -> bool
    requires { (0 < state.old.depth) × (state.old.depth ≤ max_depth) }
    ensures is { result ≡ true }
    ensures shuts { apply Shuts (frames state.old.depth state.old.kinds) (max_depth - state.old.depth) ≡ next_of (at_row state.new row.new) }
    ensures depth { state.new.depth ≤ max_depth }
    ensures row { IsRow row.new }
{
    state.depth -= 1;
    *row = BEHIND;
    true
}

// Does what the letter tells, and returns true; false, and nothing is changed, if the byte is wrong.
#[inline(always)]
fn make(state: &mut State, row: &mut usize, letter: u8) -> bool
    requires depth { state.old.depth ≤ max_depth }
    requires row { 48 ≤ letter → IsRow letter }
    requires at { IsRow row.old }
    ensures goes { result ≡ true → apply (does letter (top_of (frames state.old.depth state.old.kinds))) (frames state.old.depth state.old.kinds) (max_depth - state.old.depth) ≡ next_of (at_row state.new row.new) }
    ensures refused { result ≡ false → apply (does letter (top_of (frames state.old.depth state.old.kinds))) (frames state.old.depth state.old.kinds) (max_depth - state.old.depth) ≡ refused }
    ensures stays { result ≡ false → state.new ≡ state.old }
    ensures depth { state.new.depth ≤ max_depth }
    ensures row { IsRow row.new }
{
    if letter >= 48 {
        *row = letter as usize;
        return true;
    }
    match letter {
        b'\'' => {
            *row = VALUE_CHARS;
            true
        }
        b'#' => {
            *row = NAME_CHARS;
            true
        }
        b'/' | b'&' => {
            *row = BEHIND;
            true
        }
        b',' => match top(state) {
            Top::Outside => false,
            Top::InArray => {
                *row = VALUE;
                true
            }
            Top::InObject => {
                *row = NAME;
                true
            }
        },
        b'(' => open(state, row, false),
        b'+' => open(state, row, true),
        b')' => match top(state) {
            Top::InArray => shut(state, row),
            _ => false,
        },
        b'-' => match top(state) {
            Top::InObject => shut(state, row),
            _ => false,
        },
        _ => false,
    }
}

// Whether the document is over in this row.
#[inline(always)]
fn is_over(state: &State, row: usize) -> bool
    requires { IsRow row }
    ensures { result ≡ is_over (at_row state.now row) }
{
    row == BEHIND && state.depth == 0
}

// Takes a byte of which this is the letter.
#[inline(always)]
pub(crate) fn take_letter(state: &mut State, row: &mut usize, letter: u8) -> Found
    requires open { IsOpen state.old row.old }
    requires row { 48 ≤ letter → IsRow letter }
    ensures found { (x : ℕ) → IsLetter (mode_at row.old) (class_of x) letter → (more : List ℕ) → found_at (at_row state.old row.old) (x ∷ more) ≡ or_later result 1 (found_at (at_row state.new row.new) more) }
    ensures within { IsWithin result 1 }
    ensures open { result ≡ Found.GoesOn → is_over (at_row state.new row.new) ≡ false }
    ensures depth { state.new.depth ≤ max_depth }
    ensures row { IsRow row.new }
{
    if !make(state, row, letter) {
        if letter == b'%' && state.depth == 0 {
            return Found::Ends(0);
        }
        return Found::Refused(0);
    }
    if !is_over(state, *row) {
        return Found::GoesOn;
    }
    if letter == b'&' {
        Found::Ends(0)
    } else {
        Found::Ends(1)
    }
}
