//! The state.
ghost use Rattle.std.specs.Prelude.{◌≡◌, ◌≤◌, ℕ, List, [], false};
ghost use Rattle.json_recognizer.specs.Machine.{top_of, goes};
ghost use Rattle.json_recognizer.specs.Grammar.{max_depth};
ghost use Rattle.json_recognizer.specs.State.{frames, next_of};
ghost use Rattle.json_recognizer.specs.Stream.{is_over, found_at, found_in};
ghost use Rattle.json_recognizer.specs.declared.machine.Mode.TheVariants.{Value};

use crate::machine::{Mode, Top};

/// The state of the recognizer between two bytes of a JSON text: its mode (in what part of the text it is), and the
/// arrays and objects that are open.
#[derive(Drop)]
pub struct State {
    pub mode: Mode,
    pub depth: usize,
    /// A field of the state of the recognizer, which checks a JSON text byte by byte. For each array or object that is
    /// open after the bytes read so far, from the outermost one: true for an object, false for an array. The field
    /// `depth` says how many are open, 127 at most: only the first `depth` elements count, and the others mean nothing.
    pub kinds: [bool; 127],
}

/// Returns the state that the recognizer, which checks a JSON text byte by byte, has before the first byte of a
/// document.
#[inline(always)]
pub fn start() -> State
    ensures is { next_of result ≡ goes Value [] max_depth }
    ensures depth { result.depth ≤ max_depth }
    ensures open { is_over result ≡ false }
    ensures begins { (text : List ℕ) → found_at result text ≡ found_in text }
{
    State {
        mode: Mode::Value,
        depth: 0,
        kinds: [false; 127],
    }
}

#[inline(always)]
pub(crate) fn top(state: &State) -> Top
    requires { state.now.depth ≤ max_depth }
    ensures { result ≡ top_of (frames state.now.depth state.now.kinds) }
{
    if state.depth == 0 {
        Top::Outside
    } else if state.kinds[state.depth - 1] {
        Top::InObject
    } else {
        Top::InArray
    }
}
