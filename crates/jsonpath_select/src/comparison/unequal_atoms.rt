//! Two values that differ, which decide `!=`: each value is unequal to one of them.

ghost use Rattle.std.specs.Prelude.{◌≡◌, true, false, IfOk, MatchOption, map};
ghost use Rattle.jsonpath_paths.specs.declared.token.tokens.FilterToken.TheVariants.{NotEqual};
ghost use Rattle.jsonpath_nodes.specs.compare.Atoms.{seen_with};
ghost use Rattle.jsonpath_nodes.specs.compare.Comparisons.{Seen};
ghost use Rattle.jsonpath_select.specs.Parts.{is_pair};
ghost use Rattle.jsonpath_select.specs.plan.Deciders.{some_right, seen_kept, IsAmong};

use crate::comparison::pairs::{KeptAtom, is_satisfying_pair};
use jsonpath_nodes::{Atom, Fraction, NoMemory};
use jsonpath_paths::FilterToken;
use std::alloc::Global;

// The first value of a list and the first that is unequal to it, if there are any.
pub(crate) fn two_unequal<'s, N: Fraction>(
    alloc: Global,
    atoms: &'s [Atom<'s, N>],
) -> Result<Vec<KeptAtom<'s, N>>, NoMemory>
    ensures { IfOk result (λ two. (x : Seen) → some_right NotEqual x (map (seen_kept N.fraction) two.items) ≡ some_right NotEqual x (map (seen_with N.fraction) atoms.now)) }
{
    let mut two = Vec::with_capacity(alloc, 2)?;
    let [first, rest @ ..] = atoms else {
        return Ok(two);
    };
    two.push(KeptAtom { atom: first })?;
    match first_unequal(first, rest) {
        Some(atom) => {
            two.push(KeptAtom { atom })?;
            Ok(two)
        }
        None => Ok(two),
    }
}

// The first value of the rest that isn't equal to this one, if there is one.
fn first_unequal<'s, N: Fraction>(
    first: &Atom<'s, N>,
    rest: &'s [Atom<'s, N>],
) -> Option<&'s Atom<'s, N>>
    ensures { MatchOption result (some_right NotEqual (seen_with N.fraction first.now) (map (seen_with N.fraction) rest.now) ≡ false) (λ a. (is_pair NotEqual (seen_with N.fraction first.now) (seen_with N.fraction a.now) ≡ true) × IsAmong (seen_with N.fraction a.now) (map (seen_with N.fraction) rest.now)) }
{
    for atom in rest {
        if is_satisfying_pair(FilterToken::NotEqual, first, atom) {
            return Some(atom);
        }
    }
    None
}
