//! Whether some left and some right atom satisfy a comparison.

ghost use Rattle.std.specs.Prelude.{◌≡◌, map, IfOk};
ghost use Rattle.std.specs.List.{list_any};
ghost use Rattle.jsonpath_nodes.specs.compare.Atoms.{seen_with};
ghost use Rattle.jsonpath_select.specs.Parts.{is_pair, has_pair as has_some_pair};
ghost use Rattle.jsonpath_select.specs.plan.Deciders.{seen_kept};

use crate::comparison::decider::{Decider, FEW};
use jsonpath_nodes::{Atom, Fraction, NoMemory, holds_by_fractions};
use jsonpath_paths::FilterToken;
use std::alloc::Global;

// An atom that stands for others of its list.
#[derive(Drop)]
pub struct KeptAtom<'s, N> {
    pub(crate) atom: &'s Atom<'s, N>,
}

// Whether some left and some right atom satisfy the comparison. Mostly there is one of each.
#[inline]
pub(crate) fn has_pair<N: Fraction>(
    alloc: Global,
    op: FilterToken,
    lefts: &[Atom<'_, N>],
    rights: &[Atom<'_, N>],
) -> Result<bool, NoMemory>
    ensures { IfOk result (λ b. b ≡ has_some_pair op (map (seen_with N.fraction) lefts.now) (map (seen_with N.fraction) rights.now)) }
{
    match (lefts, rights) {
        ([left], [right]) => Ok(is_satisfying_pair(op, left, right)),
        _ => has_pair_among_several(alloc, op, lefts, rights),
    }
}

// Whether some left and some right atom satisfy the comparison, where there isn't one of each. If many stand on the
// left, the right ones are made ready once, and not looked at for each left one.
#[inline(never)]
fn has_pair_among_several<N: Fraction>(
    alloc: Global,
    op: FilterToken,
    lefts: &[Atom<'_, N>],
    rights: &[Atom<'_, N>],
) -> Result<bool, NoMemory>
    ensures { IfOk result (λ b. b ≡ has_some_pair op (map (seen_with N.fraction) lefts.now) (map (seen_with N.fraction) rights.now)) }
{
    if lefts.len() <= FEW {
        Ok(has_pair_by_trying_each(op, lefts, rights))
    } else {
        let decider = Decider::for_right_values(alloc, op, rights)?;
        Ok(decider.has_pair(op, lefts))
    }
}

// Whether some left and some right atom satisfy the comparison, by a look at each pair.
fn has_pair_by_trying_each<N: Fraction>(
    op: FilterToken,
    lefts: &[Atom<'_, N>],
    rights: &[Atom<'_, N>],
) -> bool
    ensures { result ≡ has_some_pair op (map (seen_with N.fraction) lefts.now) (map (seen_with N.fraction) rights.now) }
{
    for left in lefts {
        if has_pair_with_left(op, left, rights) {
            return true;
        }
    }
    false
}

// Whether one of the right values satisfies the comparison with the left one.
#[inline]
pub(crate) fn has_pair_with_left<N: Fraction>(
    op: FilterToken,
    left: &Atom<'_, N>,
    rights: &[Atom<'_, N>],
) -> bool
    ensures { result ≡ list_any (λ y. is_pair op (seen_with N.fraction left.now) y) (map (seen_with N.fraction) rights.now) }
{
    for right in rights {
        if is_satisfying_pair(op, left, right) {
            return true;
        }
    }
    false
}

// Whether one of the right values, which stand for others, satisfies the comparison with the left one.
pub(crate) fn has_pair_with_one_of<N: Fraction>(
    op: FilterToken,
    left: &Atom<'_, N>,
    rights: &[KeptAtom<'_, N>],
) -> bool
    ensures { result ≡ list_any (λ y. is_pair op (seen_with N.fraction left.now) y) (map (seen_kept N.fraction) rights.now) }
{
    for right in rights {
        if is_satisfying_pair(op, left, right.atom) {
            return true;
        }
    }
    false
}

// Whether the left and the right atom satisfy the comparison; false for `&&` and `||`.
#[inline]
pub(crate) fn is_satisfying_pair<N: Fraction>(
    op: FilterToken,
    left: &Atom<'_, N>,
    right: &Atom<'_, N>,
) -> bool
    ensures { result ≡ is_pair op (seen_with N.fraction left.now) (seen_with N.fraction right.now) }
{
    match op {
        FilterToken::And | FilterToken::Or => false,
        _ => holds_by_fractions(op, left, right),
    }
}
