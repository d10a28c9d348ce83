//! What is stored of the right values of a comparison, to decide each left one without comparing every pair.

ghost use Rattle.std.specs.Prelude.{◌≡◌, IfOk, map};
ghost use Rattle.std.specs.List.{list_any};
ghost use Rattle.jsonpath_nodes.specs.compare.Atoms.{seen_with};
ghost use Rattle.jsonpath_select.specs.plan.Deciders.{decided, DecidesFor};

use crate::comparison::extremes::extreme_atoms;
use crate::comparison::pairs::{
    KeptAtom, has_pair_with_left, has_pair_with_one_of, is_satisfying_pair,
};
use crate::comparison::unequal_atoms::two_unequal;
use crate::comparison::value_set::ValueSet;
use jsonpath_nodes::{Atom, Fraction, NoMemory};
use jsonpath_paths::FilterToken;
use std::alloc::Global;

// So many values are looked at one by one.
pub(crate) const FEW: usize = 4;

// What is kept of the right values of a comparison.
#[derive(Drop)]
pub enum Decider<'s, N: Ord> {
    // All of them, where they are few.
    All(&'s [Atom<'s, N>]),
    // The least or the greatest of each kind, or two that differ.
    Few(Vec<KeptAtom<'s, N>>),
    // Which there are, for `==`.
    ValueSet(ValueSet<'s, N>),
}

impl<'s, N: Fraction> Decider<'s, N> {
    // What is kept of the right values to decide this comparison: all where they are few, a set for `==`, two that
    // differ for `!=`, the extremes for `<`, `<=`, `>` and `>=`, else all.
    pub(crate) fn for_right_values(
        alloc: Global,
        op: FilterToken,
        rights: &'s [Atom<'s, N>],
    ) -> Result<Decider<'s, N>, NoMemory>
        ensures { IfOk result (DecidesFor N.fraction op (map (seen_with N.fraction) rights.now)) }
    {
        if rights.len() <= FEW {
            return Ok(Decider::All(rights));
        }
        match op {
            FilterToken::Equal => Ok(Decider::ValueSet(ValueSet::of_atoms(alloc, rights)?)),
            FilterToken::Little
            | FilterToken::LittleOrEqual
            | FilterToken::Greater
            | FilterToken::GreaterOrEqual => Ok(Decider::Few(extreme_atoms(alloc, op, rights)?)),
            FilterToken::NotEqual => Ok(Decider::Few(two_unequal(alloc, rights)?)),
            _ => Ok(Decider::All(rights)),
        }
    }

    // Whether one of these on the left and some right value satisfy `op`. Mostly there is one of each.
    #[inline]
    pub(crate) fn has_pair(&self, op: FilterToken, lefts: &'s [Atom<'s, N>]) -> bool
        ensures { result ≡ list_any (decided N.fraction op self.now) (map (seen_with N.fraction) lefts.now) }
    {
        match (self, lefts) {
            (Decider::All([right]), [left]) => is_satisfying_pair(op, left, right),
            _ => self.has_pair_by_trying_each_left(op, lefts),
        }
    }

    // Whether one of the left values and some right value satisfy the comparison, each left one tried in turn.
    #[inline(never)]
    fn has_pair_by_trying_each_left(&self, op: FilterToken, lefts: &'s [Atom<'s, N>]) -> bool
        ensures { result ≡ list_any (decided N.fraction op self.now) (map (seen_with N.fraction) lefts.now) }
    {
        for left in lefts {
            if self.has_pair_with_left(op, left) {
                return true;
            }
        }
        false
    }

    // Whether this left value and some right value satisfy the comparison.
    #[inline]
    fn has_pair_with_left(&self, op: FilterToken, left: &'s Atom<'s, N>) -> bool
        ensures { result ≡ decided N.fraction op self.now (seen_with N.fraction left.now) }
    {
        match *self {
            Decider::All(rights) => has_pair_with_left(op, left, rights),
            Decider::Few(ref few) => has_pair_with_one_of(op, left, few.as_slice()),
            Decider::ValueSet(ref known) => known.has_equal_atom(left),
        }
    }
}
