//! The least or the greatest value of each kind, which decides a comparison by order.

ghost use Rattle.std.specs.Prelude.{◌≡◌, ◌==◌, ◌<◌, ◌||◌, length, slice_set, IfOk, IfSome, IsTrue, OnOk, map};
ghost use Rattle.jsonpath_nodes.specs.compare.Atoms.{seen_with};
ghost use Rattle.jsonpath_nodes.specs.compare.Comparisons.{Seen};
ghost use Rattle.jsonpath_select.specs.Parts.{is_pair};
ghost use Rattle.jsonpath_select.specs.plan.Deciders.{is_order, kind, some_right, seen_kept, IsOfKindAt};

use crate::comparison::pairs::{KeptAtom, is_satisfying_pair};
use jsonpath_nodes::{Atom, Fraction, NoMemory};
use jsonpath_paths::FilterToken;
use std::alloc::Global;

// The few values of a list that decide a comparison by order with that list on its right: for `<` and `<=` the greatest
// truth value, number and text, for `>` and `>=` the least. Of the kinds that have no order there is one value at most.
pub(crate) fn extreme_atoms<'s, N: Fraction>(
    alloc: Global,
    op: FilterToken,
    atoms: &'s [Atom<'s, N>],
) -> Result<Vec<KeptAtom<'s, N>>, NoMemory>
    requires { IsTrue (is_order op) }
    ensures { IfOk result (λ few. (x : Seen) → some_right op x (map (seen_kept N.fraction) few.items) ≡ some_right op x (map (seen_with N.fraction) atoms.now)) }
{
    let mut few = Vec::with_capacity(alloc, 4)?;
    for atom in atoms {
        add_atom(&mut few, op, atom)?;
    }
    Ok(few)
}

// Takes in an atom: in place of the one of its kind, if it is the greater for `<` and `<=`, the less for `>` and `>=`.
fn add_atom<'s, N: Fraction>(
    few: &mut Vec<KeptAtom<'s, N>>,
    op: FilterToken,
    atom: &'s Atom<'s, N>,
) -> Result<(), NoMemory>
    requires { IsTrue (is_order op) }
    ensures { OnOk result ((x : Seen) → some_right op x (map (seen_kept N.fraction) few.new.items) ≡ (is_pair op x (seen_with N.fraction atom.now) || some_right op x (map (seen_kept N.fraction) few.old.items))) }
{
    match index_of_kind(few.as_slice(), atom) {
        Some(index) => {
            if is_satisfying_pair(op, few[index].atom, atom) {
                put_at(few, index, KeptAtom { atom });
            }
        }
        None => few.push(KeptAtom { atom })?,
    }
    Ok(())
}

// Puts an item in the place of another one. It is a function of its own, so that any type of items does.
#[inline]
fn put_at<T: Drop>(items: &mut Vec<T>, index: usize, item: T)
    requires { index < length items.old.items }
    ensures { items.new.items ≡ slice_set items.old.items index item }
{
    items[index] = item;
}

// The index of the atom that is of the same kind as this one, if there is one.
fn index_of_kind<N: Fraction>(few: &[KeptAtom<'_, N>], atom: &Atom<'_, N>) -> Option<usize>
    ensures { IfSome result (λ i. IsOfKindAt N.fraction i few.now (kind (seen_with N.fraction atom.now))) }
{
    for index in 0..few.len() {
        if are_of_one_kind(few[index].atom, atom) {
            return Some(index);
        }
    }
    None
}

// Whether two values are of one kind. Those that have no order, such as arrays, are taken as one kind.
#[inline]
fn are_of_one_kind<N: Fraction>(left: &Atom<'_, N>, right: &Atom<'_, N>) -> bool
    ensures { result ≡ (kind (seen_with N.fraction left.now) == kind (seen_with N.fraction right.now)) }
{
    match left {
        Atom::Bool(_) => matches!(right, Atom::Bool(_)),
        Atom::Number(_) => matches!(right, Atom::Number(_)),
        Atom::Text(_) => matches!(right, Atom::Text(_)),
        _ => !matches!(right, Atom::Bool(_) | Atom::Number(_) | Atom::Text(_)),
    }
}
