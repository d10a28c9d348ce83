//! A set of values, kind by kind, in which one is looked up.

ghost use Rattle.std.specs.Prelude.{◌≡◌, ◌||◌, IfOk, OnOk, map};
ghost use Rattle.jsonpath_paths.specs.declared.token.tokens.FilterToken.TheVariants.{Equal};
ghost use Rattle.jsonpath_nodes.specs.compare.Atoms.{seen_with};
ghost use Rattle.jsonpath_nodes.specs.compare.Comparisons.{Seen};
ghost use Rattle.jsonpath_select.specs.Parts.{is_pair};
ghost use Rattle.jsonpath_select.specs.plan.Deciders.{some_right, is_among_known};

use jsonpath_nodes::{Atom, Fraction, NoMemory};
use std::alloc::Global;
use std::collections::BTreeSet;

// The values of a list, to tell whether one is among them.
#[derive(Drop)]
pub struct ValueSet<'s, N: Ord> {
    pub(crate) has_null: bool,
    pub(crate) has_true: bool,
    pub(crate) has_false: bool,
    pub(crate) numbers: BTreeSet<&'s N>,
    pub(crate) texts: BTreeSet<&'s str>,
}

impl<'s, N: Fraction> ValueSet<'s, N> {
    // The values of a list, kept by kind, so that each can be looked up.
    pub(crate) fn of_atoms(
        alloc: Global,
        atoms: &'s [Atom<'s, N>],
    ) -> Result<ValueSet<'s, N>, NoMemory>
        ensures { IfOk result (λ known. (x : Seen) → is_among_known N.fraction known x ≡ some_right Equal x (map (seen_with N.fraction) atoms.now)) }
    {
        let mut known = ValueSet {
            has_null: false,
            has_true: false,
            has_false: false,
            numbers: BTreeSet::new(alloc),
            texts: BTreeSet::new(alloc),
        };
        for atom in atoms {
            known.add_atom(atom)?;
        }
        Ok(known)
    }

    // Takes one more value in. Arrays, objects and unread numbers are not kept, since `==` holds of none of them.
    fn add_atom(&mut self, atom: &'s Atom<'s, N>) -> Result<(), NoMemory>
        ensures { OnOk result ((x : Seen) → is_among_known N.fraction self.new x ≡ (is_pair Equal x (seen_with N.fraction atom.now) || is_among_known N.fraction self.old x)) }
    {
        match atom {
            Atom::Null => self.has_null = true,
            Atom::Bool(true) => self.has_true = true,
            Atom::Bool(false) => self.has_false = true,
            Atom::Number(value) => {
                self.numbers.insert(value)?;
            }
            Atom::Text(value) => {
                self.texts.insert(*value)?;
            }
            _ => {}
        }
        Ok(())
    }

    // Whether some value of the list satisfies `==` with this one, which no array, object or unread number does.
    pub(crate) fn has_equal_atom(&self, atom: &'s Atom<'s, N>) -> bool
        ensures { result ≡ is_among_known N.fraction self.now (seen_with N.fraction atom.now) }
    {
        match atom {
            Atom::Null => self.has_null,
            Atom::Bool(true) => self.has_true,
            Atom::Bool(false) => self.has_false,
            Atom::Number(value) => self.numbers.contains(&value),
            Atom::Text(value) => self.texts.contains(value),
            _ => false,
        }
    }
}
