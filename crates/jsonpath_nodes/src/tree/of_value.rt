//! The tree of `serde_json`: a value is a reference, an object a map that is sorted by names.

ghost use Rattle.std.specs.Slice.Iter.{iter_rest};
ghost use Rattle.serde_json.specs.View.{view};
ghost use Rattle.jsonpath_nodes.specs.document.OfData.{document_of, items_document, members_document};

use crate::compare::atom::Atom;
use crate::memory::NoMemory;
use crate::tree::Tree;
use crate::tree::name::Handle;
use jsonpath_paths::Decimal;
use serde_json::{Map, Value};
use std::alloc::Global;
use std::collections::btree_map;

impl<'a> Handle for &'a Value {
    type Name = &'a String;
}

impl<'a> Tree for &'a Value {
    type Array = &'a Vec<Value>;

    type Object = &'a Map<String, Value>;

    type ItemsLeft = std::slice::Iter<'a, Value>;

    type MembersLeft = btree_map::Iter<'a, String, Value>;

    type Number = Decimal;

    type Error = NoMemory;

    ghost content = { λ v. document_of (view v.now) };

    ghost items = { λ a. items_document a.now.items };

    ghost members = { λ o. members_document o.now.entries };

    ghost items_left = { λ left. items_document (iter_rest left) };

    ghost members_left = { λ left. members_document left };

    #[inline(always)]
    fn atom(&self) -> Result<Atom<'_, Decimal>, NoMemory> {
        Ok(Atom::of(self))
    }

    #[inline(always)]
    fn number_of_literal(&self, _alloc: Global, literal: Decimal) -> Result<Decimal, NoMemory> {
        Ok(literal)
    }

    #[inline(always)]
    fn as_array(self) -> Option<&'a Vec<Value>> {
        match self {
            Value::Array(items) => Some(items),
            _ => None,
        }
    }

    #[inline(always)]
    fn as_object(self) -> Option<&'a Map<String, Value>> {
        match self {
            Value::Object(members) => Some(members),
            _ => None,
        }
    }

    #[inline(always)]
    fn len(array: &'a Vec<Value>) -> usize {
        array.len()
    }

    #[inline(always)]
    fn item_at(array: &'a Vec<Value>, index: usize) -> Option<&'a Value> {
        if index < array.len() {
            Some(&array[index])
        } else {
            None
        }
    }

    #[inline]
    fn member_named(object: &'a Map<String, Value>, name: &str) -> Option<(&'a String, &'a Value)> {
        match object.get_key_value(name) {
            Some((key, member)) => Some((key, member)),
            None => None,
        }
    }

    #[inline(always)]
    fn each_item(array: &'a Vec<Value>) -> std::slice::Iter<'a, Value> {
        array.iter()
    }

    #[inline(always)]
    fn next_item(left: &mut std::slice::Iter<'a, Value>) -> Option<&'a Value> {
        left.next()
    }

    #[inline(always)]
    fn each_member(object: &'a Map<String, Value>) -> btree_map::Iter<'a, String, Value> {
        object.iter()
    }

    #[inline(always)]
    fn next_member(
        left: &mut btree_map::Iter<'a, String, Value>,
    ) -> Option<(&'a String, &'a Value)> {
        left.next()
    }
}
