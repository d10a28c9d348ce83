//! The tree on which paths are run: an exact tree, the members of each object in the order of their names.

ghost use Rattle.json.specs.Json.{no_members};
ghost use Rattle.json.specs.Value.{value_view, items_view, members_view};
ghost use Rattle.json_trees.specs.OrderedTree.{document_of_tree, items_of_tree, members_of_tree, in_order, items_in_order, members_in_order, items_from, members_from};

use crate::numbers::exact_number::ExactNumber;
use crate::ordered_tree::handle::{OrderedItems, OrderedMembers, OrderedValue};
use crate::refusal::DocumentRefusal;
use json::Value as Exact;
use jsonpath_nodes::{Atom, Handle, Tree};
use jsonpath_paths::Decimal;
use std::alloc::Global;
use std::borrow::CowStr;

/// The state of an iteration over an array's items: the items not yet returned.
#[derive(Drop)]
pub struct OrderedItemsLeft<'t, 'a> {
    array: OrderedItems<'t, 'a>,
    index: usize,
}

/// The state of an iteration over an object's members: the members not yet returned. They are returned in the order of
/// their names' bytes, each name once, with its last value.
#[derive(Drop)]
pub struct OrderedMembersLeft<'t, 'a> {
    object: OrderedMembers<'t, 'a>,
    index: usize,
}

impl<'t, 'a> Handle for OrderedValue<'t, 'a> {
    type Name = &'a str;
}

impl<'t, 'a> Tree for OrderedValue<'t, 'a> {
    type Array = OrderedItems<'t, 'a>;

    type Object = OrderedMembers<'t, 'a>;

    type ItemsLeft = OrderedItemsLeft<'t, 'a>;

    type MembersLeft = OrderedMembersLeft<'t, 'a>;

    type Number = ExactNumber<'a>;

    type Error = DocumentRefusal;

    ghost content = { λ v. document_of_tree (in_order (value_view v.value.now)) };

    ghost items = { λ a. items_of_tree (items_in_order (items_view a.items.now.items)) };

    ghost members = { λ o. members_of_tree (members_in_order (members_view o.members.now.items) no_members) };

    ghost items_left = { λ left. items_from left.index (items_of_tree (items_in_order (items_view left.array.items.now.items))) };

    ghost members_left = { λ left. members_from left.index (members_of_tree (members_in_order (members_view left.object.members.now.items) no_members)) };

    fn atom(&self) -> Result<Atom<'_, ExactNumber<'a>>, DocumentRefusal> {
        match self.value {
            Exact::Null => Ok(Atom::Null),
            Exact::Bool(truth) => Ok(Atom::Bool(*truth)),
            Exact::Number(text) => {
                let number = ExactNumber::of_text(self.alloc, CowStr::Borrowed(text))?;
                Ok(Atom::Number(number))
            }
            Exact::String(text) => Ok(Atom::Text(*text)),
            Exact::Array(_) => Ok(Atom::List),
            Exact::Object(_) => Ok(Atom::Object),
        }
    }

    fn number_of_literal(
        &self,
        alloc: Global,
        literal: Decimal,
    ) -> Result<ExactNumber<'a>, DocumentRefusal> {
        ExactNumber::of_literal(alloc, literal)
    }

    fn as_array(self) -> Option<OrderedItems<'t, 'a>> {
        self.items()
    }

    fn as_object(self) -> Option<OrderedMembers<'t, 'a>> {
        self.members()
    }

    fn len(array: OrderedItems<'t, 'a>) -> usize {
        array.items.len()
    }

    fn item_at(array: OrderedItems<'t, 'a>, index: usize) -> Option<OrderedValue<'t, 'a>> {
        array.item(index)
    }

    fn member_named(
        object: OrderedMembers<'t, 'a>,
        name: &str,
    ) -> Option<(&'a str, OrderedValue<'t, 'a>)> {
        object.member(name)
    }

    fn each_item(array: OrderedItems<'t, 'a>) -> OrderedItemsLeft<'t, 'a> {
        OrderedItemsLeft { array, index: 0 }
    }

    fn next_item(left: &mut OrderedItemsLeft<'t, 'a>) -> Option<OrderedValue<'t, 'a>> {
        match left.array.item(left.index) {
            Some(value) => {
                left.index += 1;
                Some(value)
            }
            None => None,
        }
    }

    fn each_member(object: OrderedMembers<'t, 'a>) -> OrderedMembersLeft<'t, 'a> {
        OrderedMembersLeft { object, index: 0 }
    }

    fn next_member(
        left: &mut OrderedMembersLeft<'t, 'a>,
    ) -> Option<(&'a str, OrderedValue<'t, 'a>)> {
        match left.object.member_at(left.index) {
            Some(member) => {
                left.index += 1;
                Some(member)
            }
            None => None,
        }
    }
}
