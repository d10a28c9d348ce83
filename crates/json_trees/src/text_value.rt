//! The tree on which paths are run as on what `serde_json` reads: a number is read as it reads it.

ghost use Rattle.std.specs.Prelude.{◌≡◌, true, IsTrue};
ghost use Rattle.json.specs.Value.{value_view};
ghost use Rattle.jsonpath_nodes.specs.compare.Atoms.{seen_by};
ghost use Rattle.jsonpath_nodes.specs.compare.Comparisons.{seen};
ghost use Rattle.jsonpath_nodes.specs.document.Document.{number, written};
ghost use Rattle.json_trees.specs.AsRead.{text_document, number_as_read};
ghost use Rattle.json_trees.specs.OrderedTree.{is_ordered};
ghost use Rattle.json_trees.specs.TextHandles.{text_items, text_members, text_items_left, text_members_left};

use crate::numbers::whole_number::{WholeNumber, whole_number};
use crate::ordered_tree::handle::{OrderedItems, OrderedMembers, OrderedValue};
use crate::ordered_tree::tree::{OrderedItemsLeft, OrderedMembersLeft};
use json::Value as Exact;
use jsonpath_nodes::{Atom, Handle, NoMemory, Tree};
use jsonpath_paths::Decimal;
use std::alloc::Global;

/// A handle to a value in the tree of a JSON text. Paths that are run on it see what `serde_json` reads from the text: the
/// members of each object in the order of their names' bytes, each name once, with its last value; and a number that is
/// neither an `i64` nor a `u64` satisfies `!=` alone.
#[derive(Clone, Copy, Drop)]
pub struct TextValue<'t, 'a> {
    pub(crate) ordered: OrderedValue<'t, 'a>,
}

impl<'t, 'a> TextValue<'t, 'a> {
    /// The value: a number as its text writes it, with all its digits, and an object's members as its document has them.
    /// A `Document` that was read by `read_in_order` has them in the order of their names' bytes, each name once.
    pub fn value(&self) -> &'t Exact<'a>
        ensures { result.now ≡ self.now.ordered.value.now }
    {
        self.ordered.value()
    }

    // Whether the names of each object in the value are in the order of their bytes, each once.
    #[inline(always)]
    pub(crate) fn is_in_order(&self) -> bool
        ensures { IsTrue result → is_ordered (value_view self.now.ordered.value.now) ≡ true }
    {
        self.ordered.order.stands()
    }
}

impl<'t, 'a> Handle for TextValue<'t, 'a> {
    type Name = &'a str;
}

impl<'t, 'a> Tree for TextValue<'t, 'a> {
    type Array = OrderedItems<'t, 'a>;

    type Object = OrderedMembers<'t, 'a>;

    type ItemsLeft = OrderedItemsLeft<'t, 'a>;

    type MembersLeft = OrderedMembersLeft<'t, 'a>;

    type Number = Decimal;

    type Error = NoMemory;

    ghost content = { λ v. text_document v };

    ghost items = { λ a. text_items a };

    ghost members = { λ o. text_members o };

    ghost items_left = { λ left. text_items_left left };

    ghost members_left = { λ left. text_members_left left };

    fn atom(&self) -> Result<Atom<'_, Decimal>, NoMemory> {
        Ok(match self.ordered.value {
            Exact::Null => Atom::Null,
            Exact::Bool(truth) => Atom::Bool(*truth),
            Exact::Number(text) => number_atom(text),
            Exact::String(text) => Atom::Text(*text),
            Exact::Array(_) => Atom::List,
            Exact::Object(_) => Atom::Object,
        })
    }

    fn number_of_literal(&self, _alloc: Global, literal: Decimal) -> Result<Decimal, NoMemory> {
        Ok(literal)
    }

    fn as_array(self) -> Option<OrderedItems<'t, 'a>> {
        self.ordered.items()
    }

    fn as_object(self) -> Option<OrderedMembers<'t, 'a>> {
        self.ordered.members()
    }

    fn len(array: OrderedItems<'t, 'a>) -> usize {
        OrderedValue::len(array)
    }

    fn item_at(array: OrderedItems<'t, 'a>, index: usize) -> Option<TextValue<'t, 'a>> {
        match OrderedValue::item_at(array, index) {
            Some(ordered) => Some(TextValue { ordered }),
            None => None,
        }
    }

    fn member_named(
        object: OrderedMembers<'t, 'a>,
        name: &str,
    ) -> Option<(&'a str, TextValue<'t, 'a>)> {
        match OrderedValue::member_named(object, name) {
            Some((name, ordered)) => Some((name, TextValue { ordered })),
            None => None,
        }
    }

    fn each_item(array: OrderedItems<'t, 'a>) -> OrderedItemsLeft<'t, 'a> {
        OrderedValue::each_item(array)
    }

    fn next_item(left: &mut OrderedItemsLeft<'t, 'a>) -> Option<TextValue<'t, 'a>> {
        let ordered = OrderedValue::next_item(left)?;
        Some(TextValue { ordered })
    }

    fn each_member(object: OrderedMembers<'t, 'a>) -> OrderedMembersLeft<'t, 'a> {
        OrderedValue::each_member(object)
    }

    fn next_member(left: &mut OrderedMembersLeft<'t, 'a>) -> Option<(&'a str, TextValue<'t, 'a>)> {
        let (name, ordered) = OrderedValue::next_member(left)?;
        Some((name, TextValue { ordered }))
    }
}

// What a comparison sees of a number's text.
#[tactic(auto, using(crate::proofs::AsReadLemmas::whole_number_seen, crate::proofs::AsReadLemmas::unread_number_seen))]
fn number_atom(text: &str) -> Atom<'_, Decimal>
    ensures { seen_by result ≡ seen (number (number_as_read (written text.now))) }
{
    match whole_number(text) {
        Some(WholeNumber::Unsigned(n)) => Atom::Number(Decimal::of_u64(n)),
        Some(WholeNumber::Negative(n)) => Atom::Number(Decimal::of_i64(n)),
        None => Atom::Unread,
    }
}
