//! What the steps of a path need of a document: its values, as small copies that lead to them. A `Tree` names no
//! lifetime, so functions that call themselves can be generic over it.

ghost use Rattle.std.specs.Prelude.{◌≡◌, None, option_map, MatchOption, IfOk, IfSome, IfNone};
ghost use Rattle.jsonpath_nodes.specs.compare.Atoms.{seen_with};
ghost use Rattle.jsonpath_nodes.specs.compare.Comparisons.{seen};
ghost use Rattle.jsonpath_paths.specs.Numbers.{decimal_units};
ghost use Rattle.jsonpath_nodes.specs.document.Document.{Document, Items, Members, array, object, no_items, item, no_members, member};
ghost use Rattle.jsonpath_nodes.specs.document.Find.{items_len, as_array, as_object, get_item, get_member};
ghost use Rattle.jsonpath_nodes.specs.place.Order.{NamesAscend};

pub(crate) mod name;
pub(crate) mod of_value;
pub(crate) mod order;

use crate::compare::atom::Atom;
use crate::compare::fraction::Fraction;
use crate::memory::NoMemory;
use crate::tree::name::Handle;
use jsonpath_paths::Decimal;
use std::alloc::{AllocError, Global};

/// A trait: a small handle to a value of a document, which can be copied, such as `&Value`. The functions for steps and
/// comparisons are generic over it.
///
/// ```text
/// let value = Value::Bool(true);
/// assert!(rt; matches!(Tree::atom(&&value)?, Atom::Bool(true)));
/// ```
pub trait Tree: Handle {
    /// An associated type, chosen by the implementor: a handle to an array of the document, to read its items.
    type Array: Copy;
    /// An associated type, the implementor's choice: a handle to an object of the document, to read its members.
    type Object: Copy;
    /// An associated type, chosen by the implementor: an array iteration's state, the items not yet returned.
    type ItemsLeft: Drop;
    /// An associated type, chosen by the implementor: an iteration's state, the object members not yet returned.
    type MembersLeft: Drop;
    /// An associated type, chosen by the implementor: the type of the numbers that comparisons use, such as `Decimal`.
    type Number: Fraction;
    /// An associated type, chosen by the implementor: an evaluation's error: no memory, or a value can't be compared.
    type Error: Drop + From<NoMemory> + From<AllocError>;

    ghost content: { Self → Document };

    ghost items: { Self.Array → Items };

    ghost members: { Self.Object → Members };

    ghost items_left: { Self.ItemsLeft → Items };

    ghost members_left: { Self.MembersLeft → Members };

    /// A method that implementors provide: returns what a comparison uses of this value, namely its kind, and the
    /// content of a boolean, a number or a text. The error says why the value can't be compared.
    fn atom(&self) -> Result<Atom<'_, Self::Number>, Self::Error>
        ensures { IfOk result (λ atom. seen_with Self.Number.fraction atom ≡ seen (content self.now)) };

    /// A method that implementors provide: converts a path's number literal to the number type that comparisons use.
    fn number_of_literal(
        &self,
        alloc: Global,
        literal: Decimal,
    ) -> Result<Self::Number, Self::Error>
        ensures { IfOk result (λ number. Self.Number.fraction number ≡ (decimal_units literal, 18)) };

    /// A method that implementors provide: returns a handle to this value as an array, through which the items are
    /// read; `None` if the value is no array.
    fn as_array(self) -> Option<Self::Array>
        ensures some { IfSome result (λ a. content self ≡ array (items a)) }
        ensures none { IfNone result (as_array (content self) ≡ None) };

    /// A method that implementors provide: returns a handle to this value as an object, through which the members are
    /// read; `None` if the value is no object.
    fn as_object(self) -> Option<Self::Object>
        ensures some { IfSome result (λ o. content self ≡ object (members o)) }
        ensures none { IfNone result (as_object (content self) ≡ None) };

    /// A method that implementors provide: returns the number of items of an array.
    fn len(array: Self::Array) -> usize
        ensures { result ≡ items_len (items array) };

    /// A method that implementors provide: returns the array's item at this index (from 0); `None` if it has none.
    fn item_at(array: Self::Array, index: usize) -> Option<Self>
        ensures { option_map (λ v. content v) result ≡ get_item index (items array) };

    /// A method that implementors provide: returns the object's member with this name, as a pair of the name (as the
    /// document stores it) and the value. Returns `None` if the object has no member with this name.
    fn member_named(object: Self::Object, name: &str) -> Option<(Self::Name, Self)>
        ensures key { IfSome result (λ p. Self.Name.bytes p.0 ≡ name.now) }
        ensures value { option_map (λ p. content p.1) result ≡ get_member name.now (members object) };

    /// A method that implementors provide: starts an iteration over the items of an array, in their order. Returns its
    /// state, that is, the items not yet returned, which are all of them.
    fn each_item(array: Self::Array) -> Self::ItemsLeft
        ensures { items_left result ≡ items array };

    /// A method that implementors provide: takes the next item from `left`, the items that an iteration over an array
    /// has not returned yet. Returns this item, or `None` if no item is left.
    fn next_item(left: &mut Self::ItemsLeft) -> Option<Self>
        ensures { MatchOption result (items_left left.old ≡ no_items) (λ v. items_left left.old ≡ item (content v) (items_left left.new)) };

    /// A method that implementors provide: starts an iteration over the members of an object, in the order of their
    /// names' bytes, each name once, and returns the state of the iteration.
    fn each_member(object: Self::Object) -> Self::MembersLeft
        ensures all { members_left result ≡ members object }
        ensures ordered { NamesAscend (members object) };

    /// A method that implementors provide: takes the next member from `left`, the members that an iteration over an
    /// object has not returned yet. Returns the member's name and value, or `None` if no member is left.
    fn next_member(left: &mut Self::MembersLeft) -> Option<(Self::Name, Self)>
        ensures { MatchOption result (members_left left.old ≡ no_members) (λ p. members_left left.old ≡ member (Self.Name.bytes p.0) (content p.1) (members_left left.new)) };
}
