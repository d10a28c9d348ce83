//! Handles that lead to the values of an exact tree, the members of each object in the order of their names.

ghost use Rattle.std.specs.Prelude.{◌≡◌, true, length, map, option_map, option_to_list, IfOk, IfSome};
ghost use Rattle.json.specs.Find.{as_array, as_object, get_item, get_member};
ghost use Rattle.json.specs.Json.{array, object};
ghost use Rattle.json.specs.Value.{value_view, items_view, members_view};
ghost use Rattle.jsonpath_nodes.specs.place.Location.{name};
ghost use Rattle.jsonpath_nodes.specs.place.Owned.{owned_step, owned_steps};
ghost use Rattle.jsonpath_nodes.specs.place.SpotPlace.{step_of};
ghost use Rattle.json_trees.specs.ExactAt.{exact_child, exact_at, values_named, values_by};
ghost use Rattle.json_trees.specs.OrderedTree.{member_at, places, taken};
ghost use Rattle.json_trees.specs.TreeOrder.{is_order, values_of};

use crate::ordered_tree::order::Order;
use json::Value as Exact;
use jsonpath_nodes::{LocStep, Location, PathStep};
use std::alloc::{AllocError, Global};
use std::cmp::Ordering;

/// A handle to a value in an exact tree, which is the tree of a JSON text with each number as it is written. Paths that
/// are run on the value take the members of each object in the order of their names' bytes, each name once, with its
/// last value.
#[derive(Clone, Copy, Drop)]
pub struct OrderedValue<'t, 'a> {
    pub(crate) value: &'t Exact<'a>,
    pub(crate) order: &'t Order,
    pub(crate) alloc: Global,
    ghost ordered: { is_order order.now (value_view value.now) ≡ true },
}

/// A handle to an array in an exact tree, which is the tree of a JSON text with each number as it is written.
#[derive(Clone, Copy, Drop)]
pub struct OrderedItems<'t, 'a> {
    pub(crate) items: &'t Vec<Exact<'a>>,
    pub(crate) order: &'t Order,
    pub(crate) alloc: Global,
    ghost ordered: { is_order order.now (array (items_view items.now.items)) ≡ true },
}

/// A handle to an object in an exact tree, which is the tree of a JSON text with each number as it is written. Paths
/// that are run on the tree take the object's members in the order of their names' bytes, each name once, with its last
/// value.
#[derive(Clone, Copy, Drop)]
pub struct OrderedMembers<'t, 'a> {
    pub(crate) members: &'t Vec<(&'a str, Exact<'a>)>,
    pub(crate) order: &'t Order,
    pub(crate) alloc: Global,
    ghost ordered: { is_order order.now (object (members_view members.now.items)) ≡ true },
}

/// The value of a member of an object in an exact tree.
#[derive(Clone, Copy, Drop)]
pub struct MemberValue<'t, 'a> {
    pub value: &'t Exact<'a>,
}

impl<'t, 'a> OrderedValue<'t, 'a> {
    // A handle to a value whose members are taken in this order.
    pub(crate) fn with_order(
        alloc: Global,
        value: &'t Exact<'a>,
        order: &'t Order,
    ) -> OrderedValue<'t, 'a>
        requires { is_order order.now (value_view value.now) ≡ true }
        ensures { result.value.now ≡ value.now }
    {
        OrderedValue {
            value,
            order,
            alloc,
        }
    }

    /// Returns the value, in the tree of a JSON text, to which this `OrderedValue` is a handle.
    pub fn value(&self) -> &'t Exact<'a>
        ensures { result.now ≡ self.now.value.now }
    {
        self.value
    }

    /// Returns the value to which the steps of `location` lead from this value, as if this value were the root; `None`
    /// if nothing is there. If an object has a name several times, its last value counts. The time grows with the
    /// number of steps and with the logarithm of how many members the objects have.
    pub fn value_at(&self, location: &Location) -> Option<OrderedValue<'t, 'a>>
        ensures { option_map (λ v. value_view v.value.now) result ≡ exact_at (value_view self.now.value.now) location.now }
    {
        self.value_below(location.steps())
    }

    /// The value to which the steps of a location lead from this value; `None` if nothing is there. If an object has a
    /// name several times, its last value counts.
    pub fn value_below(self, steps: &[LocStep]) -> Option<OrderedValue<'t, 'a>>
        ensures { option_map (λ v. value_view v.value.now) result ≡ exact_at (value_view self.entry.value.now) (owned_steps steps.now) }
    {
        match steps.split_first() {
            Some((step, rest)) => self.child(borrowed_step(step))?.value_below(rest),
            None => Some(self),
        }
    }

    /// The values of all members of this name, in the order of the text, if this is an object; else none. The time grows
    /// with the number of members where a name comes again in the object, else with its logarithm. The only error is
    /// that memory ran out.
    pub fn values_named(self, key: &str) -> Result<Vec<MemberValue<'t, 'a>>, AllocError>
        ensures { IfOk result (λ values. map (λ m. value_view m.value.now) values.items ≡ values_by (name key.now) (value_view self.entry.value.now)) }
    {
        match self.members() {
            Some(members) => members.values_named(key),
            None => Ok(Vec::new(self.alloc)),
        }
    }

    // The member or item that one step of a location leads to, if there is one.
    pub(crate) fn child(self, step: PathStep<'_>) -> Option<OrderedValue<'t, 'a>>
        ensures { option_map (λ v. value_view v.value.now) result ≡ exact_child (step_of step.entry) (value_view self.entry.value.now) }
    {
        match step {
            PathStep::Name(name) => {
                let member = self.members()?.member(name)?;
                Some(member.1)
            }
            PathStep::Index(index) => self.items()?.item(index),
        }
    }

    // The items, if this is an array.
    #[inline(always)]
    pub(crate) fn items(self) -> Option<OrderedItems<'t, 'a>>
        ensures { option_map (λ a. items_view a.items.now.items) result ≡ as_array (value_view self.entry.value.now) }
    {
        match self.value {
            Exact::Array(items) => Some(OrderedItems {
                items,
                order: self.order,
                alloc: self.alloc,
            }),
            _ => None,
        }
    }

    // The members, if this is an object.
    #[inline(always)]
    pub(crate) fn members(self) -> Option<OrderedMembers<'t, 'a>>
        ensures { option_map (λ o. members_view o.members.now.items) result ≡ as_object (value_view self.entry.value.now) }
    {
        match self.value {
            Exact::Object(members) => Some(OrderedMembers {
                members,
                order: self.order,
                alloc: self.alloc,
            }),
            _ => None,
        }
    }
}

// A step of a location, borrowed from it.
fn borrowed_step(step: &LocStep) -> PathStep<'_>
    ensures { step_of result ≡ owned_step step.now }
{
    match step {
        LocStep::Name(name) => PathStep::Name(name.as_str()),
        LocStep::Index(index) => PathStep::Index(*index),
    }
}

impl<'t, 'a> OrderedItems<'t, 'a> {
    // The item at an index, if there is one.
    #[inline(always)]
    pub(crate) fn item(self, index: usize) -> Option<OrderedValue<'t, 'a>>
        ensures { option_map (λ v. value_view v.value.now) result ≡ get_item index (items_view self.entry.items.now.items) }
    {
        if index >= self.items.len() {
            return None;
        }
        let order = self.order.in_item(index);
        Some(OrderedValue::with_order(self.alloc, &self.items[index], order))
    }
}

impl<'t, 'a> OrderedMembers<'t, 'a> {
    // How many members there are, each name counted once.
    #[inline(always)]
    fn len(self) -> usize
        ensures { result ≡ length (places (members_view self.entry.members.now.items)) }
    {
        match self.order {
            Order::OfMembers(places, _) => places.len(),
            Order::AsItStands | Order::OfItems(_) => self.members.len(),
        }
    }

    // The member whose name has this index among the names in their order, if there are so many.
    #[inline(always)]
    pub(crate) fn member_at(self, index: usize) -> Option<(&'a str, OrderedValue<'t, 'a>)>
        ensures { option_map (λ m. (m.0.now, value_view m.1.value.now)) result ≡ taken index (members_view self.entry.members.now.items) }
    {
        match self.order {
            Order::OfMembers(places, values) => {
                if index >= places.len() {
                    return None;
                }
                self.member_in_place(places[index], values)
            }
            Order::AsItStands | Order::OfItems(_) => self.member_in_place(index, self.order),
        }
    }

    // The member at a place of the object, in whose values members are taken in this order.
    #[inline(always)]
    fn member_in_place(
        self,
        place: usize,
        values: &'t Order,
    ) -> Option<(&'a str, OrderedValue<'t, 'a>)>
        requires { is_order values.now (array (values_of (members_view self.members.now.items))) ≡ true }
        ensures { option_map (λ m. (m.0.now, value_view m.1.value.now)) result ≡ member_at place (members_view self.entry.members.now.items) }
    {
        if place >= self.members.len() {
            return None;
        }
        let member = &self.members[place];
        let value = OrderedValue::with_order(self.alloc, &member.1, values.in_item(place));
        Some((member.0, value))
    }

    // The last member of a name, if there is one. Half of the names that are left is passed over at a time.
    pub(crate) fn member(self, name: &str) -> Option<(&'a str, OrderedValue<'t, 'a>)>
        ensures key { IfSome result (λ m. m.0.now ≡ name.now) }
        ensures value { option_map (λ m. value_view m.1.value.now) result ≡ get_member name.now (members_view self.entry.members.now.items) }
    {
        let mut low = 0;
        let mut high = self.len();
        while low < high {
            let middle = low + (high - low) / 2;
            let member = self.member_at(middle)?;
            match name.cmp(member.0) {
                Ordering::Less => high = middle,
                Ordering::Equal => return Some(member),
                Ordering::Greater => low = middle + 1,
            }
        }
        None
    }

    // The values of all members of this name. Where no name comes again, there is at most one.
    fn values_named(self, name: &str) -> Result<Vec<MemberValue<'t, 'a>>, AllocError>
        ensures { IfOk result (λ values. map (λ m. value_view m.value.now) values.items ≡ values_named name.now (members_view self.entry.members.now.items)) }
    {
        if self.len() == self.members.len() {
            self.last_value(name)
        } else {
            self.each_value(name)
        }
    }

    // The value of the last member of this name, if there is one.
    fn last_value(self, name: &str) -> Result<Vec<MemberValue<'t, 'a>>, AllocError>
        ensures { IfOk result (λ values. map (λ m. value_view m.value.now) values.items ≡ option_to_list (get_member name.now (members_view self.entry.members.now.items))) }
    {
        let mut values = Vec::new(self.alloc);
        if let Some(member) = self.member(name) {
            values.push(MemberValue {
                value: member.1.value,
            })?;
        }
        Ok(values)
    }

    // The values of all members of this name, found by going over the members.
    fn each_value(self, name: &str) -> Result<Vec<MemberValue<'t, 'a>>, AllocError>
        ensures { IfOk result (λ values. map (λ m. value_view m.value.now) values.items ≡ values_named name.now (members_view self.entry.members.now.items)) }
    {
        let mut values = Vec::new(self.alloc);
        for member in self.members {
            if member.0 == name {
                values.push(MemberValue { value: &member.1 })?;
            }
        }
        Ok(values)
    }
}
