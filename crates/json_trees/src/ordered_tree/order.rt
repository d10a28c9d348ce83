//! In which order the members of a tree's objects are taken, so that their names ascend.

ghost use Rattle.std.specs.Prelude.{◌≡◌, true, map, IfOk, IfSome, IsTrue};
ghost use Rattle.json.specs.Find.{get_item};
ghost use Rattle.json.specs.Json.{Items, Json, array, object};
ghost use Rattle.json.specs.Value.{value_view, items_view, members_view};
ghost use Rattle.json_trees.specs.OrderedTree.{is_ordered, are_items_ordered};
ghost use Rattle.json_trees.specs.TreeOrder.{each_meets, is_order};

use crate::ordered_tree::in_order::is_tree_ordered;
use crate::ordered_tree::places::places_of_members;
use json::Value as Exact;
use std::alloc::{AllocError, Global};

// The order in which the members of the objects at or below a value are taken.
#[derive(Drop)]
pub(crate) enum Order {
    // In each object the names ascend as they stand.
    AsItStands,
    // The orders in the items of an array.
    OfItems(Vec<Order>),
    // The places of an object's members by their names' bytes, of a name that comes again the place of the last one; and
    // the order in the values of its members, as if they were an array's items.
    OfMembers(Vec<usize>, Box<Order>),
}

impl Order {
    // Whether all is taken as it stands.
    #[inline(always)]
    pub(crate) fn stands(&self) -> bool
        ensures { IsTrue result → (j : Json) → is_order self.now j ≡ is_ordered j }
    {
        matches!(self, Order::AsItStands)
    }

    // The order in the item at an index of the array whose order this is.
    #[inline(always)]
    pub(crate) fn in_item(&self, index: usize) -> &Order
        ensures { (js : Items) → is_order self.now (array js) ≡ true → IfSome (get_item index js) (λ j. is_order result.now j ≡ true) }
    {
        match self {
            Order::OfItems(orders) => {
                if index < orders.len() {
                    &orders[index]
                } else {
                    self
                }
            }
            Order::AsItStands | Order::OfMembers(_, _) => self,
        }
    }
}

// The order in which the members in a value are taken.
pub(crate) fn order_of(alloc: Global, value: &Exact<'_>) -> Result<Order, AllocError>
    ensures { IfOk result (λ order. is_order order (value_view value.now) ≡ true) }
{
    if is_tree_ordered(value) {
        return Ok(Order::AsItStands);
    }
    order_in(alloc, value)
}

// The same, by the orders of all that is in the value.
#[cycle(order)]
fn order_in(alloc: Global, value: &Exact<'_>) -> Result<Order, AllocError>
    ensures { IfOk result (λ order. is_order order (value_view value.now) ≡ true) }
{
    match value {
        Exact::Array(items) => order_of_items(alloc, items),
        Exact::Object(members) => order_of_members(alloc, members),
        _ => Ok(Order::AsItStands),
    }
}

// The order in an array.
#[cycle(order)]
fn order_of_items(alloc: Global, items: &Vec<Exact<'_>>) -> Result<Order, AllocError>
    ensures { IfOk result (λ order. is_order order (array (items_view items.now.items)) ≡ true) }
{
    let mut orders = Vec::with_capacity(alloc, items.len())?;
    for item in items {
        orders.push(order_in(alloc, item)?)?;
    }
    Ok(order_of_orders(orders))
}

// The order of an object's members.
#[cycle(order)]
fn order_of_members(alloc: Global, members: &Vec<(&str, Exact<'_>)>) -> Result<Order, AllocError>
    ensures { IfOk result (λ order. is_order order (object (members_view members.now.items)) ≡ true) }
{
    let places = places_of_members(alloc, members.as_slice())?;
    let mut orders = Vec::with_capacity(alloc, members.len())?;
    for member in members {
        orders.push(order_in(alloc, &member.1)?)?;
    }
    let values = Box::new(alloc, order_of_orders(orders))?;
    Ok(Order::OfMembers(places, values))
}

// The order in an array whose items have these orders. Where each item is taken as it stands, the array is.
fn order_of_orders(orders: Vec<Order>) -> Order
    ensures { (js : Items) → each_meets (map is_order orders.items) js ≡ true → is_order result (array js) ≡ true }
{
    if all_stand(orders.as_slice()) {
        Order::AsItStands
    } else {
        Order::OfItems(orders)
    }
}

// Whether each of these takes all as it stands.
fn all_stand(orders: &[Order]) -> bool
    ensures { IsTrue result → (js : Items) → each_meets (map is_order orders.now) js ≡ true → are_items_ordered js ≡ true }
{
    let mut left = orders;
    while let Some((order, rest)) = left.split_first() {
        if !order.stands() {
            return false;
        }
        left = rest;
    }
    true
}
