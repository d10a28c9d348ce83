//! Whether the names of an exact tree are in order, and the tree with its members in the order of their names.

ghost use Rattle.std.specs.Prelude.{◌≡◌, IfOk};
ghost use Rattle.json.specs.Value.{value_view, items_view, members_view};
ghost use Rattle.json.specs.Json.{no_members};
ghost use Rattle.json_trees.specs.OrderedTree.{is_ordered, are_items_ordered, are_members_ordered, in_order, items_in_order, members_in_order};

use crate::ordered_tree::sort_by_name::entries_of_map;
use json::Value as Exact;
use std::alloc::{AllocError, Global};
use std::collections::BTreeMap;

/// Whether the names of each object in the tree, at any depth, are in the order of their bytes, each once.
#[cycle(ordered)]
#[inline(always)]
pub fn is_tree_ordered(value: &Exact<'_>) -> bool
    ensures { result ≡ is_ordered (value_view value.now) }
{
    match value {
        Exact::Array(items) => are_trees_ordered(items),
        Exact::Object(members) => are_named_trees_ordered(members),
        _ => true,
    }
}

// Whether these items are ordered.
#[cycle(ordered)]
fn are_trees_ordered(items: &Vec<Exact<'_>>) -> bool
    ensures { result ≡ are_items_ordered (items_view items.now.items) }
{
    for item in items {
        if !is_tree_ordered(item) {
            return false;
        }
    }
    true
}

// Whether these members are in the order of their names, each name once, and their values are ordered.
#[cycle(ordered)]
fn are_named_trees_ordered(members: &Vec<(&str, Exact<'_>)>) -> bool
    ensures { result ≡ are_members_ordered (members_view members.now.items) }
{
    let mut before: Option<&str> = None;
    for member in members {
        if let Some(name) = before {
            if name >= member.0 {
                return false;
            }
        }
        if !is_tree_ordered(&member.1) {
            return false;
        }
        before = Some(member.0);
    }
    true
}

/// A copy of the tree with the members of each object, at any depth, in the order of their names' bytes, each name once,
/// with its last value. The only error is that memory ran out.
#[cycle(copy)]
pub fn copy_in_order<'a>(alloc: Global, value: &Exact<'a>) -> Result<Exact<'a>, AllocError>
    ensures { IfOk result (λ made. value_view made ≡ in_order (value_view value.now)) }
{
    match value {
        Exact::Null => Ok(Exact::Null),
        Exact::Bool(truth) => Ok(Exact::Bool(*truth)),
        Exact::Number(digits) => Ok(Exact::Number(*digits)),
        Exact::String(text) => Ok(Exact::String(*text)),
        Exact::Array(items) => Ok(Exact::Array(copy_items_in_order(alloc, items)?)),
        Exact::Object(members) => Ok(Exact::Object(copy_members_in_order(alloc, members)?)),
    }
}

// Copies of these items, each in order.
#[cycle(copy)]
fn copy_items_in_order<'a>(
    alloc: Global,
    items: &Vec<Exact<'a>>,
) -> Result<Vec<Exact<'a>>, AllocError>
    ensures { IfOk result (λ made. items_view made.items ≡ items_in_order (items_view items.now.items)) }
{
    let mut made = Vec::with_capacity(alloc, items.len())?;
    for item in items {
        made.push(copy_in_order(alloc, item)?)?;
    }
    Ok(made)
}

// Copies of these members in the order of their names, each value in order; of a name that comes again the last one.
#[cycle(copy)]
fn copy_members_in_order<'a>(
    alloc: Global,
    members: &Vec<(&'a str, Exact<'a>)>,
) -> Result<Vec<(&'a str, Exact<'a>)>, AllocError>
    ensures { IfOk result (λ made. members_view made.items ≡ members_in_order (members_view members.now.items) no_members) }
{
    let mut named = BTreeMap::new(alloc);
    for member in members {
        named.insert(member.0, copy_in_order(alloc, &member.1)?)?;
    }
    entries_of_map(alloc, named)
}
