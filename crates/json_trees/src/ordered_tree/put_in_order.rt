//! Puts the members of each object in a tree in the order of their names, where they are.

ghost use Rattle.std.specs.Prelude.{◌≡◌, true, is_some, IfOk, MatchOption, OnOk};
ghost use Rattle.std.specs.Cmp.Lexicographic.{slice_cmp};
ghost use Rattle.std.specs.Ordering.{is_lt, nat_cmp};
ghost use Rattle.json.specs.Json.{no_members};
ghost use Rattle.json.specs.Value.{value_view, items_view, members_view};
ghost use Rattle.serde_json.specs.Data.{Members};
ghost use Rattle.serde_json.specs.Read.{of_json, of_items, of_members};
ghost use Rattle.json_trees.specs.OrderedTree.{in_order, items_in_order, members_in_order};

use crate::numbers::whole_number::is_number_read;
use crate::ordered_tree::sort_by_name::sort_by_name;
use json::Value as Exact;
use std::alloc::{AllocError, Global};

// Puts the members of each object in the tree in the order of their names' bytes, each name once, with its last value.
// Answers whether `serde_json` reads all numbers of the tree, and so the tree.
#[cycle(put)]
pub(crate) fn put_in_order(alloc: Global, tree: &mut Exact<'_>) -> Result<bool, AllocError>
    ensures ordered { OnOk result (value_view tree.new ≡ in_order (value_view tree.old)) }
    ensures read { IfOk result (λ read. read ≡ is_some (of_json (value_view tree.old))) }
{
    match tree {
        Exact::Null | Exact::Bool(_) | Exact::String(_) => Ok(true),
        Exact::Number(text) => Ok(is_number_read(text)),
        Exact::Array(items) => Ok(put_items_in_order(alloc, items)?),
        Exact::Object(members) => Ok(put_members_in_order(alloc, members)?),
    }
}

// The same for items.
#[cycle(put)]
fn put_items_in_order(alloc: Global, items: &mut Vec<Exact<'_>>) -> Result<bool, AllocError>
    ensures ordered { OnOk result (items_view items.new.items ≡ items_in_order (items_view items.old.items)) }
    ensures read { IfOk result (λ read. read ≡ is_some (of_items (items_view items.old.items))) }
{
    let mut are_read = true;
    for item in items.iter_mut() {
        let is_read = put_in_order(alloc, item)?;
        are_read &= is_read;
    }
    Ok(are_read)
}

// The same for members.
#[cycle(put)]
fn put_members_in_order<'a>(
    alloc: Global,
    members: &mut Vec<(&'a str, Exact<'a>)>,
) -> Result<bool, AllocError>
    ensures ordered { OnOk result (members_view members.new.items ≡ members_in_order (members_view members.old.items) no_members) }
    ensures read { IfOk result (λ read. (found : Members) → read ≡ is_some (of_members (members_view members.old.items) found)) }
{
    let mut are_read = true;
    let mut ascend = true;
    let mut before: Option<&str> = None;
    for member in members.iter_mut() {
        let is_read = put_in_order(alloc, &mut member.1)?;
        are_read &= is_read;
        ascend &= is_name_behind(before, member.0);
        before = Some(member.0);
    }
    if !ascend {
        sort_by_name(alloc, members)?;
    }
    Ok(are_read)
}

// Whether the name is above the one before it, if there is one.
#[inline(always)]
fn is_name_behind(before: Option<&str>, name: &str) -> bool
    ensures { MatchOption before.entry (result ≡ true) (λ b. result ≡ is_lt (slice_cmp nat_cmp b.now name.now)) }
{
    match before {
        Some(before) => before < name,
        None => true,
    }
}
