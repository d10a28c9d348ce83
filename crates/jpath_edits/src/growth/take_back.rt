//! Undoes, in the tree of an edited text, what the edit added or renamed.

ghost use Rattle.std.specs.Prelude.{◌≡◌, ◌<◌, ◌∷◌, false, length, string_bytes, IfOk, IsTrue, MatchOption};
ghost use Rattle.std.specs.List.{list_any};
ghost use Rattle.std.specs.Str.{bytes_eq};
ghost use Rattle.json.specs.Json.{array, object};
ghost use Rattle.json.specs.Value.{value_view, items_view, members_view};
ghost use Rattle.jsonpath_nodes.specs.place.Location.{name as by_name, index as by_index};
ghost use Rattle.jsonpath_nodes.specs.place.Owned.{owned_steps};
ghost use Rattle.jpath_edits.specs.Grown.{each_renamed, grown, grown_here, has_name, with_last_item, with_member, with_name, IsLastNamed};

use crate::growth::Growth;
use crate::same_exact_tree::is_same_exact_tree;
use json::Value as Exact;
use jsonpath_nodes::LocStep;
use std::alloc::{AllocError, Global};
use std::mem;

// Takes back what was made in the object or list to which these steps lead; false where it isn't there. Where no object
// or list stands, there is nothing to take back.
#[cycle(back)]
pub(crate) fn take_back<'t, 'g: 't>(
    alloc: Global,
    value: &mut Exact<'t>,
    steps: &[LocStep],
    growth: &Growth<'g, '_>,
) -> Result<bool, AllocError>
    ensures { IfOk result (λ done. IsTrue done → value_view value.old ≡ grown growth.now (owned_steps steps.now) (value_view value.new)) }
{
    let Some((step, rest)) = steps.split_first() else {
        return take_back_here(alloc, value, growth);
    };
    match step {
        LocStep::Name(name) => take_back_by_name(alloc, value, name, rest, growth),
        LocStep::Index(index) => match value {
            Exact::Array(items) => take_back_in_item(alloc, items, *index, rest, growth),
            _ => Ok(true),
        },
    }
}

// Takes back what was made below the last member of a name, where this is an object.
#[cycle(back)]
fn take_back_by_name<'t, 'g: 't>(
    alloc: Global,
    value: &mut Exact<'t>,
    name: &String,
    rest: &[LocStep],
    growth: &Growth<'g, '_>,
) -> Result<bool, AllocError>
    ensures { IfOk result (λ done. IsTrue done → value_view value.old ≡ grown growth.now (by_name (string_bytes name.now) ∷ owned_steps rest.now) (value_view value.new)) }
{
    match mem::replace(value, Exact::Null) {
        Exact::Object(members) => {
            let mut members = members;
            let done = take_back_in_member(alloc, &mut members, name.as_str(), rest, growth)?;
            *value = Exact::Object(members);
            Ok(done)
        }
        other => {
            *value = other;
            Ok(true)
        }
    }
}

// Takes back what was made below the last member of a name.
#[cycle(back)]
fn take_back_in_member<'t, 'g: 't>(
    alloc: Global,
    members: &mut Vec<(&'t str, Exact<'t>)>,
    name: &str,
    rest: &[LocStep],
    growth: &Growth<'g, '_>,
) -> Result<bool, AllocError>
    ensures { IfOk result (λ done. IsTrue done → object (members_view members.old.items) ≡ grown growth.now (by_name name.now ∷ owned_steps rest.now) (object (members_view members.new.items))) }
{
    match last_index_of_name(members.as_slice(), name) {
        Some(at) => take_back(alloc, &mut members[at].1, rest, growth),
        None => Ok(true),
    }
}

// Takes back what was made below an item.
#[cycle(back)]
fn take_back_in_item<'t, 'g: 't>(
    alloc: Global,
    items: &mut Vec<Exact<'t>>,
    index: usize,
    rest: &[LocStep],
    growth: &Growth<'g, '_>,
) -> Result<bool, AllocError>
    ensures { IfOk result (λ done. IsTrue done → array (items_view items.old.items) ≡ grown growth.now (by_index index ∷ owned_steps rest.now) (array (items_view items.new.items))) }
{
    if index >= items.len() {
        return Ok(true);
    }
    take_back(alloc, &mut items[index], rest, growth)
}

// The index of the last member of a name.
fn last_index_of_name(members: &[(&str, Exact<'_>)], name: &str) -> Option<usize>
    ensures { MatchOption result (has_name name.now (members_view members.now) ≡ false) (λ at. (at < length members.now) × IsLastNamed name.now at (members_view members.now)) }
{
    let mut left = members.len();
    while left > 0 {
        left -= 1;
        if name == members[left].0 {
            return Some(left);
        }
    }
    None
}

// Takes back what was made in this value itself; false where it isn't there.
fn take_back_here<'t, 'g: 't>(
    alloc: Global,
    value: &mut Exact<'t>,
    growth: &Growth<'g, '_>,
) -> Result<bool, AllocError>
    ensures { IfOk result (λ done. IsTrue done → value_view value.old ≡ grown_here growth.now (value_view value.new)) }
{
    match mem::replace(value, Exact::Null) {
        Exact::Object(members) => {
            let mut members = members;
            let done = take_back_in_object(alloc, &mut members, growth)?;
            *value = Exact::Object(members);
            Ok(done)
        }
        Exact::Array(items) => {
            let mut items = items;
            let done = take_back_in_list(&mut items, growth);
            *value = Exact::Array(items);
            Ok(done)
        }
        other => {
            *value = other;
            Ok(true)
        }
    }
}

// Takes back what was made in an object itself; false where it isn't there.
fn take_back_in_object<'t, 'g: 't>(
    alloc: Global,
    members: &mut Vec<(&'t str, Exact<'t>)>,
    growth: &Growth<'g, '_>,
) -> Result<bool, AllocError>
    ensures { IfOk result (λ done. IsTrue done → object (members_view members.old.items) ≡ grown_here growth.now (object (members_view members.new.items))) }
{
    match growth {
        Growth::Member(name, new) => Ok(take_back_member(members, *name, *new)),
        Growth::Name(old, new) => take_back_name(alloc, members, *old, *new),
        Growth::Item(_) => Ok(true),
    }
}

// Takes back what was made in a list itself; false where it isn't there.
fn take_back_in_list(items: &mut Vec<Exact<'_>>, growth: &Growth<'_, '_>) -> bool
    ensures { IsTrue result → array (items_view items.old.items) ≡ grown_here growth.now (array (items_view items.new.items)) }
{
    match growth {
        Growth::Item(new) => take_back_item(items, *new),
        _ => true,
    }
}

// Takes the last item away, which has to have this value.
fn take_back_item(items: &mut Vec<Exact<'_>>, new: &Exact<'_>) -> bool
    ensures { IsTrue result → items_view items.old.items ≡ with_last_item (value_view new.now) (items_view items.new.items) }
{
    match items.pop() {
        Some(last) => is_same_exact_tree(&last, new),
        None => false,
    }
}

// Takes the last member away, which has to have this name, as no other has, and this value.
fn take_back_member(members: &mut Vec<(&str, Exact<'_>)>, name: &str, new: &Exact<'_>) -> bool
    ensures { IsTrue result → members_view members.old.items ≡ with_member name.now (value_view new.now) (members_view members.new.items) }
{
    match members.pop() {
        Some(last) => {
            if is_name_of_any(members.as_slice(), name) {
                return false;
            }
            is_same_member(&last, name, new)
        }
        None => false,
    }
}

// Whether a member has this name and this value.
fn is_same_member(member: &(&str, Exact<'_>), name: &str, value: &Exact<'_>) -> bool
    ensures { IsTrue result → (member.now.0.now ≡ name.now) × (value_view member.now.1 ≡ value_view value.now) }
{
    member.0 == name && is_same_exact_tree(&member.1, value)
}

// Gives the members of the new name the old one, which none may have.
fn take_back_name<'t>(
    alloc: Global,
    members: &mut Vec<(&'t str, Exact<'t>)>,
    old: &'t str,
    new: &'t str,
) -> Result<bool, AllocError>
    ensures { IfOk result (λ done. IsTrue done → members_view members.old.items ≡ with_name old.now new.now (members_view members.new.items)) }
{
    if is_name_of_any(members.as_slice(), old) {
        return Ok(false);
    }
    let before = mem::replace(members, Vec::new(alloc));
    *members = members_with_old_name(alloc, before, old, new)?;
    Ok(!is_name_of_any(members.as_slice(), new))
}

// The members, those of the new name with the old one.
fn members_with_old_name<'t>(
    alloc: Global,
    members: Vec<(&'t str, Exact<'t>)>,
    old: &'t str,
    new: &'t str,
) -> Result<Vec<(&'t str, Exact<'t>)>, AllocError>
    ensures { IfOk result (λ made. members_view made.items ≡ each_renamed new.now old.now (members_view members.entry.items)) }
{
    let mut made = Vec::with_capacity(alloc, members.len())?;
    for (name, value) in members {
        made.push((if new == name { old } else { name }, value))?;
    }
    Ok(made)
}

// Whether one of the members has this name.
fn is_name_of_any(members: &[(&str, Exact<'_>)], name: &str) -> bool
    ensures { result ≡ list_any (λ m. bytes_eq name.now m.0.now) members.now }
{
    members.iter().any(|member| name == member.0)
}
