//! The value at a location, and the single update of it, in place.

ghost use Rattle.std.specs.Prelude.{◌≡◌, ◌∷◌, [], ◌<◌, true, vec_len, string_bytes, option_map, IsOkAnd};
ghost use Rattle.jsonpath_nodes.specs.document.Document.{array, object};
ghost use Rattle.serde_json.specs.View.{view};
ghost use Rattle.jsonpath_nodes.specs.document.OfData.{document_of, items_document, members_document};
ghost use Rattle.jsonpath_nodes.specs.update.Calls.{IsUpdate};
ghost use Rattle.jsonpath_nodes.specs.place.Location.{at, child, name as by_name, index as by_index};
ghost use Rattle.jsonpath_nodes.specs.place.Owned.{owned_step, owned_steps};

use crate::memory::NoMemory;
use crate::place::location::{LocStep, Location};
use serde_json::{Map, Value};

/// Updates the value at one location by a closure.
///
/// The closure gets the value there; `Some` replaces it, `None` removes the member or item, and later items of the
/// array move down by one. At the root, and if the location doesn't exist, the closure isn't called and nothing
/// changes. A name in the location leads only into an object, an index only into an array.
///
/// The update allocates no memory, so the result is always `Ok`: it says whether the closure was called.
///
/// ```text
/// let mut document = read_document(alloc, b"[1, 2]")?;
/// let mut steps = Vec::new(alloc);
/// steps.push(LocStep::Index(0))?;
/// let nothing = &mut |_old: Value| None;
/// let was_asked = update_at(&mut document, &Location::from_steps(steps), nothing)?;
/// assert!(rt; was_asked);
/// assert!(rt; document_to_text(alloc, &document)?.as_str() == "[2]");
/// ```
pub fn update_at<F: FnMut(Value) -> Option<Value>>(
    value: &mut Value,
    location: &Location,
    f: &mut F,
) -> Result<bool, NoMemory>
    requires { F.IsAlwaysCallable f.old }
    ensures updated { IsOkAnd result (λ asked. IsUpdate F.FnMut location.now (document_of (view value.old)) f.old asked f.new (document_of (view value.new))) }
    ensures callable { F.IsAlwaysCallable f.new }
{
    Ok(update_at_steps(value, location.steps(), f))
}

// Updates the value at the end of the steps by what the closure answers. It answers whether the closure was asked.
#[cycle(update)]
pub(crate) fn update_at_steps<F: FnMut(Value) -> Option<Value>>(
    value: &mut Value,
    steps: &[LocStep],
    f: &mut F,
) -> bool
    requires { F.IsAlwaysCallable f.old }
    ensures updated { IsUpdate F.FnMut (owned_steps steps.now) (document_of (view value.old)) f.old result f.new (document_of (view value.new)) }
    ensures callable { F.IsAlwaysCallable f.new }
{
    let Some((step, rest)) = steps.split_first() else {
        return false;
    };
    match step {
        LocStep::Index(i) => match value.as_array_mut() {
            Some(list) => update_item(list, *i, rest, f),
            None => false,
        },
        LocStep::Name(name) => match value.as_object_mut() {
            Some(map) => update_member_of_owned_name(map, name, rest, f),
            None => false,
        },
    }
}

// Updates the item at an index, or what the rest of the steps leads to. Answers whether the closure was asked.
#[cycle(update)]
fn update_item<F: FnMut(Value) -> Option<Value>>(
    list: &mut Vec<Value>,
    i: usize,
    rest: &[LocStep],
    f: &mut F,
) -> bool
    requires { F.IsAlwaysCallable f.old }
    ensures updated { IsUpdate F.FnMut (by_index i ∷ owned_steps rest.now) (array (items_document list.old.items)) f.old result f.new (array (items_document list.new.items)) }
    ensures callable { F.IsAlwaysCallable f.new }
{
    if i >= list.len() {
        return false;
    }
    if rest.is_empty() {
        replace_or_remove_item(list, i, f);
        return true;
    }
    update_at_steps(&mut list[i], rest, f)
}

// Hands the item at an index to the closure, and puts its answer there, or takes the item away where it is None.
fn replace_or_remove_item<F: FnMut(Value) -> Option<Value>>(
    list: &mut Vec<Value>,
    i: usize,
    f: &mut F,
)
    requires callable { F.IsAlwaysCallable f.old }
    requires within { i < vec_len list.old }
    ensures updated { IsUpdate F.FnMut (by_index i ∷ []) (array (items_document list.old.items)) f.old true f.new (array (items_document list.new.items)) }
    ensures callable { F.IsAlwaysCallable f.new }
{
    let handed = list[i].take();
    match f(handed) {
        Some(answer) => list[i] = answer,
        None => drop(list.remove(i)),
    }
}

// Updates the member of a name, or what the rest of the steps leads to below it. It answers whether the closure was
// asked. It only hands the name's text on: the prover takes that in a call of its own.
#[cycle(update)]
fn update_member_of_owned_name<F: FnMut(Value) -> Option<Value>>(
    map: &mut Map<String, Value>,
    name: &String,
    rest: &[LocStep],
    f: &mut F,
) -> bool
    requires { F.IsAlwaysCallable f.old }
    ensures updated { IsUpdate F.FnMut (by_name (string_bytes name.now) ∷ owned_steps rest.now) (object (members_document map.old.entries)) f.old result f.new (object (members_document map.new.entries)) }
    ensures callable { F.IsAlwaysCallable f.new }
{
    update_member(map, name.as_str(), rest, f)
}

// Updates the member of a name, or what the rest of the steps leads to. Answers whether the closure was asked.
#[cycle(update)]
fn update_member<F: FnMut(Value) -> Option<Value>>(
    map: &mut Map<String, Value>,
    name: &str,
    rest: &[LocStep],
    f: &mut F,
) -> bool
    requires { F.IsAlwaysCallable f.old }
    ensures updated { IsUpdate F.FnMut (by_name name.now ∷ owned_steps rest.now) (object (members_document map.old.entries)) f.old result f.new (object (members_document map.new.entries)) }
    ensures callable { F.IsAlwaysCallable f.new }
{
    if rest.is_empty() {
        return replace_or_remove_member(map, name, f);
    }
    match map.get_mut(name) {
        Some(member) => update_at_steps(member, rest, f),
        None => false,
    }
}

// Sets the member of a name to the closure's answer for it, or removes it if None. Returns whether there was one.
fn replace_or_remove_member<F: FnMut(Value) -> Option<Value>>(
    map: &mut Map<String, Value>,
    name: &str,
    f: &mut F,
) -> bool
    requires { F.IsAlwaysCallable f.old }
    ensures updated { IsUpdate F.FnMut (by_name name.now ∷ []) (object (members_document map.old.entries)) f.old result f.new (object (members_document map.new.entries)) }
    ensures callable { F.IsAlwaysCallable f.new }
{
    let Some(slot) = map.get_mut(name) else {
        return false;
    };
    match f(slot.take()) {
        Some(answer) => *slot = answer,
        None => drop(map.remove(name)),
    }
    true
}

// The value at the end of the steps, or None where they lead nowhere.
pub(crate) fn value_at<'a>(value: &'a Value, steps: &[LocStep]) -> Option<&'a Value>
    ensures { option_map (λ v. document_of (view v.now)) result ≡ at (document_of (view value.now)) (owned_steps steps.now) }
{
    let Some((step, rest)) = steps.split_first() else {
        return Some(value);
    };
    match child_of(value, step) {
        Some(child) => value_at(child, rest),
        None => None,
    }
}

// The member or item that a step leads to, or None where there is none.
fn child_of<'a>(value: &'a Value, step: &LocStep) -> Option<&'a Value>
    ensures { option_map (λ v. document_of (view v.now)) result ≡ child (owned_step step.now) (document_of (view value.now)) }
{
    match step {
        LocStep::Index(i) => value.get(*i),
        LocStep::Name(name) => value.get(name.as_str()),
    }
}
