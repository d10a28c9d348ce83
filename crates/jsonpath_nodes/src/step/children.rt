//! The children that a plain step selects of one value: found in it, and added to a list.
//!
//! `here` is the part of the location that the items or members share (`Descends::Items`, `Descends::Members`).

ghost use Rattle.std.specs.Prelude.{◌≡◌, ◌∷◌, [], ◌≤◌, map, filter, false, OnOk, IfOk};
ghost use Rattle.jsonpath_nodes.specs.document.Document.{array, object};
ghost use Rattle.jsonpath_nodes.specs.document.Find.{items_len};
ghost use Rattle.jsonpath_nodes.specs.plan.Containers.{some_container};
ghost use Rattle.jsonpath_nodes.specs.place.Location.{index as by_index};
ghost use Rattle.jsonpath_nodes.specs.place.Mark.{MarksGain};
ghost use Rattle.jsonpath_nodes.specs.step.PlainSteps.{plain_step_of};
ghost use Rattle.jsonpath_nodes.specs.step.Steps.{single_steps, present, every, named, listed, nth, union, range, is_in_range, count_up, length_of};

use crate::memory::NoMemory;
use crate::step::child_lookup::{abs_index, is_container, range_bound};
use crate::step::descends::Descends;
use crate::step::plain_step::PlainStep;
use crate::tree::Tree;
use std::alloc::Global;

// Adds to a list the children that a step selects of the value of a node.
#[inline(always)]
pub(crate) fn add_selected_children<M: Descends>(
    node: &M,
    alloc: Global,
    plain: &PlainStep<'_>,
    out: &mut Vec<M>,
) -> Result<(), NoMemory>
    ensures { OnOk result (MarksGain M.located M.stand M.content (single_steps (plain_step_of plain.now)) (M.stand node.now) (M.content node.now) out.old.items out.new.items) }
{
    let value = node.tree();
    if let Some(items) = value.as_array() {
        add_selected_items(items, &node.shared_by_items(alloc)?, plain, out)
    } else if let Some(members) = value.as_object() {
        add_selected_members(members, &node.shared_by_members(alloc)?, plain, out)?;
        Ok(())
    } else {
        Ok(())
    }
}

// Adds to a list the member of this name, if the value of the node is an object that has one. It goes by
// `push_single_member`, as no other member is taken.
#[inline(always)]
pub(crate) fn add_named_member<M: Descends>(
    node: &M,
    alloc: Global,
    name: &str,
    out: &mut Vec<M>,
) -> Result<(), NoMemory>
    ensures { OnOk result (MarksGain M.located M.stand M.content (single_steps (named name.now)) (M.stand node.now) (M.content node.now) out.old.items out.new.items) }
{
    if let Some(members) = node.tree().as_object() {
        if let Some((key, member)) = <M::Tree as Tree>::member_named(members, name) {
            node.push_single_member(alloc, key, member, out)?;
        }
    }
    Ok(())
}

// ---- among the items of an array

// Adds to a list the items that a step selects of an array: none by a name or a list of names.
#[inline(always)]
pub(crate) fn add_selected_items<M: Descends>(
    items: <M::Tree as Tree>::Array,
    here: &M::Items,
    plain: &PlainStep<'_>,
    out: &mut Vec<M>,
) -> Result<(), NoMemory>
    ensures { OnOk result (MarksGain M.located M.stand M.content (single_steps (plain_step_of plain.now)) (M.items_stand here.now) (array (M.Tree.items items)) out.old.items out.new.items) }
{
    match plain {
        PlainStep::Every => add_every_item(items, here, out),
        PlainStep::Nth(n) => add_item_at_written_index(items, here, *n, out),
        PlainStep::Union(ns) => add_union_items(items, here, ns, out),
        PlainStep::Range(from, to, step) => add_range_items(items, here, *from, *to, *step, out),
        PlainStep::Named(_) => Ok(()),
        PlainStep::Listed(_) => Ok(()),
    }
}

// Makes room in a list for many more at once. A few are added as fast without.
#[inline(always)]
fn make_room<M: Drop>(count: usize, out: &mut Vec<M>) -> Result<(), NoMemory>
    ensures { OnOk result (out.new.items ≡ out.old.items) }
{
    if count > 4 {
        out.reserve(count)?;
    }
    Ok(())
}

// Adds to a list all items of an array, in their order.
#[inline(always)]
fn add_every_item<M: Descends>(
    items: <M::Tree as Tree>::Array,
    here: &M::Items,
    out: &mut Vec<M>,
) -> Result<(), NoMemory>
    ensures { OnOk result (MarksGain M.located M.stand M.content (single_steps every) (M.items_stand here.now) (array (M.Tree.items items)) out.old.items out.new.items) }
{
    make_room(<M::Tree as Tree>::len(items), out)?;
    let mut left = <M::Tree as Tree>::each_item(items);
    let mut i = 0;
    while let Some(item) = <M::Tree as Tree>::next_item(&mut left) {
        M::push_item(here, i, item, out)?;
        i += 1;
    }
    Ok(())
}

// Adds to a list the item at an index from the front, if the array has one.
#[inline]
fn add_item_at_index<M: Descends>(
    items: <M::Tree as Tree>::Array,
    here: &M::Items,
    index: usize,
    out: &mut Vec<M>,
) -> Result<(), NoMemory>
    ensures { OnOk result (MarksGain M.located M.stand M.content (λ d. map (λ s. s ∷ []) (present d (by_index index))) (M.items_stand here.now) (array (M.Tree.items items)) out.old.items out.new.items) }
{
    if let Some(item) = <M::Tree as Tree>::item_at(items, index) {
        M::push_item(here, index, item, out)?;
    }
    Ok(())
}

// Adds to a list the item at an index as a path writes it, if there is one: below zero it counts from the
// end, and one before the front is the first item, as `abs_index` says.
#[inline]
fn add_item_at_written_index<M: Descends>(
    items: <M::Tree as Tree>::Array,
    here: &M::Items,
    n: i64,
    out: &mut Vec<M>,
) -> Result<(), NoMemory>
    ensures { OnOk result (MarksGain M.located M.stand M.content (single_steps (nth n)) (M.items_stand here.now) (array (M.Tree.items items)) out.old.items out.new.items) }
{
    let at = abs_index(n, <M::Tree as Tree>::len(items));
    add_item_at_index(items, here, at, out)
}

// Adds to a list the items at the indexes of a union, in the union's order; what is not there is left out.
fn add_union_items<M: Descends>(
    items: <M::Tree as Tree>::Array,
    here: &M::Items,
    ns: &[i64],
    out: &mut Vec<M>,
) -> Result<(), NoMemory>
    ensures { OnOk result (MarksGain M.located M.stand M.content (single_steps (union ns.now)) (M.items_stand here.now) (array (M.Tree.items items)) out.old.items out.new.items) }
{
    for n in ns {
        add_item_at_written_index(items, here, *n, out)?;
    }
    Ok(())
}

// Adds to a list the items that a range selects of an array: at `from`, `from + step` .. below `to`.
#[inline]
fn add_range_items<M: Descends>(
    items: <M::Tree as Tree>::Array,
    here: &M::Items,
    from: Option<i64>,
    to: Option<i64>,
    step: Option<u64>,
    out: &mut Vec<M>,
) -> Result<(), NoMemory>
    ensures { OnOk result (MarksGain M.located M.stand M.content (single_steps (range from to step)) (M.items_stand here.now) (array (M.Tree.items items)) out.old.items out.new.items) }
{
    let len = <M::Tree as Tree>::len(items);
    let first = range_bound(from, 0, len);
    let end = range_bound(to, len, len);
    add_items_between(items, here, first, end, step.unwrap_or(1) as usize, out)?;
    Ok(())
}

// Adds to a list the items at `first`, `first + step` and so on, below `end`; none where `step` is 0.
fn add_items_between<M: Descends>(
    items: <M::Tree as Tree>::Array,
    here: &M::Items,
    first: usize,
    end: usize,
    step: usize,
    out: &mut Vec<M>,
) -> Result<(), NoMemory>
    requires { end ≤ items_len (M.Tree.items items) }
    ensures { OnOk result (MarksGain M.located M.stand M.content (λ d. map (λ s. s ∷ []) (map by_index (filter (is_in_range first end step) (count_up 0 (length_of d))))) (M.items_stand here.now) (array (M.Tree.items items)) out.old.items out.new.items) }
{
    if step == 0 {
        return Ok(());
    }
    let mut i = first;
    while i < end {
        add_item_at_index(items, here, i, out)?;
        i = i.saturating_add(step);
    }
    Ok(())
}

// ---- among the members of an object

// Adds to a list the members that a step selects of an object. It answers whether some member may be an
// array or an object: it says no only where none is.
#[inline(always)]
pub(crate) fn add_selected_members<M: Descends>(
    members: <M::Tree as Tree>::Object,
    here: &M::Members,
    plain: &PlainStep<'_>,
    out: &mut Vec<M>,
) -> Result<bool, NoMemory>
    ensures gains { OnOk result (MarksGain M.located M.stand M.content (single_steps (plain_step_of plain.now)) (M.members_stand here.now) (object (M.Tree.members members)) out.old.items out.new.items) }
    ensures below { IfOk result (λ b. b ≡ false → some_container (M.Tree.members members) ≡ false) }
{
    match plain {
        PlainStep::Every => add_every_member(members, here, out),
        PlainStep::Named(name) => {
            add_member_of_object(members, here, name, out)?;
            Ok(true)
        }
        PlainStep::Listed(names) => {
            add_listed_members(members, here, names, out)?;
            Ok(true)
        }
        PlainStep::Nth(_) => Ok(true),
        PlainStep::Union(_) => Ok(true),
        PlainStep::Range(_, _, _) => Ok(true),
    }
}

// Adds to a list all members of an object, and answers whether one of them is an array or an object.
#[inline(always)]
fn add_every_member<M: Descends>(
    members: <M::Tree as Tree>::Object,
    here: &M::Members,
    out: &mut Vec<M>,
) -> Result<bool, NoMemory>
    ensures gains { OnOk result (MarksGain M.located M.stand M.content (single_steps every) (M.members_stand here.now) (object (M.Tree.members members)) out.old.items out.new.items) }
    ensures holds { IfOk result (λ b. b ≡ some_container (M.Tree.members members)) }
{
    let mut holds = false;
    let mut left = <M::Tree as Tree>::each_member(members);
    while let Some((name, member)) = <M::Tree as Tree>::next_member(&mut left) {
        M::push_member(here, name, member, out)?;
        holds = holds || is_container(member);
    }
    Ok(holds)
}

// Adds to a list the member of this name, if the object has one.
#[inline(always)]
fn add_member_of_object<M: Descends>(
    members: <M::Tree as Tree>::Object,
    here: &M::Members,
    name: &str,
    out: &mut Vec<M>,
) -> Result<(), NoMemory>
    ensures { OnOk result (MarksGain M.located M.stand M.content (single_steps (named name.now)) (M.members_stand here.now) (object (M.Tree.members members)) out.old.items out.new.items) }
{
    if let Some((key, member)) = <M::Tree as Tree>::member_named(members, name) {
        M::push_member(here, key, member, out)?;
    }
    Ok(())
}

// Adds to a list the members of these names that are there, in the list's order, repeats kept.
fn add_listed_members<M: Descends>(
    members: <M::Tree as Tree>::Object,
    here: &M::Members,
    names: &[&str],
    out: &mut Vec<M>,
) -> Result<(), NoMemory>
    ensures { OnOk result (MarksGain M.located M.stand M.content (single_steps (listed (map (λ k. k.now) names.now))) (M.members_stand here.now) (object (M.Tree.members members)) out.old.items out.new.items) }
{
    for name in names {
        add_member_of_object(members, here, name, out)?;
    }
    Ok(())
}
