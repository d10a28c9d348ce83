//! The steps of a path on `Mark`s: references to values, or `TreeNode`s.
//!
//! A call on a list returns what the step selects from each node of the list, in the list's order, with duplicates;
//! some calls take one node. The only error is `NoMemory`, and then `add_named_member` has appended nothing.

ghost use Rattle.std.specs.Prelude.{[], ◌∷◌, IfOk, OnOk};
ghost use Rattle.jsonpath_nodes.specs.place.Location.{flat};
ghost use Rattle.jsonpath_nodes.specs.place.Mark.{MarksGainBy, MarksLeadBy};
ghost use Rattle.jsonpath_nodes.specs.step.PlainSteps.{plain_step_of};
ghost use Rattle.jsonpath_nodes.specs.step.Strides.{led_along};
ghost use Rattle.jsonpath_nodes.specs.step.Steps.{every, named, step, all_below, from_each as from_each_location, flattened};

use crate::memory::NoMemory;
use crate::place::mark::Mark;
use crate::step::plain_step::PlainStep;
use crate::step::stride::{Stride, listed_names, plain_step_of_selection};
use std::alloc::Global;

/// Returns the children that a step other than a filter, such as `[0]`, selects from each node, node after node, with
/// duplicates. The comments of `PlainStep`, the step's type, give the order of one node's children.
///
/// ```text
/// let items = steps_on_marks::plain_step_from_each(alloc, &[&document], &PlainStep::Every)?;
/// assert_eq!(rt; items.len(), 2);
/// ```
#[inline]
pub fn plain_step_from_each<M: Mark>(
    alloc: Global,
    marks: &[M],
    plain: &PlainStep<'_>,
) -> Result<Vec<M>, NoMemory>
    ensures { IfOk result (λ found. MarksLeadBy M.located M.stand M.content (λ doc ls. step doc (plain_step_of plain.now) ls) marks.now found.items) }
{
    // Told apart here, so that no mark has to look at the kind of step.
    match plain {
        PlainStep::Every => selected_children_of_each(alloc, marks, &PlainStep::Every),
        PlainStep::Named(name) => named_member_from_each(alloc, marks, name),
        PlainStep::Listed(names) => selected_children_of_each(
            alloc,
            marks,
            &PlainStep::Listed(names),
        ),
        PlainStep::Nth(n) => selected_children_of_each(alloc, marks, &PlainStep::Nth(*n)),
        PlainStep::Union(ns) => selected_children_of_each(alloc, marks, &PlainStep::Union(ns)),
        PlainStep::Range(from, to, by) => selected_children_of_each(
            alloc,
            marks,
            &PlainStep::Range(*from, *to, *by),
        ),
    }
}

// The children that a step selects of each mark, one after the other.
#[inline(always)]
fn selected_children_of_each<M: Mark>(
    alloc: Global,
    marks: &[M],
    plain: &PlainStep<'_>,
) -> Result<Vec<M>, NoMemory>
    ensures { IfOk result (λ found. MarksLeadBy M.located M.stand M.content (λ doc ls. step doc (plain_step_of plain.now) ls) marks.now found.items) }
{
    let mut found = Vec::with_capacity(alloc, marks.len())?;
    for mark in marks {
        mark.add_selected_children(alloc, plain, &mut found)?;
    }
    Ok(found)
}

/// The member of the given name (literal: no quotes or escapes) from each node that has one, in the nodes' order.
///
/// ```text
/// let found = steps_on_marks::named_member_from_each(alloc, &[&document], "a")?;
/// assert!(rt; found.is_empty());
/// ```
#[inline]
pub fn named_member_from_each<M: Mark>(
    alloc: Global,
    marks: &[M],
    name: &str,
) -> Result<Vec<M>, NoMemory>
    ensures { IfOk result (λ found. MarksLeadBy M.located M.stand M.content (λ doc ls. step doc (named name.now) ls) marks.now found.items) }
{
    let mut found = Vec::with_capacity(alloc, marks.len())?;
    for mark in marks {
        mark.add_named_member(alloc, name, &mut found)?;
    }
    Ok(found)
}

/// Appends the node's member of this name, taken literally (no quotes or escapes), if any, to a list of nodes.
///
/// ```text
/// let mut found: Vec<&Value> = Vec::new(alloc);
/// steps_on_marks::add_named_member(alloc, &&document, "a", &mut found)?;
/// assert!(rt; found.is_empty());
/// ```
#[inline]
pub fn add_named_member<M: Mark>(
    alloc: Global,
    mark: &M,
    name: &str,
    out: &mut Vec<M>,
) -> Result<(), NoMemory>
    ensures { OnOk result (MarksGainBy M.located M.stand M.content (λ doc ls. step doc (named name.now) ls) (mark.now ∷ []) out.old.items out.new.items) }
{
    mark.add_named_member(alloc, name, out)?;
    Ok(())
}

/// Returns what a step that is no filter (say `[0]`) selects from each node and from all its descendants, as after
/// `..`, with duplicates. The node and its descendants are visited in preorder: each value before its children, items
/// by index, members by their names' bytes. The only error is `NoMemory`.
///
/// ```text
/// let found = steps_on_marks::plain_step_from_all_below(alloc, &[&document], &PlainStep::Named("a"))?;
/// assert_eq!(rt; found.len(), 1);
/// ```
#[inline]
pub fn plain_step_from_all_below<M: Mark>(
    alloc: Global,
    marks: &[M],
    plain: &PlainStep<'_>,
) -> Result<Vec<M>, NoMemory>
    ensures { IfOk result (λ found. MarksLeadBy M.located M.stand M.content (λ doc ls. step doc (plain_step_of plain.now) (all_below doc ls)) marks.now found.items) }
{
    let mut found = Vec::new(alloc);
    for mark in marks {
        mark.add_selected_at_or_below(alloc, plain, &mut found)?;
    }
    Ok(found)
}

/// Returns what a `Stride`, a step other than a filter, selects from each node. If the `Stride` has `..` (its field
/// `leaves` is true), it selects from each node and from all its descendants, which are visited in preorder: items by
/// index, members by their names' bytes. The only error is `NoMemory`.
///
/// ```text
/// let second = Stride {
///     leaves: false,
///     selection: Selection::Nth(1),
/// };
/// let found = steps_on_marks::stride_from_each(alloc, &[&document], &second)?;
/// assert_eq!(rt; found.len(), 1);
/// ```
pub fn stride_from_each<M: Mark>(
    alloc: Global,
    marks: &[M],
    stride: &Stride<'_>,
) -> Result<Vec<M>, NoMemory>
    ensures { IfOk result (λ found. MarksLeadBy M.located M.stand M.content (led_along (stride.now ∷ [])) marks.now found.items) }
{
    let names = listed_names(alloc, &stride.selection)?;
    let plain = plain_step_of_selection(&stride.selection, names.as_slice());
    if stride.leaves {
        plain_step_from_all_below(alloc, marks, &plain)
    } else {
        plain_step_from_each(alloc, marks, &plain)
    }
}

/// For each node in order, returns the node if it is no array, else the non-array values left if each array is replaced
/// by its items repeatedly. A value found from two nodes is listed twice. If no value is listed twice, the list has
/// exactly the values that a filter with a relative query of at least one segment, such as `[?(@.a)]`, tests when it is
/// applied to these nodes.
///
/// ```text
/// let found = steps_on_marks::flattened_from_each(alloc, &[&document])?;
/// assert_eq!(rt; found.len(), 4);
/// ```
#[inline]
pub fn flattened_from_each<M: Mark>(alloc: Global, marks: &[M]) -> Result<Vec<M>, NoMemory>
    ensures { IfOk result (λ found. MarksLeadBy M.located M.stand M.content (λ doc ls. from_each_location doc flat ls) marks.now found.items) }
{
    let mut found = Vec::new(alloc);
    for mark in marks {
        mark.add_flattened(alloc, &mut found)?;
    }
    Ok(found)
}

/// The values that a filter with a relative query of at least one segment, such as `@.a`, tests if applied to one node:
/// the node if it is no array, else the non-array values left after replacing arrays by their items repeatedly.
///
/// ```text
/// let found = steps_on_marks::flattened_from_mark(alloc, &&document)?;
/// assert_eq!(rt; found.len(), 4);
/// ```
#[inline]
pub fn flattened_from_mark<M: Mark>(alloc: Global, mark: &M) -> Result<Vec<M>, NoMemory>
    ensures { IfOk result (λ found. MarksLeadBy M.located M.stand M.content flattened (mark.now ∷ []) found.items) }
{
    let mut found = Vec::new(alloc);
    mark.add_flattened(alloc, &mut found)?;
    Ok(found)
}

/// Returns the values that a filter after `..` tests when it is applied to one node, if the filter has a relative query
/// with at least one segment, such as `@.a`. These values are the node's descendants that are not arrays, each once.
/// Their order is that of `..*`, with each array replaced by its items (and these again, if they are arrays); of a
/// value found twice, the first occurrence counts.
///
/// ```text
/// let found = steps_on_marks::candidates_below_mark(alloc, &&document)?;
/// assert_eq!(rt; found.len(), 6);
/// ```
#[inline]
pub fn candidates_below_mark<M: Mark>(alloc: Global, mark: &M) -> Result<Vec<M>, NoMemory>
    ensures { IfOk result (λ found. MarksLeadBy M.located M.stand M.content (λ doc ls. flattened doc (step doc every (all_below doc ls))) (mark.now ∷ []) found.items) }
{
    let mut found = Vec::new(alloc);
    mark.add_candidates_below(alloc, &mut found)?;
    Ok(found)
}
