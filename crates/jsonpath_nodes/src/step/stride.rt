//! `Stride`: a plain step that owns its names, alone or after `..`.

ghost use Rattle.std.specs.Prelude.{◌≡◌, map, IfOk};
ghost use Rattle.std.specs.Cow.{cow_str_bytes};
ghost use Rattle.jsonpath_nodes.specs.step.PlainSteps.{plain_step_of};
ghost use Rattle.jsonpath_nodes.specs.step.Strides.{names_in, plain_in};

use crate::memory::NoMemory;
use crate::step::plain_step::PlainStep;
use std::alloc::Global;
use std::borrow::CowStr;

/// What a non-filter step of a path selects among a value's children. Names lack the path's quotes and escapes.
///
/// ```text
/// let both = Stride {
///     leaves: false,
///     selection: Selection::Union(&[0, 1]),
/// };
/// let found = steps_on_marks::stride_from_each(alloc, &[&document], &both)?;
/// assert_eq!(rt; found.len(), 2);
/// ```
#[derive(Drop)]
pub enum Selection<'t> {
    /// A selector: `*` selects all children of an array or object, items by index, members by their names' bytes.
    Every,
    /// A name selector: from each object, it selects the member with this name.
    Named(CowStr<'t, Global>),
    /// A selector: from an object, it selects the members with these names, in the list's order.
    Listed(Vec<CowStr<'t, Global>>),
    /// An index selector: from each array, it selects the item at this index. A negative index counts from the end, and
    /// selects the first item if it reaches beyond the front. An index past the end selects nothing.
    Nth(i64),
    /// A selector: from an array, it selects the items at these indexes, in the order of this list. A negative index
    /// counts from the end, and selects the first item if it reaches beyond the front.
    Union(&'t [i64]),
    /// A selector: a slice `from:to:step`, an array's items at `from`, `from + step` and so on, before `to`. Negative
    /// `from`, `to` count from the end. Defaults: `from` 0, `to` the length, `step` 1. `step` 0 selects nothing.
    Range(Option<i64>, Option<i64>, Option<u64>),
}

/// A step (a segment) of a path, other than a filter, with or without `..` before it. The member names that are written
/// in the step are owned by it or borrowed from the path's text.
///
/// ```text
/// let every = Stride {
///     leaves: true,
///     selection: Selection::Every,
/// };
/// let found = steps_on_marks::stride_from_each(alloc, &[&document], &every)?;
/// assert_eq!(rt; found.len(), 7);
/// ```
#[derive(Drop)]
pub struct Stride<'t> {
    /// Whether `..` precedes this step: if so, it is applied to each value found so far and to all its descendants.
    pub leaves: bool,
    /// What this step selects among the children of each value to which it is applied.
    pub selection: Selection<'t>,
}

// The names that a selection lists, as borrowed texts; none where it is no list of names.
pub(crate) fn listed_names<'n>(
    alloc: Global,
    selection: &'n Selection<'_>,
) -> Result<Vec<&'n str>, NoMemory>
    ensures { IfOk result (λ names. map (λ k. k.now) names.items ≡ names_in selection.now) }
{
    match selection {
        Selection::Listed(names) => lend_names(alloc, names.as_slice()),
        _ => Ok(Vec::new(alloc)),
    }
}

// The names of a list, as borrowed texts.
fn lend_names<'n>(alloc: Global, names: &'n [CowStr<'_, Global>]) -> Result<Vec<&'n str>, NoMemory>
    ensures { IfOk result (λ strs. map (λ s. s.now) strs.items ≡ map cow_str_bytes names.now) }
{
    let mut strs = Vec::new(alloc);
    for name in names {
        strs.push(name.as_str())?;
    }
    Ok(strs)
}

// The plain step that a selection stands for, given the names that it lists.
#[inline]
pub(crate) fn plain_step_of_selection<'n>(
    selection: &'n Selection<'_>,
    names: &'n [&'n str],
) -> PlainStep<'n>
    requires { map (λ k. k.now) names.now ≡ names_in selection.now }
    ensures { plain_step_of result ≡ plain_in selection.now }
{
    match selection {
        Selection::Every => PlainStep::Every,
        Selection::Named(name) => PlainStep::Named(name.as_str()),
        Selection::Listed(_) => PlainStep::Listed(names),
        Selection::Nth(n) => PlainStep::Nth(*n),
        Selection::Union(ns) => PlainStep::Union(ns),
        Selection::Range(from, to, by) => PlainStep::Range(*from, *to, *by),
    }
}
