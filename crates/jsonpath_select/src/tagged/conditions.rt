//! Conditions, decided for all candidates at once: lists of the tags (the candidates' numbers) at which they hold.

ghost use Rattle.std.specs.Prelude.{◌≡◌, ℕ, List, IfOk};
ghost use Rattle.jsonpath_nodes.specs.document.Document.{Document};
ghost use Rattle.jsonpath_select.specs.Parts.{joined};
ghost use Rattle.jsonpath_select.specs.plan.Machine as machine;
ghost use Rattle.jsonpath_select.specs.plan.Machine.{Tagged, all_tags_or_none, as_tags, found_tags, joined_tags, some_tags};
ghost use Rattle.jsonpath_select.specs.plan.Shown.{tags_of};
ghost use Rattle.jsonpath_select.specs.plan.Stack.{IsOfCondition, ShowsOperand};

use crate::tagged::marks::{Found, TaggedMarks};
use crate::tagged::operand::Operand;
use crate::tagged::tag_lists::{candidate_end_in_tags, position_past_tag, push_tag_if};
use jsonpath_nodes::{Carried, NoMemory};
use jsonpath_paths::FilterToken;
use std::alloc::Global;

// The numbers of those of the `count` candidates at which a condition holds, by its operand: a path that finds any.
pub(crate) fn condition_tags<M: Carried>(
    alloc: Global,
    count: usize,
    operand: Operand<'_, M>,
) -> Result<Vec<usize>, NoMemory>
    requires { IsOfCondition operand }
    ensures { IfOk result (λ ts. (text : List ℕ) (doc : Document) (o : machine.Operand) → ShowsOperand M.located M.stand M.content text doc o operand.entry → as_tags count o ≡ Some ts.items) }
{
    match operand {
        Operand::Marks(Found { is_shared, pairs }) => tags_where_marks_found(
            alloc, is_shared, count, &pairs,
        ),
        Operand::Tags(tags) => Ok(tags),
        Operand::Literal(_) => unreachable!(),
    }
}

// The numbers of the candidates, of `count`, for which a mark was found; of all or none where they share the marks.
pub(crate) fn tags_where_marks_found<M>(
    alloc: Global,
    is_shared: bool,
    count: usize,
    pairs: &TaggedMarks<M>,
) -> Result<Vec<usize>, NoMemory>
    ensures { IfOk result (λ ts. (ps : List Tagged) → pairs.now.tags.items ≡ tags_of ps → ts.items ≡ found_tags is_shared count ps) }
{
    let tags = pairs.tags.as_slice();
    if is_shared {
        Ok(all_tags_or_none(alloc, !tags.is_empty(), count)?)
    } else {
        distinct_tags(alloc, count, tags)
    }
}

// The numbers of all `count` candidates where a condition holds at all of them, else none.
pub(crate) fn all_tags_or_none(
    alloc: Global,
    holds: bool,
    count: usize,
) -> Result<Vec<usize>, NoMemory>
    ensures { IfOk result (λ ts. ts.items ≡ all_tags_or_none holds 0 count) }
{
    if !holds {
        return Ok(Vec::new(alloc));
    }
    let mut tags = Vec::with_capacity(alloc, count)?;
    for tag in 0..count {
        tags.push(tag)?;
    }
    Ok(tags)
}

// The tags below `count` that stand in the ascending list, each once.
fn distinct_tags(alloc: Global, count: usize, tags: &[usize]) -> Result<Vec<usize>, NoMemory>
    ensures { IfOk result (λ ts. (ps : List Tagged) → tags.now ≡ tags_of ps → ts.items ≡ some_tags 0 count ps) }
{
    let mut found = Vec::with_capacity(alloc, count)?;
    let mut from = 0;
    for tag in 0..count {
        let end = candidate_end_in_tags(tags, from, tag);
        push_tag_if(&mut found, from < end, tag)?;
        from = end;
    }
    Ok(found)
}

// The tags below `count` at which `&&` or `||` holds; `left` and `right` are those at which its sides hold.
pub(crate) fn join_tags(
    alloc: Global,
    op: FilterToken,
    count: usize,
    left: &[usize],
    right: &[usize],
) -> Result<Vec<usize>, NoMemory>
    ensures { IfOk result (λ ts. ts.items ≡ joined_tags op 0 count left.now right.now) }
{
    let mut tags = Vec::with_capacity(alloc, count)?;
    let mut left_from = 0;
    let mut right_from = 0;
    for tag in 0..count {
        let left_end = position_past_tag(left, left_from, tag);
        let right_end = position_past_tag(right, right_from, tag);
        let holds = connective_holds(op, left_from < left_end, right_from < right_end);
        push_tag_if(&mut tags, holds, tag)?;
        left_from = left_end;
        right_from = right_end;
    }
    Ok(tags)
}

// Whether `&&` or `||` holds, from whether its sides hold; false for a comparison.
#[inline]
fn connective_holds(op: FilterToken, left: bool, right: bool) -> bool
    ensures { result ≡ joined op left right }
{
    match op {
        FilterToken::And => left && right,
        FilterToken::Or => left || right,
        _ => false,
    }
}
