//! Lists of node references that all candidates share.

ghost use Rattle.std.specs.Prelude.{◌≡◌, List, IfOk, map};
ghost use Rattle.jsonpath_nodes.specs.document.Document.{Document};
ghost use Rattle.jsonpath_nodes.specs.place.Location.{Location};
ghost use Rattle.jsonpath_nodes.specs.place.Mark.{MarksStandAt, shown};
ghost use Rattle.jsonpath_nodes.specs.place.Order.{once_in_order};
ghost use Rattle.jsonpath_select.specs.plan.Machine.{list_count_for_candidates};
ghost use Rattle.jsonpath_select.specs.plan.Stack.{ShowsFound};
ghost use Rattle.jsonpath_select.specs.plan.Standing.{for_all};

use crate::tagged::marks::{Found, TaggedMarks};
use crate::tagged::tag_lists::fill_tags;
use jsonpath_nodes::{Carried, NoMemory};
use std::alloc::Global;

// These marks as a list that all candidates share.
pub(crate) fn marks_shared_by_candidates<M: Carried>(
    alloc: Global,
    marks: Vec<M>,
) -> Result<Found<M>, NoMemory>
    ensures { IfOk result (λ found. (doc : Document) (ls : List Location) → MarksStandAt M.located M.stand M.content doc ls marks.items → ShowsFound M.located M.stand M.content doc (for_all ls) found) }
{
    let count = marks.as_slice().len();
    let mut tags = Vec::with_capacity(alloc, count)?;
    fill_tags(&mut tags, 0, count)?;
    Ok(Found {
        is_shared: true,
        pairs: TaggedMarks { tags, marks },
    })
}

// The marks in document order, each place once, as a list that all candidates share.
pub(crate) fn distinct_marks<M: Carried>(
    alloc: Global,
    pairs: &TaggedMarks<M>,
) -> Result<Found<M>, M::Stop>
    ensures { IfOk result (λ found. (doc : Document) (ls : List Location) → MarksStandAt M.located M.stand M.content doc ls pairs.now.marks.items → ShowsFound M.located M.stand M.content doc (for_all (once_in_order ls)) found) }
{
    let marks = M::marks_in_document_order(alloc, pairs.marks.as_slice())?;
    let found = marks_shared_by_candidates(alloc, marks)?;
    Ok(found)
}

// How many lists there are for so many candidates: one each, or one that they share.
pub(crate) fn list_count_for_candidates(is_shared: bool, count: usize) -> usize
    ensures { result ≡ list_count_for_candidates is_shared count }
{
    if is_shared { 1 } else { count }
}

// A copy of the marks.
pub(crate) fn copied_marks<M: Carried>(alloc: Global, marks: &[M]) -> Result<Vec<M>, NoMemory>
    ensures { IfOk result (λ found. map (shown M.stand M.content) found.items ≡ map (shown M.stand M.content) marks.now) }
{
    let mut found = Vec::with_capacity(alloc, marks.len())?;
    for mark in marks {
        found.push(mark.copy()?)?;
    }
    Ok(found)
}
