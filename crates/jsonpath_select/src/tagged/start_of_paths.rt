//! The tagged node references with which a path starts: the root, the candidates, or their members of one name.

ghost use Rattle.std.specs.Prelude.{List, IfOk, ◌<◌, ◌-◌, true, [], ◌∷◌};
ghost use Rattle.jsonpath_nodes.specs.document.Document.{Document};
ghost use Rattle.jsonpath_nodes.specs.place.Location.{Location};
ghost use Rattle.jsonpath_nodes.specs.place.Mark.{MarksStandAt};
ghost use Rattle.jsonpath_select.specs.plan.Machine.{Tagged, start_of_path, itself, places, spread, root_shared_by_candidates};
ghost use Rattle.jsonpath_select.specs.plan.Shown.{Shows};
ghost use Rattle.jsonpath_select.specs.plan.Stack.{ShowsFound};
ghost use Rattle.jsonpath_nodes.specs.step.Steps.{step, named};

use crate::tagged::marks::{Found, TaggedMarks};
use crate::tagged::tag_lists::fill_tags;
use jsonpath_nodes::steps_on_marks::add_named_member;
use jsonpath_nodes::{Carried, NoMemory};
use std::alloc::Global;

// The root as the beginning of a path: one mark that all candidates share.
pub(crate) fn root_shared_by_candidates<M: Carried>(
    alloc: Global,
    root: &M,
) -> Result<Found<M>, NoMemory>
    ensures { IfOk result (λ f. ShowsFound M.located M.stand M.content (M.content root.now) root_shared_by_candidates f) }
{
    let mut tags = Vec::new(alloc);
    let mut marks = Vec::new(alloc);
    tags.push(0)?;
    marks.push(root.as_root(alloc))?;
    Ok(Found {
        is_shared: true,
        pairs: TaggedMarks { tags, marks },
    })
}

// The marks with which a path begins: the root, which all candidates share, or each candidate, tagged with its number.
pub(crate) fn start_of_path<M: Carried>(
    alloc: Global,
    root: &M,
    absolute: bool,
    candidates: &TaggedMarks<M>,
) -> Result<Found<M>, NoMemory>
    ensures { IfOk result (λ found. (ps : List Tagged) → Shows M.located M.stand M.content (M.content root.now) ps candidates.now → ShowsFound M.located M.stand M.content (M.content root.now) (start_of_path absolute (places ps)) found) }
{
    if absolute {
        root_shared_by_candidates(alloc, root)
    } else {
        let pairs = numbered_candidates(alloc, candidates)?;
        Ok(Found {
            is_shared: false,
            pairs,
        })
    }
}

// A copy of the candidates, each tagged with its index among them, as a path from `@` begins.
pub(crate) fn numbered_candidates<M: Carried>(
    alloc: Global,
    frame: &TaggedMarks<M>,
) -> Result<TaggedMarks<M>, NoMemory>
    ensures { IfOk result (λ found. (doc : Document) (ps : List Tagged) → Shows M.located M.stand M.content doc ps frame.now → Shows M.located M.stand M.content doc (spread itself 0 (places ps)) found) }
{
    let count = frame.marks.as_slice().len();
    let mut tags = Vec::with_capacity(alloc, count)?;
    let mut marks = Vec::with_capacity(alloc, count)?;
    for (tag, mark) in frame.marks.iter().enumerate() {
        tags.push(tag)?;
        marks.push(mark.copy()?)?;
    }
    Ok(TaggedMarks { tags, marks })
}

// The member of this name of each candidate's value, if it has one, tagged with the candidate's number.
pub(crate) fn members_named<M: Carried>(
    alloc: Global,
    candidates: &[M],
    name: &str,
) -> Result<TaggedMarks<M>, NoMemory>
    ensures { IfOk result (λ found. (doc : Document) (ls : List Location) → MarksStandAt M.located M.stand M.content doc ls candidates.now → Shows M.located M.stand M.content doc (spread (λ l. step doc (named name.now) (l ∷ [])) 0 ls) found) }
{
    let mut tags = Vec::with_capacity(alloc, candidates.len())?;
    let mut marks = Vec::with_capacity(alloc, candidates.len())?;
    for (tag, mark) in candidates.iter().enumerate() {
        add_named_member(alloc, mark, name, &mut marks)?;
        fill_tags(&mut tags, tag, marks.as_slice().len())?;
    }
    Ok(TaggedMarks { tags, marks })
}
