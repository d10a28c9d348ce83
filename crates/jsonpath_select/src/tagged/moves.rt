//! Moves: a step applied to the node references of all candidates at once, for each candidate separately.

ghost use Rattle.std.specs.Prelude.{◌≡◌, [], true, OnOk, IfOk};
ghost use Rattle.jsonpath_nodes.specs.place.Mark.{MarksGainBy, MarksLeadBy};
ghost use Rattle.jsonpath_select.specs.plan.Machine.{each_tag, entered};
ghost use Rattle.jsonpath_select.specs.plan.Shown.{led, LeadsPairs};

use crate::step::plain::marks_after_plain_step;
use crate::tagged::marks::TaggedMarks;
use crate::tagged::tag_lists::{candidate_end_in_tags, fill_tags};
use jsonpath_nodes::steps_on_marks::{
    add_named_member, named_member_from_each, plain_step_from_all_below,
};
use jsonpath_nodes::{Carried, PlainStep};
use jsonpath_paths::ParseToken;
use std::alloc::Global;

// Where the marks of each candidate are led.
#[derive(Clone, Copy)]
pub enum Move<'t> {
    // By a plain step, where `leaves` is set also from all below. Its names stand in this text.
    Step {
        leaves: bool,
        token: &'t ParseToken,
        text: &'t str,
    },
    // By a name, as it is.
    Member(&'t str),
    // To all below them.
    Lower,
    // To the candidates of a filter whose own `@` has a step, out of arrays, each place once.
    Flat,
    // To such candidates where `..` stands before the filter, each place once.
    LowerFlat,
    // To themselves, in document order, each once.
    InOrder,
    // To those that stand neither at nor below the one kept before them: in document order the topmost.
    Topmost,
}

// The marks to which a move leads those of each of `count` candidates, with the candidates' tags.
pub(crate) fn lead_marks_of_candidates<M: Carried>(
    alloc: Global,
    by: Move<'_>,
    count: usize,
    pairs: TaggedMarks<M>,
) -> Result<TaggedMarks<M>, M::Stop>
    ensures { IfOk result (λ found. LeadsPairs M.located M.stand M.content (λ doc ps. each_tag (led doc by.entry) 0 count ps) pairs found) }
{
    if count == 1 {
        lead_only_candidate(alloc, by, pairs)
    } else {
        lead_each_candidate(alloc, by, count, &pairs)
    }
}

// The marks to which a move leads those of the only candidate, all with the tag 0.
fn lead_only_candidate<M: Carried>(
    alloc: Global,
    by: Move<'_>,
    pairs: TaggedMarks<M>,
) -> Result<TaggedMarks<M>, M::Stop>
    ensures { IfOk result (λ found. LeadsPairs M.located M.stand M.content (λ doc ps. each_tag (led doc by.entry) 0 1 ps) pairs found) }
{
    let TaggedMarks {
        tags,
        marks: old_marks,
    } = pairs;
    let end = candidate_end_in_tags(tags.as_slice(), 0, 0);
    let marks = marks_after_move(alloc, by, &old_marks.as_slice()[..end])?;
    let mut tags = emptied_or_new_list(alloc, tags, marks.as_slice().len());
    fill_tags(&mut tags, 0, marks.as_slice().len())?;
    Ok(TaggedMarks { tags, marks })
}

// An empty list: the list handed in, where it has room for so many, else a new one, since growing copies.
fn emptied_or_new_list(alloc: Global, tags: Vec<usize>, count: usize) -> Vec<usize>
    ensures { result.items ≡ [] }
{
    if tags.capacity() < count {
        Vec::new(alloc)
    } else {
        let mut tags = tags;
        tags.clear();
        tags
    }
}

// The marks to which a move leads those of each of `count` candidates, one candidate after the other, with their tags.
fn lead_each_candidate<M: Carried>(
    alloc: Global,
    by: Move<'_>,
    count: usize,
    pairs: &TaggedMarks<M>,
) -> Result<TaggedMarks<M>, M::Stop>
    ensures { IfOk result (λ found. LeadsPairs M.located M.stand M.content (λ doc ps. each_tag (led doc by.entry) 0 count ps) pairs.now found) }
{
    let old_tags = pairs.tags.as_slice();
    let old_marks = pairs.marks.as_slice();
    let mut tags = Vec::with_capacity(alloc, old_tags.len())?;
    let mut marks = Vec::with_capacity(alloc, old_marks.len())?;
    let mut from = 0;
    for tag in 0..count {
        let end = candidate_end_in_tags(old_tags, from, tag);
        add_marks_after_move(alloc, by, &old_marks[from..end], &mut marks)?;
        fill_tags(&mut tags, tag, marks.as_slice().len())?;
        from = end;
    }
    Ok(TaggedMarks { tags, marks })
}

// A filter's candidates for each of `count` outside it. `leaves`: `..` is before it; `deep`: its own `@` has a step.
pub(crate) fn candidates_of_filter<M: Carried>(
    alloc: Global,
    leaves: bool,
    deep: bool,
    count: usize,
    pairs: TaggedMarks<M>,
) -> Result<TaggedMarks<M>, M::Stop>
    ensures { IfOk result (λ found. LeadsPairs M.located M.stand M.content (λ doc ps. entered doc leaves deep count ps) pairs found) }
{
    match (leaves, deep) {
        (false, false) => Ok(pairs),
        (true, false) => lead_marks_of_candidates(alloc, Move::Lower, count, pairs),
        (false, true) => lead_marks_of_candidates(alloc, Move::Flat, count, pairs),
        (true, true) => lead_marks_of_candidates(alloc, Move::LowerFlat, count, pairs),
    }
}

// Adds to `out` the marks to which a move leads those of one candidate. One mark's member needs no list.
#[inline]
fn add_marks_after_move<M: Carried>(
    alloc: Global,
    by: Move<'_>,
    marks: &[M],
    out: &mut Vec<M>,
) -> Result<(), M::Stop>
    ensures { OnOk result (MarksGainBy M.located M.stand M.content (λ doc ls. led doc by.entry ls) marks.now out.old.items out.new.items) }
{
    match (by, marks) {
        (Move::Member(key), [mark]) => {
            add_named_member(alloc, mark, key, out)?;
            Ok(())
        }
        _ => {
            let mut found = marks_after_move(alloc, by, marks)?;
            out.append(&mut found)?;
            Ok(())
        }
    }
}

// The marks to which a move leads those of one candidate.
fn marks_after_move<M: Carried>(alloc: Global, by: Move<'_>, marks: &[M]) -> Result<Vec<M>, M::Stop>
    ensures { IfOk result (λ found. MarksLeadBy M.located M.stand M.content (λ doc ls. led doc by.entry ls) marks.now found.items) }
{
    match by {
        Move::Step {
            leaves,
            token,
            text,
        } => Ok(marks_after_plain_step(alloc, text, leaves, token, marks)?),
        Move::Member(key) => Ok(named_member_from_each(alloc, marks, key)?),
        Move::Lower => Ok(plain_step_from_all_below(alloc, marks, &PlainStep::Every)?),
        Move::Flat => M::flattened_once(alloc, marks),
        Move::LowerFlat => M::candidates_below_once(alloc, marks),
        Move::InOrder => M::marks_in_document_order(alloc, marks),
        Move::Topmost => M::topmost_marks(alloc, marks),
    }
}
