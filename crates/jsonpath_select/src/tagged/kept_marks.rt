//! The node references of a list at some indexes of it, with their tags.

ghost use Rattle.std.specs.Prelude.{◌≡◌, ◌+◌, [], ◌∷◌, ◌++◌, if◌then◌else◌, IfOk, OnOk};
ghost use Rattle.jsonpath_select.specs.plan.Machine.{kept_by_number};
ghost use Rattle.jsonpath_select.specs.plan.Shown.{LeadsPairs};

use crate::tagged::marks::TaggedMarks;
use crate::tagged::tag_lists::position_past_tag;
use jsonpath_nodes::{Carried, NoMemory};
use std::alloc::Global;

// The marks, with their tags, whose indexes in the list are among these ascending numbers. They are moved, not copied.
pub(crate) fn keep_marks_at_indexes<M: Carried>(
    alloc: Global,
    pairs: TaggedMarks<M>,
    numbers: &[usize],
) -> Result<TaggedMarks<M>, NoMemory>
    ensures { IfOk result (λ found. LeadsPairs M.located M.stand M.content (λ _ ps. kept_by_number 0 numbers.now ps) pairs found) }
{
    let TaggedMarks {
        tags: all_tags,
        marks: all_marks,
    } = pairs;
    let mut tags = Vec::with_capacity(alloc, numbers.len())?;
    let mut marks = Vec::with_capacity(alloc, numbers.len())?;
    let mut from = 0;
    for (number, mark) in all_marks.into_iter().enumerate() {
        let end = position_past_tag(numbers, from, number);
        push_mark_if(from < end, all_tags[number], mark, &mut tags, &mut marks)?;
        from = end;
    }
    Ok(TaggedMarks { tags, marks })
}

// Adds the mark and its tag if it passes.
#[inline]
fn push_mark_if<M: Drop>(
    passes: bool,
    tag: usize,
    mark: M,
    tags: &mut Vec<usize>,
    marks: &mut Vec<M>,
) -> Result<(), NoMemory>
    ensures tags { OnOk result (tags.new.items ≡ (if passes then tags.old.items ++ tag ∷ [] else tags.old.items)) }
    ensures marks { OnOk result (marks.new.items ≡ (if passes then marks.old.items ++ mark ∷ [] else marks.old.items)) }
{
    if passes {
        tags.push(tag)?;
        marks.push(mark)?;
    }
    Ok(())
}
