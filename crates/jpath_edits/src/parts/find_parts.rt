//! Finds the parts of a document's text that an edit replaces.

use crate::parts::part::Part;
use crate::parts::positions::{ChildStart, Positions};
use json::Value as Exact;
use jsonpath_nodes::{LocStep, Location, PathStep};
use std::alloc::{AllocError, Global};
use std::cmp::Ordering;

// The parts of a document's text, in the text's order, that give way where the topmost of these targets change: the
// value there (of a name that comes again the last), or, where `takes` is set, the whole member or item (of such a
// name each), with its name, the blanks before it and at most one comma on either side. `exact` is the text's exact
// tree. The targets stand in document order, each once, without the root.
pub(crate) fn find_parts(
    alloc: Global,
    text: &str,
    exact: &Exact<'_>,
    targets: &[Location],
    takes: bool,
) -> Result<Vec<Part>, AllocError> {
    let finder = Finder {
        at: Positions {
            text: text.as_bytes(),
        },
        alloc,
        takes,
    };
    let share = TargetsAtOrBelow { targets, before: 0 };
    let mut parts = Vec::new(alloc);
    finder.add_parts_in_value(exact, finder.at.blanks_end(0), share, 0, &mut parts)?;
    Ok(parts)
}

// The targets that share the steps down to the value at hand, and how many targets come before them.
#[derive(Clone, Copy)]
struct TargetsAtOrBelow<'l> {
    targets: &'l [Location],
    before: usize,
}

// Goes along the text of a document beside its exact tree. Positions are bytes of the text. In its calls `share` has
// the targets at or below the value at hand, and `depth` says how many steps lead from the root to that value.
#[derive(Clone, Copy)]
struct Finder<'c> {
    alloc: Global,
    at: Positions<'c>,
    // Whether what stands at the targets goes.
    takes: bool,
}

impl<'c> Finder<'c> {
    // Adds the parts that give way in the value that begins at `start`, and answers where the value ends.
    #[cycle(parts)]
    fn add_parts_in_value(
        &self,
        exact: &Exact<'_>,
        start: usize,
        share: TargetsAtOrBelow<'_>,
        depth: usize,
        parts: &mut Vec<Part>,
    ) -> Result<usize, AllocError> {
        if !share.targets.is_empty() {
            match exact {
                Exact::Array(items) => return self.add_parts_in_items(
                    items, start, share, depth, parts,
                ),
                Exact::Object(members) => {
                    return self.add_parts_in_members(members, start, share, depth, parts);
                }
                _ => (),
            }
        }
        Ok(self.at.value_end(start))
    }

    // Adds the parts that give way in the items of an array that begins at `start`, and answers where the array ends.
    #[cycle(parts)]
    fn add_parts_in_items(
        &self,
        items: &Vec<Exact<'_>>,
        start: usize,
        share: TargetsAtOrBelow<'_>,
        depth: usize,
        parts: &mut Vec<Part>,
    ) -> Result<usize, AllocError> {
        let mut here = ContainerPosition::new(start);
        for (index, item) in items.iter().enumerate() {
            let begins = ChildStart::of_item(self.at.blanks_end(here.at));
            let inside = targets_at_or_below_child(share, depth, PathStep::Index(index));
            self.add_parts_in_child(item, &mut here, begins, inside, depth, true, parts)?;
        }
        Ok(self.finish_container(&here, parts))
    }

    // Adds the parts that give way in the members of an object that begins at `start`, and answers where the object
    // ends.
    #[cycle(parts)]
    fn add_parts_in_members(
        &self,
        members: &Vec<(&str, Exact<'_>)>,
        start: usize,
        share: TargetsAtOrBelow<'_>,
        depth: usize,
        parts: &mut Vec<Part>,
    ) -> Result<usize, AllocError> {
        let last = self.last_member_of_each_target_name(members, share.targets, depth)?;
        let mut here = ContainerPosition::new(start);
        for (index, member) in members.iter().enumerate() {
            let begins = self.at.member_start(here.at);
            let first = first_target_at_or_below_child(
                share.targets,
                depth,
                PathStep::Name(member.0),
            );
            let inside = targets_at_or_below_child(share, depth, PathStep::Name(member.0));
            let is_last = match first {
                Some(first) => last.as_slice().get(first) == Some(&Some(index)),
                None => false,
            };
            self.add_parts_in_child(&member.1, &mut here, begins, inside, depth, is_last, parts)?;
        }
        Ok(self.finish_container(&here, parts))
    }

    // Adds the parts that give way in an item or a member, which begins at `begins`, and moves `here` behind it.
    // `share` has the targets at or below it, `depth` is that of the array or object around it. `is_last` says, where
    // there are targets, whether no later member has its name: of a name that comes again the last member alone is
    // changed, but each is taken.
    #[cycle(parts)]
    fn add_parts_in_child(
        &self,
        exact: &Exact<'_>,
        here: &mut ContainerPosition,
        begins: ChildStart,
        share: TargetsAtOrBelow<'_>,
        depth: usize,
        is_last: bool,
        parts: &mut Vec<Part>,
    ) -> Result<(), AllocError> {
        let is_target = match share.targets.first() {
            Some(target) => target.steps().len() == depth.saturating_add(1),
            None => false,
        };
        if is_target && self.takes {
            return self.add_taken_child(here, begins, share.before, parts);
        }
        let end = if is_last && !is_target {
            self.add_parts_in_value(exact, begins.value, share, depth.saturating_add(1), parts)?
        } else {
            self.at.value_end(begins.value)
        };
        if is_last && is_target {
            parts.push(Part::of_value(begins.value, end, share.before))?;
        }
        here.kept_end = Some(end);
        here.taken = None;
        here.at = self.at.position_behind_comma(end);
        Ok(())
    }

    // Adds the part of an item or a member that is taken, and goes on behind it.
    fn add_taken_child(
        &self,
        here: &mut ContainerPosition,
        begins: ChildStart,
        target: usize,
        parts: &mut Vec<Part>,
    ) -> Result<(), AllocError> {
        let value_end = self.at.value_end(begins.value);
        let next = self.at.position_behind_comma(value_end);
        if here.taken.is_none() {
            here.taken = Some(parts.len());
        }
        parts.push(Part {
            start: here.at,
            label: begins.label,
            value: begins.value,
            value_end,
            end: next,
            target,
        })?;
        here.at = next;
        Ok(())
    }

    // Answers where an array or object ends, behind its closing bracket. Where items or members behind the last one
    // that is kept are taken, the first of their parts is made to begin where that one ends, so that the comma between
    // goes with them.
    fn finish_container(&self, here: &ContainerPosition, parts: &mut Vec<Part>) -> usize {
        if let (Some(first), Some(end)) = (here.taken, here.kept_end) {
            if let Some(part) = parts.get_mut(first) {
                part.start = end;
            }
        }
        self.at.blanks_end(here.at).saturating_add(1)
    }

    // A list as long as the targets: at the first target at or below a name, the index of the last member of that name;
    // else None.
    fn last_member_of_each_target_name(
        &self,
        members: &Vec<(&str, Exact<'_>)>,
        targets: &[Location],
        depth: usize,
    ) -> Result<Vec<Option<usize>>, AllocError> {
        let mut last = Vec::new(self.alloc);
        last.resize(targets.len(), None)?;
        for (index, member) in members.iter().enumerate() {
            let first = first_target_at_or_below_child(targets, depth, PathStep::Name(member.0));
            let Some(first) = first else {
                continue;
            };
            if let Some(last_index) = last.get_mut(first) {
                *last_index = Some(index);
            }
        }
        Ok(last)
    }
}

// How far the finder went in an array or an object.
#[derive(Clone, Copy)]
struct ContainerPosition {
    // Behind the bracket, or behind the comma of what was passed last.
    at: usize,
    // Where the last item or member that is kept ends.
    kept_end: Option<usize>,
    // The number of the first part behind that, where all behind it go.
    taken: Option<usize>,
}

impl ContainerPosition {
    // The position behind the bracket that opens, before the first item or member.
    fn new(bracket: usize) -> ContainerPosition {
        ContainerPosition {
            at: bracket.saturating_add(1),
            kept_end: None,
            taken: None,
        }
    }
}

// Those of the targets that are at or below one child, which is reached by this step at this depth.
fn targets_at_or_below_child<'l>(
    share: TargetsAtOrBelow<'l>,
    depth: usize,
    child: PathStep<'_>,
) -> TargetsAtOrBelow<'l> {
    let Some(first) = first_target_at_or_below_child(share.targets, depth, child) else {
        return TargetsAtOrBelow {
            targets: &[],
            before: share.before,
        };
    };
    let end = share.targets.partition_point(|target| step_order(target, depth, child)
        != Ordering::Greater);
    TargetsAtOrBelow {
        targets: share.targets.get(first..end).unwrap_or(&[]),
        before: share.before.saturating_add(first),
    }
}

// The index of the first target that is at or below one child, if there is one.
fn first_target_at_or_below_child(
    targets: &[Location],
    depth: usize,
    child: PathStep<'_>,
) -> Option<usize> {
    let first = targets.partition_point(|target| step_order(target, depth, child)
        == Ordering::Less);
    match targets.get(first) {
        Some(target) => match step_order(target, depth, child) {
            Ordering::Equal => Some(first),
            _ => None,
        },
        None => None,
    }
}

// How the step that a target has at this depth compares with a child's; a target that has none there comes before all.
fn step_order(target: &Location, depth: usize, child: PathStep<'_>) -> Ordering {
    match (target.steps().get(depth), child) {
        (Some(LocStep::Name(name)), PathStep::Name(other)) => name.as_str().cmp(&other),
        (Some(LocStep::Index(index)), PathStep::Index(other)) => index.cmp(&other),
        (Some(LocStep::Name(_)), PathStep::Index(_)) => Ordering::Less,
        (Some(LocStep::Index(_)), PathStep::Name(_)) => Ordering::Greater,
        (None, _) => Ordering::Less,
    }
}
