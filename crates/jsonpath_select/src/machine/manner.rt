//! In which manner a path is evaluated, read off its instructions: as lists or by sets. What it selects is the same.

use crate::machine::instruction::{Instruction, instructions_of_token_list};
use crate::step::distinct_selections::{indexes_select_distinct_items, names_are_distinct};
use jsonpath_nodes::NoMemory;
use jsonpath_paths::ParseToken;
use std::alloc::Global;

// What the choice goes by.
#[derive(Clone, Copy)]
pub struct Manner {
    // How many of the path's own steps can reach a node more than once.
    pub(crate) repeating_steps: usize,
    // Whether its conditions are decided by sets: one has a filter of its own, or a path with two such steps.
    pub(crate) decides_by_sets: bool,
}

impl Manner {
    // Whether after each step only those nodes are kept from which the rest of the path leads to something.
    pub(crate) fn keeps_what_leads_on(self) -> bool {
        self.repeating_steps > 2
    }

    // Whether what the path selects, where only that matters, is found by sets.
    pub(crate) fn is_better_by_sets(self) -> bool {
        self.repeating_steps > 1 || self.decides_by_sets
    }
}

// The manner of the path with this token list, whose names stand in the text.
pub(crate) fn manner_of_token_list(
    alloc: Global,
    text: &str,
    tokens: &[ParseToken],
) -> Result<Manner, NoMemory> {
    let code = instructions_of_token_list(alloc, tokens)?;
    manner_of(alloc, text, code.as_slice())
}

// The manner of the path with these instructions, whose names stand in the text.
pub(crate) fn manner_of(
    alloc: Global,
    text: &str,
    code: &[Instruction<'_>],
) -> Result<Manner, NoMemory> {
    let mut repeating_steps: usize = 0;
    let mut decides_by_sets = false;
    let mut filters_open: usize = 0;
    let mut repeating_inside: usize = 0;
    for instruction in code {
        let repeats = may_repeat_nodes(alloc, text, instruction)?;
        match instruction {
            Instruction::Start { .. } => repeating_inside = 0,
            Instruction::Leave => filters_open = filters_open.saturating_sub(1),
            _ if filters_open == 0 => {
                repeating_steps = repeating_steps.saturating_add(usize::from(repeats));
            }
            _ => {
                repeating_inside = repeating_inside.saturating_add(usize::from(repeats));
                decides_by_sets = decides_by_sets || repeating_inside > 1;
            }
        }
        if let Instruction::Enter { .. } = instruction {
            decides_by_sets = decides_by_sets || filters_open > 0;
            filters_open = filters_open.saturating_add(1);
        }
    }
    Ok(Manner {
        repeating_steps,
        decides_by_sets,
    })
}

// Whether a step or filter can reach a node more than once: behind `..`, by a name twice, by indexes that can meet.
fn may_repeat_nodes(
    alloc: Global,
    text: &str,
    instruction: &Instruction<'_>,
) -> Result<bool, NoMemory> {
    match instruction {
        Instruction::Step { leaves: true, .. } | Instruction::Enter { leaves: true, .. } => Ok(
            true,
        ),
        Instruction::Step {
            token: ParseToken::Keys(spans),
            ..
        } => Ok(!names_are_distinct(alloc, text, spans.as_slice())?),
        Instruction::Step {
            token: ParseToken::Union(indexes),
            ..
        } => Ok(
            !ascend_from_front(indexes.as_slice())
                && !indexes_select_distinct_items(alloc, indexes.as_slice())?,
        ),
        _ => Ok(false),
    }
}

// Whether the indexes count from the front and ascend, as most do: they are then seen to differ without a set of them.
fn ascend_from_front(indexes: &[i64]) -> bool {
    let mut last = -1;
    for index in indexes {
        if *index <= last {
            return false;
        }
        last = *index;
    }
    true
}
