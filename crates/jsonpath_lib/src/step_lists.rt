//! The steps to many nodes in one list, which takes less memory than a list for each.
ghost use Rattle.std.specs.Prelude.{◌≡◌, ◌≤◌, drop, length, map, sum, take, IfOk};
ghost use Rattle.jsonpath_nodes.specs.place.SpotPlace.{place_location, step_of};
ghost use Rattle.jsonpath_lib.specs.StepLists.{cut};

use json_trees::StepList;
use jsonpath_nodes::{NoMemory, PathStep, Tree, TreeNode};
use std::alloc::Global;

// The steps to some nodes one after another, and how many of them lead to each.
#[derive(Drop)]
pub(crate) struct StepsToEach<'n> {
    steps: Vec<PathStep<'n>>,
    counts: Vec<usize>,
}

impl<'n> StepsToEach<'n> {
    // A list for each of the nodes, in their order, of the steps to it.
    pub(crate) fn lists<'l>(&'l self, alloc: Global) -> Result<Vec<StepList<'l, 'n>>, NoMemory>
        requires { sum self.now.counts.items ≡ length self.now.steps.items }
        ensures { IfOk result (λ lists. map (λ p. map step_of p.steps.now) lists.items ≡ cut self.now.counts.items (map step_of self.now.steps.items)) }
    {
        cut_steps(alloc, self.steps.as_slice(), self.counts.as_slice())
    }
}

// The steps to each of the nodes, from the root on.
pub(crate) fn steps_to_each<'n, T: Tree>(
    alloc: Global,
    nodes: &'n [TreeNode<T>],
) -> Result<StepsToEach<'n>, NoMemory>
    ensures lists { IfOk result (λ each. cut each.counts.items (map step_of each.steps.items) ≡ map (place_location T.Name.bytes) nodes.now) }
    ensures whole { IfOk result (λ each. sum each.counts.items ≡ length each.steps.items) }
{
    let mut steps = Vec::new(alloc);
    let mut counts = Vec::with_capacity(alloc, nodes.len())?;
    for node in nodes {
        let before = steps.len();
        node.add_steps(&mut steps)?;
        counts.push(steps.len() - before)?;
    }
    Ok(StepsToEach { steps, counts })
}

// Cuts a list of steps into lists of so many steps each.
fn cut_steps<'l, 's>(
    alloc: Global,
    steps: &'l [PathStep<'s>],
    counts: &[usize],
) -> Result<Vec<StepList<'l, 's>>, NoMemory>
    requires { sum counts.now ≡ length steps.now }
    ensures { IfOk result (λ lists. map (λ p. map step_of p.steps.now) lists.items ≡ cut counts.now (map step_of steps.now)) }
{
    let mut lists = Vec::with_capacity(alloc, counts.len())?;
    let mut left = StepList { steps };
    for count in counts {
        let front = take_front(&mut left, *count);
        lists.push(front)?;
    }
    Ok(lists)
}

// Takes so many steps off the front of a list.
fn take_front<'l, 's>(left: &mut StepList<'l, 's>, count: usize) -> StepList<'l, 's>
    requires { count ≤ length left.old.steps.now }
    ensures front { result.steps.now ≡ take count left.old.steps.now }
    ensures left { left.new.steps.now ≡ drop count left.old.steps.now }
{
    let (front, behind) = left.steps.split_at(count);
    *left = StepList { steps: behind };
    StepList { steps: front }
}
