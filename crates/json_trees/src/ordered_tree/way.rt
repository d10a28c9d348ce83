//! The way along a tree's values from its root, kept from one look-up to the next.

ghost use Rattle.std.specs.Prelude.{◌≡◌, ◌≢◌, ◌↔◌, ◌≤◌, suc, Some, slice_get, ◌++◌, [], ◌∷◌, length, map, option_map, IfOk, IsTrue, take, IfSome, OnOk, OnErr};
ghost use Rattle.json.specs.Json.{Json};
ghost use Rattle.json.specs.Value.{value_view};
ghost use Rattle.jsonpath_nodes.specs.place.Location.{Step};
ghost use Rattle.jsonpath_nodes.specs.place.SpotPlace.{place_location, step_of};
ghost use Rattle.json_trees.specs.ExactAt.{exact_child, exact_at};
ghost use Rattle.json_trees.specs.ExactDocument.{name_bytes};
ghost use Rattle.json_trees.specs.Way.{Leads, LeadsTo, IsWayFrom, last_of, passed_view};

use crate::ordered_tree::handle::OrderedValue;
use jsonpath_nodes::{NoMemory, PathStep, TreeNode};
use std::alloc::Global;

// A value on a way, and the step to it from the one before.
#[derive(Clone, Copy, Drop)]
struct Passed<'s, 'v, 'a> {
    step: PathStep<'s>,
    value: OrderedValue<'v, 'a>,
}

/// A way from a tree's root to one of its values, by which the values at other nodes are found sooner: the steps that lead
/// to them are followed from where they differ.
#[derive(Drop)]
pub struct Way<'s, 'v, 'a> {
    steps: Vec<PathStep<'s>>,
    passed: Vec<Passed<'s, 'v, 'a>>,
}

impl<'s, 'v, 'a> Way<'s, 'v, 'a> {
    /// A way on which there is no value yet. It serves any root.
    pub fn new(alloc: Global) -> Way<'s, 'v, 'a>
        ensures { (root : Json) → IsWayFrom root result }
    {
        Way {
            steps: Vec::new(alloc),
            passed: Vec::new(alloc),
        }
    }

    /// Returns the value to which the steps of the node's location lead from `root`; `None` if nothing is there. If an
    /// object has a name several times, its last value counts. The way then leads to this value. It must lead from the
    /// same root, or be new. The only error is `NoMemory`.
    pub fn value_at(
        &mut self,
        root: OrderedValue<'v, 'a>,
        node: &'s TreeNode<OrderedValue<'_, '_>>,
    ) -> Result<Option<OrderedValue<'v, 'a>>, NoMemory>
        requires { IsWayFrom (value_view root.value.now) self.now }
        ensures way { IsWayFrom (value_view root.entry.value.now) self.new }
        ensures value { IfOk result (λ found. option_map (λ v. value_view v.value.now) found ≡ exact_at (value_view root.entry.value.now) (place_location name_bytes node.now)) }
    {
        self.steps.clear();
        node.add_steps(&mut self.steps)?;
        value_by_steps(root, &mut self.passed, self.steps.as_slice())
    }
}

// The value to which the steps lead from the root. The values passed lead to it then.
fn value_by_steps<'s, 'v, 'a>(
    root: OrderedValue<'v, 'a>,
    passed: &mut Vec<Passed<'s, 'v, 'a>>,
    steps: &[PathStep<'s>],
) -> Result<Option<OrderedValue<'v, 'a>>, NoMemory>
    requires { Leads (value_view root.value.now) (map passed_view passed.now.items) }
    ensures leads { Leads (value_view root.entry.value.now) (map passed_view passed.new.items) }
    ensures value { IfOk result (λ found. option_map (λ v. value_view v.value.now) found ≡ exact_at (value_view root.entry.value.now) (map step_of steps.now)) }
{
    let shared = count_shared(passed.as_slice(), steps);
    let here = value_behind(root, passed.as_slice(), shared);
    let (_, rest) = steps.split_at(shared);
    value_from(root, passed, here, shared, rest)
}

// How many of the values passed, from the first on, lie on the way of these steps.
fn count_shared(passed: &[Passed<'_, '_, '_>], steps: &[PathStep<'_>]) -> usize
    ensures few { result ≤ length (map passed_view passed.now) }
    ensures within { result ≤ length steps.now }
    ensures same { take result (map (λ p. p.0) (map passed_view passed.now)) ≡ take result (map step_of steps.now) }
    ensures no_more { (p : Step × Json) (s : Step) → slice_get (map passed_view passed.now) result ≡ Some p → slice_get (map step_of steps.now) result ≡ Some s → p.0 ≢ s }
{
    match passed.split_first() {
        Some((first, others)) => match steps.split_first() {
            Some((step, rest)) => if are_same(first.step, *step) {
                1 + count_shared(others, rest)
            } else {
                0
            },
            None => 0,
        },
        None => 0,
    }
}

// The last of the first values passed, so many; the root if there are none.
fn value_behind<'v, 'a>(
    root: OrderedValue<'v, 'a>,
    passed: &[Passed<'_, 'v, 'a>],
    count: usize,
) -> OrderedValue<'v, 'a>
    requires { count ≤ length passed.now }
    ensures { value_view result.value.now ≡ last_of (value_view root.entry.value.now) (map passed_view passed.now) count }
{
    if count == 0 {
        root
    } else {
        passed[count - 1].value
    }
}

// The value to which the steps lead from `here`, to which the first values that were passed lead, as many as `depth`.
fn value_from<'s, 'v, 'a>(
    root: OrderedValue<'v, 'a>,
    passed: &mut Vec<Passed<'s, 'v, 'a>>,
    here: OrderedValue<'v, 'a>,
    depth: usize,
    steps: &[PathStep<'s>],
) -> Result<Option<OrderedValue<'v, 'a>>, NoMemory>
    requires { LeadsTo (value_view root.value.now) (map passed_view passed.now.items) depth (value_view here.value.now) }
    ensures leads { Leads (value_view root.entry.value.now) (map passed_view passed.new.items) }
    ensures value { IfOk result (λ found. option_map (λ v. value_view v.value.now) found ≡ exact_at (value_view here.entry.value.now) (map step_of steps.now)) }
{
    match steps.split_first() {
        Some((step, rest)) => match next_value(root, passed, here, depth, *step)? {
            Some(value) => value_from(root, passed, value, depth + 1, rest),
            None => Ok(None),
        },
        None => Ok(Some(here)),
    }
}

// The value to which a step leads from `here`. It is passed behind the first values, as many as `depth`.
fn next_value<'s, 'v, 'a>(
    root: OrderedValue<'v, 'a>,
    passed: &mut Vec<Passed<'s, 'v, 'a>>,
    here: OrderedValue<'v, 'a>,
    depth: usize,
    step: PathStep<'s>,
) -> Result<Option<OrderedValue<'v, 'a>>, NoMemory>
    requires { LeadsTo (value_view root.value.now) (map passed_view passed.now.items) depth (value_view here.value.now) }
    ensures leads { Leads (value_view root.entry.value.now) (map passed_view passed.new.items) }
    ensures value { IfOk result (λ found. option_map (λ v. value_view v.value.now) found ≡ exact_child (step_of step.entry) (value_view here.entry.value.now)) }
    ensures next { IfOk result (λ found. IfSome found (λ v. LeadsTo (value_view root.entry.value.now) (map passed_view passed.new.items) (suc depth) (value_view v.value.now))) }
{
    let Some(value) = here.child(step) else {
        return Ok(None);
    };
    pass(passed, depth, step, value)?;
    Ok(Some(value))
}

// Keeps as many of the values that were passed as `depth`, and adds one behind them.
fn pass<'s, 'v, 'a>(
    passed: &mut Vec<Passed<'s, 'v, 'a>>,
    depth: usize,
    step: PathStep<'s>,
    value: OrderedValue<'v, 'a>,
) -> Result<(), NoMemory>
    ensures kept { OnErr result (map passed_view passed.new.items ≡ take depth (map passed_view passed.old.items)) }
    ensures added { OnOk result (map passed_view passed.new.items ≡ take depth (map passed_view passed.old.items) ++ (step_of step.entry, value_view value.entry.value.now) ∷ []) }
{
    passed.truncate(depth);
    passed.push(Passed { step, value })?;
    Ok(())
}

// Whether two steps are the same.
fn are_same(a: PathStep<'_>, b: PathStep<'_>) -> bool
    ensures { IsTrue result ↔ (step_of a.entry ≡ step_of b.entry) }
{
    match (a, b) {
        (PathStep::Name(name), PathStep::Name(other)) => name == other,
        (PathStep::Index(index), PathStep::Index(other)) => index == other,
        _ => false,
    }
}
