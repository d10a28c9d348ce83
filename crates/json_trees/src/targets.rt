//! The steps to some values of a document, as seen from a value on the way to them.

ghost use Rattle.std.specs.Prelude.{◌≡◌, ◌↔◌, ◌≤◌, ◌<◌, ◌+◌, ◌^◌, [], true, drop, length, map, IsTrue};
ghost use Rattle.std.specs.Ordering.{is_eq};
ghost use Rattle.std.specs.List.{prefix_len};
ghost use Rattle.std.specs.List.Sorted.{IsStrictlySortedBy};
ghost use Rattle.std.specs.declared.cmp.Ordering.TheVariants.{Less, Equal};
ghost use Rattle.std.proofs.lemmas.Map.Keys.{IsStrictlySortedBy-prop};
ghost use Rattle.jsonpath_nodes.specs.place.Location.{Step, location_cmp, step_cmp};
ghost use Rattle.jsonpath_nodes.specs.place.SpotPlace.{step_of};
ghost use Rattle.jsonpath_nodes.specs.update.Topmost.{has_root, under};
ghost use Rattle.json_trees.specs.StepsFrom.{begins_behind, begins_with_step, first_cmp, steps_from};

use jsonpath_nodes::PathStep;
use std::cmp::Ordering;

/// The steps to one value of a document. They are borrowed, so that one list can hold the steps to many values.
#[derive(Clone, Copy, Drop)]
pub struct StepList<'l, 's> {
    /// The steps, from the root on.
    pub steps: &'l [PathStep<'s>],
}

// Steps to some values of a document, in document order, each value once, as seen from a value to which their first steps
// lead.
#[derive(Clone, Copy, Drop)]
pub(crate) struct Targets<'t, 'l, 's> {
    paths: &'t [StepList<'l, 's>],
    depth: usize,
    ghost sorted: { IsStrictlySortedBy location_cmp (steps_from depth paths.now) } by { IsStrictlySortedBy-prop location_cmp (steps_from depth paths.now) },
}

impl<'t, 'l, 's> Targets<'t, 'l, 's> {
    ghost use Rattle.json_trees.specs.Targets.{targets_view};

    // Steps to no value.
    pub(crate) fn none() -> Targets<'t, 'l, 's>
        ensures { targets_view result ≡ [] }
    {
        Targets {
            paths: &[],
            depth: 0,
        }
    }

    // The steps from the root of a document, where they are in document order, each list of them once.
    pub(crate) fn of(paths: &'t [StepList<'l, 's>]) -> Targets<'t, 'l, 's>
        requires { IsStrictlySortedBy location_cmp (map (λ p. map step_of p.steps.now) paths.now) }
        ensures { targets_view result ≡ map (λ p. map step_of p.steps.now) paths.now }
    {
        Targets { paths, depth: 0 }
    }

    // Whether they lead to no value.
    #[inline(always)]
    pub(crate) fn is_empty(&self) -> bool
        ensures { IsTrue result ↔ (targets_view self.now ≡ []) }
    {
        self.paths.is_empty()
    }

    // Whether they lead to the value itself from which they are seen. No other value comes before it.
    #[inline(always)]
    pub(crate) fn reach_here(&self) -> bool
        ensures { result ≡ has_root (targets_view self.now) }
    {
        match self.paths.split_first() {
            Some((path, _)) => path.steps.len() <= self.depth,
            None => false,
        }
    }

    // Those that go through `step`, as seen from the child to which it leads. They are taken out, and so are those that
    // lead to what comes before this child: ask for the children in document order.
    #[inline(always)]
    pub(crate) fn through(&mut self, step: PathStep<'_>) -> Targets<'t, 'l, 's>
        ensures here { targets_view result ≡ under (step_of step.entry) (targets_view self.old) }
        ensures later { (s : Step) → step_cmp (step_of step.entry) s ≡ Less → under s (targets_view self.new) ≡ under s (targets_view self.old) }
    {
        if self.begin_behind(step) {
            return Targets::none();
        }
        let (here, later) = self.split_at_step(step);
        *self = later;
        here
    }

    // Whether even the first of them leads to what comes after the child to which `step` leads, or there is none.
    #[inline(always)]
    fn begin_behind(&self, step: PathStep<'_>) -> bool
        ensures { result ≡ begins_behind (step_of step.entry) (targets_view self.now) }
    {
        match self.paths.split_first() {
            Some((path, _)) => compare_at_depth(path.steps, self.depth, step).is_gt(),
            None => true,
        }
    }

    // Those that go through `step`, as seen from the child to which it leads, and those that come later.
    fn split_at_step(self, step: PathStep<'_>) -> (Targets<'t, 'l, 's>, Targets<'t, 'l, 's>)
        ensures here { targets_view result.0 ≡ under (step_of step.entry) (targets_view self.entry) }
        ensures later { (s : Step) → step_cmp (step_of step.entry) s ≡ Less → under s (targets_view result.1) ≡ under s (targets_view self.entry) }
    {
        for (i, path) in self.paths.iter().enumerate() {
            match compare_at_depth(path.steps, self.depth, step) {
                Ordering::Less => {}
                Ordering::Equal => return self.after(i).split_front(step),
                Ordering::Greater => return (Targets::none(), self.after(i)),
            }
        }
        (Targets::none(), Targets::none())
    }

    // The same, where the first of them goes through the step.
    fn split_front(self, step: PathStep<'_>) -> (Targets<'t, 'l, 's>, Targets<'t, 'l, 's>)
        requires first { begins_with_step (step_of step) (targets_view self) ≡ true }
        requires within { self.depth + 1 < 2 ^ 64 }
        ensures here { targets_view result.0 ≡ under (step_of step.entry) (targets_view self.entry) }
        ensures later { (s : Step) → step_cmp (step_of step.entry) s ≡ Less → under s (targets_view result.1) ≡ under s (targets_view self.entry) }
    {
        let count = count_through(self.paths, self.depth, step);
        let (here, later) = self.paths.split_at(count);
        let here = Targets {
            paths: here,
            depth: self.depth + 1,
        };
        let later = Targets {
            paths: later,
            depth: self.depth,
        };
        (here, later)
    }

    // Those behind the first `count` of them.
    fn after(self, count: usize) -> Targets<'t, 'l, 's>
        requires { count ≤ length (targets_view self) }
        ensures rest { targets_view result ≡ drop count (targets_view self.entry) }
        ensures depth { result.depth ≡ self.entry.depth }
    {
        Targets {
            paths: self.paths.split_at(count).1,
            depth: self.depth,
        }
    }
}

/// Whether the lists of steps are in document order, each list once, as `changed_text` takes them.
pub fn are_in_order(lists: &[StepList<'_, '_>]) -> bool
    ensures { IsTrue result ↔ IsStrictlySortedBy location_cmp (map (λ p. map step_of p.steps.now) lists.now) }
{
    for i in 1..lists.len() {
        if !compare_step_lists(lists[i - 1].steps, lists[i].steps).is_lt() {
            return false;
        }
    }
    true
}

// How two lists of steps compare in document order.
fn compare_step_lists(left: &[PathStep<'_>], right: &[PathStep<'_>]) -> Ordering
    ensures { result ≡ location_cmp (map step_of left.now) (map step_of right.now) }
{
    for (i, step) in left.iter().enumerate() {
        match compare_at_depth(right, i, *step) {
            Ordering::Less => return Ordering::Greater,
            Ordering::Equal => {}
            Ordering::Greater => return Ordering::Less,
        }
    }
    if left.len() < right.len() {
        Ordering::Less
    } else {
        Ordering::Equal
    }
}

// How many of the paths at the front have the step at `depth`.
fn count_through(paths: &[StepList<'_, '_>], depth: usize, step: PathStep<'_>) -> usize
    ensures { result ≡ prefix_len (λ p. is_eq (first_cmp (drop depth (map step_of p.steps.now)) (step_of step.entry))) paths.now }
{
    paths
        .iter()
        .take_while(|path| compare_at_depth(path.steps, depth, step).is_eq())
        .count()
}

// How a path's step at `depth` compares with a step. A path with none there comes first.
#[inline(always)]
fn compare_at_depth(path: &[PathStep<'_>], depth: usize, step: PathStep<'_>) -> Ordering
    ensures order { result ≡ first_cmp (drop depth (map step_of path.now)) (step_of step.entry) }
    ensures within { result ≡ Equal → depth + 1 < 2 ^ 64 }
{
    match path.get(depth) {
        Some(there) => compare_steps(*there, step),
        None => Ordering::Less,
    }
}

// The order of two steps: names by their bytes, indexes by number, a name before an index.
#[inline(always)]
fn compare_steps(a: PathStep<'_>, b: PathStep<'_>) -> Ordering
    ensures { result ≡ step_cmp (step_of a.entry) (step_of b.entry) }
{
    match a {
        PathStep::Name(k) => match b {
            PathStep::Name(l) => k.cmp(l),
            PathStep::Index(_) => Ordering::Less,
        },
        PathStep::Index(i) => match b {
            PathStep::Name(_) => Ordering::Greater,
            PathStep::Index(j) => i.cmp(&j),
        },
    }
}
