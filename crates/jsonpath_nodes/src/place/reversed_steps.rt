//! Locations by their steps from the last one up, as a node's trail has them, and how two of them compare.

ghost use Rattle.std.specs.Prelude.{◌≡◌, [], ◌∷◌, ◌++◌, IfOk, IfSome, IfNone, IsSomeAnd};
ghost use Rattle.jsonpath_nodes.specs.plan.OrderedSpots.{from_top};
ghost use Rattle.jsonpath_nodes.specs.plan.Way.{down_step};
ghost use Rattle.jsonpath_nodes.specs.place.Location.{step_cmp, location_cmp};
ghost use Rattle.jsonpath_nodes.specs.place.SpotPlace.{location_at, path_location};
ghost use Rattle.jsonpath_nodes.specs.update.Topmost.{begins_with};

use crate::memory::NoMemory;
use crate::place::trail::{PathTo, Trail};
use crate::step::descends::DownStep;
use crate::tree::name::Name;
use std::alloc::Global;
use std::cmp::Ordering;

// Splits a path into its last step and the path before it; `None` at the root, to which no step leads.
pub(crate) fn split_last_step<'b, N: Name>(
    path_to: PathTo<'b, N>,
) -> Option<(DownStep<N>, PathTo<'b, N>)>
    ensures last { IfSome result (λ p. path_location N.bytes p.1 ++ down_step N.bytes p.0 ∷ [] ≡ path_location N.bytes path_to.entry) }
    ensures root { IfNone result (path_location N.bytes path_to.entry ≡ []) }
{
    match path_to {
        PathTo::Whole(Trail::Root) => None,
        PathTo::Whole(Trail::Member(parent, key)) => last_step_and_path(
            PathTo::Whole(parent),
            DownStep::Member(*key),
        ),
        PathTo::Whole(Trail::Item(parent, i)) => last_step_and_path(
            PathTo::Whole(parent),
            DownStep::Item(*i),
        ),
        PathTo::Whole(Trail::ItemMember(i, parent, key)) => last_step_and_path(
            PathTo::Item(parent, *i as usize),
            DownStep::Member(*key),
        ),
        PathTo::Item(parent, i) => last_step_and_path(PathTo::Whole(parent), DownStep::Item(i)),
    }
}

// A last step beside the path before it, as `split_last_step` answers them; it is never None.
fn last_step_and_path<'b, N: Name>(
    path_to: PathTo<'b, N>,
    step: DownStep<N>,
) -> Option<(DownStep<N>, PathTo<'b, N>)>
    ensures { IsSomeAnd result (λ p. path_location N.bytes p.1 ++ down_step N.bytes p.0 ∷ [] ≡ path_location N.bytes path_to.entry ++ down_step N.bytes step ∷ []) }
{
    Some((step, path_to))
}

// The steps of a trail, the last one first.
pub(crate) fn reversed_steps<N: Name>(
    alloc: Global,
    trail: &Trail<N>,
) -> Result<Vec<DownStep<N>>, NoMemory>
    ensures { IfOk result (λ up. from_top N.bytes up.items ≡ location_at N.bytes trail.now) }
{
    let mut up = Vec::new(alloc);
    let mut rest = PathTo::Whole(trail);
    while let Some((step, before)) = split_last_step(rest) {
        up.push(step)?;
        rest = before;
    }
    Ok(up)
}

// Whether the second location is the first or stands below it. Both are given by their steps, the last step first.
pub(crate) fn is_reversed_prefix_of<N: Name>(first: &[DownStep<N>], second: &[DownStep<N>]) -> bool
    ensures { result ≡ begins_with (from_top N.bytes first.now) (from_top N.bytes second.now) }
{
    match first.split_last() {
        Some((step, rest)) => match second.split_last() {
            Some((other, left)) => compare_down_steps(other, step).is_eq()
                && is_reversed_prefix_of(rest, left),
            None => false,
        },
        None => true,
    }
}

// How two locations compare in document order. Both are given by their steps, the last step first.
pub(crate) fn compare_reversed_locations<N: Name>(a: &[DownStep<N>], b: &[DownStep<N>]) -> Ordering
    ensures { result ≡ location_cmp (from_top N.bytes a.now) (from_top N.bytes b.now) }
{
    match a.split_last() {
        Some((step, rest)) => match b.split_last() {
            Some((other, left)) => match compare_down_steps(step, other) {
                Ordering::Less => Ordering::Less,
                Ordering::Equal => compare_reversed_locations(rest, left),
                Ordering::Greater => Ordering::Greater,
            },
            None => Ordering::Greater,
        },
        None => {
            if b.is_empty() {
                Ordering::Equal
            } else {
                Ordering::Less
            }
        }
    }
}

// The order of two steps: names by their bytes, indexes by number, a name before an index.
fn compare_down_steps<N: Name>(a: &DownStep<N>, b: &DownStep<N>) -> Ordering
    ensures { result ≡ step_cmp (down_step N.bytes a.now) (down_step N.bytes b.now) }
{
    match a {
        DownStep::Member(k) => match b {
            DownStep::Member(l) => k.as_text().cmp(l.as_text()),
            DownStep::Item(_) => Ordering::Less,
        },
        DownStep::Item(i) => match b {
            DownStep::Member(_) => Ordering::Greater,
            DownStep::Item(j) => i.cmp(j),
        },
    }
}
