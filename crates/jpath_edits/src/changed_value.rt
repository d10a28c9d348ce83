//! Whether one document is another one with a change at some of its locations.

ghost use Rattle.std.specs.Prelude.{◌≡◌, ◌∷◌, ◌++◌, if◌then◌else◌, suc, Some, map, option_map, drop, IsTrue};
ghost use Rattle.jsonpath_nodes.specs.place.Owned.{owned_step};
ghost use Rattle.jsonpath_nodes.specs.place.SpotPlace.{step_of};
ghost use Rattle.jsonpath_nodes.specs.update.Topmost.{has_root, with_answer_at_topmost, items_with_answer, members_with_answer};

use jsonpath_nodes::{LocStep, Location, Name, PathStep, Tree};

// A document whose values can be compared with those of another one.
pub(crate) trait SameTree<Other: Tree>: Tree {
    // Whether the value is the same as another one.
    fn is_same(self, other: Other) -> bool
        ensures { IsTrue result → Self.content self ≡ Other.content other };
}

// Whether `after` is `before` with the new value at the topmost of the places, or, if there is no new value, with nothing
// there. The first `depth` steps of each place lead to the value.
#[cycle(changed)]
pub(crate) fn is_changed_value<B: SameTree<A>, A: Tree, N: SameTree<A>>(
    before: B,
    after: A,
    places: &[Location],
    depth: usize,
    new: Option<N>,
) -> bool
    ensures { IsTrue result → A.content after ≡ with_answer_at_topmost (option_map (λ v. N.content v) new) (map (drop depth) places.now) (B.content before) }
{
    if places.is_empty() {
        return before.is_same(after);
    }
    if let Some(items) = before.as_array() {
        return match after.as_array() {
            Some(others) => are_changed_items::<B, A, N>(items, others, places, depth, new),
            None => false,
        };
    }
    if let Some(members) = before.as_object() {
        return match after.as_object() {
            Some(others) => are_changed_members::<B, A, N>(members, others, places, depth, new),
            None => false,
        };
    }
    before.is_same(after)
}

// The same for the items of an array.
#[cycle(changed)]
fn are_changed_items<B: SameTree<A>, A: Tree, N: SameTree<A>>(
    items: B::Array,
    others: A::Array,
    places: &[Location],
    depth: usize,
    new: Option<N>,
) -> bool
    ensures { IsTrue result → A.items others ≡ items_with_answer (option_map (λ v. N.content v) new) (map (drop depth) places.now) 0 (B.items items) }
{
    let mut left = A::each_item(others);
    let mut rest = places;
    for index in 0..B::len(items) {
        let Some(item) = B::item_at(items, index) else {
            return false;
        };
        let (here, later) = split_by_step(rest, depth, PathStep::Index(index));
        rest = later;
        if new.is_none() && is_place_of_child(here, depth) {
            continue;
        }
        let Some(other) = A::next_item(&mut left) else {
            return false;
        };
        if !is_changed_child(item, other, here, depth, new) {
            return false;
        }
    }
    rest.is_empty() && A::next_item(&mut left).is_none()
}

// The same for the members of an object.
#[cycle(changed)]
fn are_changed_members<B: SameTree<A>, A: Tree, N: SameTree<A>>(
    members: B::Object,
    others: A::Object,
    places: &[Location],
    depth: usize,
    new: Option<N>,
) -> bool
    ensures { IsTrue result → A.members others ≡ members_with_answer (option_map (λ v. N.content v) new) (map (drop depth) places.now) (B.members members) }
{
    let mut left = B::each_member(members);
    let mut others_left = A::each_member(others);
    let mut rest = places;
    while let Some(member) = B::next_member(&mut left) {
        let (here, later) = split_by_step(rest, depth, PathStep::Name(member.0.as_text()));
        rest = later;
        if new.is_none() && is_place_of_child(here, depth) {
            continue;
        }
        let Some(other) = A::next_member(&mut others_left) else {
            return false;
        };
        if member.0.as_text() != other.0.as_text()
            || !is_changed_child(member.1, other.1, here, depth, new)
        {
            return false;
        }
    }
    rest.is_empty() && A::next_member(&mut others_left).is_none()
}

// The same for an item or a member, to which the first `depth` steps of each place, and one more, lead.
#[cycle(changed)]
fn is_changed_child<B: SameTree<A>, A: Tree, N: SameTree<A>>(
    before: B,
    after: A,
    places: &[Location],
    depth: usize,
    new: Option<N>,
) -> bool
    ensures { IsTrue result → Some (A.content after) ≡ (if has_root (map (drop (suc depth)) places.now) then option_map (λ v. N.content v) new else Some (with_answer_at_topmost (option_map (λ v. N.content v) new) (map (drop (suc depth)) places.now) (B.content before))) }
{
    if is_place_of_child(places, depth) {
        return match new {
            Some(new) => new.is_same(after),
            None => false,
        };
    }
    match depth.checked_add(1) {
        Some(below) => is_changed_value(before, after, places, below, new),
        None => false,
    }
}

// The places at the front that have this step at `depth`, and those from the first on that hasn't.
fn split_by_step<'l>(
    places: &'l [Location],
    depth: usize,
    step: PathStep<'_>,
) -> (&'l [Location], &'l [Location])
    ensures { map (drop depth) places.now ≡ map (λ l. step_of step.entry ∷ l) (map (drop (suc depth)) result.0.now) ++ map (drop depth) result.1.now }
{
    let mut count = 0;
    for place in places {
        if !has_step(place, depth, step) {
            break;
        }
        count += 1;
    }
    places.split_at(count)
}

// Whether a place has this step at `depth`.
fn has_step(place: &Location, depth: usize, step: PathStep<'_>) -> bool
    ensures { IsTrue result → drop depth place.now ≡ step_of step.entry ∷ drop (suc depth) place.now }
{
    match place.steps().get(depth) {
        Some(own) => is_step(own, step),
        None => false,
    }
}

// Whether two steps are the same.
fn is_step(own: &LocStep, step: PathStep<'_>) -> bool
    ensures { IsTrue result → owned_step own.now ≡ step_of step.entry }
{
    match (own, step) {
        (LocStep::Name(own), PathStep::Name(name)) => own.as_str() == name,
        (LocStep::Index(own), PathStep::Index(index)) => *own == index,
        _ => false,
    }
}

// Whether one of the places has no more than one step behind its first `depth` ones.
fn is_place_of_child(places: &[Location], depth: usize) -> bool
    ensures { result ≡ has_root (map (drop (suc depth)) places.now) }
{
    for place in places {
        if place.steps().len().saturating_sub(depth) <= 1 {
            return true;
        }
    }
    false
}
