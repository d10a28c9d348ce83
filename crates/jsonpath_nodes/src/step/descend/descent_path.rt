//! The location of a descent on its way down. It is shared only if a step may find something.

ghost use Rattle.std.specs.Prelude.{◌≡◌, [], ◌∷◌, ◌++◌, ◌+◌, ◌-◌, ◌<◌, ◌≤◌, take, vec_len, IfOk, OnOk};
ghost use Rattle.jsonpath_nodes.specs.place.SpotPlace.{location_at, held_path_location};
ghost use Rattle.jsonpath_nodes.specs.plan.DescentPath.{location_after, descent_location, IsDescentPath, IsKeptAt};

use crate::memory::NoMemory;
use crate::place::trail::{
    HeldPathToContainer, Trail, clone_held_path, held_path_to_container, held_path_to_item,
    member_trail, trail_of_held_path,
};
use crate::step::descends::DownStep;
use crate::tree::name::Name;
use std::alloc::Global;
use std::marker::Model;
use std::rc::Rc;

// The location of a descent: where it began, and the steps down from there.
#[derive(Drop)]
pub struct DescentPath<N: Name> {
    pub(crate) path: SharedPath<N>,
}

impl<N: Name> Model for DescentPath<N> {
    ghost use Rattle.std.specs.Prelude.{List};
    ghost use Rattle.jsonpath_nodes.specs.place.Location.{Location, Step};
    ghost use Rattle.jsonpath_nodes.specs.plan.DescentPath.{IsDescentPath, start_and_steps};

    ghost Value = { Location × List Step };

    ghost view = { λ descent. start_and_steps N.bytes descent.path };

    ghost invariant = { λ descent. IsDescentPath N.bytes descent.path };
}

impl<N: Name> DescentPath<N> {
    // The path of a descent that is at its start. It takes no memory.
    pub(crate) fn new(alloc: Global, start: Trail<N>) -> DescentPath<N>
        ensures { result ≡ (location_at N.bytes start, []) }
    {
        DescentPath {
            path: SharedPath {
                alloc,
                start,
                steps: Vec::new(alloc),
                shared: Vec::new(alloc),
            },
        }
    }
}

// The steps down from a descent's start and what of the path is shared: to the start, then to each step's end.
#[derive(Drop)]
pub struct SharedPath<N> {
    alloc: Global,
    start: Trail<N>,
    steps: Vec<DownStep<N>>,
    shared: Vec<HeldPathToContainer<N>>,
}

impl<N: Name> SharedPath<N> {
    // Goes on with the path by a step to an item or a member. Nothing is shared for it yet.
    #[inline]
    pub(crate) fn go_step_down(&mut self, step: DownStep<N>) -> Result<(), NoMemory>
        requires { IsDescentPath N.bytes self.old }
        ensures start { OnOk result (location_at N.bytes self.new.start ≡ location_at N.bytes self.old.start) }
        ensures steps { OnOk result (self.new.steps.items ≡ self.old.steps.items ++ step ∷ []) }
        ensures descent { IsDescentPath N.bytes self.new }
    {
        self.steps.push(step)?;
        Ok(())
    }

    // Takes the last step back, with what was shared for where it leads.
    #[inline]
    pub(crate) fn go_step_up(&mut self)
        requires { IsDescentPath N.bytes self.old }
        ensures start { location_at N.bytes self.new.start ≡ location_at N.bytes self.old.start }
        ensures steps { self.new.steps.items ≡ take (vec_len self.old.steps - 1) self.old.steps.items }
        ensures descent { IsDescentPath N.bytes self.new }
    {
        self.shared.truncate(self.steps.len());
        let _last = self.steps.pop();
    }

    // A trail to the array where the descent is, for its items to share.
    pub(crate) fn trail_for_items(&mut self) -> Result<Rc<Trail<N>>, NoMemory>
        requires { IsDescentPath N.bytes self.old }
        ensures leads { IfOk result (λ shared. location_at N.bytes shared.value ≡ descent_location N.bytes self.old) }
        ensures stays { OnOk result (IsKeptAt N.bytes self.old self.new) }
        ensures descent { IsDescentPath N.bytes self.new }
    {
        let count = self.steps.len();
        self.share_up_to(count)?;
        self.trail_after_steps(count)
    }

    // The path to the object where the descent is, held for its members to share.
    pub(crate) fn held_path_for_members(&mut self) -> Result<HeldPathToContainer<N>, NoMemory>
        requires { IsDescentPath N.bytes self.old }
        ensures leads { IfOk result (λ held. held_path_location N.bytes held ≡ descent_location N.bytes self.old) }
        ensures stays { OnOk result (IsKeptAt N.bytes self.old self.new) }
        ensures descent { IsDescentPath N.bytes self.new }
    {
        let count = self.steps.len();
        self.share_up_to(count)?;
        Ok(clone_held_path(&self.shared[count])?)
    }

    // Makes what is to be shared of the way to where the first `count` steps lead, as far as it is not made yet.
    fn share_up_to(&mut self, count: usize) -> Result<(), NoMemory>
        requires descent { IsDescentPath N.bytes self.old }
        requires within { count ≤ vec_len self.old.steps }
        ensures shared { OnOk result (count < vec_len self.new.shared) }
        ensures start { OnOk result (location_at N.bytes self.new.start ≡ location_at N.bytes self.old.start) }
        ensures steps { OnOk result (self.new.steps.items ≡ self.old.steps.items) }
        ensures descent { IsDescentPath N.bytes self.new }
    {
        while self.shared.len() <= count {
            let next = self.next_path_to_share()?;
            self.shared.push(next)?;
        }
        Ok(())
    }

    // The held path to where one step more leads than what is shared so far; to the start, where nothing is.
    fn next_path_to_share(&mut self) -> Result<HeldPathToContainer<N>, NoMemory>
        requires descent { IsDescentPath N.bytes self.old }
        requires more { vec_len self.old.shared ≤ vec_len self.old.steps }
        ensures leads { IfOk result (λ held. held_path_location N.bytes held ≡ location_after N.bytes (location_at N.bytes self.old.start) (take (vec_len self.old.shared) self.old.steps.items)) }
        ensures shared { OnOk result (vec_len self.new.shared ≡ vec_len self.old.shared) }
        ensures start { OnOk result (location_at N.bytes self.new.start ≡ location_at N.bytes self.old.start) }
        ensures steps { OnOk result (self.new.steps.items ≡ self.old.steps.items) }
        ensures descent { IsDescentPath N.bytes self.new }
    {
        let count = self.shared.len();
        if count == 0 {
            return held_path_to_container(self.alloc, &self.start);
        }
        match self.steps[count - 1] {
            DownStep::Item(index) => {
                let parent = self.trail_after_steps(count - 1)?;
                held_path_to_item(self.alloc, parent, index)
            }
            DownStep::Member(key) => {
                let held = clone_held_path(&self.shared[count - 1])?;
                let trail = member_trail(held, key);
                Ok(HeldPathToContainer::Whole(Rc::new(self.alloc, trail)?))
            }
        }
    }

    // The trail to where the first `count` steps lead, to which the path is shared already. Where what is shared for
    // that place is an array's trail and an index, a trail of its own takes its place, for its items to share.
    fn trail_after_steps(&mut self, count: usize) -> Result<Rc<Trail<N>>, NoMemory>
        requires descent { IsDescentPath N.bytes self.old }
        requires within { count < vec_len self.old.shared }
        ensures leads { IfOk result (λ trail. location_at N.bytes trail.value ≡ location_after N.bytes (location_at N.bytes self.old.start) (take count self.old.steps.items)) }
        ensures shared { OnOk result (vec_len self.new.shared ≡ vec_len self.old.shared) }
        ensures start { OnOk result (location_at N.bytes self.new.start ≡ location_at N.bytes self.old.start) }
        ensures steps { OnOk result (self.new.steps.items ≡ self.old.steps.items) }
        ensures descent { IsDescentPath N.bytes self.new }
    {
        if let HeldPathToContainer::Whole(trail) = &self.shared[count] {
            return Ok(trail.clone()?);
        }
        let trail = trail_of_held_path(self.alloc, &self.shared[count])?;
        self.shared[count] = HeldPathToContainer::Whole(trail.clone()?);
        Ok(trail)
    }
}
