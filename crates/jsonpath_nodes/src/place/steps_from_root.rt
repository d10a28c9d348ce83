//! The steps to a node, iterated from the root down.

ghost use Rattle.std.specs.Prelude.{◌≡◌, ◌∷◌, [], ◌++◌, ◌-◌, ◌^◌, ℕ, take};
ghost use Rattle.std.specs.Iterator.{YieldsFirstBy, item_count};
ghost use Rattle.jsonpath_nodes.specs.place.Location.{Location};
ghost use Rattle.jsonpath_nodes.specs.place.SpotPlace.{key_bytes, location_at, path_location, step_of, steps_of, steps_left, IsStepAt};

use crate::place::spot::{PathStep, Steps};
use crate::place::trail::{PathTo, Trail};

/// Iterator over the steps from the root to a node. Allocates nothing: to find one, it goes back from the last step.
///
/// ```text
/// for list in root.children(alloc)?.as_slice() {
///     for step in list.steps() {
///         assert!(rt; matches!(step, PathStep::Name("a")));
///     }
/// }
/// ```
#[derive(Clone, Copy)]
pub struct StepsFromRoot<'b, 'a> {
    pub(crate) path_to: PathTo<'b, &'a String>,
    pub(crate) taken: usize,
}

// The step at this index of a trail, from the root down; or how far behind its end that is, 0 right behind it.
fn step_at_index_of_trail<'a>(
    trail: &Trail<&'a String>,
    index: usize,
) -> Result<PathStep<'a>, usize>
    ensures { IsStepAt (location_at key_bytes trail.now) index result }
{
    match trail {
        Trail::Root => Err(index),
        Trail::Member(parent, key) => found_or_last_step(
            step_at_index_of_trail(parent, index),
            PathStep::Name(key.as_str()),
        ),
        Trail::Item(parent, i) => found_or_last_step(
            step_at_index_of_trail(parent, index),
            PathStep::Index(*i),
        ),
        Trail::ItemMember(i, parent, key) => {
            let item = found_or_last_step(
                step_at_index_of_trail(parent, index),
                PathStep::Index(*i as usize),
            );
            found_or_last_step(item, PathStep::Name(key.as_str()))
        }
    }
}

// The step at an index, where `last` stands behind the steps that were searched: the one found there, or `last`, if the
// index is right behind them (an error of 0); else the error, one less.
fn found_or_last_step<'a>(
    found: Result<PathStep<'a>, usize>,
    last: PathStep<'a>,
) -> Result<PathStep<'a>, usize>
    ensures { (l : Location) (index : ℕ) → IsStepAt l index found.entry → IsStepAt (l ++ step_of last.entry ∷ []) index result }
{
    match found {
        Ok(step) => Ok(step),
        Err(0) => Ok(last),
        Err(behind) => Err(behind - 1),
    }
}

// The step at this index of a path to a value, from the root down; or how far behind its end that is.
fn step_at_index_of_path_to_value<'a>(
    path_to: PathTo<'_, &'a String>,
    index: usize,
) -> Result<PathStep<'a>, usize>
    ensures { IsStepAt (path_location key_bytes path_to.entry) index result }
{
    match path_to {
        PathTo::Whole(trail) => step_at_index_of_trail(trail, index),
        PathTo::Item(parent, i) => found_or_last_step(
            step_at_index_of_trail(parent, index),
            PathStep::Index(i),
        ),
    }
}

impl<'b, 'a> Iterator for StepsFromRoot<'b, 'a> {
    type Item = PathStep<'a>;

    ghost next_gives = { YieldsFirstBy step_of steps_left };

    ghost remaining = { item_count steps_left };

    fn next(&mut self) -> Option<PathStep<'a>> {
        let taken = self.taken;
        if taken == usize::MAX {
            return None;
        }
        match step_at_index_of_path_to_value(self.path_to, taken) {
            Ok(step) => {
                self.taken = taken + 1;
                Some(step)
            }
            Err(_) => None,
        }
    }
}

/// Makes an iterator over the steps to a node, from the root down. It allocates no memory: for each step, it goes back
/// from the node's last step, so the work is quadratic in the number of steps. It ends after `usize::MAX` steps.
///
/// ```text
/// let document = read_document(alloc, br#"{"a": [1, {"b": 2}]}"#)?;
/// let path = compile_path(alloc, "$..b")?;
/// let spots = select_path(alloc, &document, &path)?;
/// assert_eq!(rt; spots.len(), 1);
/// let mut shown = String::new(alloc);
/// for step in spots[0].steps() {
///     match step {
///         PathStep::Name(name) => write!(shown, "/{name}")?,
///         PathStep::Index(index) => write!(shown, "/{index}")?,
///     }
/// }
/// assert!(rt; shown.as_str() == "/a/1/b");
/// ```
impl<'b, 'a> IntoIterator for Steps<'b, 'a> {
    type Item = PathStep<'a>;

    type IntoIter = StepsFromRoot<'b, 'a>;

    ghost into_iter_gives = { λ steps down. steps_left down ≡ take (2 ^ 64 - 1) (steps_of steps) };

    fn into_iter(self) -> StepsFromRoot<'b, 'a> {
        StepsFromRoot {
            path_to: self.path_to,
            taken: 0,
        }
    }
}
