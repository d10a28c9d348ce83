//! Owned locations, with document order.

ghost use Rattle.std.specs.Prelude.{◌≡◌, refl};
ghost use Rattle.std.specs.Cmp.{eq_by_cmp_equiv, on_total, partial_equiv_from_equiv, partial_order_from_total};
ghost use Rattle.std.specs.Ordering.{as_partial_cmp, eq_by_cmp, on};
ghost use Rattle.jsonpath_nodes.specs.place.Location.{step_cmp, location_cmp};
ghost use Rattle.jsonpath_nodes.specs.place.Order.{location_total, step_total};
ghost use Rattle.jsonpath_nodes.specs.place.Owned.{owned_step, owned_steps};
ghost use Rattle.jsonpath_nodes.specs.update.Topmost.{begins_with};

pub(crate) mod print;

use std::alloc::AllocError;
use std::cmp::Ordering;
use std::marker::Model;

/// One step of a `Location`: a name or an index. Steps are ordered: names by bytes, indexes by number, names first.
///
/// ```text
/// assert!(rt; LocStep::Index(2) < LocStep::Index(10));
/// ```
#[derive(Debug, Drop)]
pub enum LocStep {
    /// A step of a location (a normalized path): from an object to its member of this name.
    Name(String),
    /// A step of a location (a normalized path): from an array to its item at this index, counted from 0.
    Index(usize),
}

/// The location of a value in a document: the steps from the root down, as in a normalized path. Locations have an
/// order, called document order: a location comes before those below it; else the first steps that differ decide,
/// names by their bytes, indexes by number, and a name before an index.
///
/// ```text
/// let root = Location::from_steps(Vec::new(alloc));
/// let item = Location::from_steps(vec![in alloc; LocStep::Index(0)]?);
/// assert!(rt; root < item);
/// assert_eq!(rt; item.steps().len(), 1);
/// ```
#[derive(Debug, Drop)]
pub struct Location {
    steps: Vec<LocStep>,
}

impl Model for Location {
    ghost use Rattle.std.specs.Prelude.{List};
    ghost use Rattle.jsonpath_nodes.specs.place.Location.{Step};
    ghost use Rattle.jsonpath_nodes.specs.place.Coded.{location_code};

    ghost Value = { List Step };

    ghost coded = { location_code };

    ghost use Rattle.jsonpath_nodes.specs.place.Owned.{owned_steps};

    ghost view = { λ a. owned_steps a.steps.items };
}

impl Location {
    /// Makes a location of its steps, from the root down. The root's location has none.
    ///
    /// ```text
    /// let root = Location::from_steps(Vec::new(alloc));
    /// assert!(rt; root.steps().is_empty());
    /// ```
    pub fn from_steps(steps: Vec<LocStep>) -> Location
        ensures { result ≡ owned_steps steps.items }
    {
        Location { steps }
    }

    /// The steps of the location, from the document's root down.
    ///
    /// ```text
    /// let item = Location::from_steps(vec![in alloc; LocStep::Index(2)]?);
    /// assert!(rt; item.steps().first() == Some(&LocStep::Index(2)));
    /// ```
    pub fn steps(&self) -> &[LocStep]
        ensures { owned_steps result.now ≡ self.now }
    {
        self.steps.as_slice()
    }

    /// Whether this location is the other one or below it: its steps begin with those of the other.
    ///
    /// ```text
    /// let item = Location::from_steps(vec![in alloc; LocStep::Index(2)]?);
    /// let root = Location::from_steps(Vec::new(alloc));
    /// assert!(rt; item.is_at_or_below(&item));
    /// assert!(rt; item.is_at_or_below(&root));
    /// assert!(rt; !root.is_at_or_below(&item));
    /// ```
    pub fn is_at_or_below(&self, other: &Location) -> bool
        ensures { result ≡ begins_with other.now self.now }
    {
        self.steps.as_slice().starts_with(other.steps.as_slice())
    }
}

/// Clones a location: the clone has the same steps. `clone` returns a `Result`; its only error is out of memory.
impl Clone for Location {
    ghost is_clone = { λ location copy. copy ≡ location };

    fn clone(&self) -> Result<Location, AllocError> {
        let mut steps = Vec::new(*self.steps.allocator());
        for step in self.steps.iter() {
            steps.push(step.clone()?)?;
        }
        Ok(Location { steps })
    }
}

/// Clones a step of a location: the clone is equal to it. Returns an error only if it is a name and memory runs out.
impl Clone for LocStep {
    ghost is_clone = { λ step copy. owned_step copy ≡ owned_step step };

    fn clone(&self) -> Result<LocStep, AllocError> {
        match self {
            LocStep::Name(name) => Ok(LocStep::Name(name.clone()?)),
            LocStep::Index(i) => Ok(LocStep::Index(*i)),
        }
    }
}

// The order of two steps: names by their bytes, indexes by number, a name before an index.
fn compare_owned_steps(a: &LocStep, b: &LocStep) -> Ordering
    ensures { result ≡ step_cmp (owned_step a.now) (owned_step b.now) }
{
    match a {
        LocStep::Name(k) => match b {
            LocStep::Name(l) => k.as_str().cmp(&l.as_str()),
            LocStep::Index(_) => Ordering::Less,
        },
        LocStep::Index(i) => match b {
            LocStep::Name(_) => Ordering::Greater,
            LocStep::Index(j) => i.cmp(j),
        },
    }
}

// How two locations compare in document order. Both are given by their steps from the root down.
fn compare_locations(a: &[LocStep], b: &[LocStep]) -> Ordering
    ensures { result ≡ location_cmp (owned_steps a.now) (owned_steps b.now) }
{
    a.cmp(&b)
}

impl PartialEq for LocStep {
    ghost eq = { on owned_step (eq_by_cmp step_cmp) };

    ghost laws = { partial_equiv_from_equiv (eq_by_cmp_equiv (on_total owned_step step_total)) };

    fn eq(&self, other: &LocStep) -> bool {
        compare_owned_steps(self, other).is_eq()
    }
}

impl Eq for LocStep {
    ghost laws = { eq_by_cmp_equiv (on_total owned_step step_total) };
}

impl PartialOrd for LocStep {
    ghost partial_cmp = { as_partial_cmp (on owned_step step_cmp) };

    ghost laws = { partial_order_from_total (on_total owned_step step_total) };

    fn partial_cmp(&self, other: &LocStep) -> Option<Ordering> {
        Some(compare_owned_steps(self, other))
    }
}

impl Ord for LocStep {
    ghost cmp = { on owned_step step_cmp };

    ghost total = { on_total owned_step step_total };

    ghost matches_partial_cmp = { λ x y. refl };

    ghost matches_eq = { λ x y. refl };

    fn cmp(&self, other: &LocStep) -> Ordering {
        compare_owned_steps(self, other)
    }
}

impl PartialEq for Location {
    ghost eq = { eq_by_cmp location_cmp };

    ghost laws = { partial_equiv_from_equiv (eq_by_cmp_equiv location_total) };

    fn eq(&self, other: &Location) -> bool {
        compare_locations(self.steps(), other.steps()).is_eq()
    }
}

impl Eq for Location {
    ghost laws = { eq_by_cmp_equiv location_total };
}

impl PartialOrd for Location {
    ghost partial_cmp = { as_partial_cmp location_cmp };

    ghost laws = { partial_order_from_total location_total };

    fn partial_cmp(&self, other: &Location) -> Option<Ordering> {
        Some(compare_locations(self.steps(), other.steps()))
    }
}

impl Ord for Location {
    ghost cmp = { location_cmp };

    ghost total = { location_total };

    ghost matches_partial_cmp = { λ x y. refl };

    ghost matches_eq = { λ x y. refl };

    fn cmp(&self, other: &Location) -> Ordering {
        compare_locations(self.steps(), other.steps())
    }
}
