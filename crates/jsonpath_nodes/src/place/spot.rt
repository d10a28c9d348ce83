//! `TreeNode`, a value of a document with its location; `Spot`, one of a `serde_json` value.

ghost use Rattle.std.specs.Prelude.{◌≡◌, ◌↔◌, [], ◌∷◌, ◌++◌, ◌^◌, ◌-◌, length, map, min, pos, true, IsTrue, IfOk, OnOk, IfSome, IfNone, option_to_list};
ghost use Rattle.serde_json.specs.View.{view};
ghost use Rattle.jsonpath_nodes.specs.document.OfData.{document_of};
ghost use Rattle.jsonpath_nodes.specs.place.Location.{below};
ghost use Rattle.jsonpath_nodes.specs.place.Mark.{MarksGain};
ghost use Rattle.jsonpath_nodes.specs.place.Owned.{owned_step};
ghost use Rattle.jsonpath_nodes.specs.place.SpotPlace.{key_bytes, step_of, steps_of, path_location, place_location, place_value, location_of, value_of, LeadsBy, place_sight};
ghost use Rattle.jsonpath_nodes.specs.plan.Way.{down_step};
ghost use Rattle.jsonpath_nodes.specs.step.Steps.{step, all_below, every, named, nth};

use crate::memory::NoMemory;
use crate::place::location::{LocStep, Location};
use crate::place::mark::Mark;
use crate::place::reversed_steps::split_last_step;
use crate::place::trail::{PathTo, Trail, add_steps_of_path_to_value, clone_trail, shared_trail};
use crate::step::child_lookup::item_of_value;
use crate::step::descend::add_node_and_all_below;
use crate::step::descends::DownStep;
use crate::step::plain_step::PlainStep;
use crate::tree::Tree;
use crate::tree::name::{Handle, Name};
use serde_json::Value;
use std::alloc::{AllocError, Global};

/// One step of a node's location: an index, or a name borrowed from the document.
///
/// ```text
/// let children = root.children(alloc)?;
/// for list in children.as_slice() {
///     let last = list.steps().split_last();
///     assert!(rt; last.is_some_and(|it| matches!(it.0, PathStep::Name("a"))));
/// }
/// ```
#[derive(Clone, Copy, Debug)]
pub enum PathStep<'a> {
    /// A step of a location (a normalized path): from an object to its member of this name.
    Name(&'a str),
    /// A step of a location (a normalized path): from an array to its item at this index, counted from 0.
    Index(usize),
}

/// A node: a value of a document with its location. It borrows from the document alone.
///
/// ```text
/// let document = read_document(alloc, b"{\"a\": [1, 2]}")?;
/// let root = Spot::root(alloc, &document);
/// let Some(list) = root.member(alloc, "a")? else {
///     return Err(Fail::new("there is no member"));
/// };
/// let items = list.children(alloc)?;
/// assert_eq!(rt; items.len(), 2);
/// assert!(rt; items[1].location(alloc)?.to_string(alloc)?.as_str() == "$['a'][1]");
/// ```
pub type Spot<'a> = TreeNode<&'a Value>;

/// A node of a document: a handle to a value, with the value's location. The handle's type `T` can be any type that
/// implements `Tree`, the trait of such handles. `Spot` is `TreeNode<&Value>`, the node of a `serde_json` value.
///
/// ```text
/// let root = TreeNode::at_root(&document);
/// assert!(rt; root.location(alloc)?.steps().is_empty());
/// ```
#[derive(Drop)]
pub struct TreeNode<T: Handle> {
    pub(crate) value: T,
    pub(crate) trail: Trail<T::Name>,
}

/// The steps from the root to a node. A `for` loop goes through them from the root down, and `split_last` takes off the
/// last one. The type borrows from the node and allocates nothing.
///
/// ```text
/// let below = root.below(alloc)?;
/// assert_eq!(rt; below.len(), 5);
/// assert_eq!(rt; below[4].steps().len(), 3);
/// ```
#[derive(Clone, Copy)]
pub struct Steps<'b, 'a> {
    pub(crate) path_to: PathTo<'b, &'a String>,
}

// A spot takes four words, a reference and three for its trail: a list of spots is copied as it grows.
const _: () = prove!(size_of::<Trail<&'static String>>() <= 24);

impl<'a> Spot<'a> {
    /// The root node of a document, with the whole document as its value. The call allocates no memory.
    ///
    /// ```text
    /// let root = Spot::root(alloc, &document);
    /// assert!(rt; root.value().is_object());
    /// ```
    pub fn root(_alloc: Global, value: &'a Value) -> Spot<'a>
        ensures location { location_of result ≡ [] }
        ensures value { value_of result ≡ document_of (view value.now) }
    {
        TreeNode::at_root(value)
    }

    /// The steps from the document's root to this node. The call allocates no memory.
    ///
    /// ```text
    /// let root = Spot::root(alloc, &document);
    /// assert!(rt; root.steps().is_empty());
    /// ```
    pub fn steps(&self) -> Steps<'_, 'a>
        ensures { steps_of result ≡ location_of self.now }
    {
        Steps {
            path_to: PathTo::Whole(&self.trail),
        }
    }

    /// The children of this node, as nodes: items by index, members by their names' bytes; none if it is neither an
    /// array nor an object. The only error is `NoMemory`.
    ///
    /// ```text
    /// let children = Spot::root(alloc, &document).children(alloc)?;
    /// assert_eq!(rt; children.len(), 1);
    /// ```
    pub fn children(&self, alloc: Global) -> Result<Vec<Spot<'a>>, NoMemory>
        ensures { IfOk result (λ found. LeadsBy (λ doc ls. step doc every ls) (self.now ∷ []) found.items) }
    {
        let mut found = Vec::new(alloc);
        self.add_selected_children(alloc, &PlainStep::Every, &mut found)?;
        Ok(found)
    }

    /// The member of this name, as a node, if this node is an object that has one. The only error is `NoMemory`.
    ///
    /// ```text
    /// let list = Spot::root(alloc, &document).member(alloc, "a")?;
    /// assert!(rt; list.is_some());
    /// ```
    pub fn member(&self, alloc: Global, name: &str) -> Result<Option<Spot<'a>>, NoMemory>
        ensures { IfOk result (λ found. LeadsBy (λ doc ls. step doc (named name.now) ls) (self.now ∷ []) (option_to_list found)) }
    {
        let mut found = Vec::new(alloc);
        self.add_named_member(alloc, name, &mut found)?;
        Ok(found.pop())
    }

    /// Returns the item of this node at this index, counted from 0, as a node. Returns `None` if this node is no array,
    /// or if the array has no item at this index. The only error is `NoMemory`.
    ///
    /// ```text
    /// let none = Spot::root(alloc, &document).item(alloc, 0)?;
    /// assert!(rt; none.is_none());
    /// ```
    pub fn item(&self, alloc: Global, index: usize) -> Result<Option<Spot<'a>>, NoMemory>
        ensures { IfOk result (λ found. LeadsBy (λ doc ls. step doc (nth (pos index)) ls) (self.now ∷ []) (option_to_list found)) }
    {
        match item_of_value(self.value, index) {
            Some(item) => {
                let here = shared_trail(alloc, &self.trail)?;
                Ok(Some(TreeNode {
                    value: item,
                    trail: Trail::Item(here, index),
                }))
            }
            None => Ok(None),
        }
    }

    /// This node itself and all its descendants, in preorder: each before its descendants, items by index, members by
    /// their names' bytes. The only error is `NoMemory`.
    ///
    /// ```text
    /// let below = Spot::root(alloc, &document).below(alloc)?;
    /// assert_eq!(rt; below.len(), 5);
    /// ```
    pub fn below(&self, alloc: Global) -> Result<Vec<Spot<'a>>, NoMemory>
        ensures { IfOk result (λ found. LeadsBy all_below (self.now ∷ []) found.items) }
    {
        let mut found = Vec::new(alloc);
        self.add_all_below(alloc, &mut found)?;
        Ok(found)
    }

    // Appends to `out` this node and all its descendants, in document order.
    pub(crate) fn add_all_below(
        &self,
        alloc: Global,
        out: &mut Vec<Spot<'a>>,
    ) -> Result<(), NoMemory>
        ensures { OnOk result (MarksGain true location_of value_of below (location_of self.now) (value_of self.now) out.old.items out.new.items) }
    {
        add_node_and_all_below(alloc, self, out)
    }
}

/// Clones a node: the clone has the same value and shares the steps of its location. `clone` returns a `Result`; it
/// fails only if the reference count of these steps would overflow.
impl<T: Tree> Clone for TreeNode<T> {
    ghost is_clone = { λ place copy. place_sight T.Name.bytes T.content copy ≡ place_sight T.Name.bytes T.content place };

    fn clone(&self) -> Result<TreeNode<T>, AllocError> {
        Ok(TreeNode {
            value: self.value,
            trail: clone_trail(&self.trail)?,
        })
    }
}

impl<T: Tree> TreeNode<T> {
    /// The root node of a document, with the whole document as its value. The call takes no memory.
    ///
    /// ```text
    /// let root = TreeNode::at_root(&document);
    /// assert!(rt; root.value().is_object());
    /// ```
    pub fn at_root(value: T) -> TreeNode<T>
        ensures location { place_location T.Name.bytes result ≡ [] }
        ensures value { place_value T.content result ≡ T.content value }
    {
        TreeNode {
            value,
            trail: Trail::Root,
        }
    }

    /// Returns a handle to the node's value. If the node is a `Spot`, the handle is a reference into the document.
    ///
    /// ```text
    /// let root = Spot::root(alloc, &document);
    /// assert!(rt; root.value().get("a").is_some());
    /// ```
    pub fn value(&self) -> T
        ensures { T.content result ≡ place_value T.content self.now }
    {
        self.value
    }

    /// The location of the node, copied into a `Location`. The only error is `NoMemory`.
    ///
    /// ```text
    /// let document = read_document(alloc, br#"{"store": {"book": [{"price": 1995}]}}"#)?;
    /// let path = compile_path(alloc, "$..price")?;
    /// let spots = select_path(alloc, &document, &path)?;
    /// assert_eq!(rt; spots.len(), 1);
    /// let location = spots[0].location(alloc)?;
    /// let text = location.to_string(alloc)?;
    /// assert!(rt; text.as_str() == "$['store']['book'][0]['price']");
    /// ```
    pub fn location(&self, alloc: Global) -> Result<Location, NoMemory>
        ensures { IfOk result (λ location. location ≡ place_location T.Name.bytes self.now) }
    {
        location_of_path(alloc, PathTo::Whole(&self.trail))
    }

    /// Appends the steps from the root to the node to `steps`. They borrow from the node, so that one list can serve many
    /// nodes, one after the other, and no name is copied. The only error is `NoMemory`; `steps` may then end with a part.
    ///
    /// ```text
    /// let children = root.children(alloc)?;
    /// let mut steps = Vec::new(alloc);
    /// children[0].add_steps(&mut steps)?;
    /// assert_eq!(rt; steps.len(), 1);
    /// ```
    pub fn add_steps<'b>(&'b self, steps: &mut Vec<PathStep<'b>>) -> Result<(), NoMemory>
        ensures { OnOk result (map step_of steps.new.items ≡ map step_of steps.old.items ++ place_location T.Name.bytes self.now) }
    {
        add_steps_of_path_to_value(PathTo::Whole(&self.trail), steps)
    }
}

impl<'b, 'a> Steps<'b, 'a> {
    /// Splits the steps to a node into the last one and those before it; `None` for the root, to which no step leads.
    ///
    /// ```text
    /// assert!(rt; root.steps().split_last().is_none());
    /// ```
    pub fn split_last(self) -> Option<(PathStep<'a>, Steps<'b, 'a>)>
        ensures last { IfSome result (λ p. steps_of p.1 ++ step_of p.0 ∷ [] ≡ steps_of self.entry) }
        ensures root { IfNone result (steps_of self.entry ≡ []) }
    {
        match split_last_step(self.path_to) {
            Some((step, path_to)) => Some((borrowed_step(step), Steps { path_to })),
            None => None,
        }
    }

    /// The number of steps from the root to the node, or `usize::MAX` if there are more.
    ///
    /// ```text
    /// assert_eq!(rt; root.steps().len(), 0);
    /// ```
    pub fn len(self) -> usize
        ensures { result ≡ min (length (steps_of self.entry)) (2 ^ 64 - 1) }
    {
        let mut len = 0usize;
        let mut rest = self.path_to;
        while let Some((_, before)) = split_last_step(rest) {
            len = len.saturating_add(1);
            rest = before;
        }
        len
    }

    /// Whether there is no step from the root to the node, that is, whether the node is the root.
    ///
    /// ```text
    /// assert!(rt; root.steps().is_empty());
    /// ```
    pub fn is_empty(self) -> bool
        ensures { IsTrue result ↔ (steps_of self.entry ≡ []) }
    {
        match split_last_step(self.path_to) {
            Some(_) => false,
            None => true,
        }
    }

    /// Copies the steps from the root to the node into a `Location`. The only error is `NoMemory`.
    ///
    /// ```text
    /// let location = root.steps().to_location(alloc)?;
    /// assert!(rt; location.steps().is_empty());
    /// ```
    pub fn to_location(self, alloc: Global) -> Result<Location, NoMemory>
        ensures { IfOk result (λ location. location ≡ steps_of self.entry) }
    {
        location_of_path(alloc, self.path_to)
    }
}

// The steps of a path to a value, copied.
fn location_of_path<N: Name>(alloc: Global, path_to: PathTo<'_, N>) -> Result<Location, NoMemory>
    ensures { IfOk result (λ location. location ≡ path_location N.bytes path_to.entry) }
{
    let mut borrowed = Vec::new(alloc);
    add_steps_of_path_to_value(path_to, &mut borrowed)?;
    let mut steps = Vec::with_capacity(alloc, borrowed.len())?;
    for step in borrowed.iter() {
        steps.push(copied_step(alloc, *step)?)?;
    }
    Ok(Location::from_steps(steps))
}

// A step, copied.
fn copied_step(alloc: Global, step: PathStep<'_>) -> Result<LocStep, AllocError>
    ensures { IfOk result (λ copy. owned_step copy ≡ step_of step.entry) }
{
    match step {
        PathStep::Name(name) => Ok(LocStep::Name(String::from_str(alloc, name)?)),
        PathStep::Index(i) => Ok(LocStep::Index(i)),
    }
}

// A step down, by a name borrowed from the document.
fn borrowed_step<'a>(step: DownStep<&'a String>) -> PathStep<'a>
    ensures { step_of result ≡ down_step key_bytes step.entry }
{
    match step {
        DownStep::Item(index) => PathStep::Index(index),
        DownStep::Member(key) => PathStep::Name(key.as_str()),
    }
}
