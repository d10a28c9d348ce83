//! The steps of a path on lists of nodes. The names are the Rust crate's, or made like these: `next_` selects children,
//! `all` children of the nodes and of all their descendants (but for `all_with_strs`); `str` is a name, `num` an index.
//! `below` returns the nodes with all their descendants, `walk_dedup_all` and `candidates_below` candidates of filters.

ghost use Rattle.std.specs.Prelude.{map, IfOk};
ghost use Rattle.jsonpath_nodes.specs.place.SpotPlace.{LeadsBy};
ghost use Rattle.jsonpath_nodes.specs.step.Steps.{step, step as step_word, all_below, every, named, listed, nth, union, range, flattened};

use crate::memory::NoMemory;
use crate::place::spot::Spot;
use crate::step::candidates;
use crate::step::plain_step::PlainStep;
use crate::steps_on_marks::{plain_step_from_all_below, plain_step_from_each};
use std::alloc::Global;

/// The steps (segments) of a path, each as a function that applies it to a list of nodes at once.
///
/// Every function returns what its step selects from each node, in the order of the nodes, with duplicates. But
/// `walk_dedup_all` and `candidates_below`, which return the values that a filter tests, return each location once. The
/// only error is `NoMemory`.
///
/// ```text
/// let document = read_document(alloc, b"[{\"a\": 1}, {\"a\": 2}]")?;
/// let root = [Spot::root(alloc, &document)];
/// let items = ValueWalker::next_all(alloc, &root)?;
/// let found = ValueWalker::next_with_str(alloc, items.as_slice(), "a")?;
/// assert_eq!(rt; found.len(), 2);
/// assert!(rt; found[1].value().as_u64() == Some(2));
/// ```
pub struct ValueWalker;

impl ValueWalker {
    /// The step `*`: returns the children of each node that is an array or object, node after node. Items come by
    /// index, members in the order of their names' bytes.
    ///
    /// ```text
    /// let document = Value::from_str(alloc, r#"[{"a": 1, "b": 2}, [3, 4, 5]]"#)?;
    /// let root = [Spot::root(alloc, &document)];
    /// let items = ValueWalker::next_all(alloc, &root)?;
    /// assert_eq!(rt; items.len(), 2);
    /// ```
    pub fn next_all<'a>(alloc: Global, spots: &[Spot<'a>]) -> Result<Vec<Spot<'a>>, NoMemory>
        ensures { IfOk result (λ found. LeadsBy (λ doc ls. step doc every ls) spots.now found.items) }
    {
        plain_step_from_each(alloc, spots, &PlainStep::Every)
    }

    /// From each node that is an object, selects the member with this name, taken literally (no quotes or escapes).
    ///
    /// ```text
    /// let found = ValueWalker::next_with_str(alloc, items.as_slice(), "b")?;
    /// assert_eq!(rt; found.len(), 1);
    /// ```
    pub fn next_with_str<'a>(
        alloc: Global,
        spots: &[Spot<'a>],
        name: &str,
    ) -> Result<Vec<Spot<'a>>, NoMemory>
        ensures { IfOk result (λ found. LeadsBy (λ doc ls. step doc (named name.now) ls) spots.now found.items) }
    {
        plain_step_from_each(alloc, spots, &PlainStep::Named(name))
    }

    /// Selects, from each node that is an object, its members with these names, in the order in which the names are
    /// given. It selects only children, no deeper descendants. Named as in the Rust crate `jsonpath_lib`.
    ///
    /// ```text
    /// let found = ValueWalker::all_with_strs(alloc, items.as_slice(), &["b", "a"])?;
    /// assert_eq!(rt; found.len(), 2);
    /// ```
    pub fn all_with_strs<'a>(
        alloc: Global,
        spots: &[Spot<'a>],
        names: &[&str],
    ) -> Result<Vec<Spot<'a>>, NoMemory>
        ensures { IfOk result (λ found. LeadsBy (λ doc ls. step doc (listed (map (λ k. k.now) names.now)) ls) spots.now found.items) }
    {
        plain_step_from_each(alloc, spots, &PlainStep::Listed(names))
    }

    /// Selects, from each node that is an array, the item at this index, if there is one. A negative index counts from
    /// the end, and selects the first item if it reaches beyond the front.
    ///
    /// ```text
    /// let last = ValueWalker::next_with_num(alloc, items.as_slice(), -1)?;
    /// assert_eq!(rt; last.len(), 1);
    /// assert!(rt; last[0].value().as_u64() == Some(5));
    /// ```
    pub fn next_with_num<'a>(
        alloc: Global,
        spots: &[Spot<'a>],
        n: i64,
    ) -> Result<Vec<Spot<'a>>, NoMemory>
        ensures { IfOk result (λ found. LeadsBy (λ doc ls. step doc (nth n) ls) spots.now found.items) }
    {
        plain_step_from_each(alloc, spots, &PlainStep::Nth(n))
    }

    /// From each node that is an array, the items at these indexes, in the given order. A negative index counts from
    /// the end, and selects the first item if it reaches beyond the front; an index past the end selects nothing.
    ///
    /// ```text
    /// let found = ValueWalker::next_with_nums(alloc, items.as_slice(), &[2, 0])?;
    /// assert_eq!(rt; found.len(), 2);
    /// ```
    pub fn next_with_nums<'a>(
        alloc: Global,
        spots: &[Spot<'a>],
        ns: &[i64],
    ) -> Result<Vec<Spot<'a>>, NoMemory>
        ensures { IfOk result (λ found. LeadsBy (λ doc ls. step doc (union ns.now) ls) spots.now found.items) }
    {
        plain_step_from_each(alloc, spots, &PlainStep::Union(ns))
    }

    /// Slices the nodes that are arrays: selects the items at `from`, `from + step` and so on, before `to`. Negative
    /// `from` or `to` count from the end. Defaults: `from` 0, `to` the length, `step` 1. `step` 0 selects nothing.
    ///
    /// ```text
    /// let found = ValueWalker::next_with_range(alloc, items.as_slice(), Some(1), None, None)?;
    /// assert_eq!(rt; found.len(), 2);
    /// ```
    pub fn next_with_range<'a>(
        alloc: Global,
        spots: &[Spot<'a>],
        from: Option<i64>,
        to: Option<i64>,
        step: Option<u64>,
    ) -> Result<Vec<Spot<'a>>, NoMemory>
        ensures { IfOk result (λ found. LeadsBy (λ doc ls. step_word doc (range from to step) ls) spots.now found.items) }
    {
        plain_step_from_each(alloc, spots, &PlainStep::Range(from, to, step))
    }

    /// `..*`: goes through each node and all its descendants, in preorder (items by index, members by their names'
    /// bytes), and returns the children of each that is an array or an object: those of one, then those of the next.
    ///
    /// ```text
    /// let found = ValueWalker::all(alloc, &root)?;
    /// assert_eq!(rt; found.len(), 7);
    /// ```
    pub fn all<'a>(alloc: Global, spots: &[Spot<'a>]) -> Result<Vec<Spot<'a>>, NoMemory>
        ensures { IfOk result (λ found. LeadsBy (λ doc ls. step doc every (all_below doc ls)) spots.now found.items) }
    {
        plain_step_from_all_below(alloc, spots, &PlainStep::Every)
    }

    /// `..name`: goes through each node and all its descendants, in preorder (items by index, members by their names'
    /// bytes), and returns the member of that name of each object that has one.
    ///
    /// ```text
    /// let found = ValueWalker::all_with_str(alloc, &root, "b")?;
    /// assert_eq!(rt; found.len(), 1);
    /// ```
    pub fn all_with_str<'a>(
        alloc: Global,
        spots: &[Spot<'a>],
        name: &str,
    ) -> Result<Vec<Spot<'a>>, NoMemory>
        ensures { IfOk result (λ found. LeadsBy (λ doc ls. step doc (named name.now) (all_below doc ls)) spots.now found.items) }
    {
        plain_step_from_all_below(alloc, spots, &PlainStep::Named(name))
    }

    /// `..[num]`: goes through each node and all its descendants, in preorder (items by index, members by their names'
    /// bytes), and returns from each array the item at that index, if there is one. A negative index counts from the
    /// end, and selects the first item if it reaches beyond the front.
    ///
    /// ```text
    /// let found = ValueWalker::all_with_num(alloc, &root, 0)?;
    /// assert_eq!(rt; found.len(), 2);
    /// ```
    pub fn all_with_num<'a>(
        alloc: Global,
        spots: &[Spot<'a>],
        n: i64,
    ) -> Result<Vec<Spot<'a>>, NoMemory>
        ensures { IfOk result (λ found. LeadsBy (λ doc ls. step doc (nth n) (all_below doc ls)) spots.now found.items) }
    {
        plain_step_from_all_below(alloc, spots, &PlainStep::Nth(n))
    }

    /// Returns each given node and all its descendants, node after node, in preorder: each value before its children,
    /// items by index, members by their names' bytes.
    ///
    /// ```text
    /// let found = ValueWalker::below(alloc, &root)?;
    /// assert_eq!(rt; found.len(), 8);
    /// ```
    pub fn below<'a>(alloc: Global, spots: &[Spot<'a>]) -> Result<Vec<Spot<'a>>, NoMemory>
        ensures { IfOk result (λ found. LeadsBy all_below spots.now found.items) }
    {
        let mut found = Vec::new(alloc);
        for spot in spots {
            spot.add_all_below(alloc, &mut found)?;
        }
        Ok(found)
    }

    /// Returns the values that a filter tests when it is applied to the given nodes, if the filter has a relative query
    /// with at least one segment, such as `@.a`. A node that is no array is tested itself. An array is replaced by its
    /// items, and each item that is an array by its items in turn, until no array is left. Each location is returned
    /// once, at its first occurrence. Named as in the Rust crate `jsonpath_lib`.
    ///
    /// ```text
    /// let candidates = ValueWalker::walk_dedup_all(alloc, &root)?;
    /// assert_eq!(rt; candidates.len(), 4);
    /// ```
    pub fn walk_dedup_all<'a>(alloc: Global, spots: &[Spot<'a>]) -> Result<Vec<Spot<'a>>, NoMemory>
        ensures { IfOk result (λ found. LeadsBy flattened spots.now found.items) }
    {
        candidates::flattened_once(alloc, spots)
    }

    /// Returns the values that a filter after `..` tests when it is applied to the given nodes, if the filter has a
    /// relative query with at least one segment, such as `@.a`. These values are the descendants of the given nodes,
    /// except those descendants that are arrays. Their order is that of `..*`, with each array replaced by its items
    /// (and these again, if they are arrays). Each location is returned once, at its first occurrence.
    ///
    /// ```text
    /// let candidates = ValueWalker::candidates_below(alloc, &root)?;
    /// assert_eq!(rt; candidates.len(), 6);
    /// ```
    pub fn candidates_below<'a>(
        alloc: Global,
        spots: &[Spot<'a>],
    ) -> Result<Vec<Spot<'a>>, NoMemory>
        ensures { IfOk result (λ found. LeadsBy (λ doc ls. flattened doc (step doc every (all_below doc ls))) spots.now found.items) }
    {
        candidates::candidates_below_once(alloc, spots)
    }
}
