//! `Carried`, a node that can be passed from step to step of a path: what the machine and the walk need of each.

ghost use Rattle.std.specs.Prelude.{◌≡◌, List, IfOk};
ghost use Rattle.std.specs.List.{list_any};
ghost use Rattle.jsonpath_paths.specs.Numbers.{decimal_units};
ghost use Rattle.jsonpath_nodes.specs.compare.Atoms.{seen_with};
ghost use Rattle.jsonpath_nodes.specs.compare.Comparisons.{seen};
ghost use Rattle.jsonpath_nodes.specs.document.Document.{Document};
ghost use Rattle.jsonpath_nodes.specs.place.Location.{Location, is_same};
ghost use Rattle.jsonpath_nodes.specs.place.Mark.{MarksLeadBy, MarksStandAt};
ghost use Rattle.jsonpath_nodes.specs.place.NumbersWhere.{numbers_where};
ghost use Rattle.jsonpath_nodes.specs.place.Order.{once_in_order};
ghost use Rattle.jsonpath_nodes.specs.step.SameMembers.{topmost};
ghost use Rattle.jsonpath_nodes.specs.step.Steps.{all_below, every, flattened, step};

use crate::compare::atom::Atom;
use crate::compare::fraction::Fraction;
use crate::memory::{Halt, NoMemory};
use crate::place::document_order::{in_document_order, indexes_standing_among, topmost_spots};
use crate::place::mark::Mark;
use crate::place::spot::TreeNode;
use crate::step::candidates;
use crate::steps_on_marks::{candidates_below_mark, flattened_from_mark};
use crate::tree::Tree;
use jsonpath_paths::Decimal;
use std::alloc::{AllocError, Global};

/// A trait of nodes (see `Mark`) that an evaluation passes from step to step of a path. Its implementors are each
/// `TreeNode`, a node with its location, and each `Tree`, such as `&Value`, a node without its location. Of nodes
/// without locations, it is not known which are at the same location: a method that needs to know this returns the
/// error `Halt::NeedsLocations`.
///
/// The candidates of a filter with a relative query of at least one segment, such as `@.a`, are the values that it
/// tests: those of the nodes to which it is applied, each array replaced by its items until no array is left.
///
/// ```text
/// let document = Value::Null;
/// let found = Carried::flattened_once(alloc, &[&document]);
/// assert!(rt; matches!(found, Ok(marks) if marks.len() == 1));
/// ```
pub trait Carried: Mark {
    /// An associated type, chosen by the implementor: the type of the numbers that comparisons use, such as `Decimal`.
    type Number: Fraction;
    /// An associated type, chosen by the implementor: the error of evaluating over its nodes, such as `NoMemory`.
    type Stop: From<NoMemory> + From<AllocError>;

    /// A method that implementors provide: the value's kind, with the content of a boolean, a number or a text.
    fn atom(&self) -> Result<Atom<'_, Self::Number>, Self::Stop>
        ensures { IfOk result (λ atom. seen_with Self.Number.fraction atom ≡ seen (Self.content self.now)) };

    /// A method that implementors provide: converts a path's number literal to the number type that comparisons use.
    fn number_of_literal(&self, alloc: Global, literal: Decimal) -> Result<Self::Number, Self::Stop>
        ensures { IfOk result (λ number. Self.Number.fraction number ≡ (decimal_units literal, 18)) };

    /// A method that implementors provide: returns the candidates, that is, the nodes that a filter tests if it is
    /// applied to these nodes and has a relative query of at least one segment, such as `@.a`: these nodes, each array
    /// replaced by its items, again and again until no array is left. Each location is returned once.
    fn flattened_once(alloc: Global, marks: &[Self]) -> Result<Vec<Self>, Self::Stop>
        ensures { IfOk result (λ found. MarksLeadBy Self.located Self.stand Self.content flattened marks.now found.items) };

    /// A method that implementors provide: returns the candidates, that is, the nodes that a filter after `..` tests if
    /// it is applied to these nodes and has a relative query of at least one segment, as in `..[?(@.a)]`: the
    /// descendants of these nodes that are no arrays. Each location is returned once.
    fn candidates_below_once(alloc: Global, marks: &[Self]) -> Result<Vec<Self>, Self::Stop>
        ensures { IfOk result (λ found. MarksLeadBy Self.located Self.stand Self.content (λ doc ls. flattened doc (step doc every (all_below doc ls))) marks.now found.items) };

    /// A method that implementors provide: returns the nodes in document order (parents before children, members by
    /// their names' bytes, items by index), each location once.
    fn marks_in_document_order(alloc: Global, marks: &[Self]) -> Result<Vec<Self>, Self::Stop>
        ensures { IfOk result (λ found. MarksLeadBy Self.located Self.stand Self.content (λ _ ls. once_in_order ls) marks.now found.items) };

    /// A method that implementors provide: in order, returns each node that isn't at or below the last one returned.
    fn topmost_marks(alloc: Global, marks: &[Self]) -> Result<Vec<Self>, Self::Stop>
        ensures { IfOk result (λ found. MarksLeadBy Self.located Self.stand Self.content (λ _ ls. topmost ls) marks.now found.items) };

    /// A method that implementors provide: returns the indexes, from 0 and ascending, of those of the nodes that have
    /// the same location as a node of `others`.
    fn indexes_standing_among(
        alloc: Global,
        marks: &[Self],
        others: &[Self],
    ) -> Result<Vec<usize>, Self::Stop>
        ensures { IfOk result (λ numbers. (doc : Document) (ls ms : List Location) → MarksStandAt Self.located Self.stand Self.content doc ls marks.now → MarksStandAt Self.located Self.stand Self.content doc ms others.now
            → numbers.items ≡ numbers_where (λ l. list_any (is_same l) (once_in_order ms)) 0 ls) };
}

/// Implements `Carried` (nodes passed from step to step) for each type that is a `Tree`: nodes without their locations.
impl<T: Tree> Carried for T {
    type Number = T::Number;

    type Stop = Halt<T::Error>;

    #[inline(always)]
    fn atom(&self) -> Result<Atom<'_, T::Number>, Halt<T::Error>> {
        match Tree::atom(self) {
            Ok(atom) => Ok(atom),
            Err(error) => Err(Halt::Refused(error)),
        }
    }

    fn number_of_literal(
        &self,
        alloc: Global,
        literal: Decimal,
    ) -> Result<T::Number, Halt<T::Error>> {
        match Tree::number_of_literal(self, alloc, literal) {
            Ok(number) => Ok(number),
            Err(error) => Err(Halt::Refused(error)),
        }
    }

    fn flattened_once(alloc: Global, marks: &[T]) -> Result<Vec<T>, Halt<T::Error>> {
        match marks {
            [] => Ok(Vec::new(alloc)),
            [mark] => Ok(flattened_from_mark(alloc, mark)?),
            _ => Err(Halt::NeedsLocations),
        }
    }

    fn candidates_below_once(alloc: Global, marks: &[T]) -> Result<Vec<T>, Halt<T::Error>> {
        match marks {
            [] => Ok(Vec::new(alloc)),
            [mark] => Ok(candidates_below_mark(alloc, mark)?),
            _ => Err(Halt::NeedsLocations),
        }
    }

    fn marks_in_document_order(_alloc: Global, _marks: &[T]) -> Result<Vec<T>, Halt<T::Error>> {
        Err(Halt::NeedsLocations)
    }

    fn topmost_marks(_alloc: Global, _marks: &[T]) -> Result<Vec<T>, Halt<T::Error>> {
        Err(Halt::NeedsLocations)
    }

    fn indexes_standing_among(
        _alloc: Global,
        _marks: &[T],
        _others: &[T],
    ) -> Result<Vec<usize>, Halt<T::Error>> {
        Err(Halt::NeedsLocations)
    }
}

/// Implements the trait `Carried` (a node that is passed from step to step) for `TreeNode`, which has its location.
impl<T: Tree> Carried for TreeNode<T> {
    type Number = T::Number;

    type Stop = T::Error;

    #[inline(always)]
    fn atom(&self) -> Result<Atom<'_, T::Number>, T::Error> {
        Tree::atom(&self.value)
    }

    #[inline(always)]
    fn number_of_literal(&self, alloc: Global, literal: Decimal) -> Result<T::Number, T::Error> {
        Tree::number_of_literal(&self.value, alloc, literal)
    }

    fn flattened_once(alloc: Global, marks: &[TreeNode<T>]) -> Result<Vec<TreeNode<T>>, T::Error> {
        Ok(candidates::flattened_once(alloc, marks)?)
    }

    fn candidates_below_once(
        alloc: Global,
        marks: &[TreeNode<T>],
    ) -> Result<Vec<TreeNode<T>>, T::Error> {
        Ok(candidates::candidates_below_once(alloc, marks)?)
    }

    fn marks_in_document_order(
        alloc: Global,
        marks: &[TreeNode<T>],
    ) -> Result<Vec<TreeNode<T>>, T::Error> {
        Ok(in_document_order(alloc, marks)?)
    }

    fn topmost_marks(alloc: Global, marks: &[TreeNode<T>]) -> Result<Vec<TreeNode<T>>, T::Error> {
        Ok(topmost_spots(alloc, marks)?)
    }

    fn indexes_standing_among(
        alloc: Global,
        marks: &[TreeNode<T>],
        others: &[TreeNode<T>],
    ) -> Result<Vec<usize>, T::Error> {
        Ok(indexes_standing_among(alloc, marks, others)?)
    }
}
