//! The syntax tree of a path.

ghost use Rattle.std.specs.Prelude.{◌≡◌};
ghost use Rattle.jsonpath_paths.specs.tree.View.{path_of, steps_of_list};
ghost use Rattle.jsonpath_paths.specs.tree.Tree.{path};

use crate::token::tokens::{FilterToken, ParseToken};

/// A path's syntax tree. The path begins at the document's root (`$`) or, in a filter, at the tested value (`@`).
///
/// ```text
/// let path = PathParser::compile(alloc, "$.a[0]")?;
/// assert!(rt; path.tree().absolute);
/// assert!(rt; path.tree().steps.len() == 2);
/// ```
#[cycle(tree)]
#[derive(Drop)]
pub struct ParserNode {
    /// Whether the path begins with `$`, the document's root; else it begins with `@`, the value that a filter tests.
    pub absolute: bool,
    /// The steps of the path, in the order of the path text; none for `$` or `@` alone.
    pub steps: Vec<ParserStep>,
}

/// One step (segment) of a path in its syntax tree, such as `.a`, `[0]`, `..*` or `[?(@.a)]`.
///
/// ```text
/// let path = PathParser::compile(alloc, "$..[0]")?;
/// let first = path.tree().steps.get(0);
/// assert!(rt; first.is_some_and(|it| it.leaves && it.bracket));
/// ```
#[cycle(tree)]
#[derive(Drop)]
pub struct ParserStep {
    /// A field of a path's step: whether the step begins with `..`. Such a step selects among the children of each node
    /// that the part of the path before it selects, and among the children of all descendants of these nodes.
    pub leaves: bool,
    /// A field of a path's step in the syntax tree: whether the step is written in brackets, such as `['a']`.
    pub bracket: bool,
    /// What the step selects: names, indexes, a slice, all children, or what meets a filter's condition.
    pub inner: Inner,
}

/// What a step of a path selects, given by one token or by a filter.
///
/// ```text
/// let path = PathParser::compile(alloc, "$.*")?;
/// let is_all = |it: &ParserStep| matches!(it.inner, Inner::Token(ParseToken::All));
/// assert!(rt; path.tree().steps.get(0).is_some_and(is_all));
/// ```
#[cycle(tree)]
#[derive(Drop)]
pub enum Inner {
    /// What a step of a path selects, given as one token: one name or several, one index or several, a slice, or all
    /// children. A step that is a filter is not given so.
    Token(ParseToken),
    /// What a step of a path selects, if it is a filter: those of the tested values that meet this condition. Without
    /// `..` before the filter, the tested values are those that the steps before it selected; with `..`, they are what
    /// `..*` selects from those. But if the condition has a path (inner filters don't count) that begins with `@` and
    /// has a step, such as `@.a`, arrays are not tested. In place of an array its items are tested; in place of an item
    /// that is an array, the items of that item are tested, and so on. Each location is then tested only once.
    Filter(Condition),
}

/// The condition of a filter, as a tree. It does not record the parentheses of the text.
///
/// ```text
/// let path = PathParser::compile(alloc, "$[?(@.isbn)]")?;
/// let is_lone = |it: &ParserStep| matches!(it.inner, Inner::Filter(Condition::Lone(_)));
/// assert!(rt; path.tree().steps.get(0).is_some_and(is_lone));
/// ```
#[cycle(tree)]
#[derive(Drop)]
pub enum Condition {
    /// A filter's condition that is a path alone, as in `[?(@.a)]`: it holds if the path selects something.
    Lone(ParserNode),
    /// A condition of a filter: a comparison, given by its left side, its operator and its right side.
    Compare(Term, FilterToken, Term),
    /// A filter's condition: two conditions, joined by `&&` or `||`. Both group to the right: `a && b || c` means
    /// `a && (b || c)`.
    Join(FilterToken, Box<Condition>, Box<Condition>),
}

/// One side of a comparison in a filter: a path or a literal.
///
/// ```text
/// let path = PathParser::compile(alloc, "$[?(@.price < 10)]")?;
/// let is_met = |it: &ParserStep| match &it.inner {
///     Inner::Filter(Condition::Compare(Term::Path(_), _, Term::Literal(_))) => true,
///     _ => false,
/// };
/// assert!(rt; path.tree().steps.get(0).is_some_and(is_met));
/// ```
#[cycle(tree)]
#[derive(Drop)]
pub enum Term {
    /// A side of a comparison in a filter: a path, whose selected values are compared.
    Path(ParserNode),
    /// A side of a filter's comparison: a literal, as a token: a `Key` for a quoted text, a `Number` or a `Bool`.
    Literal(ParseToken),
}

// The path with these steps: from the root if it is absolute, else from the candidate of a filter.
pub(crate) fn node_of_steps(absolute: bool, steps: Vec<ParserStep>) -> ParserNode
    ensures { path_of result ≡ path absolute (steps_of_list steps.items) }
{
    ParserNode { absolute, steps }
}
