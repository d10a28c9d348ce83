//! Paths that are evaluated on the exact tree itself, their lines written or their matches counted: paths of names,
//! `[*]` on arrays, and filters on members of a candidate. The order of members doesn't matter to them.

ghost use Rattle.std.specs.Prelude.{◌≡◌, ◌∷◌, [], true, false, Some, OnOk, IfOk, IfSome};
ghost use Rattle.json.specs.Tree.{HasNumbers, ItemsHaveNumbers};
ghost use Rattle.json.specs.Value.{value_view, items_view};
ghost use Rattle.serde_json.specs.Data.{Data};
ghost use Rattle.jsonpath_paths.specs.Spelling.{Spells};
ghost use Rattle.jsonpath_paths.specs.tree.Tree.{Path, plain, filter as with_filter};
ghost use Rattle.jsonpath_paths.specs.tree.View.{condition_of, inner_of, steps_of_list};
ghost use Rattle.jsonpath_paths.specs.declared.token.tokens.ParseToken.TheVariants as token;
ghost use Rattle.json_trees.specs.Exact.{IsImageOf};
ghost use Rattle.jpath_core.specs.AlongExactTree.{after, are_straight, is_straight, is_straight_inner, list_of, next, rest_from, walk, walk_all, written, AddsStraight};

use crate::exact_tree::exact_conditions::{holds_at_value, is_on_members_alone};
use crate::output::matches::add_value_line;
use jpath_texts::{Line, Query};
use json::Value as Exact;
use jsonpath_nodes::laws::{apart_locations_meet_candidates_once, steps_keep_locations_apart};
use jsonpath_paths::laws::one_tree_per_text;
use jsonpath_paths::{Condition, Inner, ParseToken, ParserStep, StrRange};
use jsonpath_select::borrowed_name_at;
use std::alloc::{AllocError, Global};
use std::mem;

/// The result of evaluating a path on an exact tree, the tree of a JSON text with each number as it is written.
#[derive(Clone, Copy, Debug, Drop)]
pub struct ExactOutcome {
    /// A field of the result of evaluating a path: how many values the path selects in the document.
    pub count: usize,
    /// A field of the result of evaluating a path: whether a filter compared a number that is not an integer of 64
    /// bits. Filters compare such numbers exactly, too.
    pub has_fraction: bool,
}

/// Whether a path is so simple that on most documents it can be evaluated on the exact tree, which is the tree of the
/// JSON text with each number as it is written. Such a path begins at the root and has no `..`. It has only single
/// names, `[*]`, and filters whose conditions use only literals and members of the value that the filter tests, such as
/// `@.a`. For other paths, and for such a path on the other documents, use `add_lines_for_path`.
pub fn may_answer_by_exact_tree(query: &Query<'_>) -> bool
    ensures { (p : Path) → Spells query.now.path p → result ≡ is_straight p }
{
    one_tree_per_text();
    let path = query.path();
    let tree = path.tree();
    tree.absolute && are_straight(tree.steps.as_slice())
}

// Whether the steps are single names, `[*]` and filters on members of the candidate, none behind `..`.
fn are_straight(steps: &[ParserStep]) -> bool
    ensures { result ≡ are_straight (steps_of_list steps.now) }
{
    let mut left = steps;
    while let Some((step, rest)) = left.split_first() {
        if step.leaves || !is_straight_inner(&step.inner) {
            return false;
        }
        left = rest;
    }
    true
}

// Whether what stands in a step is a single name, `[*]` or a filter on members of the candidate alone.
fn is_straight_inner(inner: &Inner) -> bool
    ensures { result ≡ is_straight_inner (inner_of inner.now) }
{
    match inner {
        Inner::Token(ParseToken::Key(_) | ParseToken::All) => true,
        Inner::Token(_) => false,
        Inner::Filter(condition) => is_on_members_alone(condition),
    }
}

/// Evaluates the path `query` on an exact tree, the tree of a JSON text with each number as it is written. Appends a
/// line with each selected value to `out`, in the order in which the path finds them. `line` describes these lines (its
/// field `shown` is not used); if `line` is `None`, nothing is appended.
///
/// Returns how many values the path selects, and whether a filter compared a number that is no integer of 64 bits.
/// Returns `None` if this path can't be evaluated on this tree; then use `add_lines_for_path`. The only error is out of
/// memory. After `None` or the error, `out` may end with a part of the lines.
pub fn add_lines_by_exact_tree(
    alloc: Global,
    exact: &Exact<'_>,
    query: &Query<'_>,
    line: Option<&Line<'_>>,
    out: &mut Vec<u8>,
) -> Result<Option<ExactOutcome>, AllocError>
    requires { HasNumbers (value_view exact.now) }
    ensures { IfOk result (λ o. IfSome o (λ found. found.has_fraction ≡ false → (d : Data) (p : Path) → IsImageOf (value_view exact.now) d → Spells query.now.path p
        → AddsStraight query.now.path line.entry (value_view exact.now) d out.old.items out.new.items found.count p)) }
{
    one_tree_per_text();
    steps_keep_locations_apart();
    apart_locations_meet_candidates_once();
    let path = query.path();
    let tree = path.tree();
    if !tree.absolute {
        return Ok(None);
    }
    let along = ExactEvaluator {
        alloc,
        text: path.text(),
        line,
    };
    let mut lines = Lines {
        bytes: mem::replace(out, Vec::new(alloc)),
        count: 0,
        has_fraction: false,
    };
    let added = along.add_lines_from_value(tree.steps.as_slice(), exact, &mut lines);
    *out = lines.bytes;
    if !added? {
        return Ok(None);
    }
    Ok(Some(ExactOutcome {
        count: lines.count,
        has_fraction: lines.has_fraction,
    }))
}

// What is written so far.
#[derive(Drop)]
struct Lines {
    bytes: Vec<u8>,
    count: usize,
    has_fraction: bool,
}

// A path's text, and how the lines of its values are written. Each call answers true if it was done, false where that
// can't be done on the exact tree alone.
#[derive(Clone, Copy)]
struct ExactEvaluator<'w> {
    alloc: Global,
    text: &'w str,
    line: Option<&'w Line<'w>>,
}

impl<'w> ExactEvaluator<'w> {
    // Writes and counts the values to which the steps lead from a value. False where that can't be done.
    #[cycle(along)]
    fn add_lines_from_value(
        &self,
        steps: &[ParserStep],
        value: &Exact<'_>,
        lines: &mut Lines,
    ) -> Result<bool, AllocError>
        requires { HasNumbers (value_view value.now) }
        ensures stays { OnOk result (lines.new.has_fraction ≡ false → lines.old.has_fraction ≡ false) }
        ensures adds { IfOk result (λ goes. goes ≡ true → lines.new.has_fraction ≡ false
            → Some (written lines.new) ≡ after self.now.line lines.old (walk self.now.text.now (steps_of_list steps.now) (value_view value.now))) }
    {
        match steps.split_first() {
            Some((step, rest)) => {
                if step.leaves {
                    return Ok(false);
                }
                match &step.inner {
                    Inner::Token(ParseToken::Key(span)) => self.add_lines_from_member(
                        *span, rest, value, lines,
                    ),
                    Inner::Token(ParseToken::All) => self.add_lines_from_items(rest, value, lines),
                    Inner::Token(_) => Ok(false),
                    Inner::Filter(condition) => self.add_lines_from_candidates(
                        condition, rest, value, lines,
                    ),
                }
            }
            None => self.add_line_and_count(value, lines),
        }
    }

    // Writes the line of a value where the path ends, if lines are asked for, and counts it. False where the count
    // doesn't fit.
    fn add_line_and_count(&self, value: &Exact<'_>, lines: &mut Lines) -> Result<bool, AllocError>
        requires { HasNumbers (value_view value.now) }
        ensures stays { OnOk result (lines.new.has_fraction ≡ false → lines.old.has_fraction ≡ false) }
        ensures adds { IfOk result (λ goes. goes ≡ true
            → Some (written lines.new) ≡ after self.now.line lines.old (Some (value_view value.now ∷ []))) }
    {
        if let Some(line) = self.line {
            add_value_line(self.alloc, value, line, &mut lines.bytes)?;
        }
        match lines.count.checked_add(1) {
            Some(count) => {
                lines.count = count;
                Ok(true)
            }
            None => Ok(false),
        }
    }

    // Writes and counts what the steps lead to from the member of this name, if there is one. False where that
    // can't be done, as for a name with a backslash.
    #[cycle(along)]
    fn add_lines_from_member(
        &self,
        name: StrRange,
        rest: &[ParserStep],
        value: &Exact<'_>,
        lines: &mut Lines,
    ) -> Result<bool, AllocError>
        requires { HasNumbers (value_view value.now) }
        ensures stays { OnOk result (lines.new.has_fraction ≡ false → lines.old.has_fraction ≡ false) }
        ensures adds { IfOk result (λ goes. goes ≡ true → lines.new.has_fraction ≡ false
            → Some (written lines.new) ≡ after self.now.line lines.old (next self.now.text.now (steps_of_list rest.now) (plain (token.Key name)) (value_view value.now))) }
    {
        match borrowed_name_at(self.text, name) {
            Some(name) => match value.get(name) {
                Some(member) => self.add_lines_from_value(rest, member, lines),
                None => Ok(true),
            },
            None => Ok(false),
        }
    }

    // Writes and counts what the steps lead to from each item of an array. False where that can't be done, as for an
    // object, whose members go by the order of their names.
    #[cycle(along)]
    fn add_lines_from_items(
        &self,
        rest: &[ParserStep],
        value: &Exact<'_>,
        lines: &mut Lines,
    ) -> Result<bool, AllocError>
        requires { HasNumbers (value_view value.now) }
        ensures stays { OnOk result (lines.new.has_fraction ≡ false → lines.old.has_fraction ≡ false) }
        ensures adds { IfOk result (λ goes. goes ≡ true → lines.new.has_fraction ≡ false
            → Some (written lines.new) ≡ after self.now.line lines.old (next self.now.text.now (steps_of_list rest.now) (plain token.All) (value_view value.now))) }
    {
        match value {
            Exact::Array(items) => self.add_lines_from_each_kept(None, rest, items, lines),
            Exact::Object(_) => Ok(false),
            _ => Ok(true),
        }
    }

    // Writes and counts what the steps lead to from each of these items, or from those at which a condition holds.
    // False where that can't be done.
    #[cycle(along)]
    fn add_lines_from_each_kept(
        &self,
        kept: Option<&Condition>,
        rest: &[ParserStep],
        items: &Vec<Exact<'_>>,
        lines: &mut Lines,
    ) -> Result<bool, AllocError>
        requires { ItemsHaveNumbers (items_view items.now.items) }
        ensures stays { OnOk result (lines.new.has_fraction ≡ false → lines.old.has_fraction ≡ false) }
        ensures adds { IfOk result (λ goes. goes ≡ true → lines.new.has_fraction ≡ false
            → Some (written lines.new) ≡ after self.now.line lines.old (walk_all (rest_from self.now.text.now (steps_of_list rest.now) kept.entry) (list_of (items_view items.now.items)))) }
    {
        for item in items {
            if !self.add_lines_if_kept(kept, rest, item, lines)? {
                return Ok(false);
            }
        }
        Ok(true)
    }

    // Writes and counts what the steps lead to from the candidates of a filter at which its condition holds: the items
    // of an array, or else the value itself. False where that can't be done.
    #[cycle(along)]
    fn add_lines_from_candidates(
        &self,
        condition: &Condition,
        rest: &[ParserStep],
        value: &Exact<'_>,
        lines: &mut Lines,
    ) -> Result<bool, AllocError>
        requires { HasNumbers (value_view value.now) }
        ensures stays { OnOk result (lines.new.has_fraction ≡ false → lines.old.has_fraction ≡ false) }
        ensures adds { IfOk result (λ goes. goes ≡ true → lines.new.has_fraction ≡ false
            → Some (written lines.new) ≡ after self.now.line lines.old (next self.now.text.now (steps_of_list rest.now) (with_filter (condition_of condition.now)) (value_view value.now))) }
    {
        if !is_on_members_alone(condition) {
            return Ok(false);
        }
        match value {
            Exact::Array(items) => self.add_lines_from_each_kept(
                Some(condition),
                rest,
                items,
                lines,
            ),
            _ => self.add_lines_if_kept(Some(condition), rest, value, lines),
        }
    }

    // Writes and counts what the steps lead to from a value, if there is no condition or if it holds there. False where
    // that can't be done, as for a condition at an array, which is no candidate itself.
    #[cycle(along)]
    fn add_lines_if_kept(
        &self,
        kept: Option<&Condition>,
        rest: &[ParserStep],
        value: &Exact<'_>,
        lines: &mut Lines,
    ) -> Result<bool, AllocError>
        requires { HasNumbers (value_view value.now) }
        ensures stays { OnOk result (lines.new.has_fraction ≡ false → lines.old.has_fraction ≡ false) }
        ensures adds { IfOk result (λ goes. goes ≡ true → lines.new.has_fraction ≡ false
            → Some (written lines.new) ≡ after self.now.line lines.old (rest_from self.now.text.now (steps_of_list rest.now) kept.entry (value_view value.now))) }
    {
        let Some(condition) = kept else {
            return self.add_lines_from_value(rest, value, lines);
        };
        if let Exact::Array(_) = value {
            return Ok(false);
        }
        match holds_at_value(self.text, condition, value, &mut lines.has_fraction) {
            Some(true) => self.add_lines_from_value(rest, value, lines),
            Some(false) => Ok(true),
            None => Ok(false),
        }
    }
}
