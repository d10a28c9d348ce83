//! Conditions of filters, decided on the exact tree by members of the candidate. `text` is the path's text, to which
//! the spans of names and quoted texts belong.

ghost use Rattle.std.specs.Prelude.{◌≡◌, ◌∷◌, [], map, true, false, option_map, option_to_list, IfSome};
ghost use Rattle.json.specs.Value.{value_view};
ghost use Rattle.jsonpath_paths.specs.tree.Tree.{no_steps};
ghost use Rattle.jsonpath_paths.specs.tree.View.{path_of, inner_of, condition_of, term_of};
ghost use Rattle.jsonpath_nodes.specs.compare.Atoms.{seen_by};
ghost use Rattle.jsonpath_select.specs.Parts.{literals, has_pair, is_pair, joined};
ghost use Rattle.jpath_core.specs.AlongExactTree.{seen_exact, key_of, last_key, member_key, member_of, is_member_term, is_simple_term, is_simple, values_exact, holds_exact};

use crate::exact_tree::exact_numbers::{decimal_of_number_text, whole_number};
use json::Value as Exact;
use jsonpath_nodes::{Atom, holds_atoms};
use jsonpath_paths::{Condition, FilterToken, Inner, ParseToken, ParserNode, StrRange, Term};
use jsonpath_select::borrowed_name_at;

// Whether a condition is of members of the candidate, as `@.a`, alone: each comparison has one on one side, and on the
// other one more or a literal.
pub(crate) fn is_on_members_alone(condition: &Condition) -> bool
    ensures { result ≡ is_simple (condition_of condition.now) }
{
    match condition {
        Condition::Lone(path) => member_name_span(path).is_some(),
        Condition::Compare(left, _, right) => {
            is_member_or_literal(left)
                && is_member_or_literal(right)
                && (is_candidate_member(left) || is_candidate_member(right))
        }
        Condition::Join(_, left, right) => is_on_members_alone(left) && is_on_members_alone(right),
    }
}

// Whether a side of a comparison is a member of the candidate, as `@.a`, or a literal.
fn is_member_or_literal(term: &Term) -> bool
    ensures { result ≡ is_simple_term (term_of term.now) }
{
    match term {
        Term::Path(path) => member_name_span(path).is_some(),
        Term::Literal(_) => true,
    }
}

// Whether a side of a comparison is a member of the candidate, as `@.a`.
fn is_candidate_member(term: &Term) -> bool
    ensures { result ≡ is_member_term (term_of term.now) }
{
    match term {
        Term::Path(path) => member_name_span(path).is_some(),
        Term::Literal(_) => false,
    }
}

// The span of the name in a path that is `@` and one name, as `@.a`; None for any other path.
fn member_name_span(path: &ParserNode) -> Option<StrRange>
    ensures { result ≡ member_key (path_of path.now) }
{
    if path.absolute {
        return None;
    }
    match path.steps.as_slice() {
        [step] if !step.leaves => span_of_name_step(&step.inner),
        _ => None,
    }
}

// The span of the name in a step that is one name; None for any other step.
fn span_of_name_step(inner: &Inner) -> Option<StrRange>
    ensures { result ≡ last_key (inner_of inner.now) no_steps }
{
    match inner {
        Inner::Token(token) => token_name_span(token),
        Inner::Filter(_) => None,
    }
}

// The span of the name, if the token is one name; else None.
fn token_name_span(token: &ParseToken) -> Option<StrRange>
    ensures { result ≡ key_of token.now }
{
    match token {
        ParseToken::Key(span) => Some(*span),
        _ => None,
    }
}

// Whether a condition holds at a value; None where the exact tree alone can't tell, as for a name with a backslash or
// a number of too many digits. `has_fraction` is set where it compares a number that is no whole number of 64 bits.
pub(crate) fn holds_at_value(
    text: &str,
    condition: &Condition,
    value: &Exact<'_>,
    has_fraction: &mut bool,
) -> Option<bool>
    ensures stays { has_fraction.new ≡ false → has_fraction.old ≡ false }
    ensures decides { has_fraction.new ≡ false → IfSome result (λ b. b ≡ holds_exact text.now (condition_of condition.now) (value_view value.now)) }
{
    match condition {
        Condition::Lone(path) => Some(member_named_by_path(text, path, value)?.is_some()),
        Condition::Compare(left, op, right) => {
            let left = atom_of_side(text, left, value, has_fraction)?;
            let right = atom_of_side(text, right, value, has_fraction)?;
            Some(sides_satisfy_comparison(*op, left, right))
        }
        Condition::Join(op, left, right) => {
            let left = holds_at_value(text, left, value, has_fraction)?;
            let right = holds_at_value(text, right, value, has_fraction)?;
            Some(join_truths(*op, left, right))
        }
    }
}

// Whether `&&` or `||` holds, from whether its sides hold; false for a comparison.
fn join_truths(op: FilterToken, left: bool, right: bool) -> bool
    ensures { result ≡ joined op left right }
{
    match op {
        FilterToken::And => left && right,
        FilterToken::Or => left || right,
        _ => false,
    }
}

// The member of the value that a path of one name, as `@.a`, leads to: `Some(None)` if there is none, and `None` where
// the name has a backslash, so that it can't be told here.
fn member_named_by_path<'v, 'a>(
    text: &str,
    path: &ParserNode,
    value: &'v Exact<'a>,
) -> Option<Option<&'v Exact<'a>>>
    ensures { IfSome result (λ member. option_map (λ v. value_view v.now) member ≡ member_of text.now (path_of path.now) (value_view value.now)) }
{
    match member_name_span(path) {
        Some(span) => Some(value.get(borrowed_name_at(text, span)?)),
        None => Some(None),
    }
}

// What a comparison sees of a side: `Some(None)` where its member is missing, and `None` where that can't be told here.
fn atom_of_side<'v>(
    text: &'v str,
    term: &Term,
    value: &'v Exact<'_>,
    has_fraction: &mut bool,
) -> Option<Option<Atom<'v>>>
    ensures stays { has_fraction.new ≡ false → has_fraction.old ≡ false }
    ensures sees { has_fraction.new ≡ false → IfSome result (λ atom. map seen_by (option_to_list atom) ≡ values_exact text.now (term_of term.now) (value_view value.now)) }
{
    match term {
        Term::Path(path) => match member_named_by_path(text, path, value)? {
            Some(member) => Some(Some(atom_of_value(member, has_fraction)?)),
            None => Some(None),
        },
        Term::Literal(token) => Some(Some(atom_of_literal(text, token)?)),
    }
}

// What a comparison sees of a literal; None where it is a text with a backslash.
fn atom_of_literal<'v>(text: &'v str, token: &ParseToken) -> Option<Atom<'v>>
    ensures { IfSome result (λ atom. seen_by atom ∷ [] ≡ literals text.now token.now) }
{
    match token {
        ParseToken::Number(number) => Some(Atom::Number(*number)),
        ParseToken::Bool(truth) => Some(Atom::Bool(*truth)),
        ParseToken::Key(span) => Some(Atom::Text(borrowed_name_at(text, *span)?)),
        _ => None,
    }
}

// What a comparison sees of a value, a number exactly; None where that has an exponent or too many digits.
// `has_fraction` is set where it is a number that is no whole number of 64 bits.
fn atom_of_value<'v>(value: &'v Exact<'_>, has_fraction: &mut bool) -> Option<Atom<'v>>
    ensures stays { has_fraction.new ≡ false → has_fraction.old ≡ false }
    ensures sees { has_fraction.new ≡ false → IfSome result (λ atom. seen_by atom ≡ seen_exact (value_view value.now)) }
{
    match value {
        Exact::Null => Some(Atom::Null),
        Exact::Bool(truth) => Some(Atom::Bool(*truth)),
        Exact::String(text) => Some(Atom::Text(*text)),
        Exact::Array(_) => Some(Atom::List),
        Exact::Object(_) => Some(Atom::Object),
        Exact::Number(digits) => match whole_number(*digits) {
            Some(whole) => Some(Atom::Number(whole)),
            None => {
                *has_fraction = true;
                Some(Atom::Number(decimal_of_number_text(*digits)?))
            }
        },
    }
}

// Whether the sides satisfy a comparison; a side that is missing satisfies none.
fn sides_satisfy_comparison(
    op: FilterToken,
    left: Option<Atom<'_>>,
    right: Option<Atom<'_>>,
) -> bool
    ensures { result ≡ has_pair op (map seen_by (option_to_list left.entry)) (map seen_by (option_to_list right.entry)) }
{
    match (left, right) {
        (Some(left), Some(right)) => atoms_satisfy_comparison(op, &left, &right),
        _ => false,
    }
}

// Whether two sides that are there satisfy a comparison; false for `&&` and `||`.
fn atoms_satisfy_comparison(op: FilterToken, left: &Atom<'_>, right: &Atom<'_>) -> bool
    ensures { result ≡ is_pair op (seen_by left.now) (seen_by right.now) }
{
    match op {
        FilterToken::And | FilterToken::Or => false,
        _ => holds_atoms(op, left, right),
    }
}
