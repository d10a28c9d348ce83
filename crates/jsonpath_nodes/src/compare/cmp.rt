//! Which pairs of values satisfy a comparison.

ghost use Rattle.std.specs.Prelude.{◌≡◌, Some, IsSome};
ghost use Rattle.serde_json.specs.View.{view};
ghost use Rattle.jsonpath_nodes.specs.document.OfData.{document_of};
ghost use Rattle.jsonpath_paths.specs.Numbers.{decimal_units};
ghost use Rattle.jsonpath_nodes.specs.compare.Atoms.{seen_by, seen_with, comparison_of};
ghost use Rattle.jsonpath_nodes.specs.compare.Comparisons.{Comparison, equal, not_equal, less, less_or_equal, greater, greater_or_equal, truth, decimal, text, seen, pair, is_satisfied, is_not_equal};

use crate::compare::atom::Atom;
use crate::compare::fraction::Fraction;
use jsonpath_paths::{Decimal, FilterToken};
use serde_json::Value;
use std::cmp::Ordering;

/// A trait that the types for the six comparisons implement, such as `CmpLt` for `<`. Its methods return whether the
/// comparison holds between two booleans, numbers or texts, or between values of different kinds. It is kept for code
/// written for the Rust crate `jsonpath_lib`; conditions of paths are decided by `holds_by_fractions` or `holds_atoms`.
///
/// ```text
/// assert!(rt; CmpLt.cmp_bool(false, true));
/// assert!(rt; !CmpLt.default());
/// ```
pub trait Cmp {
    ghost comparison: { Comparison };

    /// Whether this comparison, such as `<`, holds between two booleans; false comes before true.
    fn cmp_bool(&self, left: bool, right: bool) -> bool
        ensures { result ≡ pair comparison (truth left) (truth right) };

    /// Whether this comparison, such as `<`, holds between two numbers, which are compared exactly.
    fn cmp_num(&self, left: Decimal, right: Decimal) -> bool
        ensures { result ≡ pair comparison (decimal (decimal_units left)) (decimal (decimal_units right)) };

    /// Whether this comparison, such as `<`, holds between two texts, which are compared by their bytes.
    fn cmp_string(&self, left: &str, right: &str) -> bool
        ensures { result ≡ pair comparison (text left.now) (text right.now) };

    /// Whether this comparison holds between two values of different kinds, such as a text and a number: true for `!=`
    /// alone. Named as in the Rust crate `jsonpath_lib`.
    fn default(&self) -> bool
        ensures { result ≡ is_not_equal comparison };
}

// One of the six comparisons, by the token that writes it.
pub trait Compares {
    ghost comparison: { Comparison };

    fn token(&self) -> FilterToken
        ensures { comparison_of result ≡ Some comparison };
}

impl<C: Compares> Cmp for C {
    ghost comparison = { C.comparison };

    fn cmp_bool(&self, left: bool, right: bool) -> bool {
        holds_atoms(self.token(), &Atom::Bool(left), &Atom::Bool(right))
    }

    fn cmp_num(&self, left: Decimal, right: Decimal) -> bool {
        holds_atoms(self.token(), &Atom::Number(left), &Atom::Number(right))
    }

    fn cmp_string(&self, left: &str, right: &str) -> bool {
        holds_atoms(self.token(), &Atom::Text(left), &Atom::Text(right))
    }

    fn default(&self) -> bool {
        self.token() == FilterToken::NotEqual
    }
}

/// A type for the comparison `==`, with the trait `Cmp`'s methods: `cmp_string` returns whether two texts are equal.
///
/// ```text
/// assert!(rt; CmpEq.cmp_string("a", "a"));
/// ```
#[derive(Clone, Copy, Debug)]
pub struct CmpEq;

impl Compares for CmpEq {
    ghost comparison = { equal };

    #[inline(always)]
    fn token(&self) -> FilterToken {
        FilterToken::Equal
    }
}

/// A type for the comparison `!=`, with the methods of the trait `Cmp`. `default` returns whether a comparison holds
/// between values of different kinds, such as a text and a number: true for `!=`, false for the other five.
///
/// ```text
/// assert!(rt; CmpNe.default());
/// ```
#[derive(Clone, Copy, Debug)]
pub struct CmpNe;

impl Compares for CmpNe {
    ghost comparison = { not_equal };

    #[inline(always)]
    fn token(&self) -> FilterToken {
        FilterToken::NotEqual
    }
}

/// A type for the comparison `>`, with the trait `Cmp`'s methods: `cmp_string` compares two texts by their bytes.
///
/// ```text
/// assert!(rt; CmpGt.cmp_string("b", "a"));
/// ```
#[derive(Clone, Copy, Debug)]
pub struct CmpGt;

impl Compares for CmpGt {
    ghost comparison = { greater };

    #[inline(always)]
    fn token(&self) -> FilterToken {
        FilterToken::Greater
    }
}

/// A type for the comparison `>=`, with the trait `Cmp`'s methods: `cmp_bool` has true greater than false.
///
/// ```text
/// assert!(rt; CmpGe.cmp_bool(true, true));
/// ```
#[derive(Clone, Copy, Debug)]
pub struct CmpGe;

impl Compares for CmpGe {
    ghost comparison = { greater_or_equal };

    #[inline(always)]
    fn token(&self) -> FilterToken {
        FilterToken::GreaterOrEqual
    }
}

/// A type for comparison by `<`, with the trait `Cmp`: `cmp_num` returns whether its first number is the lesser one.
///
/// ```text
/// assert!(rt; CmpLt.cmp_num(Decimal::of_i64(-1), Decimal::of_i64(0)));
/// ```
#[derive(Clone, Copy, Debug)]
pub struct CmpLt;

impl Compares for CmpLt {
    ghost comparison = { less };

    #[inline(always)]
    fn token(&self) -> FilterToken {
        FilterToken::Little
    }
}

/// A type for the comparison `<=`, with the trait `Cmp`'s methods: `cmp_string` compares two texts by their bytes.
///
/// ```text
/// assert!(rt; CmpLe.cmp_string("a", "b"));
/// ```
#[derive(Clone, Copy, Debug)]
pub struct CmpLe;

impl Compares for CmpLe {
    ghost comparison = { less_or_equal };

    #[inline(always)]
    fn token(&self) -> FilterToken {
        FilterToken::LittleOrEqual
    }
}

// Whether a comparison holds between two values of one kind that stand in this order.
#[inline]
fn is_satisfied_by_order(op: FilterToken, order: Ordering) -> bool
    requires { IsSome (comparison_of op) }
    ensures { (o : Comparison) → comparison_of op ≡ Some o → result ≡ is_satisfied o order }
{
    match op {
        FilterToken::Equal => order.is_eq(),
        FilterToken::NotEqual => order.is_ne(),
        FilterToken::Little => order.is_lt(),
        FilterToken::LittleOrEqual => order.is_le(),
        FilterToken::Greater => order.is_gt(),
        _ => order.is_ge(),
    }
}

/// Whether `left op right` holds for two `Atom`s, the parts of values that comparisons use, with numbers of any type
/// `N`. Booleans, numbers and texts compare within their kind: false before true, numbers exactly, texts by bytes. For
/// two nulls only `==` holds; for other pairs only `!=`. Precondition: `op` is a comparison, not `And` or `Or`.
///
/// ```text
/// let (seven, eight) = (Atom::Number(Decimal::of_u64(7)), Atom::Number(Decimal::of_u64(8)));
/// assert!(rt; holds_by_fractions(FilterToken::Little, &seven, &eight));
/// ```
#[inline]
pub fn holds_by_fractions<N: Fraction>(
    op: FilterToken,
    left: &Atom<'_, N>,
    right: &Atom<'_, N>,
) -> bool
    requires { IsSome (comparison_of op) }
    ensures { (o : Comparison) → comparison_of op ≡ Some o → result ≡ pair o (seen_with N.fraction left.now) (seen_with N.fraction right.now) }
{
    match (left, right) {
        (Atom::Bool(a), Atom::Bool(b)) => is_satisfied_by_order(op, a.cmp(b)),
        (Atom::Number(a), Atom::Number(b)) => is_satisfied_by_order(op, a.cmp(b)),
        (Atom::Text(a), Atom::Text(b)) => is_satisfied_by_order(op, a.cmp(b)),
        (Atom::Null, Atom::Null) => op == FilterToken::Equal,
        _ => op == FilterToken::NotEqual,
    }
}

/// Whether `left op right` holds, for two atoms: an `Atom` is the part of a value that a comparison uses. `op` must be
/// one of the six comparisons, so neither `And` nor `Or`.
///
/// Booleans compare false before true, numbers exactly, texts by bytes. For two nulls only `==` is true (`<=` and `>=`
/// aren't, unlike in RFC 9535); for any other pair, such as two arrays or a number and a text, only `!=` is.
///
/// ```text
/// assert!(rt; holds_atoms(FilterToken::Equal, &Atom::Null, &Atom::Null));
/// ```
#[inline]
pub fn holds_atoms(op: FilterToken, left: &Atom<'_>, right: &Atom<'_>) -> bool
    requires { IsSome (comparison_of op) }
    ensures { (o : Comparison) → comparison_of op ≡ Some o → result ≡ pair o (seen_by left.now) (seen_by right.now) }
{
    holds_by_fractions(op, left, right)
}

/// Whether `left op right` holds; `op` must be neither `And` nor `Or`. Booleans, numbers and texts compare within their
/// kind: false before true, numbers exactly, texts by their bytes. Two nulls satisfy `==` alone. All other pairs
/// satisfy `!=` alone, and so does every pair with a number that is neither an `i64` nor a `u64`.
///
/// ```text
/// let (one, two) = (Value::from(1u64), Value::from(2u64));
/// assert!(rt; holds(FilterToken::Little, &one, &two));
/// ```
pub fn holds(op: FilterToken, left: &Value, right: &Value) -> bool
    requires { IsSome (comparison_of op) }
    ensures { (o : Comparison) → comparison_of op ≡ Some o → result ≡ pair o (seen (document_of (view left.now))) (seen (document_of (view right.now))) }
{
    holds_atoms(op, &Atom::of(left), &Atom::of(right))
}
