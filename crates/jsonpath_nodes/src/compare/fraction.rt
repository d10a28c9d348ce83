//! `Fraction`, the numbers that comparisons use.

ghost use Rattle.std.specs.Prelude.{◌≡◌, ℕ, ℤ};
ghost use Rattle.jsonpath_paths.specs.Numbers.{decimal_units};
ghost use Rattle.jsonpath_nodes.specs.compare.Fractions.{fraction_order, units_cmp};

use jsonpath_paths::Decimal;

/// A trait of exact numbers, which are ordered by their values. Comparisons of values use such numbers.
///
/// ```text
/// assert!(rt; holds_by_fractions(FilterToken::Little, &Atom::Number(Decimal::of_u64(7)), &Atom::Number(Decimal::of_u64(8))));
/// ```
pub trait Fraction: Ord + Drop {
    // A whole number, and the power of ten that it is over.
    ghost fraction: { Self → ℤ × ℕ };

    // The order is that of the values.
    ghost in_order: { (a b : Self) → Self.cmp a b ≡ fraction_order (fraction a) (fraction b) };
}

/// Implements the trait `Fraction` (an exact number, as comparisons use it) for `Decimal`.
impl Fraction for Decimal {
    ghost fraction = { λ d. (decimal_units d, 18) };

    ghost in_order = { λ a b. units_cmp (decimal_units a) (decimal_units b) };
}
