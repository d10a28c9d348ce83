//! `ExactNumber`, a number of a text or of a path, which is compared exactly.

ghost use Rattle.std.specs.Prelude.{◌≡◌, IfOk, refl};
ghost use Rattle.std.specs.Cmp.{eq_by_cmp_equiv, on_total, partial_equiv_from_equiv, partial_order_from_total};
ghost use Rattle.std.specs.Cow.{cow_str_bytes};
ghost use Rattle.std.specs.Ordering.{as_partial_cmp, eq_by_cmp, on};
ghost use Rattle.jsonpath_paths.specs.Numbers.{decimal_units};
ghost use Rattle.jsonpath_nodes.specs.compare.Fractions.{fraction_order, fraction_total};
ghost use Rattle.json_trees.specs.NumberKey.{IsKeyOf};

use crate::numbers::number_key::{NumberKey, literal_text, read_key_or_refuse};
use crate::refusal::DocumentRefusal;
use jsonpath_nodes::Fraction;
use jsonpath_paths::Decimal;
use std::alloc::Global;
use std::borrow::CowStr;
use std::cmp::Ordering;

/// A number as a JSON text or a path writes it, together with the key by which it is compared.
#[derive(Drop)]
pub struct ExactNumber<'a> {
    text: CowStr<'a, Global>,
    key: NumberKey,
    ghost keyed: { ∥ IsKeyOf (cow_str_bytes text) key ∥₁ },
}

impl<'a> ExactNumber<'a> {
    ghost use Rattle.json_trees.specs.OrderedTree.{number_fraction, text_fraction};

    // The number that a text writes. Refused with `HugeExponent` where 128 bits don't hold its exponent, and with
    // `OutOfMemory`.
    pub(crate) fn of_text(
        alloc: Global,
        text: CowStr<'a, Global>,
    ) -> Result<ExactNumber<'a>, DocumentRefusal>
        ensures { IfOk result (λ number. number_fraction number ≡ text_fraction (cow_str_bytes text.entry)) }
    {
        let key = read_key_or_refuse(alloc, text.as_str())?;
        Ok(ExactNumber { text, key })
    }

    // The number that a path writes. Refused as that of a text is.
    pub(crate) fn of_literal(
        alloc: Global,
        literal: Decimal,
    ) -> Result<ExactNumber<'a>, DocumentRefusal>
        ensures { IfOk result (λ number. number_fraction number ≡ (decimal_units literal, 18)) }
    {
        let text = literal_text(alloc, literal)?;
        ExactNumber::of_text(alloc, CowStr::Owned(text))
    }

    // Whether the number is less than the other one, equal to it or greater.
    fn order(&self, other: &ExactNumber<'a>) -> Ordering
        ensures { result ≡ fraction_order (number_fraction self.now) (number_fraction other.now) }
    {
        self.key.compare(&other.key)
    }
}

impl<'a> PartialEq for ExactNumber<'a> {
    ghost use Rattle.json_trees.specs.OrderedTree.{number_fraction};

    ghost eq = { on number_fraction (eq_by_cmp fraction_order) };

    ghost laws = { partial_equiv_from_equiv (eq_by_cmp_equiv (on_total number_fraction fraction_total)) };

    fn eq(&self, other: &ExactNumber<'a>) -> bool {
        self.order(other).is_eq()
    }
}

impl<'a> Eq for ExactNumber<'a> {
    ghost use Rattle.json_trees.specs.OrderedTree.{number_fraction};

    ghost laws = { eq_by_cmp_equiv (on_total number_fraction fraction_total) };
}

impl<'a> PartialOrd for ExactNumber<'a> {
    ghost use Rattle.json_trees.specs.OrderedTree.{number_fraction};

    ghost partial_cmp = { as_partial_cmp (on number_fraction fraction_order) };

    ghost laws = { partial_order_from_total (on_total number_fraction fraction_total) };

    fn partial_cmp(&self, other: &ExactNumber<'a>) -> Option<Ordering> {
        Some(self.order(other))
    }
}

impl<'a> Ord for ExactNumber<'a> {
    ghost use Rattle.json_trees.specs.OrderedTree.{number_fraction};

    ghost cmp = { on number_fraction fraction_order };

    ghost total = { on_total number_fraction fraction_total };

    ghost matches_partial_cmp = { λ x y. refl };

    ghost matches_eq = { λ x y. refl };

    fn cmp(&self, other: &ExactNumber<'a>) -> Ordering {
        self.order(other)
    }
}

/// Implements the trait `Fraction` (exact numbers, ordered by their values, which comparisons use) for `ExactNumber`, a
/// number as a JSON text or a path writes it.
impl<'a> Fraction for ExactNumber<'a> {
    ghost use Rattle.json_trees.specs.OrderedTree.{number_fraction};

    ghost fraction = { number_fraction };

    ghost in_order = { λ a b. refl };
}
