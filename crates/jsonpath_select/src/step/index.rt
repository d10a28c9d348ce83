//! The index of a step by one index, which its token holds as a decimal.

ghost use Rattle.std.specs.Prelude.{◌≡◌};
ghost use Rattle.jsonpath_select.specs.Parts.{index_in};

use jsonpath_paths::Decimal;

// The index of 64 bits that a decimal is; None where it has a fraction or doesn't fit.
#[tactic(auto, unfolding(crate::specs::Parts::index_in))]
pub(crate) fn decimal_to_index(decimal: Decimal) -> Option<i64>
    ensures { result ≡ index_in decimal }
{
    const ONE: i128 = 1_000_000_000_000_000_000;
    let units = decimal.units();
    if units.rem_euclid(ONE) != 0 {
        return None;
    }
    i64::try_from(units.div_euclid(ONE)).ok()
}
