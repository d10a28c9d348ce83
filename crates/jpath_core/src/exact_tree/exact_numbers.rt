//! Numbers of the exact tree as decimals, if they are integers or have at most 18 digits after the point.

ghost use Rattle.std.specs.Prelude.{◌≡◌, true, false, IfSome};
ghost use Rattle.serde_json.specs.Read.{number_of, number_from};
ghost use Rattle.jsonpath_paths.specs.Numbers.{decimal_units};
ghost use Rattle.jsonpath_nodes.specs.compare.Comparisons.{decimal};
ghost use Rattle.jpath_core.specs.AlongExactTree.{seen_number};

use fast_float::Numeral;
use jpath_texts::has_minus;
use jsonpath_paths::Decimal;

// So many digits behind the point does a decimal hold.
const PLACES: usize = 18;

// The whole number of 64 bits that the text writes; None where it writes none.
#[tactic(auto, unfolding(serde_json::specs::Read::number_of))]
pub(crate) fn whole_number(text: &str) -> Option<Decimal>
    ensures { IfSome result (λ whole. decimal (decimal_units whole) ≡ seen_number (number_of text.now)) }
{
    let bytes = text.as_bytes();
    if has_minus(bytes) {
        negative_whole_number(&Numeral::scan(&bytes[1..]))
    } else {
        nonnegative_whole_number(&Numeral::scan(bytes))
    }
}

// The whole number of 64 bits that the numeral is with no minus before it, if it is one.
fn nonnegative_whole_number(numeral: &Numeral<'_>) -> Option<Decimal>
    ensures { IfSome result (λ whole. decimal (decimal_units whole) ≡ seen_number (number_from false numeral.now)) }
{
    let whole = numeral.to_u64()?;
    Some(Decimal::of_u64(whole))
}

// The whole number of 64 bits that the numeral is with a minus before it, if it is one. A zero with a minus is none.
fn negative_whole_number(numeral: &Numeral<'_>) -> Option<Decimal>
    ensures { IfSome result (λ whole. decimal (decimal_units whole) ≡ seen_number (number_from true numeral.now)) }
{
    let whole = numeral.to_i64(true)?;
    if whole < 0 {
        Some(Decimal::of_i64(whole))
    } else {
        None
    }
}

// The number that the text writes; None where it has an exponent, or where no decimal holds it.
pub(crate) fn decimal_of_number_text(text: &str) -> Option<Decimal> {
    let bytes = text.as_bytes();
    let is_negative = has_minus(bytes);
    let numeral = if is_negative {
        Numeral::scan(&bytes[1..])
    } else {
        Numeral::scan(bytes)
    };
    if !numeral.exponent().is_empty() || numeral.fraction().len() > PLACES {
        return None;
    }
    let whole = fast_float::parse_u64(numeral.whole()).ok()?;
    let mut units = 0u64;
    for digit in numeral.fraction() {
        let next = u64::from(digit.saturating_sub(b'0'));
        units = units.checked_mul(10)?.checked_add(next)?;
    }
    let missing = u32::try_from(PLACES - numeral.fraction().len()).ok()?;
    Decimal::of_parts(
        is_negative,
        whole,
        units.checked_mul(10u64.checked_pow(missing)?)?,
    )
}
