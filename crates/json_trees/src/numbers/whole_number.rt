//! Numbers of a JSON text as `serde_json` reads them: whole ones of 64 bits, and others.

ghost use Rattle.std.specs.Prelude.{◌≡◌, ◌<◌, ◌≤◌, ◌^◌, ℕ, false, get_or, is_some, decimal, length, Some, IfSome, IfNone, IsTrue};
ghost use Rattle.std.specs.Char.{is_ascii_digit};
ghost use Rattle.std.specs.List.{list_all};
ghost use Rattle.serde_json.specs.Read.{number_of, number_from, float_of};
ghost use Rattle.json_trees.specs.Numbers.{whole_num, IsUnreadNumber};

use crate::numbers::written_number::has_minus;
use fast_float::Numeral;

// A number of a text that is read as a `u64`, or, where it has a minus and is not zero, as an `i64`.
#[derive(Clone, Copy)]
pub(crate) enum WholeNumber {
    Unsigned(u64),
    Negative(i64),
}

// The whole number of 64 bits that `serde_json` reads from a number's text. None where it reads a float or nothing.
pub(crate) fn whole_number(text: &str) -> Option<WholeNumber>
    ensures some { IfSome result (λ n. number_of text.now ≡ Some (whole_num n)) }
    ensures none { IfNone result (IsUnreadNumber text.now) }
{
    let (is_negative, numeral) = scan_number(text);
    whole_of_numeral(is_negative, &numeral)
}

// Whether `serde_json` reads the number that a text writes: it is not too large for a float.
pub(crate) fn is_number_read(text: &str) -> bool
    ensures { result ≡ is_some (number_of text.now) }
{
    if is_short_whole(text) {
        return true;
    }
    let (is_negative, numeral) = scan_number(text);
    whole_of_numeral(is_negative, &numeral).is_some()
        || numeral.to_float::<f64>(is_negative).is_finite()
}

// Whether a number's text begins with a minus, and the parts of what stands after it.
fn scan_number(text: &str) -> (bool, Numeral<'_>)
    ensures { number_from result.0 result.1 ≡ number_of text.now }
{
    let bytes = text.as_bytes();
    if has_minus(bytes) {
        (true, Numeral::scan(&bytes[1..]))
    } else {
        (false, Numeral::scan(bytes))
    }
}

// The whole number of 64 bits that `serde_json` reads from the parts of a number. None where it reads them as a float,
// as it does -0.
fn whole_of_numeral(is_negative: bool, numeral: &Numeral<'_>) -> Option<WholeNumber>
    ensures some { IfSome result (λ n. number_from is_negative numeral.now ≡ Some (whole_num n)) }
    ensures none { IfNone result (number_from is_negative numeral.now ≡ float_of is_negative numeral.now) }
{
    if is_negative {
        let n = numeral.to_i64(true).filter(|n| *n < 0);
        n.map(WholeNumber::Negative)
    } else {
        numeral.to_u64().map(WholeNumber::Unsigned)
    }
}

// Whether the text is at most 18 digits, the first of them zero only where it stands alone.
pub(crate) fn is_short_whole(text: &str) -> bool
    ensures { IsTrue result → (n : ℕ) × (n < 2 ^ 63) × (text.now ≡ decimal n) }
{
    let bytes = text.as_bytes();
    if bytes.is_empty() || bytes.len() > 18 || has_leading_zero(bytes) {
        return false;
    }
    are_digits(bytes)
}

// Whether the text begins with a zero that does not stand alone.
fn has_leading_zero(bytes: &[u8]) -> bool
    ensures { result ≡ false → get_or bytes.now 0 0 ≡ 48 → length bytes.now ≤ 1 }
{
    bytes.len() > 1 && bytes[0] == b'0'
}

fn are_digits(bytes: &[u8]) -> bool
    ensures { result ≡ list_all is_ascii_digit bytes.now }
{
    bytes.iter().all(|byte| byte.is_ascii_digit())
}
