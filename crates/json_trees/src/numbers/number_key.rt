//! Keys that order numbers exactly, however many digits they have.

ghost use Rattle.std.specs.Prelude.{◌≡◌, ◌≢◌, ℕ, List, ◌<◌, ◌≤◌, ◌-ℤ◌, ◌+ℤ◌, length, get_or, take, pos, IfOk, IfSome, FitsSigned, string_bytes};
ghost use Rattle.std.specs.Int.{w128};
ghost use Rattle.jsonpath_paths.specs.Numbers.{decimal_units};
ghost use Rattle.json_trees.specs.NumberKey.{zeros, power, turned, IsKey, IsKeyOf, IsPlaced, IsTrailed, literal_text, text_cmp};

use crate::numbers::written_number::{has_minus, written_exponent};
use crate::refusal::DocumentRefusal;
use fast_float::Numeral;
use jsonpath_paths::Decimal;
use std::alloc::{AllocError, Global};
use std::cmp::Ordering;

/// A key by which numbers compare: keys are ordered as their numbers are, and equal if their numbers are equal. A key
/// has the number's sign (-1, 0 or 1), an exponent and digits. The number without its sign is 0.DIGITS times ten to the
/// exponent; the digits neither begin nor end with 0, and zero has no digits. For a negative number, the stored
/// exponent and digits are inverted, so that keys sort as numbers do: the exponent is negated, each digit `d` becomes
/// `9 - d`, and a value greater than 9 is appended as the end.
#[derive(Debug, Drop, PartialEq, Eq, PartialOrd, Ord)]
pub struct NumberKey {
    side: i8,
    exponent: i128,
    digits: Vec<u8>,
}

impl NumberKey {
    /// Reads a number from its JSON text, and returns its `NumberKey`, by which it is compared with other numbers.
    /// Returns `None` if the number's exponent doesn't fit in 128 bits. The only error is out of memory.
    pub fn read(alloc: Global, text: &str) -> Result<Option<NumberKey>, AllocError>
        ensures { IfOk result (λ o. IfSome o (IsKeyOf text.now)) }
    {
        let bytes = text.as_bytes();
        if has_minus(bytes) {
            key_of_numeral(alloc, true, &Numeral::scan(&bytes[1..]))
        } else {
            key_of_numeral(alloc, false, &Numeral::scan(bytes))
        }
    }

    /// Compares two keys (`NumberKey`s), and returns the order, less, equal or greater, of the two numbers from which
    /// they were made.
    pub fn compare(&self, other: &NumberKey) -> Ordering
        ensures { (s t : List ℕ) → IsKeyOf s self.now → IsKeyOf t other.now → result ≡ text_cmp s t }
    {
        self.cmp(other)
    }
}

// The key of a number, given by its digits and exponent and by whether a minus stands before them. None where 128 bits
// don't hold its exponent.
fn key_of_numeral(
    alloc: Global,
    is_negative: bool,
    numeral: &Numeral<'_>,
) -> Result<Option<NumberKey>, AllocError>
    ensures { IfOk result (λ o. IfSome o (IsKey is_negative numeral.now)) }
{
    let mut all = Vec::from_slice(alloc, numeral.whole())?;
    all.extend_from_slice(numeral.fraction())?;
    let lead = leading_zeros(all.as_slice());
    let digits = without_last_zeros(&all[lead..]);
    if digits.is_empty() {
        return Ok(Some(NumberKey {
            side: 0,
            exponent: 0,
            digits: Vec::new(alloc),
        }));
    }
    match normalized_exponent(numeral, lead) {
        Some(exponent) => key_of_digits(alloc, is_negative, digits, exponent),
        None => Ok(None),
    }
}

// How many zeros the digits begin with.
fn leading_zeros(digits: &[u8]) -> usize
    ensures zeros { take result digits.now ≡ zeros result }
    ensures stops { result < length digits.now → get_or digits.now result 0 ≢ 48 }
    ensures within { result ≤ length digits.now }
{
    let mut count = 0;
    while count < digits.len() && digits[count] == b'0' {
        count += 1;
    }
    count
}

// The digits without the zeros at their end.
fn without_last_zeros(digits: &[u8]) -> &[u8]
    ensures { IsTrailed digits.now result.now }
{
    let mut end = digits.len();
    while end > 0 && digits[end - 1] == b'0' {
        end -= 1;
    }
    &digits[..end]
}

// The exponent that a number has once its point stands before its first digit that is no zero; `lead` zeros stand
// before that digit. None where 128 bits don't hold it.
fn normalized_exponent(numeral: &Numeral<'_>, lead: usize) -> Option<i128>
    ensures { IfSome result (λ e. e ≡ (pos (length numeral.now.whole) -ℤ pos lead) +ℤ power numeral.now) }
{
    let power = written_exponent(numeral)?;
    let whole = numeral.whole().len() as i128;
    (whole - lead as i128).checked_add(power)
}

// The key of the number 0.DIGITS times ten to the exponent, below zero or not; the digits have no zero in front and
// none at the end. None where 128 bits don't hold the exponent negated.
fn key_of_digits(
    alloc: Global,
    is_negative: bool,
    digits: &[u8],
    exponent: i128,
) -> Result<Option<NumberKey>, AllocError>
    ensures { IfOk result (λ o. IfSome o (IsPlaced is_negative digits.now exponent)) }
{
    if !is_negative {
        let digits = Vec::from_slice(alloc, digits)?;
        return Ok(Some(NumberKey {
            side: 1,
            exponent,
            digits,
        }));
    }
    let digits = nines_complement(alloc, digits)?;
    match exponent.checked_neg() {
        Some(exponent) => Ok(Some(NumberKey {
            side: -1,
            exponent,
            digits,
        })),
        None => Ok(None),
    }
}

// Each digit taken from 9, and behind them a mark above all digits: so keys of numbers below zero stand in their order.
fn nines_complement(alloc: Global, digits: &[u8]) -> Result<Vec<u8>, AllocError>
    ensures { IfOk result (λ found. found.items ≡ turned digits.now) }
{
    let mut found = Vec::with_capacity(alloc, digits.len().saturating_add(1))?;
    for digit in digits {
        found.push(b'i'.saturating_sub(*digit))?;
    }
    found.push(b':')?;
    Ok(found)
}

// The key of a number's text. Refused with `HugeExponent` where 128 bits don't hold its exponent, and with
// `OutOfMemory`.
pub(crate) fn read_key_or_refuse(alloc: Global, text: &str) -> Result<NumberKey, DocumentRefusal>
    ensures { IfOk result (IsKeyOf text.now) }
{
    match NumberKey::read(alloc, text)? {
        Some(key) => Ok(key),
        None => Err(DocumentRefusal::HugeExponent),
    }
}

// A number that a path is written with, as the text of a document writes it.
pub(crate) fn literal_text(alloc: Global, literal: Decimal) -> Result<String, AllocError>
    ensures text { IfOk result (λ text. string_bytes text ≡ literal_text literal) }
    ensures fits { IfOk result (λ _. FitsSigned w128 (decimal_units literal)) }
{
    let units = literal.units();
    Ok(format!(in alloc; "{units}e-18")?)
}
