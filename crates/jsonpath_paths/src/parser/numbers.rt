//! The numbers of a path: indexes, steps of slices, and decimals. `None` if the word is no number.

ghost use Rattle.std.specs.Prelude.{◌≡◌, ◌<◌, ◌^◌, IfSome, Some, None};
ghost use Rattle.jsonpath_paths.specs.Numbers.{index_of, range_step_of, decimal_of, digits_of, fraction_of, is_negative, without_minus};

use crate::decimal::{Decimal, decimal_of_parts_in_range, is_whole_part_in_range};

// The index of 64 bits that a word spells, with or without a sign, or `None`.
pub(crate) fn parse_index(word: &str) -> Option<i64>
    ensures { result ≡ index_of word.now }
{
    word.parse::<i64>().ok()
}

// The step of a range that a word spells, as a plus sign or none and digits, or `None`.
pub(crate) fn parse_range_step(word: &str) -> Option<u64>
    ensures { result ≡ range_step_of word.now }
{
    word.parse::<u64>().ok()
}

// The number of 64 bits that a word of digits alone spells, or `None`.
fn parse_digits(word: &str) -> Option<u64>
    ensures { result ≡ digits_of word.now }
{
    match word.strip_prefix('+') {
        Some(_) => None,
        None => word.parse::<u64>().ok(),
    }
}

// Whether a word begins with a minus sign, and the word without it.
fn split_minus_sign(word: &str) -> (bool, &str)
    ensures negative { result.0 ≡ is_negative word.now }
    ensures digits { result.1.now ≡ without_minus word.now }
{
    match word.strip_prefix('-') {
        Some(rest) => (true, rest),
        None => (false, word),
    }
}

// How many units of 10^-18 the digits behind a point are, at most 18 digits, possibly none; or `None`.
fn parse_fraction_units(fraction: &str) -> Option<u64>
    ensures value { result ≡ fraction_of fraction.now }
    ensures small { IfSome result (λ n. n < 10 ^ 18) }
{
    if fraction.len() == 0 {
        return Some(0);
    }
    if fraction.len() > 18 {
        return None;
    }
    match parse_digits(fraction) {
        Some(n) => Some(n * 10u64.pow(18 - fraction.len() as u32)),
        None => None,
    }
}

// The decimal that a whole part, perhaps with a minus sign, and the digits behind the point, if any, spell; or `None`.
pub(crate) fn parse_decimal(whole: &str, fraction: &str) -> Option<Decimal>
    ensures { result ≡ decimal_of whole.now fraction.now }
{
    let (negative, word) = split_minus_sign(whole);
    let n = match parse_digits(word) {
        Some(n) => n,
        None => return None,
    };
    if !is_whole_part_in_range(negative, n) {
        return None;
    }
    match parse_fraction_units(fraction) {
        Some(units) => Some(decimal_of_parts_in_range(negative, n, units)),
        None => None,
    }
}
