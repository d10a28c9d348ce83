//! `Decimal`, a number of a path or document, kept as a whole multiple of 10^-18: made from parts, read as units.

ghost use Rattle.std.specs.Prelude.{◌≡◌, ◌<◌, ◌^◌, ◌&&◌, Some, None, nat_le, nat_lt, pos, if◌then◌else◌};
ghost use Rattle.jsonpath_paths.specs.Numbers.{decimal_from, decimal_units, whole_bound};
ghost use Rattle.jsonpath_paths.specs.Grammar.{whole_number};

/// A number with up to 18 decimal places, stored exactly as a whole number of units of 10^-18.
///
/// ```text
/// assert!(rt; Decimal::of_i64(-1) < Decimal::of_u64(2));
/// ```
#[derive(Clone, Copy, Debug, PartialEq, Eq, PartialOrd, Ord)]
pub struct Decimal {
    pub(crate) units: i128,
}

const ONE: i128 = 1_000_000_000_000_000_000;

// The number with this whole part and `fraction` units of 10^-18, both in range, or its negative.
pub(crate) fn decimal_of_parts_in_range(negative: bool, whole: u64, fraction: u64) -> Decimal
    requires { fraction < 10 ^ 18 }
    ensures { result ≡ decimal_from negative whole fraction }
{
    let units = whole as i128 * ONE + fraction as i128;
    Decimal {
        units: if negative { -units } else { units },
    }
}

// Whether a number may have this whole part: any where it is not negative, at most 2^63 where it is.
pub(crate) fn is_whole_part_in_range(negative: bool, whole: u64) -> bool
    ensures { result ≡ nat_le whole (whole_bound negative) }
{
    !negative || whole <= 1 << 63
}

impl Decimal {
    /// The number with this whole part and `units` units of 10^-18 after the point; below zero if `negative`. `None` if
    /// `units` is 10^18 or more, or for a negative number if `whole` is above 2^63.
    ///
    /// ```text
    /// let price = Decimal::of_parts(false, 8, 950_000_000_000_000_000);
    /// assert!(rt; price.is_some_and(|it| it > Decimal::of_i64(8)));
    /// ```
    pub fn of_parts(negative: bool, whole: u64, units: u64) -> Option<Decimal>
        ensures { result ≡ (if nat_lt units (10 ^ 18) && nat_le whole (whole_bound negative) then Some (decimal_from negative whole units) else None) }
    {
        if units >= 1_000_000_000_000_000_000 {
            return None;
        }
        if !is_whole_part_in_range(negative, whole) {
            return None;
        }
        Some(decimal_of_parts_in_range(negative, whole, units))
    }

    /// Converts an integer to a decimal, exactly.
    ///
    /// ```text
    /// assert!(rt; Decimal::of_i64(-3).units() == -3_000_000_000_000_000_000);
    /// ```
    pub fn of_i64(n: i64) -> Decimal
        ensures { result ≡ whole_number n }
    {
        Decimal {
            units: n as i128 * ONE,
        }
    }

    /// Converts an unsigned integer to a decimal, exactly.
    ///
    /// ```text
    /// assert!(rt; Decimal::of_u64(18_446_744_073_709_551_615) > Decimal::of_i64(0));
    /// ```
    pub fn of_u64(n: u64) -> Decimal
        ensures { result ≡ whole_number (pos n) }
    {
        Decimal {
            units: n as i128 * ONE,
        }
    }

    /// The number as a whole number of units of 10^-18.
    ///
    /// ```text
    /// assert!(rt; Decimal::of_u64(2).units() == 2_000_000_000_000_000_000);
    /// ```
    pub fn units(&self) -> i128
        ensures { result ≡ decimal_units self.now }
    {
        self.units
    }
}
