//! Numbers as they are written: whether with a minus, and with which exponent.

ghost use Rattle.std.specs.Prelude.{◌≡◌, ◌<◌, ◌==◌, length, slice_index, IfSome, IsTrue};
ghost use Rattle.json_trees.specs.NumberKey.{power};

use fast_float::Numeral;

/// Whether the text of a number begins with a minus sign.
pub fn has_minus(bytes: &[u8]) -> bool
    ensures value { result ≡ (slice_index bytes.now 0 == 45) }
    ensures len { IsTrue result → 0 < length bytes.now }
{
    !bytes.is_empty() && bytes[0] == b'-'
}

// The exponent that a number is written with, 0 where it has none. None where 128 bits don't hold it.
pub(crate) fn written_exponent(numeral: &Numeral<'_>) -> Option<i128>
    ensures { IfSome result (λ n. n ≡ power numeral.now) }
{
    if numeral.exponent().is_empty() {
        return Some(0);
    }
    let written = std::str::from_utf8(numeral.exponent()).ok()?;
    let power = written.parse::<i128>().ok()?;
    if numeral.is_exponent_negative() {
        power.checked_neg()
    } else {
        Some(power)
    }
}
