//! The characters of a quoted text, passed over many at a time.
ghost use Rattle.std.specs.Prelude.{◌≡◌, ◌↔◌, ◌<◌, ◌≤◌, [], ◌∷◌, length, get_or, take, map, true, ℕ};
ghost use Rattle.std.specs.Simd.Lanes.{mask_l};
ghost use Rattle.json_recognizer.specs.Classes.{class_of, is_plain, is_stop, is_tail, is_hex, is_high, is_low, is_short_escape};
ghost use Rattle.json_recognizer.specs.plan.Leads.{LeadsIn, AreChars};
ghost use Rattle.json_recognizer.specs.declared.class.Class.TheVariants.{AnyD};
ghost use Rattle.json_recognizer.specs.declared.machine.TextPart.TheVariants.{InChars, Unit4, Unit2, High2, LowD, Utf1, Utf2};

use std::simd::prelude::*;

// Which of the bytes don't plainly stand for themselves in a text: a bit for each.
#[inline(always)]
fn stops(bytes: u8x16) -> u64
    ensures { result ≡ mask_l (map is_stop bytes) }
{
    (bytes.simd_eq(u8x16::splat(b'"'))
        | bytes.simd_eq(u8x16::splat(b'\\'))
        | bytes.simd_lt(u8x16::splat(32))
        | bytes.simd_ge(u8x16::splat(128))).to_bitmask()
}

// How many bytes at the front stand for themselves in a text. They are looked at sixteen at a time; the last few, where
// there aren't so many, are not counted.
#[inline(always)]
pub(crate) fn count_chars(bytes: &[u8]) -> usize
    ensures within { result ≤ length bytes.now }
    ensures chars { (k : ℕ) → k < result → is_plain (class_of (get_or bytes.now k 0)) ≡ true }
{
    if !bytes.is_empty() && bytes[0] == b'"' {
        return 0;
    }
    let mut at = 0;
    while bytes.len() - at >= 16 {
        let found = stops(u8x16::from_slice(&bytes[at..]));
        if found != 0 {
            return at + found.trailing_zeros() as usize;
        }
        at += 16;
    }
    at
}

#[inline(always)]
fn is_tail(byte: u8) -> bool
    ensures { result ≡ is_tail (class_of byte) }
{
    matches!(byte, 128..=191)
}

// Whether these are a character of two bytes.
#[inline(always)]
fn are_two(first: u8, second: u8) -> bool
    ensures { result ≡ true → LeadsIn InChars (first ∷ second ∷ []) InChars }
{
    matches!(first, 194..=223) && is_tail(second)
}

// Whether these are the first two bytes of a character of three.
#[inline(always)]
fn begins_three(first: u8, second: u8) -> bool
    ensures { result ≡ true → LeadsIn InChars (first ∷ second ∷ []) Utf1 }
{
    match first {
        224 => matches!(second, 160..=191),
        237 => matches!(second, 128..=159),
        225..=239 => is_tail(second),
        _ => false,
    }
}

// Whether these are the first two bytes of a character of four, as most have them.
#[inline(always)]
fn begins_four(first: u8, second: u8) -> bool
    ensures { result ≡ true → LeadsIn InChars (first ∷ second ∷ []) Utf2 }
{
    first == 240 && matches!(second, 144..=191)
}

#[inline(always)]
fn is_hex(byte: u8) -> bool
    ensures { result ≡ is_hex (class_of byte) }
{
    byte.is_ascii_hexdigit()
}

// Whether these are the first two digits of a character's number, which is no half of a surrogate pair.
#[inline(always)]
fn begins_unit(first: u8, second: u8) -> bool
    ensures { result ≡ true → LeadsIn Unit4 (first ∷ second ∷ []) Unit2 }
{
    match first {
        b'd' => matches!(second, b'0'..=b'7'),
        b'D' => matches!(second, b'0'..=b'7'),
        _ => is_hex(first) && is_hex(second),
    }
}

// Whether a backslash may stand before this letter alone.
#[inline(always)]
fn is_short_escape(byte: u8) -> bool
    ensures { result ≡ is_short_escape (class_of byte) }
{
    matches!(byte, b'"' | b'\\' | b'/' | b'b' | b'f' | b'n' | b'r' | b't')
}

#[inline(always)]
fn is_any_d(byte: u8) -> bool
    ensures { result ≡ true ↔ class_of byte ≡ AnyD }
{
    matches!(byte, b'd' | b'D')
}

// Whether a high surrogate has this as its second digit.
#[inline(always)]
fn is_high(byte: u8) -> bool
    ensures { result ≡ is_high (class_of byte) }
{
    matches!(byte, b'8' | b'9' | b'a' | b'b' | b'A' | b'B')
}

// Whether a low surrogate has this as its second digit.
#[inline(always)]
fn is_low(byte: u8) -> bool
    ensures { result ≡ is_low (class_of byte) }
{
    matches!(byte, b'c'..=b'f' | b'C'..=b'F')
}

// Whether these are the first two digits of a high surrogate.
#[inline(always)]
fn begins_high(first: u8, second: u8) -> bool
    ensures { result ≡ true → LeadsIn Unit4 (first ∷ second ∷ []) High2 }
{
    is_any_d(first) && is_high(second)
}

// Whether these are the first two digits of a low surrogate, where one is wanted.
#[inline(always)]
fn begins_low(first: u8, second: u8) -> bool
    ensures { result ≡ true → LeadsIn LowD (first ∷ second ∷ []) Unit2 }
{
    is_any_d(first) && is_low(second)
}

// How many bytes the escape has that the backslash in front begins; 0 if none.
#[inline(always)]
fn escape_len(bytes: &[u8]) -> usize
    requires long { 6 ≤ length bytes.now }
    requires escape { get_or bytes.now 0 0 ≡ 92 }
    ensures within { result ≤ length bytes.now }
    ensures chars { AreChars (take result bytes.now) }
{
    if is_short_escape(bytes[1]) {
        2
    } else if bytes[1] == b'u'
        && begins_unit(bytes[2], bytes[3])
        && is_hex(bytes[4])
        && is_hex(bytes[5])
    {
        6
    } else if bytes.len() >= 12
        && bytes[1] == b'u'
        && begins_high(bytes[2], bytes[3])
        && is_hex(bytes[4])
        && is_hex(bytes[5])
        && bytes[6] == b'\\'
        && bytes[7] == b'u'
        && begins_low(bytes[8], bytes[9])
        && is_hex(bytes[10])
        && is_hex(bytes[11])
    {
        12
    } else {
        0
    }
}

// Whether the byte is ASCII and stands for itself in a text.
#[inline(always)]
fn is_plain(byte: u8) -> bool
    ensures { result ≡ is_plain (class_of byte) }
{
    matches!(byte, b' '..=b'!' | b'#'..=b'[' | b']'..=127)
}

// Whether the first stands for itself and is taken alone: a space, or what has a backslash right behind it.
#[inline(always)]
fn is_alone(first: u8, second: u8) -> bool
    ensures { result ≡ true → is_plain (class_of first) ≡ true }
{
    first == b' ' || second == b'\\' && is_plain(first)
}

// How many bytes the first character has if it is an escape, beyond ASCII, a space, or right before a backslash; else
// how many at the front stand for themselves.
#[inline(always)]
fn front_len(bytes: &[u8]) -> usize
    requires { 6 ≤ length bytes.now }
    ensures within { result ≤ length bytes.now }
    ensures chars { AreChars (take result bytes.now) }
{
    if bytes[0] == b'\\' {
        escape_len(bytes)
    } else if bytes[0] < 128 {
        if is_alone(bytes[0], bytes[1]) {
            1
        } else {
            count_chars(bytes)
        }
    } else if !is_tail(bytes[1]) {
        0
    } else if are_two(bytes[0], bytes[1]) {
        2
    } else if begins_three(bytes[0], bytes[1]) && is_tail(bytes[2]) {
        3
    } else if begins_four(bytes[0], bytes[1]) && is_tail(bytes[2]) && is_tail(bytes[3]) {
        4
    } else {
        0
    }
}

// How many bytes at the front are characters and escapes of the text that is being read. The last few bytes are not
// looked at.
#[inline(never)]
fn count_fronts(bytes: &[u8]) -> usize
    ensures within { result ≤ length bytes.now }
    ensures chars { AreChars (take result bytes.now) }
{
    let mut rest = bytes;
    while rest.len() >= 6 {
        let len = front_len(rest);
        if len == 0 {
            break;
        }
        rest = &rest[len..];
    }
    bytes.len() - rest.len()
}

#[inline(always)]
pub(crate) fn has_quote(bytes: &[u8], at: usize) -> bool
    ensures within { result ≡ true → at < length bytes.now }
    ensures quote { result ≡ true → get_or bytes.now at 0 ≡ 34 }
{
    at < bytes.len() && bytes[at] == b'"'
}

// The same, where plain characters and the quote are likely.
#[inline(always)]
pub(crate) fn count_text(bytes: &[u8]) -> usize
    ensures within { result ≤ length bytes.now }
    ensures chars { AreChars (take result bytes.now) }
{
    let plain = count_chars(bytes);
    if has_quote(bytes, plain) {
        return plain;
    }
    plain + count_fronts(&bytes[plain..])
}
