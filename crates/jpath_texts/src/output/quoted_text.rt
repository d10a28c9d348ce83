//! A text as JSON has it, in quotes.

ghost use Rattle.std.specs.Prelude.{◌≡◌, ◌<◌, [], ◌∷◌, ◌++◌, false, OnOk};
ghost use Rattle.std.specs.Char.{digit_char};
ghost use Rattle.json.specs.Print.{escape, escape_byte, quoted};

use std::alloc::AllocError;

// Writes a text in quotes, with the escapes that JSON wants.
pub(crate) fn add_quoted(out: &mut Vec<u8>, text: &str) -> Result<(), AllocError>
    ensures { OnOk result (out.new.items ≡ out.old.items ++ quoted text.now) }
{
    out.push(b'"')?;
    add_escaped(out, text.as_bytes())?;
    Ok(out.push(b'"')?)
}

// Writes what stands between the quotes. Most texts have no escapes, and are written as they are.
fn add_escaped(out: &mut Vec<u8>, text: &[u8]) -> Result<(), AllocError>
    ensures { OnOk result (out.new.items ≡ out.old.items ++ escape text.now) }
{
    if !has_escapes(text) {
        return out.extend_from_slice(text);
    }
    for byte in text {
        add_escaped_byte(out, *byte)?;
    }
    Ok(())
}

// Whether a text may have escapes between quotes. Where it says no, the text has none. It looks at all bytes, so that
// many are looked at in one instruction.
fn has_escapes(text: &[u8]) -> bool
    ensures { result ≡ false → escape text.now ≡ text.now }
{
    let mut has_escapes = false;
    for byte in text {
        has_escapes |= is_escaped(*byte);
    }
    has_escapes
}

// Whether a byte has an escape between quotes.
#[tactic(auto, unfolding(json::specs::Print::escape_byte))]
fn is_escaped(byte: u8) -> bool
    ensures { result ≡ false → escape_byte byte ≡ byte ∷ [] }
{
    byte < 32 || byte == b'"' || byte == b'\\'
}

// Writes a byte of a text, or its escape.
#[tactic(auto, unfolding(json::specs::Print::escape_byte))]
fn add_escaped_byte(out: &mut Vec<u8>, byte: u8) -> Result<(), AllocError>
    ensures { OnOk result (out.new.items ≡ out.old.items ++ escape_byte byte) }
{
    match byte {
        b'"' | b'\\' => add_escape(out, byte),
        8 => add_escape(out, b'b'),
        12 => add_escape(out, b'f'),
        b'\n' => add_escape(out, b'n'),
        b'\r' => add_escape(out, b'r'),
        b'\t' => add_escape(out, b't'),
        0..=31 => {
            out.extend_from_slice(b"\\u00")?;
            out.push(hex_digit(byte / 16))?;
            Ok(out.push(hex_digit(byte % 16))?)
        }
        _ => Ok(out.push(byte)?),
    }
}

// Writes an escape of one letter, behind its backslash.
fn add_escape(out: &mut Vec<u8>, letter: u8) -> Result<(), AllocError>
    ensures { OnOk result (out.new.items ≡ out.old.items ++ 92 ∷ letter ∷ []) }
{
    out.push(b'\\')?;
    Ok(out.push(letter)?)
}

// A digit of a number in base 16.
fn hex_digit(number: u8) -> u8
    requires { number < 16 }
    ensures { result ≡ digit_char number }
{
    if number < 10 {
        b'0' + number
    } else {
        b'a' - 10 + number
    }
}
