//! A location printed as a normalized path, which selects just the node at that location.

ghost use Rattle.std.specs.Prelude.{Some};
ghost use Rattle.std.specs.Fmt.{DisplaysOnOk};
ghost use Rattle.std.specs.Str.{chars, encode_utf8_all};
ghost use Rattle.jsonpath_nodes.specs.place.LocationText.{guarded_char, guarded, step_chars, location_text};
ghost use Rattle.jsonpath_nodes.specs.place.Owned.{owned_step};

use crate::place::location::{LocStep, Location};
use std::fmt;

// Writes a character, behind a backslash if it is a single quote or a backslash.
fn write_guarded_char<W: fmt::Write>(c: char, f: &mut fmt::Formatter<W>) -> fmt::Result
    ensures { DisplaysOnOk W.write_str_gives f.old result
        (Some (encode_utf8_all (guarded_char c))) f.new }
{
    if c == '\'' || c == '\\' {
        write!(f, "\\{c}")
    } else {
        f.write_char(c)
    }
}

// Writes a name, with a backslash before each single quote and each backslash.
fn write_guarded<W: fmt::Write>(name: &str, f: &mut fmt::Formatter<W>) -> fmt::Result
    ensures { DisplaysOnOk W.write_str_gives f.old result
        (Some (encode_utf8_all (guarded (chars name.now)))) f.new }
{
    for c in name.chars() {
        write_guarded_char(c, f)?;
    }
    Ok(())
}

/// Prints a `LocStep`, one step of a location, in brackets, as in a normalized path: an index, or a name between single
/// quotes. In the name, a backslash is put before each single quote and each backslash.
impl fmt::Display for LocStep {
    ghost output = { λ step. Some (encode_utf8_all (step_chars (owned_step step))) };

    fn fmt<W: fmt::Write>(&self, f: &mut fmt::Formatter<W>) -> fmt::Result {
        match self {
            LocStep::Name(name) => {
                f.write_str("['")?;
                write_guarded(name.as_str(), f)?;
                f.write_str("']")
            }
            LocStep::Index(index) => {
                let i = *index;
                write!(f, "[{i}]")
            }
        }
    }
}

/// Prints the location as a normalized path, such as `$['store']['book'][0]`. Single quotes and backslashes in a name
/// are escaped by a backslash. This text is a path that selects just the node at that location. But if the location has
/// an index of 2^63 or more, the text is no path, since no path can have such an index.
impl fmt::Display for Location {
    ghost output = { λ location. Some (location_text location) };

    fn fmt<W: fmt::Write>(&self, f: &mut fmt::Formatter<W>) -> fmt::Result {
        f.write_str("$")?;
        for step in self.steps().iter() {
            write!(f, "{step}")?;
        }
        Ok(())
    }
}
