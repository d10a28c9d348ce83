//! `Atom`, what a comparison uses of a value.

ghost use Rattle.std.specs.Prelude.{◌≡◌, option_map};
ghost use Rattle.serde_json.specs.View.{view, number_view};
ghost use Rattle.jsonpath_nodes.specs.document.OfData.{document_of};
ghost use Rattle.jsonpath_paths.specs.Numbers.{decimal_units};
ghost use Rattle.jsonpath_nodes.specs.compare.Comparisons.{units_of, seen};
ghost use Rattle.jsonpath_nodes.specs.compare.Atoms.{seen_by};

use jsonpath_paths::Decimal;
use serde_json::{Number, Value};

/// What a comparison in a filter uses of a JSON value or of a literal of the path: its kind, and the content of a
/// boolean, a number or a text. `N` is the type of its numbers: `Decimal` if the path is run on a `Value`.
///
/// ```text
/// assert!(rt; matches!(Atom::of(&Value::Bool(true)), Atom::Bool(true)));
/// ```
#[derive(Clone, Copy, Debug)]
pub enum Atom<'a, N = Decimal> {
    /// One kind of value, as comparisons see it: the JSON value `null`.
    Null,
    /// One kind of value, as comparisons see it: a boolean, `true` or `false`.
    Bool(bool),
    /// One kind of value, as comparisons see it: a number, of the type `N`. If `N` is `Decimal`, it is an `i64`, a
    /// `u64`, or a number literal of a path; such a literal has at most 18 decimal places, and its number is exact.
    Number(N),
    /// One kind of value, as comparisons see it: a text, that is, a JSON string or a quoted text of a path. The field has its
    /// content, without the quotes and with the escapes resolved.
    Text(&'a str),
    /// One kind of value, as comparisons see it: a number that is neither an `i64` nor a `u64`, such as 1.5. Its value is not
    /// kept: any comparison with it by `!=` holds, and no other comparison does.
    Unread,
    /// An array, as a value to be compared. Its items are not stored, since comparisons don't use them.
    List,
    /// An object, as a value to be compared. Its members are not stored, since comparisons don't use them.
    Object,
}

/// Converts the number to a decimal; `None` if it is neither an `i64` nor a `u64`, such as 1.5.
///
/// ```text
/// let seven = to_num(&Number::from(7u64));
/// assert!(rt; seven == Some(Decimal::of_u64(7)));
/// ```
pub fn to_num(number: &Number) -> Option<Decimal>
    ensures { option_map (λ d. decimal_units d) result ≡ units_of (number_view number.now) }
{
    if let Some(whole) = number.as_u64() {
        Some(Decimal::of_u64(whole))
    } else if let Some(whole) = number.as_i64() {
        Some(Decimal::of_i64(whole))
    } else {
        None
    }
}

impl<'a> Atom<'a> {
    /// Makes a value's `Atom` for comparisons: its kind, with the content of a boolean, text, `i64` or `u64`.
    ///
    /// ```text
    /// assert!(rt; matches!(Atom::of(&Value::Null), Atom::Null));
    /// ```
    pub fn of(value: &'a Value) -> Atom<'a>
        ensures { seen_by result ≡ seen (document_of (view value.now)) }
    {
        match value {
            Value::Null => Atom::Null,
            Value::Bool(b) => Atom::Bool(*b),
            Value::Number(n) => match to_num(n) {
                Some(d) => Atom::Number(d),
                None => Atom::Unread,
            },
            Value::String(s) => Atom::Text(s.as_str()),
            Value::Array(_) => Atom::List,
            Value::Object(_) => Atom::Object,
        }
    }
}
