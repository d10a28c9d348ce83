//! The names of members, as a document stores them, and the handles to its values that have them.

ghost use Rattle.std.specs.Prelude.{◌≡◌, List, ℕ, string_bytes};

/// A trait of the names of members, as a document stores them: small handles that can be copied, such as `&String`.
///
/// ```text
/// let name = String::from_str(alloc, "a")?;
/// assert!(rt; Name::as_text(&&name) == "a");
/// ```
pub trait Name: Copy + Drop {
    ghost bytes: { Self → List ℕ };

    /// A method that implementors provide: returns the member's name itself, with escapes resolved and without quotes.
    fn as_text(&self) -> &str
        ensures { result.now ≡ bytes self.now };
}

/// Implements `Name` (a member's name) for the names of `serde_json`'s objects.
impl<'a> Name for &'a String {
    ghost bytes = { λ name. string_bytes name.now };

    #[inline(always)]
    fn as_text(&self) -> &str {
        self.as_str()
    }
}

/// Implements `Name` (a member's name) for `&str`, the names in a JSON text's tree with numbers as written.
impl<'a> Name for &'a str {
    ghost bytes = { λ name. name.now };

    #[inline(always)]
    fn as_text(&self) -> &str {
        self
    }
}

/// A trait of small handles to values, which can be copied, such as `&Value`. Its subtrait `Tree` reads through them.
///
/// ```text
/// let handle = &document;
/// assert!(rt; TreeNode::at_root(handle).value().is_object());
/// ```
pub trait Handle: Copy + Drop {
    /// An associated type, chosen by the implementor: the name of a member of an object, as the document stores it.
    type Name: Name;
}
