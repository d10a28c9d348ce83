//! How a value is to look: raw, sorted, over lines, in colours.

ghost use Rattle.std.specs.Prelude.{◌≡◌};
ghost use Rattle.jpath_texts.specs.AtDepth.{is_compact, is_over_lines};

/// Whether a JSON value is written on one line, or with its items and members on lines of their own.
#[derive(Clone, Copy, Debug, Drop, PartialEq, Eq)]
pub enum Layout {
    /// A layout of a printed JSON value: on one line, without blanks.
    OneLine,
    /// A layout of a JSON value: it is written over several lines, each indented by this number of blanks for each
    /// level of nesting.
    Blanks(usize),
    /// A layout of a JSON value: it is written over several lines, each indented by one tab for each level of nesting.
    Tabs,
}

impl Layout {
    /// Whether a JSON value in this layout is written over several lines, with items and members on lines of their own.
    pub fn is_over_lines(&self) -> bool
        ensures { result ≡ is_over_lines self.now }
    {
        match self {
            Layout::OneLine => false,
            Layout::Blanks(_) | Layout::Tabs => true,
        }
    }
}

/// How a JSON value is printed: on one line or over several, in colours or not, with its members sorted or not, and a
/// text with or without its quotes and escapes.
#[derive(Clone, Copy, Debug, Drop)]
pub struct Look {
    /// Whether a value that is itself a text is written without quotes and escapes. Texts inside an array or object
    /// keep them.
    pub is_raw: bool,
    /// Whether the members of objects are written in the order of their names' bytes, at every level, instead of in the
    /// order in which they were read.
    pub is_sorted: bool,
    /// Whether the value is written on one line or over several, and how these are indented.
    pub layout: Layout,
    /// Whether names, texts, numbers and the rest of a value are written in colours.
    pub is_colored: bool,
}

impl Look {
    /// Returns whether this `Look`, which describes how JSON values are printed, prints them on one line and without
    /// colours.
    pub fn is_compact(&self) -> bool
        ensures { result ≡ is_compact self.now }
    {
        !self.layout.is_over_lines() && !self.is_colored
    }
}
