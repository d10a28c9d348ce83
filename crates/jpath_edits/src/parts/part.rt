//! `Part`, a part of a document's text that an edit replaces.

// A part of a text that gives way for a target.
#[derive(Clone, Copy, Drop)]
pub(crate) struct Part {
    // Where it begins.
    pub(crate) start: usize,
    // Where the name in it begins, or the value where it is no member.
    pub(crate) label: usize,
    // Where the value in it begins.
    pub(crate) value: usize,
    // Where that ends.
    pub(crate) value_end: usize,
    // Where the part ends.
    pub(crate) end: usize,
    // How many targets come before this one.
    pub(crate) target: usize,
}

impl Part {
    // The part that is a value alone, from its start to its end.
    pub(crate) fn of_value(start: usize, end: usize, target: usize) -> Part {
        Part {
            start,
            label: start,
            value: start,
            value_end: end,
            end,
            target,
        }
    }
}
