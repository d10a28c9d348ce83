//! Lemmas that callers cite. Each is the contract of an empty function.

ghost use Rattle.jpath_core.specs.Printable.{EscapesHold};

pub use json_trees::laws::{document_has_same_locations, one_number_one_key};

/// Lemma: if the control characters of a text are escaped, as they are when a location is printed, the result has no
/// control character, so neither a tab nor a line end. A text without control characters is printed as it is.
pub fn escapes_hold()
    ensures { EscapesHold }
{}
