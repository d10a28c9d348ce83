//! Why nothing is written for a document: errors of reading, of numbers and of edits.

use jsonpath_nodes::NoMemory;
use std::alloc::{AllocError, AllocFailed};

/// An error: the reason why `jpath` writes nothing for the text of a document. The text is no JSON document or nests
/// too deep, a filter compares a number whose exponent doesn't fit in 128 bits, the document can't be edited as asked,
/// or memory ran out.
#[derive(Clone, Copy, Debug, Drop, PartialEq, Eq)]
pub enum DocumentRefusal {
    /// An error: a text is no JSON document, or it nests deeper than 127 levels.
    NotADocument,
    /// An error: a filter compares a number whose exponent doesn't fit in 128 bits.
    HugeExponent,
    /// An error of an edit: the text of the edited document could not be read again, mostly because it would nest too
    /// deep.
    EditNests,
    /// An error of an edit, which only a fault of the program could cause: the parts of the text that the edit would
    /// replace are not the values that its path selects; or the edited text, read again, is not the changed document.
    EditDiffers,
    /// An error: memory ran out, so `jpath` writes nothing for a text.
    OutOfMemory,
}

impl From<AllocError> for DocumentRefusal {
    ghost use Rattle.json_trees.specs.declared.refusal.DocumentRefusal.TheVariants.{OutOfMemory};
    ghost use Rattle.std.specs.Prelude.{◌≡◌};

    ghost from_gives = { λ _ e. e ≡ OutOfMemory };

    fn from(_: AllocError) -> DocumentRefusal {
        DocumentRefusal::OutOfMemory
    }
}

impl<T: Drop> From<AllocFailed<T>> for DocumentRefusal {
    ghost use Rattle.json_trees.specs.declared.refusal.DocumentRefusal.TheVariants.{OutOfMemory};
    ghost use Rattle.std.specs.Prelude.{◌≡◌};

    ghost from_gives = { λ _ e. e ≡ OutOfMemory };

    fn from(_: AllocFailed<T>) -> DocumentRefusal {
        DocumentRefusal::OutOfMemory
    }
}

impl From<NoMemory> for DocumentRefusal {
    fn from(_: NoMemory) -> DocumentRefusal {
        DocumentRefusal::OutOfMemory
    }
}
