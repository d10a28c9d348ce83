//! Updates by a closure that may return an error.
ghost use Rattle.std.specs.Prelude.{◌≡◌, Ok, IfErr, OnOk};
ghost use Rattle.serde_json.specs.View.{view};
ghost use Rattle.jsonpath_nodes.specs.document.OfData.{document_of};
ghost use Rattle.jsonpath_select.specs.AnyPath.{ArePartsOf};
ghost use Rattle.jsonpath_select.specs.Tried.{IsTried, IsEnded, try_fault_text, error_behind};

use crate::answer::targets::targets_of;
use crate::compile::any_path::PathParts;
use crate::error::JsonPathError;
use jsonpath_nodes::try_replace_at;
use serde_json::Value;
use std::alloc::Global;
use std::error::Error;
use std::fmt;

/// The error of an update by a closure that may return an error: the closure's error, or one of the library.
///
/// ```text
/// let refuse = &mut |_old: &Value| Err::<Option<Value>, u8>(7);
/// let mut document = read_document(alloc, b"[1]")?;
/// let path = compile_path(alloc, "$[0]")?;
/// let tried = path.try_replace_in(alloc, &mut document, refuse);
/// assert!(rt; matches!(tried, Err(TryFault::Refused(7))));
/// ```
#[derive(Drop)]
pub enum TryFault<E> {
    /// An update's error: the library itself failed before calling the closure, e.g. out of memory; nothing changed.
    Unasked(JsonPathError),
    /// An error of an update by a closure: the closure's own error, which ended the update. Earlier changes remain.
    Refused(E),
}

/// Prints the error that an update by a closure has returned, be it the library's error or the closure's.
impl<E: fmt::Display> fmt::Display for TryFault<E> {
    ghost output = { try_fault_text E.output };

    fn fmt<W: fmt::Write>(&self, f: &mut fmt::Formatter<W>) -> fmt::Result {
        match self {
            TryFault::Unasked(error) => write!(f, "{error}"),
            TryFault::Refused(refusal) => write!(f, "{refusal}"),
        }
    }
}

impl<E: fmt::Display> fmt::Debug for TryFault<E> {
    ghost debug_output = { try_fault_text E.output };

    fn fmt<W: fmt::Write>(&self, f: &mut fmt::Formatter<W>) -> fmt::Result {
        write!(f, "{self}")
    }
}

impl<E: Error> Error for TryFault<E> {}

/// Converts an error of an update by a closure to its `JsonPathError`. Whether library or closure failed is lost.
impl From<TryFault<JsonPathError>> for JsonPathError {
    ghost from_gives = { λ fault error. error ≡ error_behind fault };

    fn from(fault: TryFault<JsonPathError>) -> JsonPathError {
        match fault {
            TryFault::Unasked(error) => error,
            TryFault::Refused(refusal) => refusal,
        }
    }
}

// Shows each value that the path selects below the root, where it is still there, to the closure, in document
// order, and puts what it answers in its place, or takes the value away where it answers none, until it refuses
// (`Refused`). `Unasked` where memory is refused.
pub(crate) fn try_replace_at_targets<E, F: FnMut(&Value) -> Result<Option<Value>, E>>(
    alloc: Global,
    value: &mut Value,
    path: PathParts<'_>,
    fun: &mut F,
) -> Result<(), TryFault<E>>
    requires path { ArePartsOf path.text.now path }
    requires callable { F.IsAlwaysCallable fun.old }
    ensures ok { OnOk result (IsTried F.FnMut path.entry.text.now (document_of (view value.old)) fun.old (Ok tt) fun.new (document_of (view value.new))) }
    ensures refused { IfErr result (IsEnded F.FnMut (λ e. e ≡ JsonPathError.OutOfMemory) path.entry.text.now (document_of (view value.old)) fun.old fun.new (document_of (view value.new))) }
    ensures callable { F.IsAlwaysCallable fun.new }
{
    let locations = match targets_of(alloc, value, path) {
        Ok(locations) => locations,
        Err(error) => return Err(TryFault::Unasked(error)),
    };
    match try_replace_at(value, locations.as_slice(), fun) {
        Ok(()) => Ok(()),
        Err(error) => Err(TryFault::Refused(error)),
    }
}
