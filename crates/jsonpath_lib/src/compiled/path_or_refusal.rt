//! `CompiledPath`, a path text compiled for many documents: the path, or an error that each call returns.
ghost use Rattle.std.specs.Prelude.{◌≡◌, Ok, MatchResult, map, IfOk, IfErr};
ghost use Rattle.serde_json.specs.View.{view};
ghost use Rattle.jsonpath_nodes.specs.document.OfData.{document_of};
ghost use Rattle.jsonpath_select.specs.JsonPathErrors.{IsFaultError};
ghost use Rattle.jsonpath_lib.specs.compiled.Kept.{KeepsPath, AnswersKept, RefusesKept};

use crate::compiled::owned_path::Compiled;
use jsonpath_select::{JsonPathError, ParseFault, error_of_parse_fault};
use serde_json::Value;
use std::alloc::Global;

/// The result of compiling a path text: a path that owns its text, or the error, which each `select` then returns.
///
/// ```text
/// let document = read_document(alloc, b"[1, 2]")?;
/// assert_eq!(rt; compile(alloc, "$[0]").select(alloc, &document)?.len(), 1);
/// ```
#[derive(Drop)]
pub struct CompiledPath {
    outcome: Result<Compiled, ParseFault>,
}

/// Compiles a path text. The call itself does not fail: an error is stored, and each `select` returns it.
///
/// ```text
/// let document = read_document(alloc, b"[1, 2, 3]")?;
/// assert_eq!(rt; compile(alloc, "$[1:]").select(alloc, &document)?.len(), 2);
/// let refused = compile(alloc, "$[").select(alloc, &document);
/// assert!(rt; matches!(refused, Err(JsonPathError::Path(_))));
/// ```
pub fn compile(alloc: Global, path: &str) -> CompiledPath
    ensures { KeepsPath path.now result }
{
    CompiledPath {
        outcome: Compiled::compile(alloc, path),
    }
}

impl CompiledPath {
    // The kept path; or, where the path text was refused, the error for that refusal.
    pub(crate) fn path_or_error(&self, alloc: Global) -> Result<&Compiled, JsonPathError>
        ensures ok { IfOk result (λ path. self.now.outcome ≡ Ok path.now) }
        ensures refused { IfErr result (λ error. MatchResult self.now.outcome (λ path. ⊥) (λ fault. IsFaultError fault error)) }
    {
        match &self.outcome {
            Ok(path) => Ok(path),
            Err(fault) => Err(error_of_parse_fault(alloc, fault)),
        }
    }

    /// The values that the path selects in the document, in the order found, with duplicates. They borrow the document
    /// alone. Errors: `Path` if the text is no path, with a message that shows the text and a row of `^` up to the
    /// error in it; or `OutOfMemory`, if memory ran out in the compilation or in this call.
    ///
    /// ```text
    /// let document = read_document(alloc, b"[1, 2, 3]")?;
    /// let found = compile(alloc, "$[1:]").select(alloc, &document)?;
    /// assert!(rt; list_to_text(alloc, found.as_slice())?.as_str() == "[2,3]");
    /// ```
    pub fn select<'v>(
        &self,
        alloc: Global,
        value: &'v Value,
    ) -> Result<Vec<&'v Value>, JsonPathError>
        ensures ok { IfOk result (λ found. AnswersKept self.now (document_of (view value.now)) (map (λ v. document_of (view v.now)) found.items)) }
        ensures refused { IfErr result (RefusesKept self.now) }
    {
        self.path_or_error(alloc)?.select(alloc, value)
    }
}
