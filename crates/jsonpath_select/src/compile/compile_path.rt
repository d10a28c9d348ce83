//! `compile_path`, which compiles a path text to a `PathParser` that borrows it; its error is a `JsonPathError`.
ghost use Rattle.std.specs.Prelude.{◌≡◌, IfOk, IfErr};
ghost use Rattle.jsonpath_paths.specs.Spelling.{IsInGrammar};
ghost use Rattle.jsonpath_select.specs.JsonPathErrors.{IsPathRefused};

use crate::error::{JsonPathError, path_error};
use jsonpath_paths::PathParser;
use std::alloc::Global;

/// Compiles a path text. Errors: `Path` exactly if the text is outside the grammar, or `OutOfMemory`.
///
/// ```text
/// let path = compile_path(alloc, "$[*]")?;
/// assert!(rt; path.text() == "$[*]");
/// let refused = compile_path(alloc, "$[a]");
/// assert!(rt; matches!(refused, Err(JsonPathError::Path(_))));
/// ```
pub fn compile_path<'a>(alloc: Global, text: &'a str) -> Result<PathParser<'a>, JsonPathError>
    ensures text { IfOk result (λ path. path ≡ text.now) }
    ensures spelled { IfOk result (λ _. IsInGrammar text.now) }
    ensures refused { IfErr result (IsPathRefused text.now) }
{
    match PathParser::compile(alloc, text) {
        Ok(path) => Ok(path),
        Err(error) => Err(path_error(alloc, &error)),
    }
}
