//! A path compiled once, for many documents, shared by its copies.
ghost use Rattle.std.specs.Prelude.{◌≡◌, IfOk, IfErr};
ghost use Rattle.jsonpath_paths.specs.Spelling.{IsInGrammar};
ghost use Rattle.jsonpath_select.specs.JsonPathErrors.{IsPathRefused};

use crate::compiled::kept_path::KeptPath;
use jsonpath_paths::PathParser;
use jsonpath_select::{JsonPathError, compile_path};
use std::alloc::{AllocError, Global};
use std::rc::Rc;

/// A compiled path that borrows its text, for any number of documents. Its clones share one compiled path.
///
/// ```text
/// let path = PathCompiled::compile(alloc, "$[?(@ == 2)]")?;
/// assert!(rt; path.exists(alloc, &read_document(alloc, b"2")?)?);
/// assert!(rt; !path.exists(alloc, &read_document(alloc, b"3")?)?);
/// ```
pub type PathCompiled<'a> = KeptPath<Rc<PathParser<'a>>>;

impl<'a> PathCompiled<'a> {
    /// Compiles a path text. Errors: `Path` exactly if the text is no path, or `OutOfMemory`.
    ///
    /// ```text
    /// assert!(rt; PathCompiled::compile(alloc, "$[0]").is_ok());
    /// assert!(rt; matches!(PathCompiled::compile(alloc, "$["), Err(JsonPathError::Path(_))));
    /// ```
    pub fn compile(alloc: Global, text: &'a str) -> Result<PathCompiled<'a>, JsonPathError>
        ensures ok { IfOk result (λ compiled. compiled ≡ text.now) }
        ensures spelled { IfOk result (λ _. IsInGrammar text.now) }
        ensures refused { IfErr result (IsPathRefused text.now) }
    {
        let path = compile_path(alloc, text)?;
        match Rc::new(alloc, path) {
            Ok(path) => Ok(PathCompiled { path }),
            Err(_) => Err(JsonPathError::OutOfMemory),
        }
    }
}

impl Clone for PathCompiled<'_> {
    ghost is_clone = { λ it copy. copy ≡ it };

    /// Returns another `PathCompiled` that shares the compiled path of this one. The call allocates no memory. It
    /// returns an error only if there would be more clones than the shared path's reference count can count.
    fn clone(&self) -> Result<Self, AllocError> {
        let path = self.path.clone()?;
        Ok(PathCompiled { path })
    }
}
