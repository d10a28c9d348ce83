//! A path compiled once, for many documents, that owns its text.
ghost use Rattle.std.specs.Prelude.{◌≡◌, IfOk, IfErr};
ghost use Rattle.jsonpath_paths.specs.Spelling.{IsInGrammar};
ghost use Rattle.jsonpath_select.specs.compile.Faults.{IsParseRefused};

use crate::compiled::kept_path::KeptPath;
use jsonpath_select::{Node, ParseFault, Parser};
use std::alloc::{AllocError, Global};

/// A compiled path that owns its text, for any number of documents.
///
/// ```text
/// let path = Compiled::compile(alloc, "$[0]")?;
/// let deleted = path.delete(alloc, read_document(alloc, b"[1, 2]")?)?;
/// assert!(rt; document_to_text(alloc, &deleted)?.as_str() == "[null,2]");
/// ```
pub type Compiled = KeptPath<Node>;

impl Compiled {
    /// Compiles a path text. Errors: `Text` exactly if the text is no path, or `OutOfMemory`.
    ///
    /// ```text
    /// assert!(rt; Compiled::compile(alloc, "$[0]").is_ok());
    /// assert!(rt; matches!(Compiled::compile(alloc, "$["), Err(ParseFault::Text(_))));
    /// ```
    pub fn compile(alloc: Global, path: &str) -> Result<Compiled, ParseFault>
        ensures ok { IfOk result (λ compiled. compiled ≡ path.now) }
        ensures spelled { IfOk result (λ _. IsInGrammar path.now) }
        ensures refused { IfErr result (IsParseRefused path.now) }
    {
        let path = Parser::compile(alloc, path)?;
        Ok(Compiled { path })
    }
}

/// Clones a compiled path: the clone has the same text, syntax tree and token list. The only error is out of memory.
impl Clone for Compiled {
    ghost is_clone = { λ it copy. copy ≡ it };

    fn clone(&self) -> Result<Compiled, AllocError> {
        let path = self.path.clone()?;
        Ok(Compiled { path })
    }
}
