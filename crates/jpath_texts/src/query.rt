//! Paths, compiled.

ghost use Rattle.std.specs.Prelude.{◌≡◌, ◌≢◌, IfOk, IfErr};
ghost use Rattle.jsonpath_paths.specs.Spelling.{IsInGrammar};
ghost use Rattle.jsonpath_paths.specs.declared.token.tokens.TokenError.TheVariants.{OutOfMemory};

use jsonpath_paths::{PathParser, TokenError};
use std::alloc::Global;

/// A path that the program `jpath` has compiled.
#[derive(Drop)]
pub struct Query<'a> {
    path: PathParser<'a>,
}

impl<'a> Query<'a> {
    /// Parses `text` as a path. If `text` is a path, the only possible error is `OutOfMemory`. If it is not, the call
    /// always fails, with a syntax error or with `OutOfMemory`.
    pub fn compile(alloc: Global, text: &'a str) -> Result<Query<'a>, TokenError>
        ensures found { IfOk result (λ query. (query.path ≡ text.now) × IsInGrammar text.now) }
        ensures only { IfErr result (λ e. e ≢ OutOfMemory → IsInGrammar text.now → ⊥) }
    {
        Ok(Query {
            path: PathParser::compile(alloc, text)?,
        })
    }

    /// The text of this compiled path.
    pub fn text(&self) -> &'a str
        ensures { result.now ≡ self.now.path }
    {
        self.path.text()
    }

    /// Returns, as a `PathParser`, the compiled path of this `Query`.
    pub fn path(&self) -> &PathParser<'a>
        ensures { result.now ≡ self.now.path }
    {
        &self.path
    }
}
