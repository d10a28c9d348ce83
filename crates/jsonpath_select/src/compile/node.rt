//! `Node`, a compiled path that owns its text.
ghost use Rattle.std.specs.Prelude.{◌≡◌, string_bytes};
ghost use Rattle.jsonpath_paths.specs.Spelling.{Spells};
ghost use Rattle.jsonpath_paths.specs.tree.View.{path_of};
ghost use Rattle.jsonpath_paths.specs.Listed.{IsListOfText};

use jsonpath_paths::{ParseToken, ParserNode};
use std::alloc::{AllocError, Global};
use std::marker::Model;

/// A compiled path that owns its text, syntax tree and token list (the tree written out as a list). Named as in the
/// Rust crate `jsonpath_lib`; it is no node of a document.
///
/// ```text
/// let node = Parser::compile(alloc, "$[0]")?;
/// let document = read_document(alloc, b"[1, 2]")?;
/// assert_eq!(rt; node.count(alloc, &document)?, 1);
/// ```
#[derive(Drop)]
pub struct Node {
    text: String,
    tree: ParserNode,
    tokens: Vec<ParseToken>,
}

impl Model for Node {
    ghost use Rattle.std.specs.Prelude.{List, ℕ};
    ghost use Rattle.jsonpath_select.specs.compile.Node.{node_text, IsOneInside};

    ghost Value = { List ℕ };

    ghost view = { node_text };

    ghost invariant = { IsOneInside };
}

impl Node {
    // A path of its text, the tree that the text spells, and its token list.
    pub(crate) fn new(text: String, tree: ParserNode, tokens: Vec<ParseToken>) -> Node
        requires tree { Spells (string_bytes text) (path_of tree) }
        requires tokens { IsListOfText (string_bytes text) tokens.items }
        ensures { result ≡ string_bytes text }
    {
        Node { text, tree, tokens }
    }

    /// The text of this compiled path, as it was compiled.
    ///
    /// ```text
    /// let node = Parser::compile(alloc, "$.a")?;
    /// assert!(rt; node.text() == "$.a");
    /// ```
    pub fn text(&self) -> &str
        ensures { result.now ≡ self.now }
    {
        self.text.as_str()
    }

    // The tree that the text spells.
    pub(crate) fn tree(&self) -> &ParserNode
        ensures { Spells self.now (path_of result.now) }
    {
        &self.tree
    }

    // The token list of the path.
    pub(crate) fn tokens(&self) -> &[ParseToken]
        ensures { IsListOfText self.now result.now }
    {
        self.tokens.as_slice()
    }
}

/// Clones a compiled path: the clone has the same text, syntax tree and token list (the tree written out as a list).
/// `clone` returns a `Result`; its only error is out of memory.
impl Clone for Node {
    ghost is_clone = { λ node copy. copy ≡ node };

    fn clone(&self) -> Result<Node, AllocError> {
        let text = self.text.clone()?;
        let tree = self.tree.clone()?;
        let tokens = self.tokens.clone()?;
        Ok(Node { text, tree, tokens })
    }
}
