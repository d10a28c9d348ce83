//! The path of a `Selector`: a `Node`, whose nodes in a document are found by the walk over its syntax tree.
ghost use Rattle.std.specs.Prelude.{◌≡◌};
ghost use Rattle.jsonpath_select.specs.selectors.Held.{text_held};

use crate::answer::select::{spots_by_walk, values_by_walk};
use crate::compile::any_path::{AnyPath, PathParts};
use crate::compile::node::Node;
use crate::error::JsonPathError;
use jsonpath_nodes::Spot;
use serde_json::Value;
use std::alloc::Global;

/// The compiled path of a `Selector`, owned or borrowed. What it selects is found by going through its syntax tree.
///
/// ```text
/// let path = WalkedPath::Own(Parser::compile(alloc, "$.a")?);
/// let document = read_document(alloc, b"{\"a\": 7}")?;
/// assert!(rt; path.count(alloc, &document)? == 1);
/// ```
#[derive(Drop)]
pub enum WalkedPath<'b> {
    /// One of the two forms in which a `Selector` has its path: a compiled path that it owns.
    Own(Node),
    /// One of the two forms in which a `Selector` has its path: a compiled path that it borrows.
    Lent(&'b Node),
}

impl<'b> WalkedPath<'b> {
    // The path, wherever it is.
    pub(crate) fn node(&self) -> &Node
        ensures { result.now ≡ text_held self.now }
    {
        match self {
            WalkedPath::Own(node) => node,
            WalkedPath::Lent(node) => *node,
        }
    }
}

impl<'b> AnyPath for WalkedPath<'b> {
    ghost spelling = { text_held };

    fn parts(&self) -> PathParts<'_> {
        self.node().parts()
    }

    fn select<'v>(&self, alloc: Global, value: &'v Value) -> Result<Vec<&'v Value>, JsonPathError> {
        values_by_walk(alloc, value, self.parts())
    }

    fn select_spots<'v>(
        &self,
        alloc: Global,
        value: &'v Value,
    ) -> Result<Vec<Spot<'v>>, JsonPathError> {
        spots_by_walk(alloc, value, self.parts())
    }
}

/// A trait for types of compiled path that can be made from a `Node`, the compiled path that owns its text. If the path
/// of a selector, such as `Selector`, is of such a type, the selector can compile path texts.
///
/// ```text
/// let path: WalkedPath<'_> = OfNode::of_node(Parser::compile(alloc, "$.a")?);
/// assert!(rt; path.parts().text == "$.a");
/// ```
pub trait OfNode: AnyPath {
    /// A method that implementors provide: converts a `Node`, a compiled path that owns its text, to this type.
    ///
    /// ```text
    /// let node: Node = OfNode::of_node(Parser::compile(alloc, "$.a")?);
    /// assert!(rt; node.text() == "$.a");
    /// ```
    fn of_node(node: Node) -> Self
        ensures { Self.spelling result ≡ node };
}

impl OfNode for Node {
    fn of_node(node: Node) -> Node {
        node
    }
}

impl<'b> OfNode for WalkedPath<'b> {
    fn of_node(node: Node) -> WalkedPath<'b> {
        WalkedPath::Own(node)
    }
}
