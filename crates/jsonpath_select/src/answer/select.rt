//! What a compiled path or a bare token list selects in a value, as nodes and as values.
ghost use Rattle.std.specs.Prelude.{◌≡◌, map, true, IfOk, IfErr};
ghost use Rattle.serde_json.specs.View.{view};
ghost use Rattle.jsonpath_nodes.specs.document.OfData.{document_of};
ghost use Rattle.jsonpath_nodes.specs.place.SpotPlace.{StandAt, place_location, place_value};
ghost use Rattle.jsonpath_nodes.specs.place.Mark.{MarksStandAt};
ghost use Rattle.jsonpath_paths.specs.Listed.{IsListOf, IsSomePath};
ghost use Rattle.jsonpath_select.specs.AnyPath.{ArePartsOf};
ghost use Rattle.jsonpath_select.specs.Meaning.{sel, Selects, SelectsNodes, SelectsNodeSet, SelectsSet, SelectsSpots};
ghost use Rattle.jsonpath_paths.specs.tree.Tree.{Path};

use crate::answer::of_spots::values_of_selected_nodes;
use crate::compile::any_path::{AnyPath, PathParts};
use crate::error::JsonPathError;
use crate::machine::machine::Machine;
use crate::machine::manner::manner_of_token_list;
use crate::walk::follower::Follower;
use jsonpath_nodes::{Halt, Spot, Tree, TreeNode};
use jsonpath_paths::{ParseToken, PathParser};
use serde_json::Value;
use std::alloc::Global;

/// The nodes that the path selects in the value, in the order in which the path finds them, with duplicates. They
/// borrow only the value. The only error is `OutOfMemory`.
///
/// ```text
/// let document = read_document(alloc, b"[1, 2, 3]")?;
/// let path = compile_path(alloc, "$[1:]")?;
/// assert_eq!(rt; select_path(alloc, &document, &path)?.len(), 2);
/// ```
pub fn select_path<'a>(
    alloc: Global,
    json: &'a Value,
    path: &PathParser<'_>,
) -> Result<Vec<Spot<'a>>, JsonPathError>
    ensures ok { IfOk result (λ found. SelectsSpots path.now (document_of (view json.now)) found.items) }
    ensures refused { IfErr result (λ e. e ≡ JsonPathError.OutOfMemory) }
{
    Ok(nodes_by_parts(alloc, json, path.parts())?)
}

/// The nodes that a path selects in the value. The path is given not by its text but by its token list (its syntax tree
/// written out as a list). The nodes come in the order in which the path's steps find them, with duplicates, and borrow
/// only the value. The only error is `OutOfMemory`.
///
/// Precondition, which holds if `tokens_fit` returned true for the same text and tokens: `tokens` is the token list of
/// some path, however deeply nested, and `text` has a name, quoted or not, at each span in `tokens`. Only these names
/// are read from `text`, so it need not be a path.
///
/// ```text
/// let document = read_document(alloc, br#"{"a": 1}"#)?;
/// let tokens = [ParseToken::Absolute, ParseToken::In, ParseToken::Key(StrRange::new(2, 1))];
/// if tokens_fit(alloc, "$.a", &tokens)? {
///     let spots = select_tokens(alloc, &document, "$.a", &tokens)?;
///     assert_eq!(rt; spots.len(), 1);
/// }
/// ```
pub fn select_tokens<'a>(
    alloc: Global,
    json: &'a Value,
    text: &str,
    tokens: &[ParseToken],
) -> Result<Vec<Spot<'a>>, JsonPathError>
    requires { IsSomePath text.now tokens.now }
    ensures ok { IfOk result (λ found. (p : Path) → IsListOf text.now p tokens.now → StandAt (document_of (view json.now)) (sel text.now (document_of (view json.now)) p) found.items) }
    ensures refused { IfErr result (λ e. e ≡ JsonPathError.OutOfMemory) }
{
    Ok(nodes_by_tokens(alloc, json, text, tokens)?)
}

/// The nodes that the path selects in the value: the same set as from `select_path`, in any order, with or without
/// duplicates. Up to constant and logarithmic factors, the time is at most the path's length times the document's size
/// times the document's depth (times the square of this depth instead, if a filter's condition has `..`), even if
/// several `..` reach a node in many ways. The only error: `OutOfMemory`.
///
/// ```text
/// let document = read_document(alloc, b"[[[1]]]")?;
/// let path = compile_path(alloc, "$..*..*")?;
/// assert_eq!(rt; select_path_in_any_order(alloc, &document, &path)?.len(), 2);
/// ```
pub fn select_path_in_any_order<'a>(
    alloc: Global,
    json: &'a Value,
    path: &PathParser<'_>,
) -> Result<Vec<Spot<'a>>, JsonPathError>
    ensures ok { IfOk result (λ found. SelectsSet path.now (document_of (view json.now)) found.items) }
    ensures refused { IfErr result (λ e. e ≡ JsonPathError.OutOfMemory) }
{
    Ok(node_set_by_parts(alloc, json, path.parts())?)
}

/// The values that the path selects in a document, in the order in which the path finds them, with duplicates. The
/// document is given by its root value, of any type that implements the trait `Tree`, such as `&Value` or a type whose
/// numbers are as a JSON text writes them. The error is that type's `Tree::Error`: a number can't be compared, or
/// memory ran out.
///
/// ```text
/// let document = read_document(alloc, b"[1, 2, 3]")?;
/// let path = compile_path(alloc, "$[1:]")?;
/// assert!(rt; matches!(select_in_tree(alloc, &document, &path), Ok(found) if found.len() == 2));
/// ```
pub fn select_in_tree<T: Tree, P: AnyPath>(
    alloc: Global,
    root: T,
    path: &P,
) -> Result<Vec<T>, T::Error>
    ensures { IfOk result (λ found. Selects (P.spelling path.now) (T.content root) (map T.content found.items)) }
{
    values_in_tree(alloc, root, path.parts())
}

/// The nodes (values with their locations) that the path selects in a document, in the order in which the path finds
/// them, with duplicates. The document is given by its root value, of any type that implements the trait `Tree`, such
/// as `&Value`. The error is that type's `Tree::Error`: a number can't be compared, or memory ran out.
///
/// ```text
/// let document = read_document(alloc, b"[1, 2, 3]")?;
/// let path = compile_path(alloc, "$[2]")?;
/// let nodes = select_nodes_in_tree(alloc, &document, &path)?;
/// assert!(rt; nodes[0].location(alloc)?.to_string(alloc)?.as_str() == "$[2]");
/// ```
pub fn select_nodes_in_tree<T: Tree, P: AnyPath>(
    alloc: Global,
    root: T,
    path: &P,
) -> Result<Vec<TreeNode<T>>, T::Error>
    ensures { IfOk result (λ found. SelectsNodes T.Name.bytes T.content (P.spelling path.now) (T.content root) found.items) }
{
    nodes_by_parts(alloc, root, path.parts())
}

/// The nodes (values with their locations) that the path selects in a document: the same set as from
/// `select_nodes_in_tree`, in any order, with or without duplicates. The time is bounded as that of
/// `select_path_in_any_order`. The document is given by its root value, of any type that implements the trait `Tree`,
/// such as `&Value`. The error is that type's `Tree::Error`: a number can't be compared, or memory ran out.
///
/// ```text
/// let document = read_document(alloc, b"[[[1]]]")?;
/// let path = compile_path(alloc, "$..*..*")?;
/// assert_eq!(rt; select_node_set_in_tree(alloc, &document, &path)?.len(), 2);
/// ```
pub fn select_node_set_in_tree<T: Tree, P: AnyPath>(
    alloc: Global,
    root: T,
    path: &P,
) -> Result<Vec<TreeNode<T>>, T::Error>
    ensures { IfOk result (λ found. SelectsNodeSet T.Name.bytes T.content (P.spelling path.now) (T.content root) found.items) }
{
    node_set_by_parts(alloc, root, path.parts())
}

// Nodes at what a token list selects in a tree, in its order, by the machine.
fn nodes_by_tokens<T: Tree>(
    alloc: Global,
    root: T,
    text: &str,
    tokens: &[ParseToken],
) -> Result<Vec<TreeNode<T>>, T::Error>
    requires { IsSomePath text.now tokens.now }
    ensures { IfOk result (λ found. (p : Path) → IsListOf text.now p tokens.now → MarksStandAt true (place_location T.Name.bytes) (place_value T.content) (T.content root) (sel text.now (T.content root) p) found.items) }
{
    let machine = Machine {
        alloc,
        root: &TreeNode::at_root(root),
        text,
        by_sets: false,
    };
    machine.select_by_tokens(tokens)
}

// Nodes at what the path selects in a tree, in the path's order.
pub(crate) fn nodes_by_parts<T: Tree>(
    alloc: Global,
    root: T,
    path: PathParts<'_>,
) -> Result<Vec<TreeNode<T>>, T::Error>
    requires { ArePartsOf path.text.now path }
    ensures { IfOk result (λ found. SelectsNodes T.Name.bytes T.content path.entry.text.now (T.content root) found.items) }
{
    nodes_by_tokens(alloc, root, path.text, path.tokens)
}

// The values that the path selects in a tree, in the path's order, by the machine. It follows values alone, and nodes
// only where values can't tell whether a location is met twice.
pub(crate) fn values_in_tree<T: Tree>(
    alloc: Global,
    root: T,
    path: PathParts<'_>,
) -> Result<Vec<T>, T::Error>
    requires { ArePartsOf path.text.now path }
    ensures { IfOk result (λ found. Selects path.entry.text.now (T.content root) (map T.content found.items)) }
{
    let machine = Machine {
        alloc,
        root: &root,
        text: path.text,
        by_sets: false,
    };
    match machine.select_by_tokens(path.tokens) {
        Ok(found) => Ok(found),
        Err(Halt::Refused(error)) => Err(error),
        Err(Halt::NeedsLocations) => {
            let nodes = nodes_by_parts(alloc, root, path)?;
            let found = values_of_selected_nodes(alloc, nodes.as_slice())?;
            Ok(found)
        }
    }
}

// Nodes at what the path selects in a tree, as a set.
pub(crate) fn node_set_by_parts<T: Tree>(
    alloc: Global,
    root: T,
    path: PathParts<'_>,
) -> Result<Vec<TreeNode<T>>, T::Error>
    requires { ArePartsOf path.text.now path }
    ensures { IfOk result (λ found. SelectsNodeSet T.Name.bytes T.content path.entry.text.now (T.content root) found.items) }
{
    let machine = Machine {
        alloc,
        root: &TreeNode::at_root(root),
        text: path.text,
        by_sets: false,
    };
    machine.select_set_by_tokens(path.tokens)
}

// Nodes at what the path selects in the value, in the path's order, by the walk over its syntax tree.
pub(crate) fn spots_by_walk<'a>(
    alloc: Global,
    json: &'a Value,
    path: PathParts<'_>,
) -> Result<Vec<Spot<'a>>, JsonPathError>
    requires { ArePartsOf path.text.now path }
    ensures ok { IfOk result (λ found. SelectsSpots path.entry.text.now (document_of (view json.now)) found.items) }
    ensures refused { IfErr result (λ e. e ≡ JsonPathError.OutOfMemory) }
{
    let manner = manner_of_token_list(alloc, path.text, path.tokens)?;
    let walk = Follower {
        alloc,
        root: &Spot::root(alloc, json),
        text: path.text,
        sets: manner.decides_by_sets,
    };
    Ok(walk.select_list(manner.keeps_what_leads_on(), path.tree)?)
}

// The values that the path selects in the value, in the path's order, by the walk over its syntax tree. It follows
// references, and nodes only where references can't tell whether a place is met twice.
pub(crate) fn values_by_walk<'a>(
    alloc: Global,
    json: &'a Value,
    path: PathParts<'_>,
) -> Result<Vec<&'a Value>, JsonPathError>
    requires { ArePartsOf path.text.now path }
    ensures ok { IfOk result (λ found. Selects path.entry.text.now (document_of (view json.now)) (map (λ v. document_of (view v.now)) found.items)) }
    ensures refused { IfErr result (λ e. e ≡ JsonPathError.OutOfMemory) }
{
    let manner = manner_of_token_list(alloc, path.text, path.tokens)?;
    let walk = Follower {
        alloc,
        root: &json,
        text: path.text,
        sets: manner.decides_by_sets,
    };
    match walk.select_list(manner.keeps_what_leads_on(), path.tree) {
        Ok(found) => Ok(found),
        Err(Halt::Refused(_)) => Err(JsonPathError::OutOfMemory),
        Err(Halt::NeedsLocations) => {
            let spots = spots_by_walk(alloc, json, path)?;
            let found = values_of_selected_nodes(alloc, spots.as_slice())?;
            Ok(found)
        }
    }
}
