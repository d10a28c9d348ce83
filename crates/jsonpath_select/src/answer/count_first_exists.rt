//! The first of the values that a path selects, and whether there is any.
ghost use Rattle.std.specs.Prelude.{option_map, IfOk};
ghost use Rattle.jsonpath_select.specs.answer.Counted.{IsFirstOf, TellsIfAny};
ghost use Rattle.jsonpath_select.specs.AnyPath.{ArePartsOf};
ghost use Rattle.jsonpath_select.specs.Meaning.{Selects};

use crate::answer::select::node_set_by_parts;
use crate::compile::any_path::{AnyPath, PathParts};
use crate::machine::machine::Machine;
use crate::machine::manner::manner_of_token_list;
use jsonpath_nodes::laws::locations_once_in_order_ascend;
use jsonpath_nodes::{Halt, Tree, TreeNode};
use std::alloc::Global;

/// The first of the values that the path selects in a document, in the order in which the path finds them, or `None`.
/// The document is given by its root value, of any type that implements the trait `Tree`, such as `&Value`. The error is
/// that type's `Tree::Error`: a number can't be compared, or memory ran out.
///
/// ```text
/// let document = read_document(alloc, b"[1, 2, 3]")?;
/// let path = compile_path(alloc, "$[2,0]")?;
/// let first = first_in_tree(alloc, &document, &path)?;
/// assert!(rt; matches!(first, Some(value) if value.as_u64() == Some(3)));
/// ```
pub fn first_in_tree<T: Tree, P: AnyPath>(
    alloc: Global,
    root: T,
    path: &P,
) -> Result<Option<T>, T::Error>
    ensures { IfOk result (λ first. IsFirstOf (Selects (P.spelling path.now) (T.content root)) (option_map T.content first)) }
{
    first_by_parts(alloc, root, path.parts())
}

/// Whether the path selects any value in a document. The document is given by its root value, of any type that
/// implements the trait `Tree`, such as `&Value`. The error is that type's `Tree::Error`: a number can't be compared, or
/// memory ran out.
///
/// ```text
/// let document = read_document(alloc, b"[1, 2, 3]")?;
/// let path = compile_path(alloc, "$[*][?(@ > 2)]")?;
/// assert!(rt; exists_in_tree(alloc, &document, &path)?);
/// ```
pub fn exists_in_tree<T: Tree, P: AnyPath>(
    alloc: Global,
    root: T,
    path: &P,
) -> Result<bool, T::Error>
    ensures { IfOk result (TellsIfAny (Selects (P.spelling path.now) (T.content root))) }
{
    exists_by_parts(alloc, root, path.parts())
}

// The first of the values that the path selects, in the path's order, if there is one, by the machine. It follows
// values alone, and nodes only where values can't tell whether a place is met twice.
pub(crate) fn first_by_parts<T: Tree>(
    alloc: Global,
    root: T,
    path: PathParts<'_>,
) -> Result<Option<T>, T::Error>
    requires { ArePartsOf path.text.now path }
    ensures { IfOk result (λ first. IsFirstOf (Selects path.entry.text.now (T.content root)) (option_map T.content first)) }
{
    let machine = Machine {
        alloc,
        root: &root,
        text: path.text,
        by_sets: false,
    };
    match machine.first_by_tokens(path.tokens) {
        Ok(found) => match found.first() {
            Some(value) => Ok(Some(*value)),
            None => Ok(None),
        },
        Err(Halt::Refused(error)) => Err(error),
        Err(Halt::NeedsLocations) => {
            let machine = Machine {
                alloc,
                root: &TreeNode::at_root(root),
                text: path.text,
                by_sets: false,
            };
            let found = machine.first_by_tokens(path.tokens)?;
            match found.first() {
                Some(node) => Ok(Some(node.value())),
                None => Ok(None),
            }
        }
    }
}

// Whether the path selects a value. If a path is decided by sets, its set is found; else the first value is looked for.
pub(crate) fn exists_by_parts<T: Tree>(
    alloc: Global,
    root: T,
    path: PathParts<'_>,
) -> Result<bool, T::Error>
    requires { ArePartsOf path.text.now path }
    ensures { IfOk result (TellsIfAny (Selects path.entry.text.now (T.content root))) }
{
    if manner_of_token_list(alloc, path.text, path.tokens)?.is_better_by_sets() {
        locations_once_in_order_ascend();
        let set = node_set_by_parts(alloc, root, path)?;
        return Ok(!set.as_slice().is_empty());
    }
    let first = first_by_parts(alloc, root, path)?;
    Ok(first.is_some())
}
