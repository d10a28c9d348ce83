//! Several paths: the error of an update by them, their compilation beside the document, and what they select together.
ghost use Rattle.std.specs.Prelude.{◌≡◌, Some, map, IfErr, IfOk};
ghost use Rattle.std.specs.List.Sorted.{IsStrictlySortedBy};
ghost use Rattle.serde_json.specs.View.{view};
ghost use Rattle.jsonpath_nodes.specs.document.OfData.{document_of};
ghost use Rattle.jsonpath_nodes.specs.place.Location.{location_cmp};
ghost use Rattle.jsonpath_lib.specs.update.Masked.{AreSelectedNodes, AreTargetsOfAll, ArePathsRefused, AreAsGood, paths_fault_text};

use crate::compiled::path_texts::{PathsFault, compile_paths, write_paths_fault};
use jsonpath_nodes::laws::{
    locations_once_in_order_ascend, spots_show_their_locations, steps_ignore_order_and_repeats,
};
use jsonpath_nodes::{Location, NoMemory, Tree, TreeNode, compute_paths, in_document_order};
use jsonpath_paths::PathParser;
use jsonpath_select::{JsonPathError, select_node_set_in_tree};
use serde_json::Value;
use std::alloc::Global;
use std::error::Error;
use std::fmt;

/// The error of masking (setting to null) or removing what several path texts select. It has the original document.
///
/// ```text
/// let document = read_document(alloc, b"[1]")?;
/// let refused = mask(alloc, document, &["$[0]", "$["]).err();
/// assert!(rt; refused.is_some_and(|fault| fault.index == Some(1) && fault.value.is_array()));
/// ```
#[derive(Drop)]
pub struct MaskFault {
    /// A field of an update's error: the index, from 0, of the first path text that is no path; `None` for no memory.
    pub index: Option<usize>,
    /// A field of an update's error: `Path`, with a message, for the first path text that is no path; or `OutOfMemory`.
    pub fault: JsonPathError,
    /// A field of an update's error: the document that was passed to the failed call, as it was before the call.
    pub value: Value,
}

/// Prints an update's error: `path`, the index (from 0), a colon and the cause; without an index, the cause alone.
impl fmt::Display for MaskFault {
    ghost output = { λ fault. Some (paths_fault_text fault.index fault.fault) };

    fn fmt<W: fmt::Write>(&self, f: &mut fmt::Formatter<W>) -> fmt::Result {
        write_paths_fault(self.index, &self.fault, f)
    }
}

impl fmt::Debug for MaskFault {
    ghost debug_output = { λ fault. Some (paths_fault_text fault.index fault.fault) };

    fn fmt<W: fmt::Write>(&self, f: &mut fmt::Formatter<W>) -> fmt::Result {
        write_paths_fault(self.index, &self.fault, f)
    }
}

impl Error for MaskFault {}

/// Converts the error of an update by several paths to its cause, `fault`; drops the index and the document.
impl From<MaskFault> for JsonPathError {
    ghost from_gives = { λ refused error. error ≡ refused.fault };

    fn from(refused: MaskFault) -> JsonPathError {
        refused.fault
    }
}

// Compiles the path texts, and answers them beside the value; the fault of one that is refused gives the value back.
pub(crate) fn compile_or_give_back<'a>(
    alloc: Global,
    value: Value,
    texts: &[&'a str],
) -> Result<(Value, Vec<PathParser<'a>>), MaskFault>
    ensures value { IfOk result (λ both. both.0 ≡ value) }
    ensures texts { IfOk result (λ both. both.1.items ≡ map (λ t. t.now) texts.now) }
    ensures refused { IfErr result (λ fault. ArePathsRefused (map (λ t. t.now) texts.now) fault.index fault.fault) }
    ensures kept { IfErr result (λ fault. fault.value ≡ value) }
{
    match compile_paths(alloc, texts) {
        Ok(compiled) => Ok((value, compiled)),
        Err(PathsFault { index, fault }) => Err(MaskFault {
            index,
            fault,
            value,
        }),
    }
}

// The locations that any of the paths selects in the value, each once, in document order.
pub(crate) fn targets_of_all(
    alloc: Global,
    value: &Value,
    paths: &[PathParser<'_>],
) -> Result<Vec<Location>, JsonPathError>
    ensures ok { IfOk result (λ found. AreTargetsOfAll paths.now (document_of (view value.now)) found.items) }
    ensures ordered { IfOk result (λ found. IsStrictlySortedBy location_cmp found.items) }
    ensures refused { IfErr result (λ e. e ≡ JsonPathError.OutOfMemory) }
{
    spots_show_their_locations();
    let spots = select_paths_in_any_order(alloc, value, paths)?;
    let found = compute_paths(alloc, spots.as_slice())?;
    Ok(found)
}

// So many nodes are put together before what comes twice among them is dropped.
const FEW: usize = 65_536;

// Nodes at what any of the paths selects in a tree, as a set: in any order, with or without repeats.
pub(crate) fn select_paths_in_any_order<T: Tree>(
    alloc: Global,
    root: T,
    paths: &[PathParser<'_>],
) -> Result<Vec<TreeNode<T>>, T::Error>
    ensures { IfOk result (λ nodes. AreSelectedNodes T.Name.bytes T.content paths.now (T.content root) nodes.items) }
{
    locations_once_in_order_ascend();
    steps_ignore_order_and_repeats();
    let mut nodes = Vec::new(alloc);
    let mut most = FEW;
    for path in paths {
        let mut found = select_node_set_in_tree(alloc, root, path)?;
        nodes.append(&mut found)?;
        nodes = once_if_many(alloc, nodes, &mut most)?;
    }
    Ok(nodes)
}

// The nodes, each place once and in order if they are more than `most`, which is then set for the next time.
fn once_if_many<T: Tree>(
    alloc: Global,
    nodes: Vec<TreeNode<T>>,
    most: &mut usize,
) -> Result<Vec<TreeNode<T>>, NoMemory>
    ensures { IfOk result (λ found. AreAsGood T.Name.bytes T.content nodes.items found.items) }
{
    locations_once_in_order_ascend();
    if nodes.as_slice().len() <= *most {
        return Ok(nodes);
    }
    let once = in_document_order(alloc, nodes.as_slice())?;
    *most = FEW.saturating_add(once.as_slice().len().saturating_mul(2));
    Ok(once)
}
