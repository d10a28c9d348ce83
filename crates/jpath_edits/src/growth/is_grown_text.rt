//! Whether a text, read again, is a document with something added to it or renamed in it.

ghost use Rattle.std.specs.Prelude.{◌≡◌, map, IfOk, IsTrue, Some};
ghost use Rattle.json.specs.Value.{value_view};
ghost use Rattle.jsonpath_nodes.specs.place.Owned.{owned_steps};
ghost use Rattle.jpath_edits.specs.Grown.{grown_all};
ghost use Rattle.json_trees.specs.Exact.{exact_of};

use crate::growth::Growth;
use crate::growth::take_back::take_back;
use crate::same_exact_tree::is_same_exact_tree;
use jpath_texts::{DocumentRefusal, read_exact_tree};
use json::{Scratch, Value as Exact};
use jsonpath_nodes::LocStep;
use std::alloc::{AllocError, Global};

// Whether a text, read, is the document with the growth made in each of these containers. `EditNests` where the text
// nests too deep to be read.
pub(crate) fn is_grown_text(
    alloc: Global,
    written: &str,
    exact: &Exact<'_>,
    containers: &[&[LocStep]],
    growth: &Growth<'_, '_>,
) -> Result<bool, DocumentRefusal>
    ensures { IfOk result (λ right. IsTrue right → exact_of written.now ≡ Some (grown_all growth.now (map (λ c. owned_steps c.now) containers.now) (value_view exact.now))) }
{
    let mut scratch = Scratch::new(alloc);
    match read_exact_tree(alloc, written, &mut scratch) {
        Ok(found) => Ok(is_grown_tree(alloc, found, exact, containers, growth)?),
        Err(DocumentRefusal::OutOfMemory) => Err(DocumentRefusal::OutOfMemory),
        Err(_) => Err(DocumentRefusal::EditNests),
    }
}

// Whether a tree is the other one with the growth made in each of these containers: taken back in one after another,
// the other is left.
fn is_grown_tree<'t, 'g: 't>(
    alloc: Global,
    found: Exact<'t>,
    exact: &Exact<'_>,
    containers: &[&[LocStep]],
    growth: &Growth<'g, '_>,
) -> Result<bool, AllocError>
    ensures { IfOk result (λ right. IsTrue right → value_view found.entry ≡ grown_all growth.now (map (λ c. owned_steps c.now) containers.now) (value_view exact.now)) }
{
    let mut left = found;
    for container in containers {
        if !take_back(alloc, &mut left, *container, growth)? {
            return Ok(false);
        }
    }
    Ok(is_same_exact_tree(&left, exact))
}
