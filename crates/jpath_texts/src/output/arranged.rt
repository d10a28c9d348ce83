//! A value as its members are to be written: each name once, where it occurs first or in the order of the names.

ghost use Rattle.std.specs.Prelude.{◌≡◌, None, IfOk, IfSome};
ghost use Rattle.json.specs.Tree.{HasNumbers};
ghost use Rattle.json.specs.Value.{value_view};
ghost use Rattle.jpath_texts.specs.AtDepth.{arranged};

use crate::output::names_once::{may_repeat_names, with_names_once};
use json::Value as Exact;
use json_trees::laws::trees_are_put_in_order;
use json_trees::{copy_in_order, is_tree_ordered};
use std::alloc::{AllocError, Global};

// A copy of the value with its members as they are to be written; `None` where they stand so already.
#[inline(always)]
#[tactic(auto, using(crate::proofs::OnceLemmas::numbers_once))]
pub(crate) fn rearranged<'t>(
    alloc: Global,
    value: &Exact<'t>,
    is_sorted: bool,
) -> Result<Option<Exact<'t>>, AllocError>
    ensures made { IfOk result (λ copy. IfSome copy (λ made. value_view made ≡ arranged is_sorted (value_view value.now))) }
    ensures writable { IfOk result (λ copy. IfSome copy (λ made. HasNumbers (value_view value.now) → HasNumbers (value_view made))) }
    ensures stands { IfOk result (λ copy. copy ≡ None → value_view value.now ≡ arranged is_sorted (value_view value.now)) }
{
    trees_are_put_in_order();
    if is_sorted {
        if is_tree_ordered(value) {
            return Ok(None);
        }
        return Ok(Some(copy_in_order(alloc, value)?));
    }
    if may_repeat_names(value) {
        return Ok(Some(with_names_once(alloc, value)?));
    }
    Ok(None)
}
