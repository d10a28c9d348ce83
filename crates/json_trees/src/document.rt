//! A document: its exact tree, and the order in which paths go through it.

ghost use Rattle.std.specs.Prelude.{◌≡◌, true, Some, IfOk, IfErr, IfSome};
ghost use Rattle.json.specs.Tree.{HasNumbers};
ghost use Rattle.json.specs.Value.{value_view};
ghost use Rattle.json_trees.specs.AsRead.{IsReadAs};
ghost use Rattle.json_trees.specs.Exact.{exact_of, IsWhyRefused};
ghost use Rattle.json_trees.specs.TreeOrder.{is_order};

use crate::exact_tree::read_exact_tree;
use crate::ordered_tree::handle::OrderedValue;
use crate::ordered_tree::order::{Order, order_of};
use crate::ordered_tree::put_in_order::put_in_order;
use crate::refusal::DocumentRefusal;
use crate::text_value::TextValue;
use json::{Scratch, Value as Exact};
use std::alloc::{AllocError, Global};

/// A JSON document: its exact tree, which keeps digits. Paths are run on its `root`, under which the members of each
/// object are taken in the order of their names.
#[derive(Drop)]
pub struct Document<'a> {
    exact: Exact<'a>,
    order: Order,
    ghost ordered: { is_order order (value_view exact) ≡ true },
}

impl<'a> Document<'a> {
    /// Reads a `Document` from a JSON text. It borrows the text and `scratch`, which stores texts with their escapes
    /// resolved. Errors: `NotADocument` if the text is no JSON document or nests deeper than 127 levels, or
    /// `OutOfMemory`.
    pub fn read(
        alloc: Global,
        text: &'a str,
        scratch: &'a mut Scratch,
    ) -> Result<Document<'a>, DocumentRefusal>
        ensures exact { IfOk result (λ document. exact_of text.now ≡ Some (value_view document.exact)) }
        ensures writable { IfOk result (λ document. HasNumbers (value_view document.exact)) }
        ensures refused { IfErr result (IsWhyRefused text.now) }
    {
        let exact = read_exact_tree(alloc, text, scratch)?;
        Ok(Document::of_exact_tree(alloc, exact)?)
    }

    /// Reads a JSON text that `serde_json` reads, and puts the members of each object in the order of their names' bytes,
    /// each name once, with its last value; numbers stay as they are written. It borrows the text and `scratch`, which
    /// stores unescaped copies of texts with escapes. Returns `None` if `serde_json` rejects the text, as it does a number
    /// too large for a float, or if memory ran out.
    pub fn read_in_order(
        alloc: Global,
        text: &'a str,
        scratch: &'a mut Scratch,
    ) -> Option<Document<'a>>
        ensures { IfSome result (λ document. IsReadAs text.now (value_view document.exact)) }
    {
        let mut exact = read_exact_tree(alloc, text, scratch).ok()?;
        match put_in_order(alloc, &mut exact) {
            Ok(true) => {
                let order = Order::AsItStands;
                Some(Document { exact, order })
            }
            _ => None,
        }
    }

    /// Makes a document from `exact`, its tree with each number as it is written. The only error is out of memory.
    pub fn of_exact_tree(alloc: Global, exact: Exact<'a>) -> Result<Document<'a>, AllocError>
        ensures { IfOk result (λ document. value_view document.exact ≡ value_view exact.entry) }
    {
        let order = order_of(alloc, &exact)?;
        Ok(Document { exact, order })
    }

    /// The exact tree of the document: numbers as written, members in the order of the text, or of their names if
    /// `read_in_order` read it.
    pub fn exact(&self) -> &Exact<'a>
        ensures { result.now ≡ self.now.exact }
    {
        &self.exact
    }

    /// The root of the document, on which paths are run: the members of each object are in the order of their names'
    /// bytes, each name once, with its last value. Comparisons of its numbers take memory from `alloc`.
    pub fn root(&self, alloc: Global) -> OrderedValue<'_, 'a>
        ensures { result.value.now ≡ self.now.exact }
    {
        OrderedValue::with_order(alloc, &self.exact, &self.order)
    }

    /// The root of the document, on which paths are run as on what `serde_json` reads: a number that is neither an `i64`
    /// nor a `u64` satisfies `!=` alone.
    pub fn text_root(&self, alloc: Global) -> TextValue<'_, 'a>
        ensures { result.ordered.value.now ≡ self.now.exact }
    {
        TextValue {
            ordered: self.root(alloc),
        }
    }
}
