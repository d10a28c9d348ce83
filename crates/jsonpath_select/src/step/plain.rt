//! A plain step: what its token selects from nodes.

ghost use Rattle.std.specs.Prelude.{◌≡◌, IfOk, if◌then◌else◌};
ghost use Rattle.jsonpath_nodes.specs.place.Mark.{MarksLeadBy};
ghost use Rattle.jsonpath_nodes.specs.step.Steps.{step as steps_on, all_below};
ghost use Rattle.jsonpath_nodes.specs.step.Strides.{plain_in};
ghost use Rattle.jsonpath_select.specs.Parts.{plain_of};

use crate::step::index::decimal_to_index;
use crate::step::names::{name_at, names_at};
use jsonpath_nodes::steps_on_marks::stride_from_each;
use jsonpath_nodes::{Mark, NoMemory, Selection, Stride};
use jsonpath_paths::ParseToken;
use std::alloc::Global;

// Where the plain step by a token leads from the marks, one after the other; with `leaves`, also from all below.
pub(crate) fn marks_after_plain_step<M: Mark>(
    alloc: Global,
    text: &str,
    leaves: bool,
    token: &ParseToken,
    marks: &[M],
) -> Result<Vec<M>, NoMemory>
    ensures { IfOk result (λ found. MarksLeadBy M.located M.stand M.content (λ doc ls. steps_on doc (plain_of text.now token.now) (if leaves then all_below doc ls else ls)) marks.now found.items) }
{
    let stride = Stride {
        leaves,
        selection: selection_of_token(alloc, text, token)?,
    };
    Ok(stride_from_each(alloc, marks, &stride)?)
}

// What the plain step by a token selects of a value, its names read from the path's text; a token of no step: nothing.
pub(crate) fn selection_of_token<'t>(
    alloc: Global,
    text: &'t str,
    token: &'t ParseToken,
) -> Result<Selection<'t>, NoMemory>
    ensures { IfOk result (λ selection. plain_in selection ≡ plain_of text.now token.now) }
{
    match token {
        ParseToken::All => Ok(Selection::Every),
        ParseToken::Key(span) => Ok(Selection::Named(name_at(alloc, text, *span)?)),
        ParseToken::Keys(spans) => Ok(Selection::Listed(names_at(alloc, text, spans.as_slice())?)),
        ParseToken::Number(decimal) => match decimal_to_index(*decimal) {
            Some(n) => Ok(Selection::Nth(n)),
            None => Ok(Selection::Listed(Vec::new(alloc))),
        },
        ParseToken::Union(ns) => Ok(Selection::Union(ns.as_slice())),
        ParseToken::Range(from, to, step) => Ok(Selection::Range(*from, *to, *step)),
        _ => Ok(Selection::Listed(Vec::new(alloc))),
    }
}
