//! Whether a list's names all differ, or a union's indexes do and count from the front: no child is found twice.

ghost use Rattle.std.specs.Prelude.{map, IfOk, IsTrue};
ghost use Rattle.jsonpath_nodes.specs.step.Separate.{SelectsNoneTwice};
ghost use Rattle.jsonpath_nodes.specs.step.Steps.{listed, union};
ghost use Rattle.jsonpath_select.specs.Parts.{name_at};

use crate::step::names::name_at;
use jsonpath_nodes::NoMemory;
use jsonpath_paths::StrRange;
use std::alloc::Global;
use std::collections::BTreeSet;

// Whether the names at spans of a path text all differ.
pub(crate) fn names_are_distinct(
    alloc: Global,
    text: &str,
    spans: &[StrRange],
) -> Result<bool, NoMemory>
    ensures { IfOk result (λ distinct. IsTrue distinct → SelectsNoneTwice (listed (map (name_at text.now) spans.now))) }
{
    let mut seen = BTreeSet::new(alloc);
    for span in spans {
        let next = name_at(alloc, text, *span)?;
        if !seen.insert(next)? {
            return Ok(false);
        }
    }
    Ok(true)
}

// Whether the indexes of a union all count from the front and differ, so that none of them selects an item twice.
pub(crate) fn indexes_select_distinct_items(
    alloc: Global,
    indexes: &[i64],
) -> Result<bool, NoMemory>
    ensures { IfOk result (λ distinct. IsTrue distinct → SelectsNoneTwice (union indexes.now)) }
{
    let mut seen = BTreeSet::new(alloc);
    for index in indexes {
        let next = *index;
        if next < 0 {
            return Ok(false);
        }
        if !seen.insert(next)? {
            return Ok(false);
        }
    }
    Ok(true)
}
