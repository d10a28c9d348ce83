//! Updates at each of a list of locations, one after another. To delete is to put null, as in the Rust crate.

ghost use Rattle.std.specs.Prelude.{◌≡◌};
ghost use Rattle.serde_json.specs.View.{view};
ghost use Rattle.jsonpath_nodes.specs.document.OfData.{document_of};
ghost use Rattle.jsonpath_nodes.specs.update.Topmost.{nulled};
ghost use Rattle.jsonpath_nodes.specs.update.Run.{RunsWith};

use crate::place::location::Location;
use crate::update::single::update_at;
use serde_json::Value;

/// Updates the values at the locations one after another, in the list's order, each in the document that the earlier
/// updates left. The closure gets the value there; `Some` replaces it, `None` removes the member or item. The closure
/// is not called at the root, nor at a location that doesn't exist.
///
/// ```text
/// let mut document = Value::from_str(alloc, "[1, [2, 3]]")?;
/// let first = [Location::from_steps(vec![in alloc; LocStep::Index(0)]?)];
/// replace_at(&mut document, &first, &mut |_: Value| Some(Value::Null));
/// assert!(rt; document.to_string(alloc)?.as_str() == "[null,[2,3]]");
/// ```
pub fn replace_at<F: FnMut(Value) -> Option<Value>>(
    value: &mut Value,
    locations: &[Location],
    f: &mut F,
)
    requires { F.IsAlwaysCallable f.old }
    ensures run { RunsWith F.FnMut locations.now (document_of (view value.old)) f.old f.new (document_of (view value.new)) }
    ensures callable { F.IsAlwaysCallable f.new }
{
    for location in locations {
        let _asked = update_at(value, location, f);
    }
}

/// Replaces, in a document, the value at each location of a list by null. The root and locations that don't exist are
/// skipped. A location that is below another one of the list is skipped, too, unless that other one is the root. The
/// locations may come in any order and repeat.
///
/// ```text
/// let mut document = read_document(alloc, b"[1, [2, 3]]")?;
/// let path = compile_path(alloc, "$..[1]")?;
/// let spots = select_path(alloc, &document, &path)?;
/// let locations = compute_paths(alloc, spots.as_slice())?;
/// drop(spots);
/// delete_at(&mut document, locations.as_slice());
/// assert!(rt; document_to_text(alloc, &document)?.as_str() == "[1,null]");
/// ```
pub fn delete_at(value: &mut Value, locations: &[Location])
    ensures { document_of (view value.new) ≡ nulled locations.now (document_of (view value.old)) }
{
    replace_at(value, locations, &mut |_handed: Value| Some(Value::Null));
}
