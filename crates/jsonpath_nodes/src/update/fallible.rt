//! Updates at a list of locations by a closure that gets a reference to the value there, and may return an error.

ghost use Rattle.std.specs.Prelude.{◌≡◌, option_map};
ghost use Rattle.serde_json.specs.View.{view};
ghost use Rattle.jsonpath_nodes.specs.document.OfData.{document_of, value_document};
ghost use Rattle.jsonpath_nodes.specs.place.Owned.{owned_steps};
ghost use Rattle.jsonpath_nodes.specs.update.Trial.{IsTry, IsTrial, Updates};
ghost use Rattle.jsonpath_nodes.specs.update.Update.{update};

use crate::place::location::{LocStep, Location};
use crate::update::single::{update_at_steps, value_at};
use serde_json::Value;

/// Updates the values at the locations one after another, in the list's order, each in the document that the earlier
/// updates left. The closure gets a reference to the value there; `Some` replaces it, `None` removes the member or
/// item. The closure's first error ends the updates and is returned: the updates before it remain, and the value for
/// which it was returned is unchanged. The closure is not called at the root, nor at a location that doesn't exist.
///
/// ```text
/// let mut document = Value::from_str(alloc, "[1, [2, 3]]")?;
/// let first = [Location::from_steps(vec![in alloc; LocStep::Index(0)]?)];
/// let refused = try_replace_at(&mut document, &first, &mut |_: &Value| Err("no"));
/// assert!(rt; refused == Err("no"));
/// ```
pub fn try_replace_at<E, F: FnMut(&Value) -> Result<Option<Value>, E>>(
    value: &mut Value,
    locations: &[Location],
    f: &mut F,
) -> Result<(), E>
    requires { F.IsAlwaysCallable f.old }
    ensures trial { IsTrial F.FnMut locations.now (document_of (view value.old)) f.old result f.new (document_of (view value.new)) }
    ensures callable { F.IsAlwaysCallable f.new }
{
    for location in locations {
        if let Err(error) = try_update(value, location.steps(), f) {
            return Err(error);
        }
    }
    Ok(())
}

// Updates the value at the end of the steps by what the closure answers: a value in its place, or None to take it away.
// Where the closure refuses, nothing changes. At the root and where nothing stands it is not asked.
fn try_update<E, F: FnMut(&Value) -> Result<Option<Value>, E>>(
    value: &mut Value,
    steps: &[LocStep],
    f: &mut F,
) -> Result<(), E>
    requires { F.IsAlwaysCallable f.old }
    ensures tried { IsTry F.FnMut (owned_steps steps.now) (document_of (view value.old)) f.old result f.new (document_of (view value.new)) }
    ensures callable { F.IsAlwaysCallable f.new }
{
    if steps.is_empty() {
        return Ok(());
    }
    let Some(shown) = value_at(value, steps) else {
        return Ok(());
    };
    match f(shown) {
        Ok(answer) => {
            replace_or_remove(value, steps, answer);
            Ok(())
        }
        Err(error) => Err(error),
    }
}

// Puts a value in place of what stands at the end of the steps, or takes that away where it is None.
fn replace_or_remove(value: &mut Value, steps: &[LocStep], answer: Option<Value>)
    ensures { document_of (view value.new) ≡ update (owned_steps steps.now) (option_map value_document answer) (document_of (view value.old)) }
{
    let mut answer = answer;
    let once = &mut move |_shown: Value| -> Option<Value>
        ensures { result ≡ answer.entry }
    { answer.take() };
    update_at_steps_unreported(value, steps, once);
}

// Updates the value at the end of the steps by what the closure answers, without telling whether the closure was asked.
fn update_at_steps_unreported<F: FnMut(Value) -> Option<Value>>(
    value: &mut Value,
    steps: &[LocStep],
    f: &mut F,
)
    requires { F.IsAlwaysCallable f.old }
    ensures { Updates F.FnMut (owned_steps steps.now) (document_of (view value.old)) f.old f.new (document_of (view value.new)) }
{
    update_at_steps(value, steps, f);
}
