//! Puts what has names in their order, each name once.

ghost use Rattle.std.specs.Prelude.{◌≡◌, ◌≤◌, ◌<◌, ◌-◌, [], get_or, length, IfOk, OnOk};
ghost use Rattle.std.specs.List.{insert, remove};
ghost use Rattle.json_trees.specs.TreeOrder.{by_names, put_each, put_from};

use std::alloc::{AllocError, Global};
use std::cmp::Ordering;
use std::collections::BTreeMap;
use std::mem;

// So many are put among each other one by one; more by a map.
const FEW: usize = 16;

// Puts values in the order of their names' bytes; of a name that comes again the last one stays.
pub(crate) fn sort_by_name<'m, V>(
    alloc: Global,
    named: &mut Vec<(&'m str, V)>,
) -> Result<(), AllocError>
where
    V: Drop,
    ensures { OnOk result (by_names named.new.items ≡ put_each (by_names named.old.items) []) }
{
    if named.len() > FEW {
        let unsorted = mem::replace(named, Vec::new(alloc));
        *named = many_by_name(alloc, unsorted)?;
    } else {
        sort_few(named);
    }
    Ok(())
}

// Many values in the order of their names.
fn many_by_name<'m, V>(
    alloc: Global,
    named: Vec<(&'m str, V)>,
) -> Result<Vec<(&'m str, V)>, AllocError>
where
    V: Drop,
    ensures { IfOk result (λ made. by_names made.items ≡ put_each (by_names named.entry.items) []) }
{
    let mut found = BTreeMap::new(alloc);
    for (name, value) in named {
        found.insert(name, value)?;
    }
    entries_of_map(alloc, found)
}

// The names and values of a map as a list, in the map's order.
pub(crate) fn entries_of_map<'m, V>(
    alloc: Global,
    found: BTreeMap<&'m str, V>,
) -> Result<Vec<(&'m str, V)>, AllocError>
where
    V: Drop,
    ensures { IfOk result (λ made. made.items ≡ found.entry.entries) }
{
    found.into_iter().collect(alloc)
}

// Puts few values in the order of their names, where they are.
fn sort_few<V>(named: &mut Vec<(&str, V)>)
where
    V: Drop,
    ensures { by_names named.new.items ≡ put_each (by_names named.old.items) [] }
{
    let mut sorted = 0;
    while sorted < named.len() {
        sorted = put_among(named, sorted);
    }
}

// Puts the value behind the first `sorted` ones, whose names ascend, among them: in place of the one of the same name, or
// before the first one whose name is greater. Answers how many are sorted then.
fn put_among<V>(named: &mut Vec<(&str, V)>, sorted: usize) -> usize
where
    V: Drop,
    requires { sorted < length named.old.items }
    ensures put { put_from result named.new.items ≡ put_from sorted named.old.items }
    ensures fewer { length named.new.items - result < length named.old.items - sorted }
{
    let mut at = 0;
    while at < sorted {
        match named[sorted].0.cmp(named[at].0) {
            Ordering::Less => break,
            Ordering::Equal => {
                named.swap(at, sorted);
                named.remove(sorted);
                return sorted;
            }
            Ordering::Greater => at += 1,
        }
    }
    move_down(named.as_mut_slice(), sorted, at);
    sorted + 1
}

// Moves the value at an index down to a lower one.
fn move_down<V>(named: &mut [V], from: usize, to: usize)
where
    V: Drop,
    requires from { from < length named.old }
    requires to { to ≤ from }
    ensures { (d : V) → named.new ≡ insert (remove named.old from) to (get_or named.old from d) }
{
    let mut at = from;
    while at > to {
        at -= 1;
        named.swap(at, at + 1);
    }
}
