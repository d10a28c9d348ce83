//! Lists of tags, which are the numbers of candidates: how they are iterated over and extended.

ghost use Rattle.std.specs.Prelude.{◌≡◌, [], ◌∷◌, ◌+◌, ◌-◌, ◌≤◌, ◌==◌, ◌++◌, length, drop, replicate, if◌then◌else◌, OnOk};
ghost use Rattle.std.specs.List.{prefix_len};
ghost use Rattle.jsonpath_select.specs.plan.Machine.{is_next};

use jsonpath_nodes::NoMemory;

// The index at which the tags of one candidate end, where they begin at `from`.
#[inline]
pub(crate) fn candidate_end_in_tags(tags: &[usize], from: usize, tag: usize) -> usize
    requires { from ≤ length tags.now }
    ensures run { result ≡ from + prefix_len (λ u. u == tag) (drop from tags.now) }
    ensures after { from ≤ result }
    ensures within { result ≤ length tags.now }
{
    for end in from..tags.len() {
        if tags[end] != tag {
            return end;
        }
    }
    tags.len()
}

// `from + 1`, if this tag stands at `from`; else `from`.
#[inline]
pub(crate) fn position_past_tag(tags: &[usize], from: usize, tag: usize) -> usize
    requires { from ≤ length tags.now }
    ensures goes { result ≡ from + (if is_next tag (drop from tags.now) then 1 else 0) }
    ensures within { result ≤ length tags.now }
{
    if from < tags.len() && tags[from] == tag {
        from + 1
    } else {
        from
    }
}

// Adds the tag if it passes.
#[inline]
pub(crate) fn push_tag_if(tags: &mut Vec<usize>, passes: bool, tag: usize) -> Result<(), NoMemory>
    ensures { OnOk result (tags.new.items ≡ (if passes then tags.old.items ++ tag ∷ [] else tags.old.items)) }
{
    if passes {
        tags.push(tag)?;
    }
    Ok(())
}

// Adds the tag, a candidate's number or what else is beside a mark, until there are `count`. Mostly one or none lacks.
#[inline]
pub(crate) fn fill_tags(tags: &mut Vec<usize>, tag: usize, count: usize) -> Result<(), NoMemory>
    requires { length tags.old.items ≤ count }
    ensures { OnOk result (tags.new.items ≡ tags.old.items ++ replicate (count - length tags.old.items) tag) }
{
    let len = tags.as_slice().len();
    if len == count {
        return Ok(());
    }
    if count - len == 1 {
        tags.push(tag)?;
    } else {
        tags.resize(count, tag)?;
    }
    Ok(())
}
