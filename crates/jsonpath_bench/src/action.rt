//! What is measured, and the clock around it.
use anyhow::Result;
use jsonpath_lib::{AnyPath, JsonPathError, PathParser, compile_path};
use serde_json::Value;
use std::alloc::Global;
use std::hint::black_box;
use std::time::{Duration, Instant};

/// A call of the library whose time is measured.
#[derive(Clone, Copy)]
pub enum Action {
    /// A measured question: which values does the compiled path select?
    Values,
    /// A measured question: which nodes, that is, values with their locations, does the compiled path select?
    Spots,
    /// A measured question: what does the compiled path select first?
    First,
    /// A measured question: does the compiled path select any value?
    Exists,
    /// A measured update: what the path selects is replaced by null.
    Delete,
    /// A measured update: what the path selects below the root is removed.
    Remove,
    /// A measured call: the path text is compiled.
    Compile,
}

impl Action {
    /// Returns the `Action` (a library call to time) that a command-line word, such as `select`, names; else `None`.
    pub fn of(word: &str) -> Option<Action> {
        match word {
            "select" => Some(Action::Values),
            "spots" => Some(Action::Spots),
            "first" => Some(Action::First),
            "exists" => Some(Action::Exists),
            "delete" => Some(Action::Delete),
            "remove" => Some(Action::Remove),
            "compile" => Some(Action::Compile),
            _ => None,
        }
    }
}

/// Makes the library call that `action` names `count` times. Returns the total time and the number of results of one
/// call: how many values or nodes the path selects (for an update, too); 0 or 1 for `First` and `Exists`; 1 for a
/// compilation. Each update changes a fresh copy of the document; making it is not timed. Errors: `path` is no path,
/// memory ran out, or the clock can't be read.
pub fn measure(
    rt: &HostRuntime,
    action: Action,
    path: &str,
    document: &Value,
    count: u64,
) -> Result<(Duration, usize)> {
    let alloc = rt.alloc();
    let compiled = compile_path(alloc, path)?;
    let mut results = results_of(alloc, action, document, &compiled)?;
    let mut spent = Duration::ZERO;
    if matches!(action, Action::Delete | Action::Remove) {
        for _ in 0..count {
            let mut copy = document.clone()?;
            let start = Instant::now(rt)?;
            match action {
                Action::Remove => compiled.remove_in(alloc, &mut copy)?,
                _ => compiled.delete_in(alloc, &mut copy)?,
            }
            spent = spent.saturating_add(start.elapsed(rt)?);
            black_box(copy);
        }
        return Ok((spent, results));
    }
    let start = Instant::now(rt)?;
    for _ in 0..count {
        results = black_box(results_of(alloc, action, document, &compiled)?);
    }
    Ok((start.elapsed(rt)?, results))
}

// How many results a question has, and what is updated.
fn results_of(
    alloc: Global,
    action: Action,
    document: &Value,
    path: &PathParser<'_>,
) -> Result<usize, JsonPathError> {
    match action {
        Action::Values | Action::Delete | Action::Remove => {
            Ok(black_box(path.select(alloc, document)?).len())
        }
        Action::Spots => Ok(black_box(path.select_spots(alloc, document)?).len()),
        Action::First => Ok(usize::from(path.first(alloc, document)?.is_some())),
        Action::Exists => Ok(usize::from(path.exists(alloc, document)?)),
        Action::Compile => {
            black_box(compile_path(alloc, black_box(path.parts().text))?);
            Ok(1)
        }
    }
}
