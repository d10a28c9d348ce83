//! Several path texts compiled in order, or the error of the first that is no path.
ghost use Rattle.std.specs.Prelude.{◌≡◌, Some, map, All, IfOk, IfErr, OnOk};
ghost use Rattle.jsonpath_paths.specs.Spelling.{IsInGrammar};
ghost use Rattle.std.specs.Fmt.{DisplaysOnOk};
ghost use Rattle.jsonpath_lib.specs.update.Masked.{ArePathsRefused, place_unless_memory, paths_fault_text};

use jsonpath_paths::PathParser;
use jsonpath_select::{JsonPathError, compile_path};
use std::alloc::Global;
use std::error::Error;
use std::fmt;

/// The error of compiling a list of path texts.
///
/// ```text
/// let Err(refused) = compile_paths(alloc, &["$[0]", "$["]) else {
///     return Err(Fail::new("both are paths"));
/// };
/// assert!(rt; refused.to_string(alloc)?.as_str() == "path 1: path error: \nEof\n");
/// ```
#[derive(Drop)]
pub struct PathsFault {
    /// A field of the error of compiling texts: the index, from 0, of the first that is no path; `None`: out of memory.
    pub index: Option<usize>,
    /// Why compiling path texts failed: `OutOfMemory`, or `Path` with a message for the first text that is no path.
    pub fault: JsonPathError,
}

/// Prints an error of path texts: `path`, the index (from 0), a colon and the cause; without an index, the cause alone.
impl fmt::Display for PathsFault {
    ghost output = { λ fault. Some (paths_fault_text fault.index fault.fault) };

    fn fmt<W: fmt::Write>(&self, f: &mut fmt::Formatter<W>) -> fmt::Result {
        write_paths_fault(self.index, &self.fault, f)
    }
}

impl fmt::Debug for PathsFault {
    ghost debug_output = { λ fault. Some (paths_fault_text fault.index fault.fault) };

    fn fmt<W: fmt::Write>(&self, f: &mut fmt::Formatter<W>) -> fmt::Result {
        write_paths_fault(self.index, &self.fault, f)
    }
}

impl Error for PathsFault {}

/// Converts the error of compiling a list of path texts to its cause, `fault`; drops the index of the wrong text.
impl From<PathsFault> for JsonPathError {
    ghost from_gives = { λ refused error. error ≡ refused.fault };

    fn from(refused: PathsFault) -> JsonPathError {
        refused.fault
    }
}

// Prints why a path of a list is refused: `path`, its place, a colon and the error; without a place the error alone.
pub(crate) fn write_paths_fault<W: fmt::Write>(
    index: Option<usize>,
    fault: &JsonPathError,
    f: &mut fmt::Formatter<W>,
) -> fmt::Result
    ensures { DisplaysOnOk W.write_str_gives f.old result (Some (paths_fault_text index fault.now)) f.new }
{
    match index {
        Some(place) => write!(f, "path {place}: {fault}"),
        None => write!(f, "{fault}"),
    }
}

/// Compiles path texts; the result has their paths in the same order. The error has `Path` and the index, from 0, of
/// the first text that is no path, or `OutOfMemory` and no index.
///
/// ```text
/// let refused = compile_paths(alloc, &["$[0]", "$["]).err();
/// assert!(rt; refused.is_some_and(|fault| fault.index == Some(1)));
/// ```
pub fn compile_paths<'a>(
    alloc: Global,
    texts: &[&'a str],
) -> Result<Vec<PathParser<'a>>, PathsFault>
    ensures texts { IfOk result (λ paths. paths.items ≡ map (λ t. t.now) texts.now) }
    ensures spelled { OnOk result (All IsInGrammar (map (λ t. t.now) texts.now)) }
    ensures refused { IfErr result (λ e. ArePathsRefused (map (λ t. t.now) texts.now) e.index e.fault) }
{
    let mut paths = Vec::new(alloc);
    for text in texts {
        let path = match compile_path(alloc, *text) {
            Ok(path) => path,
            Err(fault) => return Err(paths_fault_at(paths.len(), fault)),
        };
        match paths.push(path) {
            Ok(()) => {}
            Err(_) => return Err(paths_fault_at(0, JsonPathError::OutOfMemory)),
        }
    }
    Ok(paths)
}

// The fault of a list of path texts, of which the one at this place is refused. Want of memory has no place.
fn paths_fault_at(place: usize, fault: JsonPathError) -> PathsFault
    ensures index { result.index ≡ place_unless_memory place fault }
    ensures fault { result.fault ≡ fault }
{
    let index = match &fault {
        JsonPathError::OutOfMemory => None,
        _ => Some(place),
    };
    PathsFault { index, fault }
}
