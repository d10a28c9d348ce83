//! The words that the program is called with.
ghost use Rattle.std.specs.Prelude.{map, IfSome, IfNone, IsTrue, ◌↔◌};
ghost use Rattle.jsonpath_run.specs.Words.{IsCall, IsUsage, IsCount};

/// A command of the program `jsonpath_run`, its first argument.
///
/// ```text
/// assert!(rt; parse_call(&["check", "$.a"]).is_some_and(|it| it.command == Command::Check));
/// ```
#[derive(Clone, Copy, Debug, PartialEq, Eq)]
pub enum Command {
    /// The command that writes, as a JSON array, the values a path selects, in the order found, with duplicates.
    Select,
    /// The command that writes the document with null in place of each value that a path selects, except the root.
    Delete,
    /// The command that writes the document without the values that a path selects, except the root.
    Remove,
    /// The command that writes `ok` if a text is a path; if it is none, `run` returns the error `Refused`.
    Check,
    /// The command that writes the document with null for each non-root value that any of one or more paths selects.
    Mask,
}

/// The parsed command line of the program `jsonpath_run`: the command and the texts of its paths.
///
/// ```text
/// let call = parse_call(&["mask", "$.a", "$.b"]);
/// assert!(rt; call.is_some_and(|it| it.paths == ["$.a", "$.b"].as_slice()));
/// ```
#[derive(Clone, Copy)]
pub struct Call<'w, 'a> {
    /// A field of the parsed command line of `jsonpath_run`: the command that the program's first argument names.
    pub command: Command,
    /// The path texts after the command on the command line, in order; they may have syntax errors. If made by the
    /// parser `parse_call`, the list has at least one text for the command `mask`, exactly one for any other.
    pub paths: &'w [&'a str],
}

/// Parses the command line of the program `jsonpath_run`, without the program's name. `None` if the command is missing
/// or unknown, or if not exactly one path follows it (for `mask`, if no path follows it).
///
/// ```text
/// assert!(rt; parse_call(&["select", "$.a"]).is_some());
/// assert!(rt; parse_call(&["select"]).is_none());
/// ```
pub fn parse_call<'w, 'a>(words: &'w [&'a str]) -> Option<Call<'w, 'a>>
    ensures some { IfSome result
        (λ call. IsCall (map (λ w. w.now) words.now) call.command (map (λ w. w.now) call.paths.now)) }
    ensures none { IfNone result (IsUsage (map (λ w. w.now) words.now)) }
{
    let (word, paths) = words.split_first()?;
    let command = match *word {
        "select" => Command::Select,
        "delete" => Command::Delete,
        "remove" => Command::Remove,
        "check" => Command::Check,
        "mask" => Command::Mask,
        _ => return None,
    };
    if takes_path_count(command, paths.len()) {
        Some(Call { command, paths })
    } else {
        None
    }
}

// Whether a command takes so many paths: `mask` one or more, the others one.
fn takes_path_count(command: Command, count: usize) -> bool
    ensures { IsTrue result ↔ IsCount command count }
{
    match command {
        Command::Select | Command::Delete | Command::Remove | Command::Check => count == 1,
        Command::Mask => count > 0,
    }
}
