//! Why the program gives no answer.
ghost use Rattle.std.specs.Prelude.{◌≡◌, Some};
ghost use Rattle.jsonpath_run.specs.Fault.{status_of, fault_text};

use jsonpath_select::JsonPathError;
use std::fmt;

/// Why the program `jsonpath_run` gives no answer. `Display` prints the message for standard error, without line end.
///
/// ```text
/// assert!(rt; Fault::Io.to_string(alloc)?.as_str() == "input or output failed");
/// ```
#[derive(Debug, Drop)]
pub enum Fault {
    /// An error of `jsonpath_run`: an unknown command, a wrong number of arguments, or an argument that is not UTF-8.
    Usage,
    /// An error of `jsonpath_run`: a wrong path or input, an output number that can't be printed, or memory ran out.
    Refused(JsonPathError),
    /// An error of the program `jsonpath_run`: a read of its input or a write of its output failed.
    Io,
}

impl Fault {
    /// The exit status for this error: 1 for `Refused`, 2 for `Usage`, 3 for `Io`.
    ///
    /// ```text
    /// assert_eq!(rt; Fault::Usage.status(), 2);
    /// ```
    pub fn status(&self) -> u8
        ensures { result ≡ status_of self.now }
    {
        match self {
            Fault::Refused(_) => 1,
            Fault::Usage => 2,
            Fault::Io => 3,
        }
    }
}

impl fmt::Display for Fault {
    ghost output = { λ fault. Some (fault_text fault) };

    fn fmt<W: fmt::Write>(&self, f: &mut fmt::Formatter<W>) -> fmt::Result {
        match self {
            Fault::Usage => f.write_str(
                "usage: jsonpath_run select|delete|remove|check PATH | mask PATH...",
            ),
            Fault::Refused(error) => write!(f, "{error}"),
            Fault::Io => f.write_str("input or output failed"),
        }
    }
}
