//! Why a file is not edited in place.

ghost use Rattle.std.specs.Prelude.{◌≡◌};
ghost use Rattle.jpath_files.specs.FaultWords.{fault_words};

use std::fmt::{self, Display, Formatter};
use std::io;

/// Why a file could not be edited in place.
#[derive(Debug, Drop)]
pub enum EditFault {
    /// An error of an edit of a file in place: the file is no regular file, but a folder, a pipe, a device or the like.
    NotRegular,
    /// An error of an edit of a file in place: the file has this number of names (hard links), more than one. A new
    /// file in its place would replace only one of these names; under the others the old file would stay.
    HardLinks(u64),
    /// An error of an edit of a file in place: another program has locked the file.
    Locked,
    /// An error of an edit in place: the file can't be locked. The field has the system's error.
    NoLock(io::Error),
    /// An error of an edit of a file in place: another program has changed the file, or the new file that was to
    /// replace it, during the edit. The edit itself has changed nothing in the file.
    Changed,
    /// An error of an edit in place: the edited text is longer than the system allows a file to be (limit: `ulimit
    /// -f`). The file is unchanged.
    TooLong,
    /// An error of an edit of a file in place: the new file that was to replace the edited file can't be given the
    /// edited file's owner, group and mode. The edited file is unchanged.
    OwnerLost,
    /// An error of an edit in place: a write into the edited file failed. A part of the edited text is in the file, and
    /// the file's old text can't be restored.
    Torn(io::Error),
    /// An error of an edit of a file in place: the file has the edited text, but the system call `fsync`, which forces
    /// the file's folder to the disk, failed. In a crash the edited text may be lost.
    Unsynced(io::Error),
    /// An error of an edit in place: a system call failed or memory ran out. The file is as it was: nothing was changed
    /// yet, or everything was restored.
    Failed(io::Error),
}

impl From<io::Error> for EditFault {
    ghost use Rattle.jpath_files.specs.declared.edit_fault.EditFault.TheVariants.{Failed};

    ghost from_gives = { λ error fault. fault ≡ Failed error };

    fn from(error: io::Error) -> EditFault {
        EditFault::Failed(error)
    }
}

impl Display for EditFault {
    ghost output = { fault_words };

    fn fmt<W: fmt::Write>(&self, f: &mut Formatter<W>) -> fmt::Result {
        match self {
            EditFault::NotRegular => f.write_str("only a regular file is edited in place"),
            EditFault::HardLinks(links) => write!(
                f,
                "the file has {links} names (hard links), which an edit would part: --copy writes into it"
            ),
            EditFault::Locked => f.write_str("another program holds a lock on the file"),
            EditFault::NoLock(error) => write!(f, "the file can't be locked: {error}"),
            EditFault::Changed => {
                f.write_str("the file was changed while it was edited, so it is left as it is")
            }
            EditFault::TooLong => {
                f.write_str("the edited text is longer than a file may be (ulimit -f)")
            }
            EditFault::OwnerLost => f.write_str(
                "a new file can't have the owner, group and mode of this one: --copy writes into it",
            ),
            EditFault::Torn(error) => write!(
                f,
                "{error}; a part of the edited text is in the file, and the old text can't be put back"
            ),
            EditFault::Unsynced(error) => write!(
                f,
                "{error}; the edited text is in the file, and may be lost if the system stops now"
            ),
            EditFault::Failed(error) => write!(f, "{error}"),
        }
    }
}
