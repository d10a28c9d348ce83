//! The calls of the system by which a file is edited in place.

ghost use Rattle.std.specs.Prelude.{◌≡◌, is_ok, MatchResult};
ghost use Rattle.jpath_files.specs.DiskState.{DiskState};
ghost use Rattle.jpath_files.specs.Calls.{Does, Tells, IsKnown, IsFront};

use crate::file_facts::FileFacts;
use std::io;

/// A system call of an edit in place. It is made on the edited file, on the new file beside it (in the same folder), or
/// on the folder.
#[derive(Clone, Copy, Drop)]
pub enum Call<'a> {
    /// A system call of an edit in place: writes these bytes into the edited file, at this byte position (from 0).
    WriteAt(&'a [u8], u64),
    /// A system call of an edit in place: it sets the length of the edited file to this number of bytes. A longer file
    /// is truncated; a shorter one is extended with zero bytes.
    SetLen(u64),
    SyncFile,
    OpenFolder,
    /// A system call of an edit in place: it removes the file at the path that was chosen for the new file, by which
    /// the edited file is to be replaced. The removed file is that new file, or one that another program has put there.
    /// An error if there is no file at this path.
    Remove,
    /// A system call of an edit in place: it creates and opens the new file, which is to replace the edited file, in
    /// the same folder. Its owner alone may read and write it. The call fails if a file already exists at the path
    /// chosen for the new file.
    Create,
    /// A system call of an edit in place: changes the owner and the group of the new file, which is to replace the
    /// edited file, to this user id and this group id.
    Give(u32, u32),
    /// A system call of an edit in place: appends these bytes to the new file, which is to replace the edited file.
    Write(&'a [u8]),
    /// A system call of an edit in place: sets the permissions of the new file, which is to replace the edited file, to
    /// these permission bits.
    SetMode(u32),
    SyncNewFile,
    /// A system call of an edit in place: it renames the new file, which has the edited text, to the name of the edited
    /// file. The new file thereby replaces the edited file.
    Rename,
    SyncFolder,
}

/// Which file to ask the system about: an edit in place has several, the edited one and the new one beside it.
#[derive(Clone, Copy, Drop)]
pub enum Place {
    /// One of the files of an edit in place: the file that is now at the path of the edited file. It is the edited file
    /// itself, or another file that has replaced it.
    Path,
    /// The file beside the edited one (in the same folder), at the path chosen for the new file that is to replace it:
    /// the new file, or a foreign file that is there instead.
    Beside,
    /// One of the files of an edit in place: the new file that this edit has created and opened in the folder of the
    /// edited file, in order to replace the edited file.
    NewFile,
}

/// A trait for the system calls of an edit in place: on the edited file, on the new file beside it (in the same
/// folder), and on the folder. The contracts (proved specifications) of its methods say what each call does to both
/// files.
pub trait Disk {
    ghost state: { Self → DiskState };

    /// A method that implementors provide: makes this system call, which concerns the edited file, the new file beside
    /// it, or their folder. It fails if the system call fails. It also fails if the system call needs the new file or
    /// the open folder, and there is none.
    fn call(&mut self, call: Call<'_>) -> io::Result<()>
        ensures { Does call.entry (is_ok result) (state self.old) (state self.new) };

    /// A method that implementors provide: returns what the system knows (owner, size, times and so on) of one of the
    /// files of an edit in place, which `place` names. Fails if there is no such file, or if the system call fails.
    fn facts(&mut self, place: Place) -> io::Result<FileFacts>
        ensures { MatchResult result (λ facts. Tells (IsKnown place facts) (state self.old) (state self.new)) (λ _. state self.new ≡ state self.old) };

    /// Returns the greatest number of bytes that the system lets a file have (`ulimit -f`), or `u64::MAX` if there is
    /// no such limit. Writing a longer file would end the program.
    fn size_limit(&mut self) -> u64
        ensures { state self.new ≡ state self.old };

    /// Fills the buffer with the first bytes of the edited file. An error if the file has fewer bytes or a read fails.
    fn read(&mut self, buffer: &mut [u8]) -> io::Result<()>
        ensures { MatchResult result (λ _. Tells (IsFront buffer.new) (state self.old) (state self.new)) (λ _. state self.new ≡ state self.old) };
}
