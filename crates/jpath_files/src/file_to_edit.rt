//! A file that is open to be edited in place.

ghost use Rattle.std.specs.Prelude.{◌≡◌, ◌≤◌, true, OnOk, IfOk};

use crate::edit_fault::EditFault;
use crate::file_facts::FileFacts;
use crate::host_disk::{HostDisk, facts_at};
use std::fs::{self, File, TryLockError};
use std::path::PathBuf;
use std::time::Duration;
use std::{io, thread};

// How often a file is tried that is locked, or that another has just taken the place of, and what is waited between.
const TRIES: u32 = 500;

const WAIT_MILLISECONDS: u64 = 20;

/// How an edited text is written to a file: into a new file, which then replaces the file, or into the file itself.
#[derive(Clone, Copy, Debug, Drop, PartialEq, Eq)]
pub enum Way {
    /// A way in which an edited text is written to a file: a new file with this text replaces the old one.
    NewFile,
    /// A way to write an edited text to a file: into the file itself, without a new file.
    IntoFile,
}

/// A regular file that is open to be edited in place: the edited text is to be written into it, or into a new file that
/// then takes its place. While it is open, it is locked against other edits.
#[derive(Drop)]
pub struct FileToEdit<'r> {
    pub disk: HostDisk<'r>,
    /// What the system knew of the file (its owner, size, times and so on) when the file was opened to be edited.
    pub found: FileFacts,
    pub way: Way,
}

/// Opens a file to be edited in place, as `way` says, and locks it. If the path is a symbolic link, opens the file that
/// it leads to. If another edit has locked the file, waits until that is done, some ten seconds at most. Errors:
/// `NotRegular` if it is no regular file; `HardLinks` if it has several hard links and `way` is `NewFile`; `Locked` if
/// it is still locked after that time; `NoLock` if it can't be locked; or `Failed` if it can't be opened or memory ran
/// out.
pub fn open_to_edit<'r>(
    rt: &'r HostRuntime,
    name: &str,
    way: Way,
) -> Result<FileToEdit<'r>, EditFault>
    ensures regular { IfOk result (λ edited. edited.found.is_regular ≡ true) }
    ensures one_name { IfOk result (λ edited. way ≡ Way.NewFile → edited.found.links ≤ 1) }
    ensures way { IfOk result (λ edited. edited.way ≡ way) }
{
    for _ in 0..TRIES {
        let path = fs::canonicalize(rt, name)?;
        refuse_unfit(&facts_at(rt, &path)?, way)?;
        if let Some(file) = open_and_lock(rt, &path, way)? {
            let found = FileFacts::of_metadata(&file.metadata()?);
            if found == facts_at(rt, &path)? {
                refuse_unfit(&found, way)?;
                let disk = HostDisk::new(rt, file, path, &found)?;
                return Ok(FileToEdit { disk, found, way });
            }
        }
        thread::sleep(rt, Duration::from_millis(WAIT_MILLISECONDS));
    }
    Err(EditFault::Locked)
}

// Refuses a file that isn't regular, and one with several names of which a new file would take one.
fn refuse_unfit(found: &FileFacts, way: Way) -> Result<(), EditFault>
    ensures regular { OnOk result (found.now.is_regular ≡ true) }
    ensures one_name { OnOk result (way ≡ Way.NewFile → found.now.links ≤ 1) }
{
    if !found.is_regular {
        return Err(EditFault::NotRegular);
    }
    match way {
        Way::NewFile => {
            if found.links > 1 {
                return Err(EditFault::HardLinks(found.links));
            }
            Ok(())
        }
        Way::IntoFile => Ok(()),
    }
}

// What became of an attempt to lock a file.
#[derive(Drop)]
enum Attempt {
    Locked(File),
    // Another holds the lock.
    Busy,
    Refused(io::Error),
}

// The file, open and locked; `None` where another holds its lock. Some file systems lock only what is open to be
// written.
fn open_and_lock(rt: &HostRuntime, path: &PathBuf, way: Way) -> Result<Option<File>, EditFault> {
    match try_lock_for(rt, path, way)? {
        Attempt::Locked(file) => Ok(Some(file)),
        Attempt::Busy => Ok(None),
        Attempt::Refused(_) => match try_lock_for(rt, path, Way::IntoFile)? {
            Attempt::Locked(file) => Ok(Some(file)),
            Attempt::Busy => Ok(None),
            Attempt::Refused(error) => Err(EditFault::NoLock(error)),
        },
    }
}

// Opens a file to be read, and to be written where that is the way, and tries to lock it.
fn try_lock_for(rt: &HostRuntime, path: &PathBuf, way: Way) -> io::Result<Attempt> {
    let file = File::options()
        .read(true)
        .write(way == Way::IntoFile)
        .open(rt, path)?;
    match file.try_lock() {
        Ok(()) => Ok(Attempt::Locked(file)),
        Err(TryLockError::WouldBlock) => Ok(Attempt::Busy),
        Err(TryLockError::Error(error)) => Ok(Attempt::Refused(error)),
    }
}
