//! A file that is edited in place, by the system's own calls.

ghost use Rattle.std.specs.Prelude.{◌≡◌};

use crate::disk::{Call, Disk, Place};
use crate::file_facts::FileFacts;
use crate::model::{DiskModel, Event};
use std::fs::{self, File, OpenOptions, Permissions};
use std::io::{self, ErrorKind, Write};
use std::mem;
use std::os::unix::fs::{FileExt, OpenOptionsExt, PermissionsExt, fchown};
use std::path::PathBuf;

// Who may read and write a new file before it has the mode of the old one: its owner alone.
const OWNER_ALONE: u32 = 0o600;

/// The system calls of an edit in place, on a real file that is open. The contracts (specifications) of the trait
/// `Disk` are assumed of these calls, not proved, since std's file calls have no contracts. For proofs the type records
/// each call made.
#[derive(Drop)]
pub struct HostDisk<'r> {
    rt: &'r HostRuntime,
    pub file: File,
    // Where it is, by no symbolic link.
    path: PathBuf,
    // Where a new file stands until it takes its place. The name is short, so that it fits each folder, and is the same for
    // each edit of the file.
    beside: PathBuf,
    // The new file, until it has taken the place of the file: then it is the file, and the other stays open, and so locked.
    new_file: Option<File>,
    replaced: Option<File>,
    folder: Option<File>,
    model: DiskModel,
}

/// What the system knows of the file at this path: its owner, size, times and so on. An error if there is no such file,
/// or the system call fails.
pub(crate) fn facts_at(rt: &HostRuntime, path: &PathBuf) -> io::Result<FileFacts> {
    Ok(FileFacts::of_metadata(&fs::metadata(rt, path)?))
}

// The most bytes that a file may have, in the system's own list of limits.
fn size_limit_of(limits: &str) -> Option<u64> {
    for line in limits.lines() {
        if let Some(limit) = line.strip_prefix("Max file size") {
            return limit.split_whitespace().next()?.parse().ok();
        }
    }
    None
}

// The file, if it was opened.
fn opened(file: &Option<File>) -> io::Result<&File> {
    match file {
        Some(file) => Ok(file),
        None => Err(io::Error::from(ErrorKind::NotFound)),
    }
}

impl<'r> HostDisk<'r> {
    // The file that is open and was found so at this path.
    pub(crate) fn new(
        rt: &'r HostRuntime,
        file: File,
        path: PathBuf,
        found: &FileFacts,
    ) -> io::Result<HostDisk<'r>> {
        let name = format!(in rt.alloc(); ".jpath-{}-{}", found.device, found.inode)?;
        let beside = path.with_file_name(rt.alloc(), name.as_str())?;
        Ok(HostDisk {
            rt,
            file,
            path,
            beside,
            new_file: None,
            replaced: None,
            folder: None,
            model: DiskModel::new(),
        })
    }

    // Makes a call that is still to be noted.
    fn make(&mut self, call: Call<'_>) -> io::Result<()>
        ensures { self.new.model ≡ self.old.model }
    {
        match call {
            Call::WriteAt(bytes, at) => self.file.write_all_at(bytes, at),
            Call::SetLen(len) => self.file.set_len(len),
            Call::SyncFile => self.file.sync_all(),
            Call::OpenFolder => self.open_folder(),
            Call::Remove => fs::remove_file(self.rt, &self.beside),
            Call::Create => self.create(),
            Call::Give(owner, group) => fchown(opened(&self.new_file)?, Some(owner), Some(group)),
            Call::Write(bytes) => opened(&self.new_file)?.write_all(bytes),
            Call::SetMode(mode) => {
                opened(&self.new_file)?.set_permissions(Permissions::from_mode(mode))
            }
            Call::SyncNewFile => opened(&self.new_file)?.sync_all(),
            Call::Rename => self.rename(),
            Call::SyncFolder => opened(&self.folder)?.sync_all(),
        }
    }

    fn open_folder(&mut self) -> io::Result<()>
        ensures { self.new.model ≡ self.old.model }
    {
        let Some(folder) = self.path.as_path().parent() else {
            return Err(io::Error::from(ErrorKind::NotFound));
        };
        self.folder = Some(File::open(self.rt, folder)?);
        Ok(())
    }

    fn create(&mut self) -> io::Result<()>
        ensures { self.new.model ≡ self.old.model }
    {
        let mut options = OpenOptions::new();
        options.write(true).create_new(true).mode(OWNER_ALONE);
        self.new_file = Some(options.open(self.rt, &self.beside)?);
        Ok(())
    }

    fn rename(&mut self) -> io::Result<()>
        ensures { self.new.model ≡ self.old.model }
    {
        let Some(new_file) = self.new_file.take() else {
            return Err(io::Error::from(ErrorKind::NotFound));
        };
        fs::rename(self.rt, &self.beside, &self.path)?;
        self.replaced = Some(mem::replace(&mut self.file, new_file));
        Ok(())
    }
}

impl Disk for HostDisk<'_> {
    ghost state = { λ disk. disk.model.state };

    fn call(&mut self, call: Call<'_>) -> io::Result<()> {
        let answer = self.make(call);
        self.model = self.model.behind(&Event::Called(call, answer.is_ok()));
        answer
    }

    fn facts(&mut self, place: Place) -> io::Result<FileFacts> {
        let facts = match place {
            Place::Path => facts_at(self.rt, &self.path)?,
            Place::Beside => facts_at(self.rt, &self.beside)?,
            Place::NewFile => FileFacts::of_metadata(&opened(&self.new_file)?.metadata()?),
        };
        self.model = self.model.behind(&Event::Known(place, facts));
        Ok(facts)
    }

    fn size_limit(&mut self) -> u64 {
        match fs::read_to_string(self.rt, "/proc/self/limits") {
            Ok(limits) => size_limit_of(limits.as_str()).unwrap_or(u64::MAX),
            Err(_) => u64::MAX,
        }
    }

    fn read(&mut self, buffer: &mut [u8]) -> io::Result<()> {
        self.file.read_exact_at(buffer, 0)?;
        self.model = self.model.behind(&Event::Read(buffer));
        Ok(())
    }
}
