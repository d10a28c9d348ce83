//! What an edit in place needs of what the system knows of a file.

ghost use Rattle.std.specs.Prelude.{◌≡◌, ◌↔◌, bit_and, IsTrue};
ghost use Rattle.std.specs.Fs.{file_type, metadata_len, metadata_mode, IsFile};

use std::fs::Metadata;
use std::os::unix::fs::MetadataExt;

// The bits of a mode that say who may do what.
const RIGHTS: u32 = 0o7777;

/// What the system knows of a file: its owner, rights, size, times, names and so on.
#[derive(Clone, Copy, Debug, Drop, PartialEq, Eq)]
pub struct FileFacts {
    pub is_regular: bool,
    /// A field: how many names (hard links) the file has.
    pub links: u64,
    pub device: u64,
    pub inode: u64,
    pub size: u64,
    /// When the file's bytes changed last: seconds since 1970, and nanoseconds.
    pub modified: (i64, i64),
    /// When the file's bytes, owner, rights or number of hard links changed last: seconds since 1970, and nanoseconds.
    pub changed: (i64, i64),
    /// The permission bits of the file's mode: who may read, write and run it.
    pub rights: u32,
    pub owner: u32,
    pub group: u32,
}

impl FileFacts {
    /// Takes the facts of a file (its owner, rights, size, times and so on) from the file's `Metadata`.
    pub fn of_metadata(found: &Metadata) -> FileFacts
        ensures regular { IsTrue result.is_regular ↔ IsFile (file_type found.now) }
        ensures size { result.size ≡ metadata_len found.now }
        ensures rights { result.rights ≡ bit_and (metadata_mode found.now) RIGHTS }
    {
        FileFacts {
            is_regular: found.is_file(),
            links: found.nlink(),
            device: found.dev(),
            inode: found.ino(),
            size: found.size(),
            modified: (found.mtime(), found.mtime_nsec()),
            changed: (found.ctime(), found.ctime_nsec()),
            rights: found.mode() & RIGHTS,
            owner: found.uid(),
            group: found.gid(),
        }
    }

    /// Whether `self` and `other`, the facts of two files, have the same owner and the same group.
    pub fn has_same_owner(&self, other: &FileFacts) -> bool
        ensures { IsTrue result ↔ ((self.now.owner ≡ other.now.owner) × (self.now.group ≡ other.now.group)) }
    {
        self.owner == other.owner && self.group == other.group
    }

    /// Whether `self` and `other` are facts of one file, that is, have the same device and inode. The other facts may
    /// differ, as before and after a change of the file.
    pub fn is_same_file(&self, other: &FileFacts) -> bool
        ensures { IsTrue result ↔ ((self.now.device ≡ other.now.device) × (self.now.inode ≡ other.now.inode)) }
    {
        self.device == other.device && self.inode == other.inode
    }
}
