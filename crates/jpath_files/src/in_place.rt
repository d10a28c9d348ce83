//! The edited text of a file, put in the place of its content.

ghost use Rattle.std.specs.Prelude.{◌≡◌, ◌⊎◌, ◌+◌, ◌++◌, length, take, true, false, OnOk, OnErr, IfOk, IfErr};
ghost use Rattle.jpath_files.specs.DiskState.{HasSameAccess, KeepsAccess, IsPut, KeepsBytes, IsWhy, IsSame, IsApart, IsWithin};

use crate::disk::{Call, Disk, Place};
use crate::edit_fault::EditFault;
use crate::file_facts::FileFacts;
use crate::file_to_edit::Way;
use std::alloc::Global;
use std::io::{self, ErrorKind};

/// Puts these bytes in place of the content of a file that is open to be edited, and forces them to the disk. `found`
/// has the facts of the file when it was opened: its owner, size, times and so on. `way` says how: a new file, with the
/// same owner, group and mode, is written beside the file, forced to the disk, and then replaces the file; or the bytes
/// are written into the file itself.
///
/// Errors: `TooLong` if the bytes are more than the system allows in a file; `Changed` if the file was changed since it
/// was opened; `OwnerLost` if a new file can't have its owner, group and mode; `Failed` if a system call failed or
/// memory ran out; `Torn`; `Unsynced`. The file is then as it was, except after the last two. After `Torn`, it has a
/// part of the new bytes, and its old content can't be restored. After `Unsynced`, it has all new bytes, but may lose
/// them in a crash. A new file that has not replaced the file is removed if that is possible. The contract (proved
/// specification) of this call assumes that what the system reported of both files was true.
pub fn put_in_place<D: Disk>(
    alloc: Global,
    disk: &mut D,
    found: &FileFacts,
    way: Way,
    bytes: &[u8],
) -> Result<(), EditFault>
    ensures done { (D.state disk.new).agrees ≡ true → OnOk result (IsPut bytes.now found.now (D.state disk.old).file (D.state disk.new).file) }
    ensures replaced { (D.state disk.new).agrees ≡ true → way ≡ Way.NewFile → OnOk result (((D.state disk.new).is_folder_synced ≡ true) × ((D.state disk.new).file.facts.rights ≡ found.now.rights)) }
    ensures kept { (D.state disk.new).agrees ≡ true → IfErr result (λ fault. KeepsBytes fault bytes.now (D.state disk.old) (D.state disk.new)) }
    ensures why { (D.state disk.new).agrees ≡ true → IfErr result (λ fault. IsWhy fault found.now (D.state disk.old)) }
    ensures access { (D.state disk.new).agrees ≡ true → KeepsAccess (D.state disk.old).file.facts (D.state disk.new).file.facts }
    ensures beside { (D.state disk.old).has_new_file ≡ false → ((D.state disk.new).has_new_file ≡ false) ⊎ ((D.state disk.new).is_stuck ≡ true) }
{
    if disk.size_limit() < bytes.len() as u64 {
        return Err(EditFault::TooLong);
    }
    match way {
        Way::NewFile => replace_by_new_file(disk, found, bytes),
        Way::IntoFile => write_into_file(alloc, disk, found, bytes),
    }
}

// Refuses a file at whose path another stands than was opened, or that was changed since.
fn refuse_changed<D: Disk>(disk: &mut D, found: &FileFacts) -> Result<(), EditFault>
    ensures same { IsSame (D.state disk.old) (D.state disk.new) }
    ensures unchanged { (D.state disk.new).agrees ≡ true → OnOk result (((D.state disk.old).file.facts ≡ found.now) × (found.now.size ≡ length (D.state disk.old).file.bytes)) }
    ensures why { (D.state disk.new).agrees ≡ true → IfErr result (λ fault. IsWhy fault found.now (D.state disk.old)) }
{
    if disk.facts(Place::Path)? == *found {
        Ok(())
    } else {
        Err(EditFault::Changed)
    }
}

// ---- a new file

// Writes the bytes into a new file beside the old one, which it then takes the place of; the folder is seen to be on
// the disk, too. Where that is refused the new file is removed.
fn replace_by_new_file<D: Disk>(
    disk: &mut D,
    found: &FileFacts,
    bytes: &[u8],
) -> Result<(), EditFault>
    ensures done { (D.state disk.new).agrees ≡ true → OnOk result (IsPut bytes.now found.now (D.state disk.old).file (D.state disk.new).file) }
    ensures replaced { (D.state disk.new).agrees ≡ true → OnOk result (((D.state disk.new).is_folder_synced ≡ true) × ((D.state disk.new).file.facts.rights ≡ found.now.rights)) }
    ensures kept { (D.state disk.new).agrees ≡ true → IfErr result (λ fault. KeepsBytes fault bytes.now (D.state disk.old) (D.state disk.new)) }
    ensures why { (D.state disk.new).agrees ≡ true → IfErr result (λ fault. IsWhy fault found.now (D.state disk.old)) }
    ensures access { (D.state disk.new).agrees ≡ true → KeepsAccess (D.state disk.old).file.facts (D.state disk.new).file.facts }
    ensures beside { (D.state disk.old).has_new_file ≡ false → ((D.state disk.new).has_new_file ≡ false) ⊎ ((D.state disk.new).is_stuck ≡ true) }
{
    disk.call(Call::OpenFolder)?;
    // What an edit left there that was killed: no other edit of the file is at work, since it is locked.
    let _ = disk.call(Call::Remove);
    disk.call(Call::Create)?;
    if let Err(fault) = write_and_rename(disk, found, bytes) {
        let _ = disk.call(Call::Remove);
        return Err(fault);
    }
    match disk.call(Call::SyncFolder) {
        Ok(()) => Ok(()),
        Err(error) => Err(EditFault::Unsynced(error)),
    }
}

// Writes the bytes into the new file, and gives it the name of the old one, if both are what they were.
fn write_and_rename<D: Disk>(disk: &mut D, found: &FileFacts, bytes: &[u8]) -> Result<(), EditFault>
    ensures agreed { (D.state disk.new).agrees ≡ true → (D.state disk.old).agrees ≡ true }
    ensures done { (D.state disk.new).agrees ≡ true → OnOk result (IsPut ((D.state disk.old).new_file.bytes ++ bytes.now) found.now (D.state disk.old).file (D.state disk.new).file) }
    ensures access { (D.state disk.new).agrees ≡ true → OnOk result (HasSameAccess (D.state disk.new).file.facts found.now) }
    ensures moved { OnOk result ((D.state disk.new).has_new_file ≡ false) }
    ensures kept { OnErr result ((D.state disk.new).file ≡ (D.state disk.old).file) }
    ensures why { (D.state disk.new).agrees ≡ true → IfErr result (λ fault. IsWhy fault found.now (D.state disk.old)) }
{
    let made = write_new_file(disk, found, bytes)?;
    refuse_changed(disk, found)?;
    if !disk.facts(Place::Beside)?.is_same_file(&made) {
        return Err(EditFault::Changed);
    }
    disk.call(Call::Rename)?;
    Ok(())
}

// Gives a new file its owner, group, bytes and mode, sees that they are on the disk, and answers what it then is.
fn write_new_file<D: Disk>(
    disk: &mut D,
    found: &FileFacts,
    bytes: &[u8],
) -> Result<FileFacts, EditFault>
    ensures apart { IsApart (D.state disk.old) (D.state disk.new) }
    ensures written { OnOk result ((D.state disk.new).new_file.bytes ≡ (D.state disk.old).new_file.bytes ++ bytes.now) }
    ensures synced { OnOk result ((D.state disk.new).new_file.is_synced ≡ true) }
    ensures access { (D.state disk.new).agrees ≡ true → OnOk result (HasSameAccess (D.state disk.new).new_file.facts found.now) }
    ensures made { (D.state disk.new).agrees ≡ true → IfOk result (λ made. made ≡ (D.state disk.new).new_file.facts) }
    ensures why { (D.state disk.new).agrees ≡ true → IfErr result (λ fault. IsWhy fault found.now (D.state disk.old)) }
{
    let is_theirs = disk.facts(Place::NewFile)?.has_same_owner(found);
    if !is_theirs && disk.call(Call::Give(found.owner, found.group)).is_err() {
        return Err(EditFault::OwnerLost);
    }
    disk.call(Call::Write(bytes))?;
    disk.call(Call::SetMode(found.rights))?;
    disk.call(Call::SyncNewFile)?;
    let made = disk.facts(Place::NewFile)?;
    if made.has_same_owner(found) && made.rights == found.rights {
        Ok(made)
    } else {
        Err(EditFault::OwnerLost)
    }
}

// ---- into the file

// Writes the bytes into the file itself. Where that is refused its old bytes are put back.
fn write_into_file<D: Disk>(
    alloc: Global,
    disk: &mut D,
    found: &FileFacts,
    bytes: &[u8],
) -> Result<(), EditFault>
    ensures done { (D.state disk.new).agrees ≡ true → OnOk result (IsPut bytes.now found.now (D.state disk.old).file (D.state disk.new).file) }
    ensures kept { (D.state disk.new).agrees ≡ true → IfErr result (λ fault. KeepsBytes fault bytes.now (D.state disk.old) (D.state disk.new)) }
    ensures why { (D.state disk.new).agrees ≡ true → IfErr result (λ fault. IsWhy fault found.now (D.state disk.old)) }
    ensures within { IsWithin (D.state disk.old) (D.state disk.new) }
{
    let old = read_old_bytes(alloc, disk, found)?;
    refuse_changed(disk, found)?;
    match write_over(disk, old.len(), bytes) {
        Ok(()) => Ok(()),
        Err(error) => match write_over(disk, bytes.len(), old.as_slice()) {
            Ok(()) => Err(EditFault::Failed(error)),
            Err(_) => Err(EditFault::Torn(error)),
        },
    }
}

// The bytes of the file as it was found.
fn read_old_bytes<D: Disk>(
    alloc: Global,
    disk: &mut D,
    found: &FileFacts,
) -> Result<Vec<u8>, EditFault>
    ensures same { IsSame (D.state disk.old) (D.state disk.new) }
    ensures len { IfOk result (λ old. length old.items ≡ found.now.size) }
    ensures read { (D.state disk.new).agrees ≡ true → IfOk result (λ old. old.items ≡ take (length old.items) (D.state disk.old).file.bytes) }
    ensures why { (D.state disk.new).agrees ≡ true → IfErr result (λ fault. IsWhy fault found.now (D.state disk.old)) }
{
    let mut old = Vec::new(alloc);
    let has_room = match usize::try_from(found.size) {
        Ok(size) => old.resize(size, 0).is_ok(),
        Err(_) => false,
    };
    if !has_room {
        return Err(EditFault::Failed(io::Error::from(ErrorKind::OutOfMemory)));
    }
    disk.read(old.as_mut_slice())?;
    Ok(old)
}

// Writes the bytes over those of a file, which are `len` at most, and sees that they are on the disk. What is more than
// those comes first: where there is no room for it the others still stand.
#[tactic(auto, using(crate::proofs::WriteLemmas::text_written))]
fn write_over<D: Disk>(disk: &mut D, len: usize, bytes: &[u8]) -> io::Result<()>
    ensures within { IsWithin (D.state disk.old) (D.state disk.new) }
    ensures agreed { (D.state disk.new).agrees ≡ (D.state disk.old).agrees }
    ensures written { OnOk result ((D.state disk.new).file.bytes ≡ bytes.now) }
    ensures synced { OnOk result ((D.state disk.new).file.is_synced ≡ true) }
    ensures refused { OnErr result ((D.state disk.new).refusals ≡ (D.state disk.old).refusals + 1) }
{
    let (front, more) = bytes.split_at(len.min(bytes.len()));
    disk.call(Call::WriteAt(more, front.len() as u64))?;
    disk.call(Call::WriteAt(front, 0))?;
    disk.call(Call::SetLen(bytes.len() as u64))?;
    disk.call(Call::SyncFile)
}
