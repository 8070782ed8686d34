//! Lists of the files of a directory, and of all directories.
ghost use Rattle.std.specs.Prelude.{◌≡◌, ◌↔◌, ◌⊎◌, false, length, map, None, Some, IfOk, OnOk, IfErr, IsErrOf, IsTrue};
ghost use Rattle.std.specs.FinMap.Entries.{find};
ghost use Rattle.std.specs.List.{AllZip};
ghost use Rattle.std.specs.Ordering.{nat_cmp};
ghost use Rattle.spec_image.specs.declared.code.ErrorCode.TheVariants.{NoDirectory};
ghost use Rattle.spec_image.specs.Common.{File, Files, Directory, name_cmp, entries, keys, from_entries, get};
ghost use Rattle.volume.specs.Common.{file_view, master_view, IsAdded, IsKeyed, AreStanding, live_directory, line};
ghost use Rattle.volume.specs.Common.{IsLine, IsListError, RestsAt};
ghost use Rattle.volume.specs.declared.error.CallError.TheVariants.{Refused, NoMemory, Failed};

use crate::CallError;
use crate::live::{LiveDirectory, LiveVersion};
use crate::query::{directory_place, named_facts};
use crate::volume::Volume;
use blockdisk::Disk;
use directory::{Chain, FileEntry, MasterEntry};
use slab::Slab;
use spec_image::Entry;
use std::alloc::Global;
use words36::Ppn;

/// Adds the line of an entry of this directory after the others.
///
/// # Errors
///
/// `NoMemory` if there is no memory for it.
fn push_line(
    versions: &Slab<LiveVersion>,
    directory: &LiveDirectory,
    entry: &FileEntry,
    lines: &mut Vec<Entry>,
) -> Result<(), CallError>
    requires keyed { IsKeyed versions.now.slots (live_directory versions.now.slots directory.now)
        directory.now.keys.items }
    requires standing { AreStanding versions.now.slots }
    requires there { find name_cmp entry.now.name (map file_view directory.now.chain.entries) ≡ Some entry.now.prime }
    ensures ok { OnOk result (IsAdded (λ l. l) lines.old.items lines.new.items
        (IsLine (live_directory versions.now.slots directory.now) entry.now.name)) }
    ensures only { IfErr result (λ e. e ≡ NoMemory) }
{
    let facts = named_facts(versions, directory, &entry.name)?;
    let line = Entry {
        name: entry.name,
        protection: u32::from(facts.protection),
        mode: facts.mode.number() as u32,
        date: facts.moment.date,
        time: facts.moment.minute,
        length: facts.words,
        blocks: facts.blocks,
    };
    if lines.push(line).is_err() {
        return Err(CallError::NoMemory);
    }
    Ok(())
}

/// Returns the lines of the files of a directory, sorted by name and then by extension, as numbers.
///
/// # Errors
///
/// `NoMemory` if there is no memory for them.
fn directory_lines(
    alloc: Global,
    versions: &Slab<LiveVersion>,
    directory: &LiveDirectory,
) -> Result<Vec<Entry>, CallError>
    requires keyed { IsKeyed versions.now.slots (live_directory versions.now.slots directory.now)
        directory.now.keys.items }
    requires standing { AreStanding versions.now.slots }
    ensures listed { IfOk result (λ lines.
        AllZip (λ e l. IsLine (live_directory versions.now.slots directory.now) e.0 l)
        (entries (from_entries {R = name_cmp} (map file_view directory.now.chain.entries))) lines.items) }
    ensures only { IfErr result (λ e. e ≡ NoMemory) }
{
    let Ok(sorted) = directory.chain.list_sorted(alloc) else {
        return Err(CallError::NoMemory);
    };
    let names = sorted.as_slice();
    let mut lines = Vec::new(alloc);
    for entry in names {
        push_line(versions, directory, entry, &mut lines)?;
    }
    Ok(lines)
}

/// Returns the owners of the directories that the master directory names, sorted by their numbers.
///
/// # Errors
///
/// `NoMemory` if there is no memory for them.
fn master_owners(alloc: Global, master: &Chain<MasterEntry>) -> Result<Vec<Ppn>, CallError>
    ensures value { IfOk result (λ owners. owners.items
        ≡ keys (from_entries {R = nat_cmp} (map master_view master.now.entries))) }
    ensures only { IfErr result (λ e. e ≡ NoMemory) }
{
    let Ok(sorted) = master.list_sorted(alloc) else {
        return Err(CallError::NoMemory);
    };
    let mut owners = Vec::new(alloc);
    for entry in sorted.as_slice() {
        if owners.push(entry.ppn).is_err() {
            return Err(CallError::NoMemory);
        }
    }
    Ok(owners)
}

impl<D: Disk> Volume<D> {
    /// Returns the files of a directory, sorted by name and then by extension, as numbers.
    ///
    /// # Errors
    ///
    /// `Refused(NoDirectory)` if there is no such directory, `NoMemory` if there is no memory for the list, `Failed` if
    /// the volume failed before.
    pub fn list(&self, alloc: Global, ppn: Ppn) -> Result<Vec<Entry>, CallError>
        ensures listed { (D.state self.now.disk).honest → self.now.failed ≡ false → (files : Files File)
            → RestsAt (D.state self.now.disk) files
            → IfOk result (λ lines. (d : Directory File) × (get files ppn ≡ Some d)
            × (lines.items ≡ map line (entries d.files))) }
        ensures refused { (D.state self.now.disk).honest → self.now.failed ≡ false → (files : Files File)
            → RestsAt (D.state self.now.disk) files
            → (IsErrOf result (Refused NoDirectory) ↔ (get files ppn ≡ None)) }
        ensures failed { IsErrOf result Failed ↔ IsTrue self.now.failed }
        ensures only { IfErr result IsListError }
    {
        if self.failed {
            return Err(CallError::Failed);
        }
        let i = directory_place(&self.map.master, ppn)?;
        let directory = &self.map.directories[i];
        directory_lines(alloc, &self.map.versions, directory)
    }

    /// Returns the owners of all directories, sorted by their numbers.
    ///
    /// # Errors
    ///
    /// `NoMemory` if there is no memory for them, `Failed` if the volume failed before.
    pub fn owners(&self, alloc: Global) -> Result<Vec<Ppn>, CallError>
        ensures value { (D.state self.now.disk).honest → self.now.failed ≡ false → (files : Files File)
            → RestsAt (D.state self.now.disk) files
            → IfOk result (λ owners. owners.items ≡ keys files) }
        ensures failed { IsErrOf result Failed ↔ IsTrue self.now.failed }
        ensures only { IfErr result (λ e. (e ≡ NoMemory) ⊎ (e ≡ Failed)) }
    {
        if self.failed {
            return Err(CallError::Failed);
        }
        master_owners(alloc, &self.map.master)
    }
}
