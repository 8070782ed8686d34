//! The order in which the files of a directory are read.
ghost use Rattle.std.specs.Prelude.{map, length, IfOk};
ghost use Rattle.std.specs.List.{enumerate_from, range_with_len};
ghost use Rattle.std.specs.List.Sorted.{IsPermutation, IsNonDecreasingBy};
ghost use Rattle.volume.specs.Common.{numbered_entry, numbered_version};

use crate::read_file::LoadedVersion;
use blockdisk::NoMemory;
use directory::FileEntry;
use std::alloc::Global;

/// An entry of a directory whose file is read in its turn.
#[derive(Clone, Copy)]
pub(crate) struct Turn {
    /// The place of the entry in the directory, counted from 0.
    pub(crate) place: usize,
    /// The entry.
    pub(crate) entry: FileEntry,
}

/// The version of a file, and the entry of its directory that names the file.
#[derive(Drop)]
pub(crate) struct PlacedVersion {
    /// The place of the entry in the directory, counted from 0.
    pub(crate) place: usize,
    /// The version.
    pub(crate) stored: LoadedVersion,
}

/// Returns these entries in the order in which their files are read: by rising prime blocks. So blocks that are
/// neighbours on the disk are read one after the other, whatever the order of the names.
///
/// # Errors
///
/// `NoMemory` if there is no memory for the turns.
pub(crate) fn rising_turns(alloc: Global, entries: &[FileEntry]) -> Result<Vec<Turn>, NoMemory>
    ensures all { IfOk result (λ turns. IsPermutation (enumerate_from 0 entries.now) (map numbered_entry turns.items)) }
    ensures rising { IfOk result (λ turns. IsNonDecreasingBy (λ t. t.entry.prime) turns.items) }
{
    let mut turns = Vec::with_capacity(alloc, entries.len())?;
    for (place, entry) in entries.iter().enumerate() {
        let entry = *entry;
        if turns.push(Turn { place, entry }).is_err() {
            return Err(NoMemory);
        }
    }
    turns.sort_unstable_by_key(|turn| turn.entry.prime);
    Ok(turns)
}

/// Returns the versions in the order of the places of their entries. Each place of a list as long as theirs is that of
/// one of them.
///
/// # Errors
///
/// `NoMemory` if there is no memory for the versions.
pub(crate) fn by_place(
    alloc: Global,
    mut placed: Vec<PlacedVersion>,
) -> Result<Vec<LoadedVersion>, NoMemory>
    requires { IsPermutation (range_with_len 0 (length placed.items)) (map (λ p. p.place) placed.items) }
    ensures { IfOk result (λ versions. IsPermutation (map numbered_version placed.items)
        (enumerate_from 0 versions.items)) }
{
    placed.sort_unstable_by_key(|placed| placed.place);
    let mut versions = Vec::with_capacity(alloc, placed.len())?;
    for PlacedVersion { place: _, stored } in placed {
        if versions.push(stored).is_err() {
            return Err(NoMemory);
        }
    }
    Ok(versions)
}
