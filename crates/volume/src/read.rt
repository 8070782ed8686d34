//! The reading of directories with their files.
ghost use Rattle.std.specs.Prelude.{◌≡◌, ◌+◌, ◌∷◌, ◌++◌, [], ℕ, map, length, IfOk, OnOk, IfErr, IsErrOf};
ghost use Rattle.std.specs.List.{AllByRecursion};
ghost use Rattle.spec_image.specs.Common.{head_or_zero, file_words, IsFileEntry, name_cmp, EachOnce, times, total};
ghost use Rattle.spec_image.specs.Common.{IsVolumeSize, place_of, LeadsAlong, InSpace, IsMasterEntryOf};
ghost use Rattle.spec_image.specs.Common.{layout_number};
ghost use Rattle.std.specs.Ordering.{nat_cmp};
ghost use Rattle.alloctab.specs.Common.{digit_at};
ghost use Rattle.directory.specs.Common.{nodes_of, IsChain, IsOn, viewed};
ghost use Rattle.volume.specs.Common.{file_view, master_view, known_version, known_directory, KeepsDisk};
ghost use Rattle.volume.specs.Common.{blocks_reached, reaches_in_entries, reaches_in_known, IsWholeVersion};
ghost use Rattle.volume.specs.Common.{IsWholeDirectory, IsOnlySpace, IsAdded, IsMarkedFile, AreFilesRead};
ghost use Rattle.volume.specs.Common.{IsDirectoryFound, AreDirectoriesRead, NamesInSpace, IsFaultOfFile};
ghost use Rattle.volume.specs.Common.{IsFaultOfFiles, IsFaultOfDirectory, IsFaultOfDirectories, turn_view};
ghost use Rattle.volume.specs.Common.{placed_known};
ghost use Rattle.volume.specs.declared.error.VolumeError.TheVariants.{Device};

use crate::VolumeError;
use crate::read_file::{LoadedVersion, read_file};
use crate::turns::{PlacedVersion, Turn, by_place, rising_turns};
use crate::volume::LoadedDirectory;
use alloctab::Reached;
use blockdisk::Disk;
use directory::{Chain, FileEntry, MasterEntry};
use spec_image::layout::Layout;
use std::alloc::Global;
use words36::Ppn;

/// Reads the chain of a directory that begins in block `first`.
fn load_files<D: Disk>(
    alloc: Global,
    disk: &mut D,
    first: u32,
    reached: &mut Reached,
) -> Result<Chain<FileEntry>, VolumeError>
    // What the caller ensures.
    requires volume { IsVolumeSize (D.state disk.old).size }
    requires inside { InSpace (D.state disk.old).size first }
    requires marks { length reached.old ≡ (D.state disk.old).size }
    // The chain that was read, as the disk spells it, with its blocks marked.
    ensures on { (D.state disk.new).honest
        → IfOk result (λ chain. IsOn file_words (D.state disk.old).contents (viewed file_view chain)) }
    ensures walk { (D.state disk.new).honest
        → IfOk result (λ chain. LeadsAlong file_words (D.state disk.old).contents first
        (nodes_of chain.blocks (map file_view chain.entries)) 0) }
    ensures begins { IfOk result (λ chain. head_or_zero chain.blocks ≡ first) }
    ensures chain { IfOk result (λ chain. IsChain name_cmp IsFileEntry (viewed file_view chain)) }
    ensures inside { IfOk result (λ chain. AllByRecursion (InSpace (D.state disk.old).size) chain.blocks) }
    ensures targets { IfOk result (λ chain. AllByRecursion (λ e. InSpace (D.state disk.old).size e.1)
        (map file_view chain.entries)) }
    ensures marked { IfOk result (λ chain. (n : ℕ)
        → digit_at reached.new n ≡ digit_at reached.old n + times n chain.blocks) }
    // Which refusal comes when.
    ensures fault { (D.state disk.new).honest → (layout ppn : ℕ)
        → IfErr result (IsFaultOfDirectory (D.state disk.old).size layout (D.state disk.old).contents
        (digit_at reached.old) ppn first) }
    ensures named { IfErr result (NamesInSpace (D.state disk.old).size) }
    // The device: what failed, and how often.
    ensures length { length reached.new ≡ length reached.old }
    ensures disk { KeepsDisk (D.state disk.old) (D.state disk.new) (IsErrOf result Device) }
{
    match Chain::load(alloc, disk, first, reached) {
        Ok(chain) => Ok(chain),
        Err(error) => Err(VolumeError::from(error)),
    }
}

/// Reads the file whose turn it is, in a layout, and adds its version after the others.
fn add_file<D: Disk>(
    alloc: Global,
    disk: &mut D,
    layout: Layout,
    ppn: Ppn,
    turn: &Turn,
    reached: &mut Reached,
    read: &mut Vec<PlacedVersion>,
) -> Result<(), VolumeError>
    // What the caller ensures.
    requires volume { IsVolumeSize (D.state disk.old).size }
    requires inside { InSpace (D.state disk.old).size turn.now.entry.prime }
    requires marks { length reached.old ≡ (D.state disk.old).size }
    // What was read, or the fault that was met.
    ensures read { (D.state disk.new).honest
        → OnOk result (IsAdded placed_known read.old.items read.new.items
        (IsMarkedFile (layout_number layout) (D.state disk.old).contents ppn (turn_view turn.now)
        (digit_at reached.old) (digit_at reached.new))) }
    ensures marked { OnOk result (IsAdded placed_known read.old.items read.new.items (λ v. (n : ℕ)
        → digit_at reached.new n ≡ digit_at reached.old n + times n (blocks_reached turn.now.entry.prime v.version))) }
    ensures fault { (D.state disk.new).honest
        → IfErr result (IsFaultOfFile (D.state disk.old).size (layout_number layout) (D.state disk.old).contents
        reached.old (place_of ppn turn.now.entry.name) turn.now.entry.prime) }
    ensures named { IfErr result (NamesInSpace (D.state disk.old).size) }
    // What was read is valid as part of a map.
    ensures whole { OnOk result (IsAdded placed_known read.old.items read.new.items IsWholeVersion) }
    ensures aligned { OnOk result (length read.new.items ≡ length read.old.items + 1) }
    ensures placed { OnOk result (map (λ p. p.place) read.new.items
        ≡ map (λ p. p.place) read.old.items ++ turn.now.place ∷ []) }
    ensures space { IsOnlySpace (D.state disk.old).size reached.old
        → OnOk result (IsOnlySpace (D.state disk.old).size reached.new) }
    // The device: what failed, and how often.
    ensures length { length reached.new ≡ length reached.old }
    ensures disk { KeepsDisk (D.state disk.old) (D.state disk.new) (IsErrOf result Device) }
{
    let entry = turn.entry;
    let stored = read_file(alloc, disk, layout, ppn, entry.name, entry.prime, reached)?;
    let place = turn.place;
    if read.push(PlacedVersion { place, stored }).is_err() {
        return Err(VolumeError::NoMemory);
    }
    Ok(())
}

/// Reads the files of entries of a directory in a layout, each in its turn.
fn read_turns<D: Disk>(
    alloc: Global,
    disk: &mut D,
    layout: Layout,
    ppn: Ppn,
    turns: &[Turn],
    reached: &mut Reached,
) -> Result<Vec<PlacedVersion>, VolumeError>
    // What the caller ensures.
    requires volume { IsVolumeSize (D.state disk.old).size }
    requires inside { AllByRecursion (λ e. InSpace (D.state disk.old).size e.1) (map turn_view turns.now) }
    requires once { EachOnce name_cmp (map turn_view turns.now) }
    requires marks { length reached.old ≡ (D.state disk.old).size }
    // What was read, or the fault that was met.
    ensures read { (D.state disk.new).honest
        → IfOk result (λ read. AreFilesRead (layout_number layout) (D.state disk.old).contents ppn (map turn_view
        turns.now) (map placed_known read.items) (digit_at reached.old) (digit_at reached.new)) }
    ensures marked { IfOk result (λ read. (n : ℕ) → digit_at reached.new n ≡ digit_at reached.old n
        + reaches_in_entries n (map turn_view turns.now) (map placed_known read.items)) }
    ensures fault { (D.state disk.new).honest
        → IfErr result (IsFaultOfFiles (D.state disk.old).size (layout_number layout) (D.state disk.old).contents
        (digit_at reached.old) ppn (map turn_view turns.now)) }
    ensures named { IfErr result (NamesInSpace (D.state disk.old).size) }
    // What was read is valid as part of a map.
    ensures whole { IfOk result (λ read. AllByRecursion IsWholeVersion (map placed_known read.items)) }
    ensures placed { IfOk result (λ read. map (λ p. p.place) read.items ≡ map (λ t. t.place) turns.now) }
    ensures space { IsOnlySpace (D.state disk.old).size reached.old
        → IfOk result (λ read. IsOnlySpace (D.state disk.old).size reached.new) }
    // The device: what failed, and how often.
    ensures length { length reached.new ≡ length reached.old }
    ensures disk { KeepsDisk (D.state disk.old) (D.state disk.new) (IsErrOf result Device) }
{
    let mut read = Vec::new(alloc);
    for turn in turns {
        add_file(alloc, disk, layout, ppn, turn, reached, &mut read)?;
    }
    Ok(read)
}

/// Reads the files of these entries of a directory in a layout. They are read by rising prime blocks, and their
/// versions are returned in the order of the entries.
fn read_files<D: Disk>(
    alloc: Global,
    disk: &mut D,
    layout: Layout,
    ppn: Ppn,
    entries: &[FileEntry],
    reached: &mut Reached,
) -> Result<Vec<LoadedVersion>, VolumeError>
    // What the caller ensures.
    requires volume { IsVolumeSize (D.state disk.old).size }
    requires inside { AllByRecursion (λ e. InSpace (D.state disk.old).size e.1) (map file_view entries.now) }
    requires once { EachOnce name_cmp (map file_view entries.now) }
    requires marks { length reached.old ≡ (D.state disk.old).size }
    // What was read, or the fault that was met.
    ensures read { (D.state disk.new).honest
        → IfOk result (λ versions. AreFilesRead (layout_number layout) (D.state disk.old).contents ppn (map file_view
        entries.now) (map known_version versions.items) (digit_at reached.old) (digit_at reached.new)) }
    ensures marked { IfOk result (λ versions. (n : ℕ) → digit_at reached.new n ≡ digit_at reached.old n
        + reaches_in_entries n (map file_view entries.now) (map known_version versions.items)) }
    ensures fault { (D.state disk.new).honest
        → IfErr result (IsFaultOfFiles (D.state disk.old).size (layout_number layout) (D.state disk.old).contents
        (digit_at reached.old) ppn (map file_view entries.now)) }
    ensures named { IfErr result (NamesInSpace (D.state disk.old).size) }
    // What was read is valid as part of a map.
    ensures whole { IfOk result (λ versions. AllByRecursion IsWholeVersion (map known_version versions.items)) }
    ensures aligned { IfOk result (λ versions. length versions.items ≡ length entries.now) }
    ensures space { IsOnlySpace (D.state disk.old).size reached.old
        → IfOk result (λ versions. IsOnlySpace (D.state disk.old).size reached.new) }
    // The device: what failed, and how often.
    ensures length { length reached.new ≡ length reached.old }
    ensures disk { KeepsDisk (D.state disk.old) (D.state disk.new) (IsErrOf result Device) }
{
    let turns = rising_turns(alloc, entries)?;
    let read = read_turns(alloc, disk, layout, ppn, &turns, reached)?;
    let versions = by_place(alloc, read)?;
    Ok(versions)
}

/// Reads a directory with all its files in a layout.
fn read_directory<D: Disk>(
    alloc: Global,
    disk: &mut D,
    layout: Layout,
    entry: &MasterEntry,
    reached: &mut Reached,
) -> Result<LoadedDirectory, VolumeError>
    // What the caller ensures.
    requires volume { IsVolumeSize (D.state disk.old).size }
    requires entry { IsMasterEntryOf (layout_number layout) (master_view entry.now) }
    requires inside { InSpace (D.state disk.old).size entry.now.first }
    requires marks { length reached.old ≡ (D.state disk.old).size }
    // What was read, or the fault that was met.
    ensures read { (D.state disk.new).honest
        → IfOk result (λ directory. IsDirectoryFound (layout_number layout) (D.state disk.old).contents
        (master_view entry.now) (known_directory directory) (digit_at reached.old) (digit_at reached.new)) }
    ensures marked { IfOk result (λ directory. (n : ℕ)
        → digit_at reached.new n ≡ digit_at reached.old n + reaches_in_known n (known_directory directory)) }
    ensures fault { (D.state disk.new).honest
        → IfErr result (IsFaultOfDirectory (D.state disk.old).size (layout_number layout) (D.state disk.old).contents
        (digit_at reached.old) entry.now.ppn entry.now.first) }
    ensures named { IfErr result (NamesInSpace (D.state disk.old).size) }
    // What was read is valid as part of a map.
    ensures whole { IfOk result (λ directory. IsWholeDirectory (D.state disk.old).size (known_directory directory)) }
    ensures space { IsOnlySpace (D.state disk.old).size reached.old
        → IfOk result (λ directory. IsOnlySpace (D.state disk.old).size reached.new) }
    // The device: what failed, and how often.
    ensures length { length reached.new ≡ length reached.old }
    ensures disk { KeepsDisk (D.state disk.old) (D.state disk.new) (IsErrOf result Device) }
{
    let chain = load_files(alloc, disk, entry.first, reached)?;
    let versions = read_files(alloc, disk, layout, entry.ppn, chain.entries(), reached)?;
    Ok(LoadedDirectory { chain, versions })
}

/// Reads the directory of an entry in a layout, and adds it after the others.
fn add_directory<D: Disk>(
    alloc: Global,
    disk: &mut D,
    layout: Layout,
    entry: &MasterEntry,
    reached: &mut Reached,
    directories: &mut Vec<LoadedDirectory>,
) -> Result<(), VolumeError>
    // What the caller ensures.
    requires volume { IsVolumeSize (D.state disk.old).size }
    requires entry { IsMasterEntryOf (layout_number layout) (master_view entry.now) }
    requires inside { InSpace (D.state disk.old).size entry.now.first }
    requires marks { length reached.old ≡ (D.state disk.old).size }
    // What was read, or the fault that was met.
    ensures read { (D.state disk.new).honest
        → OnOk result (IsAdded known_directory directories.old.items directories.new.items
        (λ d. IsDirectoryFound (layout_number layout) (D.state disk.old).contents (master_view entry.now) d
        (digit_at reached.old) (digit_at reached.new))) }
    ensures marked { OnOk result (IsAdded known_directory directories.old.items directories.new.items (λ d. (n : ℕ)
        → digit_at reached.new n ≡ digit_at reached.old n + reaches_in_known n d)) }
    ensures fault { (D.state disk.new).honest
        → IfErr result (IsFaultOfDirectory (D.state disk.old).size (layout_number layout) (D.state disk.old).contents
        (digit_at reached.old) entry.now.ppn entry.now.first) }
    ensures named { IfErr result (NamesInSpace (D.state disk.old).size) }
    // What was read is valid as part of a map.
    ensures whole { OnOk result (IsAdded known_directory directories.old.items directories.new.items
        (IsWholeDirectory (D.state disk.old).size)) }
    ensures aligned { OnOk result (length directories.new.items ≡ length directories.old.items + 1) }
    ensures space { IsOnlySpace (D.state disk.old).size reached.old
        → OnOk result (IsOnlySpace (D.state disk.old).size reached.new) }
    // The device: what failed, and how often.
    ensures length { length reached.new ≡ length reached.old }
    ensures disk { KeepsDisk (D.state disk.old) (D.state disk.new) (IsErrOf result Device) }
{
    let directory = read_directory(alloc, disk, layout, entry, reached)?;
    if directories.push(directory).is_err() {
        return Err(VolumeError::NoMemory);
    }
    Ok(())
}

/// Reads the directories of these entries of the master directory in a layout, in their order.
pub fn read_directories<D: Disk>(
    alloc: Global,
    disk: &mut D,
    layout: Layout,
    entries: &[MasterEntry],
    reached: &mut Reached,
) -> Result<Vec<LoadedDirectory>, VolumeError>
    // What the caller ensures.
    requires volume { IsVolumeSize (D.state disk.old).size }
    requires inside { AllByRecursion (λ e. InSpace (D.state disk.old).size e.1.1) (map master_view entries.now) }
    requires entries { AllByRecursion (IsMasterEntryOf (layout_number layout)) (map master_view entries.now) }
    requires once { EachOnce nat_cmp (map master_view entries.now) }
    requires marks { length reached.old ≡ (D.state disk.old).size }
    // What was read, or the fault that was met.
    ensures read { (D.state disk.new).honest
        → IfOk result (λ directories. AreDirectoriesRead (layout_number layout) (D.state disk.old).contents
        (map master_view entries.now)
        (map known_directory directories.items) (digit_at reached.old) (digit_at reached.new)) }
    ensures marked { IfOk result (λ directories. (n : ℕ) → digit_at reached.new n
        ≡ digit_at reached.old n + total (reaches_in_known n) (map known_directory directories.items)) }
    ensures fault { (D.state disk.new).honest
        → IfErr result (IsFaultOfDirectories (D.state disk.old).size (layout_number layout) (D.state disk.old).contents
        (digit_at reached.old) (map master_view entries.now)) }
    ensures named { IfErr result (NamesInSpace (D.state disk.old).size) }
    // What was read is valid as part of a map.
    ensures whole { IfOk result (λ directories. AllByRecursion (IsWholeDirectory (D.state disk.old).size)
        (map known_directory directories.items)) }
    ensures aligned { IfOk result (λ directories. length directories.items ≡ length entries.now) }
    ensures space { IsOnlySpace (D.state disk.old).size reached.old
        → IfOk result (λ directories. IsOnlySpace (D.state disk.old).size reached.new) }
    // The device: what failed, and how often.
    ensures length { length reached.new ≡ length reached.old }
    ensures disk { KeepsDisk (D.state disk.old) (D.state disk.new) (IsErrOf result Device) }
{
    let mut directories = Vec::new(alloc);
    for entry in entries {
        add_directory(alloc, disk, layout, entry, reached, &mut directories)?;
    }
    Ok(directories)
}
