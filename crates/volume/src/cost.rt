//! The cost of versions, directories and maps, in blocks.
ghost use Rattle.std.specs.Prelude.{◌≡◌, ℕ, ◌+◌, ◌<◌, ◌≤◌, ◌^◌, length, map};
ghost use Rattle.std.specs.List.{AllByRecursion};
ghost use Rattle.std.specs.Ordering.{nat_cmp};
ghost use Rattle.spec_image.specs.Common.{cost_of_blocks, cost_of_files, InSpace, IsMasterEntryOf, IsVolumeSize};
ghost use Rattle.spec_image.specs.Common.{most_blocks, DiskMap, files_of};
ghost use Rattle.alloctab.specs.Common.{used_in_space};
ghost use Rattle.directory.specs.Common.{IsChain, viewed};
ghost use Rattle.volume.specs.Common.{master_view, known_directory, CurrentMap, AgreesOnMap, IsWholeDirectory};
ghost use Rattle.volume.specs.Common.{cost_of_directory, cost_of_known, MemoryMap, IsWholeMemory};

use crate::volume::LoadedDirectory;
use alloctab::Table;
use directory::{Chain, MasterEntry};
use retrieval::{Version, rib_count};

/// Returns what a version of this many data blocks costs: these, a prime retrieval block, and the ribs that they need.
pub fn cost_of_blocks(blocks: u32) -> u32
    requires { blocks ≤ most_blocks }
    ensures { result ≡ cost_of_blocks blocks }
{
    blocks + 1 + rib_count(blocks as usize) as u32
}

/// Returns what a version costs, in blocks.
pub fn version_cost(version: &Version) -> u32
    requires { length version.now.blocks ≤ most_blocks }
    ensures { result ≡ cost_of_blocks (length version.now.blocks) }
{
    cost_of_blocks(version.count() as u32)
}

/// Books what a directory costs with all its files.
fn book_directory(table: &mut Table, directory: &LoadedDirectory)
    requires volume { IsVolumeSize table.old.size }
    requires whole { IsWholeDirectory table.old.size (known_directory directory.now) }
    requires fits { table.old.booked + cost_of_directory (known_directory directory.now) < 2 ^ 64 }
    ensures { table.new
        ≡ record table.old { booked = table.old.booked + cost_of_directory (known_directory directory.now) } }
{
    table.book(directory.chain.blocks().len() as u32);
    let versions = directory.versions.as_slice();
    for version in versions {
        table.book(version_cost(&version.version));
    }
}

/// Books what a map of a disk costs: the master directory, the directories and the versions. Nothing is booked in the
/// table before.
pub fn book_map(table: &mut Table, master: &Chain<MasterEntry>, directories: &[LoadedDirectory])
    requires volume { IsVolumeSize table.old.size }
    requires unbooked { table.old.booked ≡ 0 }
    requires inside { AllByRecursion (InSpace table.old.size) master.now.blocks }
    requires aligned { length directories.now ≡ length master.now.entries }
    requires each { AllByRecursion (IsWholeDirectory table.old.size) (map known_directory directories.now) }
    ensures { table.new
        ≡ record table.old {
          booked = cost_of_known (viewed master_view master.now)
              (map known_directory directories.now);
        } }
{
    table.book(master.blocks().len() as u32);
    for directory in directories {
        book_directory(table, directory);
    }
}

/// States that what is known of a map in memory costs what the files of the map cost, and that no more blocks of the
/// free space are in use than are booked.
pub fn known_maps_are_booked()
    ensures cost { (size : ℕ) (known : CurrentMap) (m : DiskMap) → AgreesOnMap known m
        → IsChain nat_cmp (IsMasterEntryOf 2) known.master → length known.directories ≡ length known.master.entries
        → AllByRecursion (IsWholeDirectory size) known.directories
        → cost_of_known known.master known.directories ≡ cost_of_files (files_of m) }
    ensures used { (size : ℕ) (memory : MemoryMap) → IsWholeMemory size memory
        → used_in_space memory.known.table ≤ memory.known.table.booked }
{}
