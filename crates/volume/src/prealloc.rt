//! The memory for a publication or a new entry, found before anything is written.
ghost use Rattle.std.specs.Prelude.{◌≡◌, ◌<◌, length, slice_get, Some, IfOk, IsSome};
ghost use Rattle.spec_image.specs.Common.{name_cmp};
ghost use Rattle.retrieval.specs.Common.{rib_count};
ghost use Rattle.slab.specs.Slab.{HasRoomFor};
ghost use Rattle.directory.specs.Common.{viewed, IsReserve, IsSpareFor};
ghost use Rattle.volume.specs.Common.{file_view, pending_at, IsWholeMemory, memory_of, IsPlaced, IsSupplied};
ghost use Rattle.volume.specs.declared.live.LiveDirectory.{LiveDirectory};
ghost use Rattle.volume.specs.declared.pending.PendingVersion.{PendingVersion};

use crate::live::LiveMap;
use crate::query::directory_place;
use blockdisk::NoMemory;
use directory::{ChainPrealloc, FileEntry, Prealloc};
use retrieval::rib_count;
use std::alloc::Global;
use words36::FileName;

/// The memory that a publication takes, found before anything is written.
#[derive(Drop)]
pub(crate) struct PublishPrealloc {
    /// A list with a place for each rib.
    pub ribs: Vec<u32>,
    /// Memory for the entry in its directory.
    pub reserve: ChainPrealloc<FileEntry>,
    /// Memory for the key of its version, if the entry is new.
    pub keys: Prealloc<usize>,
}

/// The memory that a new entry of a directory takes.
#[derive(Drop)]
pub(crate) struct EntryPrealloc {
    /// Memory for the entry in its chain.
    pub reserve: ChainPrealloc<FileEntry>,
    /// Memory for the key of its version.
    pub keys: Prealloc<usize>,
}

/// Finds the memory that an entry of this name takes in the directory at a place.
///
/// # Errors
///
/// `NoMemory` if there is none.
pub(crate) fn preallocate_entry(
    map: &LiveMap,
    alloc: Global,
    place: usize,
    name: FileName,
) -> Result<EntryPrealloc, NoMemory>
    requires inside { place < length map.now.directories.items }
    requires named { 0 < name.name }
    ensures fits { IfOk result (λ supplies. (d : LiveDirectory) → slice_get map.now.directories.items place ≡ Some d
        → IsReserve name_cmp (viewed file_view d.chain) name supplies.reserve) }
    ensures roomy { IfOk result (λ supplies. (d : LiveDirectory) → slice_get map.now.directories.items place ≡ Some d
        → IsSpareFor (length d.keys.items) supplies.keys) }
{
    let Some(entry) = FileEntry::new(name, 0) else {
        unreachable!() // its name isn't zero
    };
    let directory = &map.directories[place];
    let Ok(reserve) = directory.chain.preallocate_for(alloc, &entry) else {
        return Err(NoMemory);
    };
    let keys = directory.keys.preallocate(alloc)?;
    Ok(EntryPrealloc { reserve, keys })
}

/// Finds the memory that the publication of the version under a key takes, if it has this many data blocks then.
///
/// # Errors
///
/// `NoMemory` if there is none.
pub(crate) fn preallocate_publish(
    map: &mut LiveMap,
    alloc: Global,
    key: usize,
    blocks: usize,
) -> Result<PublishPrealloc, NoMemory>
    requires whole { IsWholeMemory map.old.table.size (memory_of map.old) }
    requires there { IsSome (pending_at (memory_of map.old).pending key) }
    requires placed { (p : PendingVersion)
        → pending_at (memory_of map.old).pending key ≡ Some p → IsPlaced (memory_of map.old) p }
    ensures map { memory_of map.new ≡ memory_of map.old }
    ensures ribs { IfOk result (λ supplies. length supplies.ribs.items ≡ rib_count blocks) }
    ensures supplied { IfOk result (λ supplies. (p : PendingVersion)
        → pending_at (memory_of map.old).pending key ≡ Some p
        → IsSupplied (memory_of map.old) p supplies.reserve supplies.keys) }
    ensures slot { IfOk result (λ supplies. HasRoomFor map.new.versions 1) }
{
    let Some(version) = map.pending.get(key) else {
        unreachable!() // there is one
    };
    let Ok(place) = directory_place(&map.master, version.prime.ppn) else {
        unreachable!() // its directory is there
    };
    let file = version.prime.file;
    let EntryPrealloc { reserve, keys } = preallocate_entry(map, alloc, place, file)?;
    let ribs = vec![in alloc; 0; rib_count(blocks)]?;
    map.versions.reserve(1)?;
    Ok(PublishPrealloc {
        ribs,
        reserve,
        keys,
    })
}
