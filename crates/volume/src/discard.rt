//! The dropping of versions that are being written.
ghost use Rattle.std.specs.Prelude.{◌≡◌, ◌+◌, ◌<◌, ◌^◌, ℕ, true, false, None, Some, IsSome, slice_get, length};
ghost use Rattle.std.specs.Ordering.{nat_cmp};
ghost use Rattle.std.specs.FinMap.Entries.{find};
ghost use Rattle.spec_image.specs.Common.{times, growth};
ghost use Rattle.alloctab.specs.Common.{holds};
ghost use Rattle.volume.specs.Common.{entries_with, IsDirectoryOf, CurrentDirectory, pending_at, is_creation};
ghost use Rattle.volume.specs.Common.{IsWholeMemory, memory_of};
ghost use Rattle.volume.specs.declared.pending.PendingVersion.{PendingVersion};

use crate::begin::growth_at;
use crate::cost::version_cost;
use crate::handles::Pending;
use crate::live::{LiveMap, unhold_blocks};
use crate::pending::PendingVersion;
use crate::query::directory_place;
use crate::volume::Volume;
use blockdisk::Disk;

/// Returns how many fewer blocks the directory of a version costs without it; the version has been dropped already.
fn shrinkage(memory: &LiveMap, version: &PendingVersion) -> u32
    requires aligned { length memory.now.directories.items ≡ length memory.now.master.entries }
    requires there { is_creation version.now ≡ true
        → find nat_cmp version.now.prime.ppn (memory_of memory.now).known.master.entries ≡ None → ⊥ }
    requires few { (place : ℕ) (d : CurrentDirectory) → slice_get
        (memory_of memory.now).known.directories place ≡ Some d
        → entries_with (memory_of memory.now) d version.now.prime.ppn < 2 ^ 64 }
    ensures none { is_creation version.now ≡ false → result ≡ 0 }
    ensures value { is_creation version.now ≡ true → (d : CurrentDirectory)
        × IsDirectoryOf (memory_of memory.now) version.now.prime.ppn d
        × (result ≡ growth (entries_with (memory_of memory.now) d version.now.prime.ppn)) }
    ensures few { result < 2 }
{
    if !version.kind.is_create() {
        return 0;
    }
    match directory_place(&memory.master, version.prime.ppn) {
        Ok(place) => growth_at(memory, place, version.prime.ppn),
        Err(_) => unreachable!(), // it was begun in a directory that is there
    }
}

/// Drops a version that is being written: releases one hold of each of its blocks, and unbooks what it cost.
pub fn discard_in_memory(memory: &mut LiveMap, key: usize)
    requires whole { IsWholeMemory memory.old.table.size (memory_of memory.old) }
    requires there { IsSome (pending_at (memory_of memory.old).pending key) }
    ensures gone { pending_at (memory_of memory.new).pending key ≡ None }
    ensures others { (k : ℕ) → (k ≡ key → ⊥) → pending_at (memory_of memory.new).pending k
        ≡ pending_at (memory_of memory.old).pending k }
    ensures live { (memory_of memory.new).live ≡ (memory_of memory.old).live }
    ensures keys { (memory_of memory.new).keys ≡ (memory_of memory.old).keys }
    ensures table { (memory_of memory.new).known
        ≡ record (memory_of memory.old).known {
          table =
              record (memory_of memory.old).known.table {
                held = (memory_of memory.new).known.table.held;
                booked = (memory_of memory.new).known.table.booked;
              };
        } }
    ensures held { (p : PendingVersion) → pending_at (memory_of memory.old).pending key ≡ Some p
        → (n : ℕ) → holds (memory_of memory.new).known.table n + times n p.version.blocks
        ≡ holds (memory_of memory.old).known.table n }
    ensures whole { IsWholeMemory memory.new.table.size (memory_of memory.new) }
{
    let Some(version) = memory.pending.try_remove(key) else {
        unreachable!() // there is one
    };
    let cost = version_cost(&version.version) + shrinkage(memory, &version);
    unhold_blocks(&mut memory.table, &version.version);
    memory.table.unbook(cost);
}

impl<D: Disk> Volume<D> {
    /// Drops a version that is being written. Those of its blocks that no other version has are free again, and what it
    /// cost is unbooked. It takes no memory and leaves the disk alone.
    pub fn discard(&mut self, pending: Pending)
        requires live { IsSome (pending_at self.old.map.pending pending.key) }
        ensures gone { pending_at self.new.map.pending pending.key ≡ None }
        ensures others { (k : ℕ) → (k ≡ pending.key → ⊥) → pending_at self.new.map.pending k
            ≡ pending_at self.old.map.pending k }
        ensures live { self.new.map.live ≡ self.old.map.live }
        ensures keys { self.new.map.keys ≡ self.old.map.keys }
        ensures table { self.new.map.known
            ≡ record self.old.map.known {
              table =
                  record self.old.map.known.table {
                    held = self.new.map.known.table.held;
                    booked = self.new.map.known.table.booked;
                  };
            } }
        ensures held { (p : PendingVersion) → pending_at self.old.map.pending pending.key ≡ Some p
            → (n : ℕ) → holds self.new.map.known.table n + times n p.version.blocks
            ≡ holds self.old.map.known.table n }
        ensures untouched { (self.new.disk ≡ self.old.disk) × (self.new.failed ≡ self.old.failed) }
        ensures layout { self.new.layout ≡ self.old.layout }
    {
        discard_in_memory(&mut self.map, pending.key);
    }
}
