//! Claims: the places for which versions are being written, and what is known of these.
ghost use Rattle.std.specs.Prelude.{◌≡◌, ◌↔◌, ◌==◌, ◌&&◌, Some, IsSome, IsTrue, option_map};
ghost use Rattle.spec_image.specs.Common.{place_of};
ghost use Rattle.volume.specs.Common.{claims_at, claims, pending_at};
ghost use Rattle.volume.specs.declared.pending.PendingVersion.{PendingVersion};

use crate::handles::Pending;
use crate::pending::{PendingKind, PendingVersion};
use crate::volume::Volume;
use blockdisk::Disk;
use retrieval::Prime;
use slab::Slab;
use words36::{FileName, Ppn};

/// Returns whether a version is being written for this place.
fn is_of(version: &PendingVersion, ppn: Ppn, file: &FileName) -> bool
    ensures { result ≡ claims_at (place_of ppn file.now) (Some version.now) }
{
    let prime = &version.prime;
    prime.ppn == ppn && prime.file.name == file.name && prime.file.ext == file.ext
}

/// Returns whether one of these versions is being written for a place.
fn is_claimed(pending: &Slab<PendingVersion>, ppn: Ppn, file: &FileName) -> bool
    ensures { result ≡ claims pending.now.slots (place_of ppn file.now) }
{
    for (_, version) in pending.iter() {
        if is_of(version, ppn, file) {
            return true;
        }
    }
    false
}

impl<D: Disk> Volume<D> {
    /// Returns whether a version is being written for a place, even if the volume has failed.
    pub fn is_claimed(&self, ppn: Ppn, file: &FileName) -> bool
        ensures { result ≡ claims self.now.map.pending (place_of ppn file.now) }
    {
        is_claimed(&self.map.pending, ppn, file)
    }

    /// Returns whether this handle is that of a version that is being written.
    pub fn is_pending(&self, pending: Pending) -> bool
        ensures { IsTrue result ↔ IsSome (pending_at self.now.map.pending pending.key) }
    {
        self.map.pending.contains(pending.key)
    }

    /// Returns how a version that is being written began; `None` if the handle is that of no such version.
    pub fn kind(&self, pending: Pending) -> Option<PendingKind>
        ensures { result ≡ option_map (λ p. p.kind) (pending_at self.now.map.pending pending.key) }
    {
        let version = self.map.pending.get(pending.key)?;
        Some(version.kind)
    }

    /// Returns what the prime block of a version that is being written will say: its place, protection, mode and
    /// moment. `None` if the handle is that of no such version.
    pub fn prime(&self, pending: Pending) -> Option<Prime>
        ensures { result ≡ option_map (λ p. p.prime) (pending_at self.now.map.pending pending.key) }
    {
        let version = self.map.pending.get(pending.key)?;
        Some(version.prime)
    }

    /// Returns how many of its first blocks a version that is being written must leave unchanged: for an append all
    /// that it began with, for any other kind 0. `None` if the handle is that of no such version.
    pub fn kept_blocks(&self, pending: Pending) -> Option<u32>
        ensures { result ≡ option_map (λ p. p.kept_blocks) (pending_at self.now.map.pending pending.key) }
    {
        let version = self.map.pending.get(pending.key)?;
        Some(version.kept_blocks)
    }
}
