//! The migration of a volume to layout 2.
ghost use Rattle.std.specs.Prelude.{◌≡◌, ◌⊎◌, ◌≤◌, ℕ, length, OnOk, IfOk, IfErr, IsErrOf};
ghost use Rattle.blockdisk.specs.Common.{LeavesOnly, Modifies, NoneOpen, Still};
ghost use Rattle.changeset.specs.Common.{AllOrNone, IsGateOrLog, IsRecovered, IsShut, SyncsFirst, replaced, AtRest};
ghost use Rattle.spec_image.specs.Common.{head_or_zero, File, Files, home_block, SettledStandsOn, StandsOn, pack_in};
ghost use Rattle.spec_image.specs.Common.{IsVolumeSize, DiskMap, HasMap, files_of};
ghost use Rattle.volume.specs.Common.{NamesInSpace, Refuses, DiskAnswer, home_in, RaisedLike, RaisedLikeBefore};
ghost use Rattle.volume.specs.Common.{StandsOrRaised, IsTold, IsHomeBlock, AreCopies, IsMigrated, home_puts};
ghost use Rattle.volume.specs.declared.error.VolumeError.{VolumeError};
ghost use Rattle.volume.specs.declared.error.VolumeError.TheVariants.{Device};
ghost use Rattle.volume.specs.declared.migrate.Migrated.TheVariants.{Done, Already};

use crate::VolumeError;
use crate::home::{Home, home_block};
use crate::start::read_volume;
use crate::volume::Volume;
use blockdisk::Disk;
use changeset::{ChangeSet, LogError, commit};
use spec_image::layout::{HOME_COPIES, Layout};
use std::alloc::Global;
use words36::Block;

/// What a migration did.
#[derive(Clone, Copy, Debug, PartialEq, Eq)]
pub enum Migrated {
    /// Both home copies were written again, and name layout 2 now.
    Done,
    /// The disk had layout 2, and was only recovered.
    Already,
}

/// Returns the change that gives both home copies these words.
fn home_puts(words: &Block) -> ChangeSet
    ensures { result ≡ home_puts words.now }
{
    let [first, second] = HOME_COPIES;
    let mut set = ChangeSet::new();
    put_home(&mut set, first, words);
    put_home(&mut set, second, words);
    set
}

/// Gives a home copy its words, in a change that has room.
fn put_home(set: &mut ChangeSet, block: u32, words: &Block)
    requires { length set.old ≤ 1 }
    ensures { set.new ≡ replaced (record { block = block; words = words.now }) set.old }
{
    match set.put(block, words) {
        Ok(()) => {}
        Err(_) => unreachable!(), // there is room for two
    }
}

/// Writes both home copies again for layout 2, as one change. The master directory begins in block `master`.
///
/// # Errors
///
/// `Device` if the device failed: recovery then finds both copies as they were, or both written.
fn raise<D: Disk>(disk: &mut D, master: u32) -> Result<(), VolumeError>
    requires { IsVolumeSize (D.state disk.old).size }

    // A crash at any moment leaves what stands for the files of the map in its layout, or in layout 2; at Ok it is
    // layout 2, whatever a crash leaves.
    ensures crash { (D.state disk.new).honest → (m : DiskMap) → head_or_zero m.chain ≡ master
        → AtRest (D.state disk.old) (λ c. HasMap (D.state disk.old).size c m)
        → LeavesOnly (D.state disk.old) (D.state disk.new)
        (StandsOrRaised (D.state disk.old).size m.layout (files_of m)) }
    ensures done { (D.state disk.new).honest → (m : DiskMap) → head_or_zero m.chain ≡ master
        → AtRest (D.state disk.old) (λ c. HasMap (D.state disk.old).size c m)
        → OnOk result (AtRest (D.state disk.new)
        (λ c. SettledStandsOn (pack_in 2 (D.state disk.old).size) c (files_of m))) }
    // It is one change: none of its puts is made, or both are.
    ensures one { (D.state disk.new).honest → IsShut (D.state disk.old)
        → LeavesOnly (D.state disk.old) (D.state disk.new)
        (AllOrNone (home_puts (home_block (D.state disk.old).size (home_in 2 master))) (D.state disk.old)) }
    // Which blocks are written, and what the copies have then.
    ensures modified { (D.state disk.new).honest
        → OnOk result (Modifies (λ n. IsGateOrLog (D.state disk.old).size n ⊎ IsHomeBlock n)
        (D.state disk.old) (D.state disk.new)) }
    ensures copies { (D.state disk.new).honest
        → OnOk result (AreCopies (home_block (D.state disk.old).size (home_in 2 master)) (D.state disk.new).contents) }
    ensures settled { (D.state disk.new).honest → OnOk result (NoneOpen (D.state disk.new)) }

    // On every disk.
    ensures only { (e : VolumeError) → IsErrOf result e → e ≡ Device }
    ensures disk { DiskAnswer (D.state disk.old) (D.state disk.new) (IsErrOf result Device) }
{
    let home = Home {
        layout: Layout::Two,
        master,
    };
    let words = home_block(disk.blocks(), home);
    match commit(disk, &home_puts(&words)) {
        Ok(()) => Ok(()),
        Err(LogError::Device) => Err(VolumeError::Device),
        Err(_) => unreachable!(), // the log has room for two, and a commit reads no log
    }
}

impl<D: Disk> Volume<D> {
    /// Gives the volume on a disk layout 2: recovers it first, and then checks all that it reaches, as `open` does.
    /// Both home copies change as one, and no other block changes except those of gate and log; its files stay as they
    /// are.
    ///
    /// # Errors
    ///
    /// Those of `open`. Except after `Device` the disk has at most been recovered then; after `Device` recovery finds
    /// the files in the layout that they had, or in layout 2.
    pub fn migrate(alloc: Global, disk: &mut D) -> Result<Migrated, VolumeError>
        // A crash at any moment leaves what stands for whatever some contents stood for that a crash could leave
        // before, in the same layout or in layout 2; after the first sync, for whatever the contents before the call
        // stood for. If that sync failed, nothing else was done.
        ensures crash { (D.state disk.new).honest
            → LeavesOnly (D.state disk.old) (D.state disk.new) (RaisedLikeBefore (D.state disk.old)) }
        ensures synced { (D.state disk.new).honest
            → SyncsFirst D.state disk.old disk.new (IsErrOf result Device) (RaisedLike (D.state disk.old)) }

        // At Ok the disk stood for some files; whatever it stood for, all that a crash leaves stands for in layout 2.
        // `Done` means that the layout was 1, `Already` that it was 2.
        ensures stood { (D.state disk.new).honest → IfOk result (λ migrated. (layout : ℕ) × (files : Files File)
            × StandsOn (pack_in layout (D.state disk.old).size) (D.state disk.old).contents files) }
        ensures files { (D.state disk.new).honest → (layout : ℕ) (files : Files File)
            → StandsOn (pack_in layout (D.state disk.old).size) (D.state disk.old).contents files
            → IfOk result (λ migrated. IsTold layout migrated × AtRest (D.state disk.new)
            (λ c. SettledStandsOn (pack_in 2 (D.state disk.old).size) c files)) }
        ensures settled { (D.state disk.new).honest → IfOk result (λ migrated. NoneOpen (D.state disk.new)) }
        // At `Done` it was recovered, and both copies were written; at `Already` it was only recovered.
        ensures done { (D.state disk.new).honest → IfOk result (λ migrated. migrated ≡ Done
            → IsMigrated (D.state disk.old).size (D.state disk.old).contents (D.state disk.new).contents) }
        ensures already { (D.state disk.new).honest → IfOk result (λ migrated. migrated ≡ Already
            → IsRecovered (D.state disk.old).size (D.state disk.old).contents (D.state disk.new).contents) }

        // A refusal names a fault that the disk has; unless it is `Device`, the disk was recovered, or nothing was
        // written.
        ensures refused { (D.state disk.new).honest
            → IfErr result (Refuses (D.state disk.old).size (D.state disk.new).contents) }
        ensures kept { (D.state disk.new).honest → IfErr result (λ error. (error ≡ Device → ⊥)
            → Still (D.state disk.old) (D.state disk.new)
            ⊎ IsRecovered (D.state disk.old).size (D.state disk.old).contents (D.state disk.new).contents) }

        // On every disk.
        ensures named { IfErr result (NamesInSpace (D.state disk.old).size) }
        ensures disk { DiskAnswer (D.state disk.old) (D.state disk.new) (IsErrOf result Device) }
    {
        let map = read_volume(alloc, disk)?;
        match map.layout {
            Layout::Two => Ok(Migrated::Already),
            Layout::One => {
                raise(disk, map.master.blocks()[0])?;
                Ok(Migrated::Done)
            }
        }
    }
}
