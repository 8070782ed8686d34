//! A law about quiet writes, one after another.
ghost use Rattle.std.specs.Prelude.{ℕ, ◌<◌, List};
ghost use Rattle.std.specs.List.{AllByRecursion};
ghost use Rattle.blockdisk.specs.Common.{Contents, MayLeave, SameDisk, Modifies, LeavesOnly};
ghost use Rattle.spec_image.specs.Files.{File, Files};
ghost use Rattle.spec_image.specs.Maps.{times};
ghost use Rattle.spec_image.specs.Quiet.{IsQuiet};
ghost use Rattle.spec_image.specs.Stands.{Stands};

use blockdisk::Disk;

/// Proves that, if only quiet blocks were written between these two states of a disk, a crash at any moment between
/// them left contents that stand for the same files.
pub fn quiet_stretch<D: Disk>(old: &D, new: &D)
    ensures { SameDisk (D.state old.now) (D.state new.now) → (D.state new.now).honest
        → (blocks : List ℕ) (files : Files File) → AllByRecursion (IsQuiet (D.state old.now)) blocks
        → ((c : Contents) → MayLeave (D.state old.now) c → Stands (D.state old.now).size c files)
        → Modifies (λ n. 0 < times n blocks) (D.state old.now) (D.state new.now)
        → LeavesOnly (D.state old.now) (D.state new.now) (λ c. Stands (D.state old.now).size c files) }
{}
