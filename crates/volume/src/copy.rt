//! The copy of a volume to another disk.
ghost use Rattle.std.specs.Prelude.{◌≡◌, ◌⊎◌, ◌<◌, ◌≤◌, Some, OnOk, IfOk, IfErr, IsErrOf};
ghost use Rattle.blockdisk.specs.Common.{LeavesOnly, Modifies, Near, NoneOpen, SameDisk, SameOutside, Still, one_more};
ghost use Rattle.changeset.specs.Common.{IsRecovered, SyncsFirst, OnlyReads};
ghost use Rattle.spec_image.specs.Common.{File, Files, StandsOn, pack_of, Stands};
ghost use Rattle.volume.specs.Common.{DiskAnswer, copied, AreCopied, ArePartlyCopied, HomesComeLast, IsCopyStep};
ghost use Rattle.volume.specs.Common.{NamesInSpace, Refuses, RestsAt, StandsLike, StandsLikeBefore};
ghost use Rattle.volume.specs.declared.error.CopyError.TheVariants.{Source, Target};
ghost use Rattle.volume.specs.declared.error.VolumeError.{VolumeError};
ghost use Rattle.volume.specs.declared.error.VolumeError.TheVariants.{Device};

use crate::start::read_volume;
use crate::volume::Volume;
use crate::{CopyError, VolumeError};
use blockdisk::{Disk, Fault};
use spec_image::layout::GATE;
use std::alloc::Global;
use words36::{BLOCK_WORDS, Block, Word};

impl<D: Disk> Volume<D> {
    /// Copies the volume on a disk to another disk of as many blocks: recovers it and reads all that it reaches, as
    /// `open` does, then writes every block, with zeros for each damaged one, and waits until all are on the disk. The
    /// home copies come last, after everything else is on the disk: so an interrupted copy, on a disk that began with
    /// zeros, is no volume, or every block of it except these is right.
    ///
    /// # Errors
    ///
    /// `Source` with the refusal of `open`, or with `Device` if the disk fails while it is copied; `Target` if the
    /// other one fails. Nothing is known of that one then.
    pub fn copy_image<E: Disk>(alloc: Global, from: &mut D, to: &mut E) -> Result<(), CopyError>
        // What the caller ensures.
        requires { (D.state from.old).size ≡ (E.state to.old).size }

        // The copy stands for the files in their layout, with a closed gate, and no block of it is open.
        ensures stood { (D.state from.new).honest → (E.state to.new).honest
            → OnOk result ((files : Files File) × StandsOn (pack_of (E.state to.new)) (D.state from.old).contents files
            × RestsAt (E.state to.new) files) }
        ensures files { (D.state from.new).honest → (E.state to.new).honest → (files : Files File)
            → Stands (D.state from.old).size (D.state from.old).contents files
            → OnOk result (RestsAt (E.state to.new) files) }
        ensures settled { (E.state to.new).honest → OnOk result (NoneOpen (E.state to.new)) }
        ensures copied { (D.state from.new).honest → (E.state to.new).honest
            → OnOk result (AreCopied (D.state from.old).size (D.state from.new).contents (E.state to.new).contents) }

        // Stopped at any moment, it leaves the home copies as they were, or all else as the copy has it.
        ensures last { (D.state from.new).honest → (E.state to.new).honest
            → LeavesOnly (E.state to.old) (E.state to.new)
            (HomesComeLast (D.state from.old).size (D.state from.new).contents (E.state to.old)) }

        // The disk that is copied is at most recovered: all that `open` states of its disk.
        ensures rests { (D.state from.new).honest → (files : Files File)
            → Stands (D.state from.old).size (D.state from.old).contents files
            → OnOk result (RestsAt (D.state from.new) files) }
        ensures crash { (D.state from.new).honest
            → LeavesOnly (D.state from.old) (D.state from.new) (StandsLikeBefore (D.state from.old)) }
        ensures synced { (D.state from.new).honest
            → SyncsFirst D.state from.old from.new (IsErrOf result (Source Device)) (StandsLike (D.state from.old)) }
        ensures kept { (D.state from.new).honest → (IsErrOf result (Source Device) → ⊥)
            → Still (D.state from.old) (D.state from.new)
            ⊎ IsRecovered (D.state from.old).size (D.state from.old).contents (D.state from.new).contents }

        // If it is refused. The other disk is unchanged then, unless a device failed.
        ensures refused { (D.state from.new).honest → (error : VolumeError) → IsErrOf result (Source error)
            → Refuses (D.state from.old).size (D.state from.new).contents error }
        ensures named { (error : VolumeError) → IsErrOf result (Source error)
            → NamesInSpace (D.state from.old).size error }
        ensures untouched { (error : VolumeError) → IsErrOf result (Source error) → (error ≡ Device → ⊥)
            → to.new ≡ to.old }

        // On every disk.
        ensures source { DiskAnswer (D.state from.old) (D.state from.new) (IsErrOf result (Source Device)) }
        ensures target { DiskAnswer (E.state to.old) (E.state to.new) (IsErrOf result Target) }
    {
        match read_volume(alloc, from) {
            Ok(map) => {
                drop(map);
                copy_all(from, to)
            }
            Err(error) => Err(CopyError::Source(error)),
        }
    }
}

/// Copies each block of a disk to another of as many blocks, with the home copies last, which lie before the gate. The
/// rest is on the disk before them, so that an interrupted copy looks like no volume.
fn copy_all<D: Disk, E: Disk>(from: &mut D, to: &mut E) -> Result<(), CopyError>
    requires { (D.state from.old).size ≡ (E.state to.old).size }
    ensures copied { (D.state from.new).honest → (E.state to.new).honest
        → OnOk result (AreCopied (D.state from.old).size (D.state from.old).contents (E.state to.new).contents) }
    ensures settled { (E.state to.new).honest → OnOk result (NoneOpen (E.state to.new)) }
    ensures last { (D.state from.new).honest → (E.state to.new).honest
        → LeavesOnly (E.state to.old) (E.state to.new)
        (HomesComeLast (D.state from.old).size (D.state from.old).contents (E.state to.old)) }
    ensures step { IsCopyStep (D.state from.old) (D.state from.new) (E.state to.old) (E.state to.new) result }
{
    let blocks = from.blocks();
    let behind_home = blocks.min(GATE);
    copy_part(from, to, behind_home, blocks)?;
    copy_part(from, to, 0, behind_home)
}

/// Copies the blocks from `first` to before `end`, and waits until they are on the disk.
fn copy_part<D: Disk, E: Disk>(
    from: &mut D,
    to: &mut E,
    first: u32,
    end: u32,
) -> Result<(), CopyError>
    requires here { end ≤ (D.state from.old).size }
    requires there { end ≤ (E.state to.old).size }
    ensures copied { (D.state from.new).honest → (E.state to.new).honest
        → OnOk result (ArePartlyCopied first end (D.state from.old).contents (E.state to.new).contents) }
    ensures others { (E.state to.new).honest
        → OnOk result (SameOutside (λ n. first ≤ n) (E.state to.old).contents (E.state to.new).contents
        × SameOutside (λ n. n < end) (E.state to.old).contents (E.state to.new).contents) }
    ensures settled { (E.state to.new).honest → OnOk result (NoneOpen (E.state to.new)) }
    ensures near { (E.state to.new).honest
        → LeavesOnly (E.state to.old) (E.state to.new) (Near (λ n. (first ≤ n) × (n < end)) (E.state to.old)) }
    ensures step { IsCopyStep (D.state from.old) (D.state from.new) (E.state to.old) (E.state to.new) result }
{
    copy_blocks(from, to, first, end)?;
    match to.sync() {
        Ok(()) => Ok(()),
        Err(_) => Err(CopyError::Target),
    }
}

/// Writes the blocks of a disk from `first` to before `end` to another disk.
fn copy_blocks<D: Disk, E: Disk>(
    from: &mut D,
    to: &mut E,
    first: u32,
    end: u32,
) -> Result<(), CopyError>
    requires here { end ≤ (D.state from.old).size }
    requires there { end ≤ (E.state to.old).size }
    ensures copied { (D.state from.new).honest → (E.state to.new).honest
        → OnOk result (ArePartlyCopied first end (D.state from.old).contents (E.state to.new).contents) }
    ensures others { (E.state to.new).honest
        → SameOutside (λ n. first ≤ n) (E.state to.old).contents (E.state to.new).contents
        × SameOutside (λ n. n < end) (E.state to.old).contents (E.state to.new).contents }
    ensures modified { (E.state to.new).honest
        → Modifies (λ n. (first ≤ n) × (n < end)) (E.state to.old) (E.state to.new) }
    ensures step { IsCopyStep (D.state from.old) (D.state from.new) (E.state to.old) (E.state to.new) result }
{
    for n in first..end {
        copy_block(from, to, n)?;
    }
    Ok(())
}

/// Writes a block of a disk to another, or zeros if it is damaged.
fn copy_block<D: Disk, E: Disk>(from: &mut D, to: &mut E, n: u32) -> Result<(), CopyError>
    requires here { n < (D.state from.old).size }
    requires there { n < (E.state to.old).size }
    ensures copied { (D.state from.new).honest → (E.state to.new).honest
        → OnOk result ((E.state to.new).contents n ≡ Some (copied ((D.state from.old).contents n))) }
    ensures others { (E.state to.new).honest
        → SameOutside (λ m. m ≡ n) (E.state to.old).contents (E.state to.new).contents }
    ensures modified { (E.state to.new).honest → Modifies (λ m. m ≡ n) (E.state to.old) (E.state to.new) }
    ensures step { IsCopyStep (D.state from.old) (D.state from.new) (E.state to.old) (E.state to.new) result }
{
    let Ok(block) = words_or_zeros(from, n) else {
        return Err(CopyError::Source(VolumeError::Device));
    };
    match to.write(n, &block) {
        Ok(()) => Ok(()),
        Err(_) => Err(CopyError::Target),
    }
}

/// Returns the words of a block, or zeros if it is damaged.
///
/// # Errors
///
/// `Device` if the device failed.
fn words_or_zeros<D: Disk>(disk: &mut D, n: u32) -> Result<Block, VolumeError>
    requires { n < (D.state disk.old).size }
    ensures words { (D.state disk.new).honest → IfOk result (λ block. block ≡ copied ((D.state disk.old).contents n)) }
    ensures reads { (D.state disk.new).honest → OnlyReads (D.state disk.old) (D.state disk.new) }
    ensures same { SameDisk (D.state disk.old) (D.state disk.new) }
    ensures failed { IfErr result (λ _error. (D.state disk.new).failures ≡ one_more (D.state disk.old).failures) }
    ensures served { OnOk result ((D.state disk.new).failures ≡ (D.state disk.old).failures) }
{
    match disk.read(n) {
        Ok(block) => Ok(block),
        Err(Fault::Damaged) => Ok([Word::ZERO; BLOCK_WORDS]),
        Err(Fault::Device) => Err(VolumeError::Device),
    }
}
