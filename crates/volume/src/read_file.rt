//! The reading of a file's version and the check of its data blocks.
ghost use Rattle.std.specs.Prelude.{◌≡◌, ◌+◌, ◌*◌, ◌<◌, ◌≤◌, ◌⊎◌, ◌∷◌, ◌++◌, ℕ, None, IfOk, IfErr, OnOk, IsErrOf};
ghost use Rattle.std.specs.Prelude.{length};
ghost use Rattle.std.specs.List.{AllByRecursion};
ghost use Rattle.blockdisk.specs.Common.{IsWholeBlock};
ghost use Rattle.spec_image.specs.Common.{times, blocks_of, IsVolumeSize, layout_number, most_blocks, place_of};
ghost use Rattle.spec_image.specs.Common.{InSpace, IsBadVersion};
ghost use Rattle.alloctab.specs.Common.{digit_at};
ghost use Rattle.retrieval.specs.Common.{IsVersionAt, rib_count};
ghost use Rattle.volume.specs.Common.{KeepsDisk, IsFileFound, IsOtherPlace, IsReachedTwice, IsDamagedData};
ghost use Rattle.volume.specs.Common.{IsVersionRefusal, IsDataRefusal, IsFileRefusal, NamesInSpace};
ghost use Rattle.volume.specs.declared.error.VolumeError.TheVariants.{BadRetrieval, BlockTwice, Device, NoMemory};
ghost use Rattle.volume.specs.declared.error.VolumeError.TheVariants.{BadData};
ghost use Rattle.words36.specs.declared.word.TheConstants.{BLOCK_WORDS};

use crate::VolumeError;
use crate::marks::mark_version;
use alloctab::Reached;
use blockdisk::Disk;
use retrieval::{Prime, RetrievalError, Run, Version, read_version};
use spec_image::layout::Layout;
use std::alloc::Global;
use words36::{FileName, Ppn};

/// A version of a file in memory.
#[derive(Drop)]
pub struct LoadedVersion {
    /// What its prime block says of it, besides the length.
    pub prime: Prime,
    /// Its length, and where it lies.
    pub version: Version,
}

/// Reads the version of a file in a layout; its prime block has to name the file's place. The data blocks aren't read.
///
/// # Errors
///
/// `BadRetrieval` with a prime block or an extension that is damaged or invalid, and with the prime block if it names
/// another place; `Device` if the device failed; `NoMemory` if there is no memory for the lists of blocks.
pub fn read_named<D: Disk>(
    alloc: Global,
    disk: &mut D,
    layout: Layout,
    ppn: Ppn,
    name: FileName,
    prime: u32,
) -> Result<LoadedVersion, VolumeError>
    // What the caller ensures.
    requires volume { IsVolumeSize (D.state disk.old).size }
    requires inside { prime < (D.state disk.old).size }
    // The version that was read, of this name.
    ensures ok { (D.state disk.new).honest
        → IfOk result (λ v. IsVersionAt (D.state disk.old).size (D.state disk.old).contents
        (layout_number layout) prime v.prime v.version) }
    ensures name { IfOk result (λ v. v.prime.file ≡ name) }
    ensures ppn { IfOk result (λ v. v.prime.ppn ≡ ppn) }
    // It is a valid version.
    ensures blocks_inside { IfOk result (λ v. AllByRecursion (InSpace (D.state disk.old).size) v.version.blocks) }
    ensures ribs_inside { IfOk result (λ v. AllByRecursion (InSpace (D.state disk.old).size) v.version.ribs) }
    ensures counted { IfOk result (λ v. length v.version.blocks ≡ blocks_of v.version.words) }
    ensures few { IfOk result (λ v. v.version.words ≤ most_blocks * BLOCK_WORDS) }
    ensures few_ribs { IfOk result (λ v. length v.version.ribs ≤ rib_count (length v.version.blocks)) }
    // Which refusal comes when.
    ensures bad_version { (D.state disk.new).honest → (k : ℕ) → IsErrOf result (BadRetrieval k)
        → IsBadVersion (D.state disk.old).size (D.state disk.old).contents (layout_number layout) prime k
        ⊎ ((k ≡ prime) × IsOtherPlace (layout_number layout) (D.state disk.old).contents (place_of ppn name) prime) }
    ensures only { IfErr result IsVersionRefusal }
    ensures named { (k : ℕ) → IsErrOf result (BadRetrieval k) → (k ≡ prime) ⊎ InSpace (D.state disk.old).size k }
    // The device: what failed, and how often.
    ensures disk { KeepsDisk (D.state disk.old) (D.state disk.new) (IsErrOf result Device) }
{
    let (facts, version) = match read_version(alloc, disk, prime, layout) {
        Ok(read) => read,
        Err(RetrievalError::BadRetrieval(n)) => return Err(VolumeError::BadRetrieval(n)),
        Err(RetrievalError::Device) => return Err(VolumeError::Device),
        Err(RetrievalError::NoMemory) => return Err(VolumeError::NoMemory),
    };
    if facts.ppn != ppn || facts.file != name {
        return Err(VolumeError::BadRetrieval(prime));
    }
    Ok(LoadedVersion {
        prime: facts,
        version,
    })
}

/// Verifies neighbouring data blocks.
fn read_run<D: Disk>(disk: &mut D, run: Run) -> Result<(), VolumeError>
    requires volume { IsVolumeSize (D.state disk.old).size }
    requires inside { run.last < (D.state disk.old).size }
    ensures ok { (D.state disk.new).honest
        → OnOk result ((n : ℕ) → run.first ≤ n → n ≤ run.last → IsWholeBlock (D.state disk.old).contents n) }
    ensures damaged { (D.state disk.new).honest → (k : ℕ) → IsErrOf result (BadData k)
        → (D.state disk.old).contents k ≡ None }
    ensures only { IfErr result IsDataRefusal }
    ensures named { (k : ℕ) → IsErrOf result (BadData k) → (run.first ≤ k) × (k ≤ run.last) }
    ensures disk { KeepsDisk (D.state disk.old) (D.state disk.new) (IsErrOf result Device) }
{
    match disk.verify(run.first, run.last + 1) {
        Ok(None) => Ok(()),
        Ok(Some(bad)) => Err(VolumeError::BadData(bad)),
        Err(_) => Err(VolumeError::Device),
    }
}

/// Verifies each of a version's data blocks once.
///
/// # Errors
///
/// `BadData` with a data block that is damaged; `Device` if the device failed.
pub fn read_data<D: Disk>(disk: &mut D, version: &Version) -> Result<(), VolumeError>
    requires volume { IsVolumeSize (D.state disk.old).size }
    requires inside { AllByRecursion (InSpace (D.state disk.old).size) version.now.blocks }
    ensures ok { (D.state disk.new).honest
        → OnOk result (AllByRecursion (IsWholeBlock (D.state disk.old).contents) version.now.blocks) }
    ensures damaged { (D.state disk.new).honest → (k : ℕ) → IsErrOf result (BadData k)
        → (0 < times k version.now.blocks) × ((D.state disk.old).contents k ≡ None) }
    ensures only { IfErr result IsDataRefusal }
    ensures named { (k : ℕ) → IsErrOf result (BadData k) → InSpace (D.state disk.old).size k }
    ensures disk { KeepsDisk (D.state disk.old) (D.state disk.new) (IsErrOf result Device) }
{
    for run in version.runs() {
        read_run(disk, *run)?;
    }
    Ok(())
}

/// Reads the file that a directory's entry names, when the volume is opened: its version in a layout, and each of its
/// data blocks once. All its blocks are marked.
///
/// # Errors
///
/// `BadRetrieval` with a prime block or an extension that is damaged or invalid, and with the prime block if it names
/// another place; `BlockTwice` with a block that was marked already; `BadData` with a data block that is damaged;
/// `Device` if the device failed; `NoMemory` if there is no memory for the lists of blocks: no block is marked then.
pub fn read_file<D: Disk>(
    alloc: Global,
    disk: &mut D,
    layout: Layout,
    ppn: Ppn,
    name: FileName,
    prime: u32,
    reached: &mut Reached,
) -> Result<LoadedVersion, VolumeError>
    // What the caller ensures.
    requires volume { IsVolumeSize (D.state disk.old).size }
    requires inside { InSpace (D.state disk.old).size prime }
    requires marks { length reached.old ≡ (D.state disk.old).size }
    // The version that was read, of this name, with its blocks marked.
    ensures ok { (D.state disk.new).honest
        → IfOk result (λ v. IsFileFound (layout_number layout) (D.state disk.old).contents (place_of ppn name) prime
        v.prime v.version) }
    ensures name { IfOk result (λ v. v.prime.file ≡ name) }
    ensures ppn { IfOk result (λ v. v.prime.ppn ≡ ppn) }
    ensures marks { IfOk result (λ v. (n : ℕ)
        → digit_at reached.new n ≡ digit_at reached.old n + times n (prime ∷ (v.version.ribs ++ v.version.blocks))) }
    // It is a valid version.
    ensures blocks_inside { IfOk result (λ v. AllByRecursion (InSpace (D.state disk.old).size) v.version.blocks) }
    ensures ribs_inside { IfOk result (λ v. AllByRecursion (InSpace (D.state disk.old).size) v.version.ribs) }
    ensures counted { IfOk result (λ v. length v.version.blocks ≡ blocks_of v.version.words) }
    ensures few { IfOk result (λ v. v.version.words ≤ most_blocks * BLOCK_WORDS) }
    ensures few_ribs { IfOk result (λ v. length v.version.ribs ≤ rib_count (length v.version.blocks)) }
    ensures length { length reached.new ≡ length reached.old }
    // Which refusal comes when.
    ensures memory { IsErrOf result NoMemory → reached.new ≡ reached.old }
    ensures bad_version { (D.state disk.new).honest → (k : ℕ) → IsErrOf result (BadRetrieval k)
        → IsBadVersion (D.state disk.old).size (D.state disk.old).contents (layout_number layout) prime k
        ⊎ ((k ≡ prime) × IsOtherPlace (layout_number layout) (D.state disk.old).contents (place_of ppn name) prime) }
    ensures twice { (D.state disk.new).honest → (k : ℕ) → IsErrOf result (BlockTwice k)
        → IsReachedTwice (layout_number layout) (D.state disk.old).contents (place_of ppn name) prime reached.old k }
    ensures bad_data { (D.state disk.new).honest → (k : ℕ) → IsErrOf result (BadData k)
        → IsDamagedData (layout_number layout) (D.state disk.old).contents (place_of ppn name) prime k }
    ensures only { IfErr result IsFileRefusal }
    ensures named { IfErr result (NamesInSpace (D.state disk.old).size) }
    // The device: what failed, and how often.
    ensures disk { KeepsDisk (D.state disk.old) (D.state disk.new) (IsErrOf result Device) }
{
    let stored = read_named(alloc, disk, layout, ppn, name, prime)?;
    if let Err(block) = mark_version(reached, prime, &stored.version) {
        return Err(VolumeError::BlockTwice(block));
    }
    read_data(disk, &stored.version)?;
    Ok(stored)
}
