//! A copy of a disk in memory, as a start would find it.
ghost use Rattle.std.specs.Prelude.{◌≡◌, ◌↔◌, ◌⊎◌, ◌+◌, ◌*◌, ◌++◌, ◌<◌, ◌≤◌, ℕ, None, Option, IfErr, IfOk};
ghost use Rattle.std.specs.Prelude.{IfSome, IsErr, IsErrOf, IsFalse, IsTrue, OnOk, length};
ghost use Rattle.blockdisk.specs.Common.{SameDisk, one_more, held, loaded};
ghost use Rattle.changeset.specs.Common.{OnlyReads};
ghost use Rattle.spec_image.specs.Common.{IsVolumeSize};
ghost use Rattle.volume.specs.Common.{SaysSize};
ghost use Rattle.salvage.specs.declared.error.SalvageError.TheVariants.{Device, NoMemory as MemoryRanOut, NotVolume};
ghost use Rattle.salvage.specs.Common.{AreCopies, AreLengths, AreSaid, HasHome, IsCopyOf, IsMadeAt, IsSaid};
ghost use Rattle.salvage.specs.Common.{copy_findings, failed_by, finding_if, held_to, size_by};

use crate::lists::push_finding;
use crate::{Cost, Defect, Finding, SalvageError};
use blockdisk::{Disk, Fault, MemDisk, NoMemory};
use changeset::{LogError, MAX_PUTS, recover};
use spec_image::layout::{HOME_COPIES, is_volume_size};
use std::alloc::Global;
use volume::{VolumeError, stated_size};

/// How many writes and syncs a copy has room for: more than a recovery makes.
const COPY_CALLS: usize = 2 * MAX_PUTS;

/// What is wrong with a copy, before any file of it is read.
#[derive(Clone, Copy, Debug, PartialEq, Eq)]
pub struct CopyFaults {
    /// How many blocks of the volume the disk doesn't have. They are damaged in the copy.
    pub missing: u32,
    /// How many blocks the disk has after the end of the volume. They aren't in the copy.
    pub surplus: u32,
    /// How many bytes come after the last block of the disk.
    pub tail: u32,
    /// Whether the gate is open and the log isn't good: then the blocks are unchanged.
    pub has_bad_log: bool,
    /// How often a block couldn't be read. A home copy is read twice.
    pub unread: u32,
}

/// What a disk holds, in memory: with the pending puts of its log, so that it is as a start would find it.
#[derive(Drop)]
pub struct Copied {
    /// The copy. A block that couldn't be read is damaged in it.
    pub disk: MemDisk,
    /// What is wrong with it.
    pub faults: CopyFaults,
    /// The findings of that.
    pub findings: Vec<Finding>,
}

/// Returns the size of the volume by the home copy in block `n`, if it is a valid copy that could be read, and how
/// often it couldn't.
fn read_size<D: Disk>(disk: &mut D, n: u32) -> (Option<u32>, u32)
    ensures said { (D.state disk.new).honest
        → IsSaid (held_to (D.state disk.old).size (D.state disk.old).contents) n result.1 result.0 }
    ensures volume { IfSome result.0 IsVolumeSize }
    ensures few { result.1 ≤ 1 }
    ensures reads { (D.state disk.new).honest → OnlyReads (D.state disk.old) (D.state disk.new) }
    ensures same { SameDisk (D.state disk.old) (D.state disk.new) }
    ensures failures { (D.state disk.new).failures ≡ failed_by result.1 (D.state disk.old).failures }
{
    if n >= disk.blocks() {
        return (None, 0);
    }
    match disk.read(n) {
        Ok(words) => (stated_size(&words), 0),
        Err(Fault::Damaged) => (None, 0),
        Err(Fault::Device) => (None, 1),
    }
}

/// Returns the size of the volume by what its home copies say, on a disk of this many blocks.
fn size_by(blocks: u32, first: Option<u32>, second: Option<u32>) -> u32
    ensures { result ≡ size_by blocks first second }
{
    match (first, second) {
        (None, None) => blocks,
        (Some(size), None) | (None, Some(size)) => size,
        (Some(_), Some(size)) if size == blocks => blocks,
        (Some(size), Some(_)) => size,
    }
}

/// Returns the size of the volume of a disk by what its home copies say, and how often one couldn't be read.
fn read_sizes<D: Disk>(disk: &mut D) -> (u32, u32)
    ensures size { (D.state disk.new).honest → (first : Option ℕ) × (second : Option ℕ)
        × AreSaid (D.state disk.old).size (D.state disk.old).contents result.1 first second
        × (result.0 ≡ size_by (D.state disk.old).size first second) }
    ensures volume { IsVolumeSize result.0 ⊎ (result.0 ≡ (D.state disk.old).size) }
    ensures few { result.1 ≤ 2 }
    ensures reads { (D.state disk.new).honest → OnlyReads (D.state disk.old) (D.state disk.new) }
    ensures same { SameDisk (D.state disk.old) (D.state disk.new) }
    ensures failures { (D.state disk.new).failures ≡ failed_by result.1 (D.state disk.old).failures }
{
    let blocks = disk.blocks();
    let (first, first_unread) = read_size(disk, HOME_COPIES[0]);
    let (second, second_unread) = read_size(disk, HOME_COPIES[1]);
    (size_by(blocks, first, second), first_unread + second_unread)
}

/// Puts what a block of a disk holds into a copy, and returns whether it could be read. A block that the disk doesn't
/// have is damaged in the copy.
fn copy_block<D: Disk>(disk: &mut D, n: u32, copy: &mut MemDisk) -> bool
    requires { n < length copy.old.blocks }
    ensures read { (D.state disk.new).honest → IsTrue result
        → copy.new ≡ loaded copy.old n (held_to (D.state disk.old).size (D.state disk.old).contents n) }
    ensures unread { IsFalse result → copy.new ≡ loaded copy.old n None }
    ensures inside { IsFalse result → n < (D.state disk.old).size }
    ensures size { length copy.new.blocks ≡ length copy.old.blocks }
    ensures reads { (D.state disk.new).honest → OnlyReads (D.state disk.old) (D.state disk.new) }
    ensures same { SameDisk (D.state disk.old) (D.state disk.new) }
    ensures failed { IsFalse result → (D.state disk.new).failures ≡ one_more (D.state disk.old).failures }
    ensures served { IsTrue result → (D.state disk.new).failures ≡ (D.state disk.old).failures }
{
    if n >= disk.blocks() {
        copy.damage(n);
        return true;
    }
    match disk.read(n) {
        Ok(block) => {
            copy.load(n, &block);
            true
        }
        Err(Fault::Damaged) => {
            copy.damage(n);
            true
        }
        Err(Fault::Device) => {
            copy.damage(n);
            false
        }
    }
}

/// Copies the first `size` blocks of a disk, one by one, and counts those that couldn't be read.
fn copy_blocks<D: Disk>(alloc: Global, disk: &mut D, size: u32) -> Result<(MemDisk, u32), NoMemory>
    ensures copies { (D.state disk.new).honest
        → IfOk result (λ copy. AreCopies size (held_to (D.state disk.old).size (D.state disk.old).contents)
        (held copy.0.blocks) copy.1) }
    ensures size { IfOk result (λ copy. length copy.0.blocks ≡ size) }
    ensures memory { IsErr result → disk.new ≡ disk.old }
    ensures reads { (D.state disk.new).honest → OnlyReads (D.state disk.old) (D.state disk.new) }
    ensures same { SameDisk (D.state disk.old) (D.state disk.new) }
    ensures failures { IfOk result (λ copy. (D.state disk.new).failures
        ≡ failed_by copy.1 (D.state disk.old).failures) }
    ensures few { IfOk result (λ copy. copy.1 ≤ (D.state disk.old).size) }
    ensures fewer { IfOk result (λ copy. copy.1 ≤ size) }
{
    let mut copy = MemDisk::new(alloc, size, COPY_CALLS)?;
    let mut unread = 0;
    for n in 0..size {
        if !copy_block(disk, n, &mut copy) {
            unread += 1;
        }
    }
    Ok((copy, unread))
}

/// Adds a fault that costs no file after the other findings, if there is such a fault.
fn push_if(findings: &mut Vec<Finding>, stands: bool, fault: Defect) -> Result<(), SalvageError>
    ensures told { OnOk result (findings.new.items ≡ findings.old.items ++ finding_if stands fault) }
    ensures only { IfErr result (λ error. error ≡ MemoryRanOut) }
{
    if stands {
        push_finding(findings, fault, Cost::Nothing)?;
    }
    Ok(())
}

impl CopyFaults {
    /// Returns the findings of a copy: for its length, for a log that isn't valid though the gate is open, and for
    /// blocks that couldn't be read.
    ///
    /// # Errors
    ///
    /// `NoMemory` if there is no memory for them.
    fn findings(&self, alloc: Global) -> Result<Vec<Finding>, SalvageError>
        ensures findings { IfOk result (λ findings. findings.items ≡ copy_findings self.now) }
        ensures only { IfErr result (λ error. error ≡ MemoryRanOut) }
    {
        let mut findings = Vec::new(alloc);
        push_if(
            &mut findings,
            self.missing != 0,
            Defect::Missing(self.missing),
        )?;
        push_if(
            &mut findings,
            self.surplus != 0,
            Defect::Surplus(self.surplus),
        )?;
        push_if(&mut findings, self.tail != 0, Defect::Tail(self.tail))?;
        push_if(
            &mut findings,
            self.has_bad_log,
            Defect::Start(VolumeError::BadLog),
        )?;
        push_if(
            &mut findings,
            self.unread != 0,
            Defect::Start(VolumeError::Device),
        )?;
        Ok(findings)
    }
}

/// Returns why a disk that has no volume's size isn't copied: nothing is known if a home copy couldn't be read.
fn no_volume(unread: u32) -> SalvageError
    ensures volume { result ≡ NotVolume → unread ≡ 0 }
    ensures device { result ≡ Device → 0 < unread }
    ensures either { (result ≡ NotVolume) ⊎ (result ≡ Device) }
{
    if unread > 0 {
        return SalvageError::Device;
    }
    SalvageError::NotVolume
}

/// Returns whether the home copy in block `n` of a copy is valid.
fn is_home(copy: &mut MemDisk, n: u32) -> bool
    requires { n < length copy.old.blocks }
    ensures said { IsTrue result ↔ SaysSize (length copy.old.blocks) (held copy.old.blocks) n }
    ensures unchanged { copy.new ≡ copy.old }
{
    let size = copy.blocks();
    let Ok(words) = copy.read(n) else {
        return false;
    };
    match stated_size(&words) {
        Some(stated) => stated == size,
        None => false,
    }
}

/// Copies the first `size` blocks of a disk after whose blocks there are `tail` bytes, and makes the pending puts of
/// its log in the copy. `home_unread` is how often a block couldn't be read before.
fn copy_at<D: Disk>(
    alloc: Global,
    disk: &mut D,
    size: u32,
    tail: u32,
    home_unread: u32,
) -> Result<Copied, SalvageError>
    requires volume { IsVolumeSize size }
    requires few { home_unread ≤ 262146 }
    ensures copied { (D.state disk.new).honest
        → IfOk result (λ copy. IsMadeAt (D.state disk.old) size home_unread copy.disk copy.faults) }
    ensures lengths { IfOk result (λ copy. AreLengths (D.state disk.old).size tail size copy.faults) }
    ensures long { IfOk result (λ copy. length copy.disk.blocks ≡ size) }
    ensures findings { IfOk result (λ copy. copy.findings.items ≡ copy_findings copy.faults) }
    ensures only { IfErr result (λ error. error ≡ MemoryRanOut) }
    ensures reads { (D.state disk.new).honest → OnlyReads (D.state disk.old) (D.state disk.new) }
    ensures same { SameDisk (D.state disk.old) (D.state disk.new) }
    ensures failures { (unread : ℕ) × (unread ≤ (D.state disk.old).size) × (unread ≤ size)
        × ((D.state disk.new).failures ≡ failed_by unread (D.state disk.old).failures)
        × IfOk result (λ copy. copy.faults.unread ≡ home_unread + unread) }
{
    let blocks = disk.blocks();
    let (mut copy, unread) = copy_blocks(alloc, disk, size)?;
    let has_bad_log = match recover(&mut copy) {
        Ok(()) => false,
        Err(LogError::BadLog) => true,
        Err(_) => return Err(SalvageError::NoMemory), // the copy has room for all calls of a recovery
    };
    let faults = CopyFaults {
        missing: size.saturating_sub(blocks),
        surplus: blocks.saturating_sub(size),
        tail,
        has_bad_log,
        unread: home_unread + unread,
    };
    let findings = faults.findings(alloc)?;
    Ok(Copied {
        disk: copy,
        faults,
        findings,
    })
}

/// Returns whether a home copy of a copy is valid.
fn has_home(copy: &mut MemDisk) -> bool
    requires { IsVolumeSize (length copy.old.blocks) }
    ensures said { IsTrue result ↔ HasHome (length copy.old.blocks) (held copy.old.blocks) }
    ensures unchanged { copy.new ≡ copy.old }
{
    is_home(copy, HOME_COPIES[0]) || is_home(copy, HOME_COPIES[1])
}

/// Copies a disk with all of its blocks if one of its home copies is valid then, or else up to `size`. `unread` is how
/// often a block couldn't be read before.
fn copy_either<D: Disk>(
    alloc: Global,
    disk: &mut D,
    size: u32,
    tail: u32,
    unread: u32,
) -> Result<Copied, SalvageError>
    requires volume { IsVolumeSize size }
    requires own { IsVolumeSize (D.state disk.old).size }
    requires few { unread ≤ 2 }
    ensures copied { (D.state disk.new).honest → (first second : Option ℕ)
        → AreSaid (D.state disk.old).size (D.state disk.old).contents unread first second
        → size ≡ size_by (D.state disk.old).size first second
        → IfOk result (λ copy. IsCopyOf (D.state disk.old) copy.disk copy.faults) }
    ensures lengths { IfOk result (λ copy. AreLengths (D.state disk.old).size tail (length copy.disk.blocks)
        copy.faults) }
    ensures findings { IfOk result (λ copy. copy.findings.items ≡ copy_findings copy.faults) }
    ensures only { IfErr result (λ error. error ≡ MemoryRanOut) }
    ensures reads { (D.state disk.new).honest → OnlyReads (D.state disk.old) (D.state disk.new) }
    ensures same { SameDisk (D.state disk.old) (D.state disk.new) }
    ensures failures { (more : ℕ) × (more ≤ 2 * (D.state disk.old).size)
        × ((D.state disk.new).failures ≡ failed_by more (D.state disk.old).failures)
        × IfOk result (λ copy. copy.faults.unread ≡ unread + more) }
{
    let blocks = disk.blocks();
    let mut copied = copy_at(alloc, disk, blocks, tail, unread)?;
    if has_home(&mut copied.disk) {
        return Ok(copied);
    }
    let unread = copied.faults.unread;
    drop(copied);
    copy_at(alloc, disk, size, tail, unread)
}

impl Copied {
    /// Copies a disk after whose blocks there are `tail` bytes, up to the end of its volume, and makes the pending puts
    /// of its log in the copy. The volume has the size that a valid home copy says; if neither is valid, or one agrees
    /// with the disk, it has that of the disk. A block that the disk doesn't have is damaged in the copy. Nothing is
    /// written to the disk.
    ///
    /// # Errors
    ///
    /// `NotVolume` if no home copy is valid, and the disk has a number of blocks that no volume has; `Device` if a home
    /// copy of such a disk couldn't be read; `NoMemory` if there is no memory for the copy: it takes twice what the
    /// volume holds.
    pub fn of<D: Disk>(alloc: Global, disk: &mut D, tail: u32) -> Result<Copied, SalvageError>
        ensures copied { (D.state disk.new).honest
            → IfOk result (λ copy. IsCopyOf (D.state disk.old) copy.disk copy.faults) }
        ensures lengths { IfOk result (λ copy. AreLengths (D.state disk.old).size tail (length copy.disk.blocks)
            copy.faults) }
        ensures findings { IfOk result (λ copy. copy.findings.items ≡ copy_findings copy.faults) }
        ensures range { IsErrOf result NotVolume → (IsVolumeSize (D.state disk.old).size → ⊥)
            × ((D.state disk.new).failures ≡ (D.state disk.old).failures) }
        ensures unsaid { (D.state disk.new).honest → IsErrOf result NotVolume → (size : ℕ)
            → HasHome size (held_to (D.state disk.old).size (D.state disk.old).contents) → ⊥ }
        ensures reads { (D.state disk.new).honest → OnlyReads (D.state disk.old) (D.state disk.new) }
        ensures same { SameDisk (D.state disk.old) (D.state disk.new) }
        // The disk failed as often as a block couldn't be read, whatever the result. A block is read at most three
        // times.
        ensures failures { (unread : ℕ) × (unread ≤ 2 * (D.state disk.old).size + 2)
            × ((D.state disk.new).failures ≡ failed_by unread (D.state disk.old).failures)
            × IfOk result (λ copy. copy.faults.unread ≡ unread) × (IsErrOf result Device → 0 < unread) }
    {
        let blocks = disk.blocks();
        let (size, unread) = read_sizes(disk);
        if !is_volume_size(size) {
            return Err(no_volume(unread));
        }
        if size != blocks && is_volume_size(blocks) {
            return copy_either(alloc, disk, size, tail, unread);
        }
        copy_at(alloc, disk, size, tail, unread)
    }
}
