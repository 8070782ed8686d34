//! The blocks that the allocation table says are free, as far as it can be believed.
ghost use Rattle.std.specs.Prelude.{◌≡◌, ◌↔◌, ◌⊎◌, ◌*◌, ◌/◌, ◌<◌, ◌≤◌, ℕ, false, true, IfOk, IsErrOf, IsTrue, OnOk};
ghost use Rattle.std.specs.Prelude.{length};
ghost use Rattle.blockdisk.specs.Common.{SameDisk, one_more};
ghost use Rattle.changeset.specs.Common.{OnlyReads};
ghost use Rattle.spec_image.specs.Common.{IsVolumeSize, bit_of, space_start, table_blocks};
ghost use Rattle.alloctab.specs.Common.{flag_at};
ghost use Rattle.salvage.specs.Common.{AreAdded, AreFree, IsFreeBlock, TellsBits};
ghost use Rattle.salvage.specs.declared.error.SalvageError.TheVariants.{Device, NotVolume};

use crate::lists::push_finding;
use crate::{Cost, Defect, Finding, SalvageError};
use alloctab::{Reached, has_bit_past, is_set};
use blockdisk::{Disk, Fault};
use spec_image::layout::{TABLE_BLOCK_BITS, space_start, table_blocks, table_start};
use std::alloc::Global;
use volume::VolumeError;
use words36::Block;

/// Returns whether the words of table block `i` say of a fixed block that it is free.
fn frees_fixed(words: &Block, i: usize, size: u32) -> bool
    requires volume { IsVolumeSize size }
    requires in_table { i < table_blocks size }
    ensures freed { IsTrue result → TellsBits size i words.now → ⊥ }
    ensures fixed { result ≡ false → (n : ℕ) → n / TABLE_BLOCK_BITS ≡ i → n < space_start size
        → bit_of words.now n ≡ 1 }
{
    let start = space_start(size) as usize;
    for n in (i * TABLE_BLOCK_BITS).min(start)..start {
        if !is_set(words, n) {
            return true;
        }
    }
    false
}

/// Returns whether table block `i`, with these words, says which of its blocks are in use: it has no bit past the end
/// of the disk, and says of no fixed block that it is free.
fn tells_bits(words: &Block, i: usize, size: u32) -> bool
    requires volume { IsVolumeSize size }
    requires in_table { i < table_blocks size }
    ensures { IsTrue result ↔ TellsBits size i words.now }
{
    !has_bit_past(words, i, size as usize) && !frees_fixed(words, i, size)
}

/// Marks the blocks that are free by the words of table block `i`.
fn mark_free(words: &Block, i: usize, size: u32, free: &mut Reached)
    requires volume { IsVolumeSize size }
    requires in_table { i < table_blocks size }
    requires long { length free.old ≡ size }
    ensures marked { (n : ℕ) → n < size → (flag_at free.new n ≡ true)
        ↔ ((flag_at free.old n ≡ true) ⊎ ((n / TABLE_BLOCK_BITS ≡ i) × (bit_of words.now n ≡ 0))) }
    ensures long { length free.new ≡ length free.old }
{
    let first = i * TABLE_BLOCK_BITS;
    for n in first..(first + TABLE_BLOCK_BITS).min(size as usize) {
        if !is_set(words, n) {
            free.mark(n as u32);
        }
    }
}

/// Marks the blocks that table block `i` says are free, or reports that it can't be believed.
fn read_free<D: Disk>(
    disk: &mut D,
    i: u32,
    free: &mut Reached,
    findings: &mut Vec<Finding>,
) -> Result<(), SalvageError>
    requires volume { IsVolumeSize (D.state disk.old).size }
    requires in_table { i < table_blocks (D.state disk.old).size }
    requires long { length free.old ≡ (D.state disk.old).size }
    ensures marked { (D.state disk.new).honest → OnOk result ((n : ℕ) → n < (D.state disk.old).size
        → (flag_at free.new n ≡ true) ↔ ((flag_at free.old n ≡ true) ⊎ ((n / TABLE_BLOCK_BITS ≡ i)
        × IsFreeBlock (D.state disk.old).size (D.state disk.old).contents n))) }
    ensures long { length free.new ≡ length free.old }
    ensures added { (D.state disk.new).honest → (layout : ℕ)
        → OnOk result (AreAdded (D.state disk.old).size layout
        (D.state disk.old).contents findings.old.items findings.new.items) }
    ensures range { IsErrOf result NotVolume → ⊥ }
    ensures reads { (D.state disk.new).honest → OnlyReads (D.state disk.old) (D.state disk.new) }
    ensures same { SameDisk (D.state disk.old) (D.state disk.new) }
    ensures failed { IsErrOf result Device → (D.state disk.new).failures ≡ one_more (D.state disk.old).failures }
    ensures served { (IsErrOf result Device → ⊥) → (D.state disk.new).failures ≡ (D.state disk.old).failures }
{
    let size = disk.blocks();
    let block = table_start(size) + i;
    let fault = Defect::Start(VolumeError::TableWrong(block));
    let words = match disk.read(block) {
        Ok(words) => words,
        Err(Fault::Damaged) => return push_finding(findings, fault, Cost::Nothing),
        Err(Fault::Device) => return Err(SalvageError::Device),
    };
    if !tells_bits(&words, i as usize, size) {
        return push_finding(findings, fault, Cost::Nothing);
    }
    mark_free(&words, i as usize, size, free);
    Ok(())
}

/// Marks the blocks that the allocation table says are free. A block of the table that is damaged, has a bit past the
/// end of the disk, or says that a fixed block is free isn't believed, and is reported: each of its blocks may be in
/// use.
///
/// # Errors
///
/// `Device` if the device failed; `NoMemory` if a growth was refused.
pub fn find_free<D: Disk>(
    alloc: Global,
    disk: &mut D,
    findings: &mut Vec<Finding>,
) -> Result<Reached, SalvageError>
    requires { IsVolumeSize (D.state disk.old).size }
    ensures free { (D.state disk.new).honest
        → IfOk result (AreFree (D.state disk.old).size (D.state disk.old).contents) }
    ensures long { IfOk result (λ free. length free ≡ (D.state disk.old).size) }
    ensures added { (D.state disk.new).honest → (layout : ℕ)
        → IfOk result (λ free. AreAdded (D.state disk.old).size layout
        (D.state disk.old).contents findings.old.items findings.new.items) }
    ensures range { IsErrOf result NotVolume → ⊥ }
    ensures reads { (D.state disk.new).honest → OnlyReads (D.state disk.old) (D.state disk.new) }
    ensures same { SameDisk (D.state disk.old) (D.state disk.new) }
    ensures failed { IsErrOf result Device → (D.state disk.new).failures ≡ one_more (D.state disk.old).failures }
    ensures served { (IsErrOf result Device → ⊥) → (D.state disk.new).failures ≡ (D.state disk.old).failures }
{
    let size = disk.blocks();
    let mut free = Reached::new(alloc, size)?;
    for i in 0..table_blocks(size) {
        read_free(disk, i, &mut free, findings)?;
    }
    Ok(free)
}
