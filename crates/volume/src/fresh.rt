//! The making of a new volume.
ghost use Rattle.std.specs.Prelude.{◌≡◌, ◌⊎◌, ◌<◌, ◌≤◌, ◌+◌, ◌↔◌, ◌^◌, ℕ, Some, OnOk, IsErrOf};
ghost use Rattle.blockdisk.specs.Common.{LeavesOnly, Near, Modifies, NoneOpen};
ghost use Rattle.blockdisk.specs.declared.fault.Fault.TheVariants.{Device as Failed, Damaged};
ghost use Rattle.alloctab.specs.Common.{number_of, table_words};
ghost use Rattle.changeset.specs.Common.{AtRest};
ghost use Rattle.spec_image.specs.Common.{StandsOn, layout_number, pack_in, empty, IsVolumeSize, IsGateOpen, HasMap};
ghost use Rattle.volume.specs.Common.{DiskAnswer, IsInitBlock, IsBare, bare_map, bit_below, fresh_words};
ghost use Rattle.volume.specs.declared.error.VolumeError.{VolumeError};
ghost use Rattle.volume.specs.declared.error.VolumeError.TheVariants.{NotVolume, Device};

use crate::VolumeError;
use crate::home::{Home, home_block};
use blockdisk::{Disk, Fault};
use spec_image::layout::{
    HOME_COPIES, LOG_START, Layout, TABLE_BLOCK_BITS, WORD_BITS, is_volume_size, space_start,
    table_start,
};
use words36::{BLOCK_WORDS, Block, Word};

/// Makes a volume with no directory, in a layout, of a disk of 64 to 131072 blocks. The blocks after the first of the
/// master directory, and the images of the log, stay as they are. If a crash interrupts it, the disk may be anything.
///
/// # Errors
///
/// `NotVolume` if the disk has another number of blocks, with nothing written; `Device` if the device failed.
pub fn init_layout<D: Disk>(disk: &mut D, layout: Layout) -> Result<(), VolumeError>
    // The disk is a volume of that layout then, and whatever a crash leaves stands for no files.
    ensures stands { (D.state disk.new).honest
        → OnOk result (AtRest (D.state disk.new)
        (λ c. StandsOn (pack_in (layout_number layout) (D.state disk.old).size) c empty)) }
    ensures map { (D.state disk.new).honest
        → OnOk result (HasMap (D.state disk.old).size (D.state disk.new).contents
        (bare_map (layout_number layout) (D.state disk.old).size)) }
    ensures settled { (D.state disk.new).honest → OnOk result (NoneOpen (D.state disk.new)) }
    ensures shut { (D.state disk.new).honest
        → OnOk result (IsGateOpen (D.state disk.old).size (D.state disk.new).contents → ⊥) }

    // What is written, and where.
    ensures bare { (D.state disk.new).honest
        → OnOk result (IsBare (layout_number layout) (D.state disk.old).size (D.state disk.new).contents) }
    ensures modified { (D.state disk.new).honest
        → OnOk result (Modifies (IsInitBlock (D.state disk.old).size) (D.state disk.old) (D.state disk.new)) }
    ensures near { (D.state disk.new).honest
        → LeavesOnly (D.state disk.old) (D.state disk.new)
        (Near (IsInitBlock (D.state disk.old).size) (D.state disk.old)) }

    // On every disk.
    ensures range { IsErrOf result NotVolume ↔ (IsVolumeSize (D.state disk.old).size → ⊥) }
    ensures untouched { IsErrOf result NotVolume → disk.new ≡ disk.old }
    ensures only { (e : VolumeError) → IsErrOf result e → (e ≡ NotVolume) ⊎ (e ≡ Device) }
    ensures disk { DiskAnswer (D.state disk.old) (D.state disk.new) (IsErrOf result Device) }
{
    if !is_volume_size(disk.blocks()) {
        return Err(VolumeError::NotVolume);
    }
    match write_volume(disk, layout) {
        Ok(()) => Ok(()),
        Err(_) => Err(VolumeError::Device),
    }
}

/// Writes the blocks of a volume with no directory, in a layout, and waits until they are on the disk.
fn write_volume<D: Disk>(disk: &mut D, layout: Layout) -> Result<(), Fault>
    requires { IsVolumeSize (D.state disk.old).size }
    ensures bare { (D.state disk.new).honest
        → OnOk result (IsBare (layout_number layout) (D.state disk.old).size (D.state disk.new).contents) }
    ensures settled { (D.state disk.new).honest → OnOk result (NoneOpen (D.state disk.new)) }
    ensures modified { (D.state disk.new).honest
        → OnOk result (Modifies (IsInitBlock (D.state disk.old).size) (D.state disk.old) (D.state disk.new)) }
    ensures near { (D.state disk.new).honest
        → LeavesOnly (D.state disk.old) (D.state disk.new)
        (Near (IsInitBlock (D.state disk.old).size) (D.state disk.old)) }
    ensures device { IsErrOf result Damaged → ⊥ }
    ensures disk { DiskAnswer (D.state disk.old) (D.state disk.new) (IsErrOf result Failed) }
{
    let size = disk.blocks();
    write_fresh(disk, layout, 0, LOG_START)?;
    write_fresh(disk, layout, table_start(size), space_start(size) + 1)?;
    disk.sync()
}

/// Writes the blocks from `from` to before `end` as a volume with no directory has them in a layout.
fn write_fresh<D: Disk>(disk: &mut D, layout: Layout, from: u32, end: u32) -> Result<(), Fault>
    requires volume { IsVolumeSize (D.state disk.old).size }
    requires inside { end ≤ (D.state disk.old).size }
    ensures written { (D.state disk.new).honest → OnOk result ((n : ℕ) → from ≤ n → n < end
        → (D.state disk.new).contents n ≡ Some (fresh_words (layout_number layout) (D.state disk.old).size n)) }
    ensures modified { (D.state disk.new).honest
        → Modifies (λ n. (from ≤ n) × (n < end)) (D.state disk.old) (D.state disk.new) }
    ensures device { IsErrOf result Damaged → ⊥ }
    ensures disk { DiskAnswer (D.state disk.old) (D.state disk.new) (IsErrOf result Failed) }
{
    let size = disk.blocks();
    for n in from..end {
        disk.write(n, &fresh_block(layout, size, n))?;
    }
    Ok(())
}

/// Returns the words that a block gets when a volume of a layout is made.
fn fresh_block(layout: Layout, size: u32, n: u32) -> Block
    requires volume { IsVolumeSize size }
    requires inside { n < size }
    ensures { result ≡ fresh_words (layout_number layout) size n }
{
    let space = space_start(size);
    if HOME_COPIES.contains(&n) {
        let home = Home {
            layout,
            master: space,
        };
        home_block(size, home)
    } else if (table_start(size)..space).contains(&n) {
        table_block(n - table_start(size), space + 1)
    } else {
        [Word::ZERO; BLOCK_WORDS]
    }
}

/// Returns the words of table block `i`, counted from 0, with the bits of the blocks below `limit` set.
fn table_block(i: u32, limit: u32) -> Block
    requires { i < 32 }
    ensures { result ≡ table_words (bit_below limit) i }
{
    let mut words = [Word::ZERO; BLOCK_WORDS];
    for place in 0..BLOCK_WORDS {
        words[place] = table_word(
            i * TABLE_BLOCK_BITS as u32 + (place * WORD_BITS) as u32,
            limit,
        );
    }
    words
}

/// Returns the word of the table whose first bit is that of block `from`, with the bits of the blocks below `limit`
/// set.
fn table_word(from: u32, limit: u32) -> Word
    requires { from + 36 < 2 ^ 32 }
    ensures { result ≡ number_of (bit_below limit) from 36 }
{
    let mut number = 0;
    for place in 0..WORD_BITS as u32 {
        number = number * 2 + u64::from(from + place < limit);
    }
    Word::from_bits(number)
}
