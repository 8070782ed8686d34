//! The log: a header that names the targets, and one image for each put.
ghost use Rattle.std.specs.Prelude.{List, [], ◌≡◌, ◌+◌, ◌<◌, ◌≤◌, ◌^◌, ◌↔◌, IsTrue, IfOk, OnOk, IsErrOf, Some, length};
ghost use Rattle.std.specs.List.{AllByRecursion};
ghost use Rattle.blockdisk.specs.Common.{Near, Modifies, LeavesOnly, NoneOpen, SameDisk, one_more};
ghost use Rattle.blockdisk.specs.declared.fault.Fault.TheVariants.{Device, Damaged};
ghost use Rattle.changeset.specs.Common.{IsInLog, IsNextTarget, OnlyReads, most_puts, AreDistinct};
ghost use Rattle.changeset.specs.declared.error.LogError.TheVariants.{Device as Failed, TooMany, BadLog};
ghost use Rattle.spec_image.specs.Common.{IsLog, IsTarget, AreImages, log_header, targets, IsVolumeSize, log_images};
ghost use Rattle.spec_image.specs.Common.{log_start};
ghost use Rattle.spec_image.specs.declared.put.Put.{Put};

use crate::change_set::place_of;
use crate::{LogError, MAX_PUTS};
use arrayvec::ArrayVec;
use blockdisk::{Disk, Fault};
use spec_image::Put;
use spec_image::layout::{HOME_COPIES, LOG_HEADER, LOG_START, log_images, table_start};
use words36::{BLOCK_WORDS, Block, Word};

/// The first word of a log's header: LOG in SIXBIT.
const LOG_WORD: u64 = 0o545747000000;

/// Returns the word of a number.
pub fn word_of(number: u64) -> Word
    requires { number < 2 ^ 36 }
    ensures { result ≡ number }
{
    match Word::new(number) {
        Some(word) => word,
        None => unreachable!(),
    }
}

/// Returns the header of a log of these puts.
fn header_of(puts: &[Put]) -> Block
    requires { length puts.now ≤ most_puts }
    ensures { result ≡ log_header puts.now }
{
    let mut words = [Word::ZERO; BLOCK_WORDS];
    words[0] = word_of(LOG_WORD);
    words[1] = word_of(puts.len() as u64);
    for (i, put) in puts.iter().enumerate() {
        words[i + 2] = word_of(put.block as u64);
    }
    words
}

/// Writes the log of these puts, and waits until it is on the disk.
///
/// # Errors
///
/// `Device` if the device failed; the log may then hold anything, and so may the blocks that were open.
pub fn write_log<D: Disk>(disk: &mut D, puts: &[Put]) -> Result<(), Fault>
    // What the caller ensures.
    requires volume { IsVolumeSize (D.state disk.old).size }
    requires some { 0 < length puts.now }
    requires few { length puts.now ≤ log_images (D.state disk.old).size }
    requires distinct { AreDistinct puts.now }
    requires in_range { AllByRecursion (IsTarget (D.state disk.old).size) (targets puts.now) }
    // At Ok the log is on the disk.
    ensures logged { (D.state disk.new).honest
        → OnOk result (IsLog (D.state disk.old).size (D.state disk.new).contents puts.now) }
    ensures settled { (D.state disk.new).honest → OnOk result (NoneOpen (D.state disk.new)) }
    // Only the log is written, whatever the result.
    ensures modified { (D.state disk.new).honest
        → OnOk result (Modifies (IsInLog (D.state disk.old).size) (D.state disk.old) (D.state disk.new)) }
    ensures near { (D.state disk.new).honest
        → LeavesOnly (D.state disk.old) (D.state disk.new) (Near (IsInLog (D.state disk.old).size) (D.state disk.old)) }
    ensures same { SameDisk (D.state disk.old) (D.state disk.new) }
    // The device: what failed, and how often.
    ensures device { IsErrOf result Damaged → ⊥ }
    ensures failed { IsErrOf result Device → (D.state disk.new).failures ≡ one_more (D.state disk.old).failures }
    ensures served { OnOk result ((D.state disk.new).failures ≡ (D.state disk.old).failures) }
{
    let header = header_of(puts);
    write_images(disk, puts)?;
    disk.write(LOG_HEADER, &header)?;
    disk.sync()
}

/// Writes the words of each put into the log.
fn write_images<D: Disk>(disk: &mut D, puts: &[Put]) -> Result<(), Fault>
    requires few { length puts.now ≤ most_puts }
    requires room { log_start + length puts.now ≤ (D.state disk.old).size }
    ensures images { (D.state disk.new).honest
        → OnOk result (AreImages (D.state disk.new).contents log_start puts.now) }
    ensures modified { (D.state disk.new).honest
        → Modifies (λ n. (log_start ≤ n) × (n < log_start + length puts.now)) (D.state disk.old) (D.state disk.new) }
    ensures same { SameDisk (D.state disk.old) (D.state disk.new) }
    ensures device { IsErrOf result Damaged → ⊥ }
    ensures failed { IsErrOf result Device → (D.state disk.new).failures ≡ one_more (D.state disk.old).failures }
    ensures served { OnOk result ((D.state disk.new).failures ≡ (D.state disk.old).failures) }
{
    for (i, put) in puts.iter().enumerate() {
        disk.write(LOG_START + i as u32, &put.words)?;
    }
    Ok(())
}

/// Reads the puts of the log into an empty list: 37 blocks are many for a stack, and a result would be copied.
///
/// # Errors
///
/// `BadLog` if the log isn't good, `Device` if the device failed.
pub fn read_log<D: Disk>(
    disk: &mut D,
    size: u32,
    puts: &mut ArrayVec<Put, MAX_PUTS>,
) -> Result<(), LogError>
    requires size { size ≡ (D.state disk.old).size }
    requires volume { IsVolumeSize size }
    requires empty { puts.old.items ≡ [] }
    ensures log { (D.state disk.new).honest → OnOk result (IsLog size (D.state disk.old).contents puts.new.items) }
    ensures bad { (D.state disk.new).honest → IsErrOf result BadLog → (puts : List Put)
        → IsLog size (D.state disk.old).contents puts → ⊥ }
    ensures distinct { OnOk result (AreDistinct puts.new.items) }
    ensures in_range { OnOk result (AllByRecursion (IsTarget size) (targets puts.new.items)) }
    ensures reads { (D.state disk.new).honest → OnlyReads (D.state disk.old) (D.state disk.new) }
    ensures same { SameDisk (D.state disk.old) (D.state disk.new) }
    ensures many { IsErrOf result TooMany → ⊥ }
    ensures failed { IsErrOf result Failed → (D.state disk.new).failures ≡ one_more (D.state disk.old).failures }
    ensures served { (IsErrOf result Failed → ⊥) → (D.state disk.new).failures ≡ (D.state disk.old).failures }
{
    let header = disk.read(LOG_HEADER)?;
    let count = header[1].bits();
    if count == 0 || count > log_images(size) as u64 {
        return Err(LogError::BadLog);
    }
    for i in 0..count as u32 {
        puts.push(read_put(disk, size, &header, i, puts.as_slice())?);
    }
    if header_of(puts.as_slice()) != header {
        return Err(LogError::BadLog); // not LOG, or words after the last target
    }
    Ok(())
}

/// Reads the put at place `i` of the log, which comes after those in `before`.
fn read_put<D: Disk>(
    disk: &mut D,
    size: u32,
    header: &Block,
    i: u32,
    before: &[Put],
) -> Result<Put, LogError>
    requires size { size ≡ (D.state disk.old).size }
    requires volume { IsVolumeSize size }
    requires few { i < log_images size }
    ensures target { IfOk result (λ put. IsNextTarget size header.now before.now i put.block) }
    ensures image { (D.state disk.new).honest
        → IfOk result (λ put. (D.state disk.old).contents (log_start + i) ≡ Some put.words) }
    ensures bad { (D.state disk.new).honest → IsErrOf result BadLog → (put : Put)
        → IsNextTarget size header.now before.now i put.block
        → (D.state disk.old).contents (log_start + i) ≡ Some put.words → ⊥ }
    ensures reads { (D.state disk.new).honest → OnlyReads (D.state disk.old) (D.state disk.new) }
    ensures same { SameDisk (D.state disk.old) (D.state disk.new) }
    ensures many { IsErrOf result TooMany → ⊥ }
    ensures failed { IsErrOf result Failed → (D.state disk.new).failures ≡ one_more (D.state disk.old).failures }
    ensures served { (IsErrOf result Failed → ⊥) → (D.state disk.new).failures ≡ (D.state disk.old).failures }
{
    let block = header[i as usize + 2].bits();
    if !is_target(size, block) || place_of(before, block as u32).is_some() {
        return Err(LogError::BadLog);
    }
    let words = disk.read(LOG_START + i)?;
    Ok(Put {
        block: block as u32,
        words,
    })
}

/// Returns whether a change may write this block.
fn is_target(size: u32, block: u64) -> bool
    requires { IsVolumeSize size }
    ensures { IsTrue result ↔ IsTarget size block }
{
    let [first, second] = HOME_COPIES;
    let behind_log = u64::from(table_start(size))..u64::from(size);
    block == u64::from(first) || block == u64::from(second) || behind_log.contains(&block)
}
