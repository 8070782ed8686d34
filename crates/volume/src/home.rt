//! The home copies: their words, and what these say.
ghost use Rattle.std.specs.Prelude.{◌≡◌, ◌⊎◌, ◌↔◌, ◌<◌, ◌≤◌, ℕ, Some, IfOk, IfSome, IfNone, IsErrOf, slice_index};
ghost use Rattle.spec_image.specs.Common.{IsVolumeSize, home_block, IsHome, InSpace, IsNotVolume, IsBadHome};
ghost use Rattle.spec_image.specs.Common.{IsLayout, layout_number};
ghost use Rattle.volume.specs.Common.{ReadsDisk, SaysSize, home_in, IsFound, IsFoundInSpace, holds_words};
ghost use Rattle.volume.specs.declared.error.VolumeError.{VolumeError};
ghost use Rattle.volume.specs.declared.error.VolumeError.TheVariants.{NotVolume, BadHome, Device};

use crate::VolumeError;
use blockdisk::{Disk, Fault};
use spec_image::layout::{
    HOME_COPIES, LARGEST_VOLUME, Layout, is_in_space, is_volume_size, log_images, table_blocks,
};
use words36::{BLOCK_WORDS, Block, Word};

/// FILSER in SIXBIT, the first word of a home copy.
const HOME_WORD: u64 = 0o465154634562;

/// The place in a home copy of the word that names the layout.
const LAYOUT_PLACE: usize = 1;

/// The place in a home copy of the word that says how many blocks the volume has.
const SIZE_PLACE: usize = 2;

/// The place in a home copy of the word that names the first block of the master directory.
const MASTER_PLACE: usize = 5;

/// What a valid home copy says.
#[derive(Clone, Copy)]
pub struct Home {
    /// The layout of the disk.
    pub layout: Layout,
    /// The first block of the master directory.
    pub master: u32,
}

/// What a home copy is found to be.
#[derive(Clone, Copy)]
pub enum HomeCopy {
    /// Every word of it is right, and it says this.
    Valid(Home),
    /// It has the name, but isn't valid.
    Named,
    /// It is damaged, or doesn't have the name.
    Unnamed,
}

/// Returns the words of a home copy that says this, on a disk of `size` blocks.
pub fn home_block(size: u32, home: Home) -> Block
    requires { IsVolumeSize size }
    ensures { result ≡ home_block size (home_in (layout_number home.layout) home.master) }
{
    let mut words = [Word::ZERO; BLOCK_WORDS];
    words[0] = Word::from_bits(HOME_WORD);
    words[LAYOUT_PLACE] = Word::from_bits(home.layout.number());
    words[SIZE_PLACE] = Word::from_bits(u64::from(size));
    words[3] = Word::from_bits(u64::from(table_blocks(size)));
    words[4] = Word::from_bits(u64::from(log_images(size)));
    words[MASTER_PLACE] = Word::from_bits(u64::from(home.master));
    words
}

/// Returns the layout that a word of a home copy names; `None` if an image may not have it.
fn layout_at(word: Word) -> Option<Layout>
    ensures some { IfSome result (λ layout. (layout_number layout ≡ word) × IsLayout word) }
    ensures none { IfNone result (IsLayout word → ⊥) }
{
    Layout::from_number(word.bits())
}

/// Returns what the words of a home copy name on a disk of `size` blocks; `None` if no image may have the layout, or if
/// the first block of the master directory lies outside the free space.
fn home_at(size: u32, words: &Block) -> Option<Home>
    requires { IsVolumeSize size }
    ensures layout { IfSome result (λ home. layout_number home.layout ≡ slice_index words.now 1) }
    ensures allowed { IfSome result (λ home. IsLayout (layout_number home.layout)) }
    ensures master { IfSome result (λ home. home.master ≡ slice_index words.now 5) }
    ensures inside { IfSome result (λ home. InSpace size home.master) }
    ensures none { IfNone result (IsLayout (slice_index words.now 1) → InSpace size (slice_index words.now 5) → ⊥) }
{
    let layout = layout_at(words[LAYOUT_PLACE])?;
    let master = words[MASTER_PLACE].bits();
    if !is_in_space(size, master) {
        return None;
    }
    Some(Home {
        layout,
        master: master as u32,
    })
}

/// Returns what a home copy with these words is, on a disk of `size` blocks.
fn copy_of(size: u32, words: &Block) -> HomeCopy
    requires { IsVolumeSize size }
    ensures found { (n : ℕ) → IsFound size (holds_words words.now) n result }
    ensures inside { IsFoundInSpace size result }
{
    if words[0].bits() != HOME_WORD {
        return HomeCopy::Unnamed;
    }
    match home_at(size, words) {
        Some(home) if *words == home_block(size, home) => HomeCopy::Valid(home),
        _ => HomeCopy::Named,
    }
}

/// Returns how many blocks the volume has by the words of a home copy, whatever the size of the disk; `None` if a
/// volume of no size has a copy with these words.
pub fn stated_size(words: &Block) -> Option<u32>
    ensures { (size n : ℕ) → (result ≡ Some size) ↔ SaysSize size (holds_words words.now) n }
{
    let blocks = words[SIZE_PLACE].bits();
    if blocks > u64::from(LARGEST_VOLUME) || !is_volume_size(blocks as u32) {
        return None;
    }
    let size = blocks as u32;
    match copy_of(size, words) {
        HomeCopy::Valid(_) => Some(size),
        _ => None,
    }
}

/// Returns what the home copy in block `n` is.
///
/// # Errors
///
/// `Device` if the device failed.
fn read_copy<D: Disk>(disk: &mut D, n: u32) -> Result<HomeCopy, VolumeError>
    requires volume { IsVolumeSize (D.state disk.old).size }
    requires first { n ≤ 2 }
    ensures found { (D.state disk.new).honest
        → IfOk result (λ copy. IsFound (D.state disk.old).size (D.state disk.old).contents n copy) }
    ensures inside { IfOk result (λ copy. IsFoundInSpace (D.state disk.old).size copy) }
    ensures only { (e : VolumeError) → IsErrOf result e → e ≡ Device }
    ensures disk { ReadsDisk (D.state disk.old) (D.state disk.new) (IsErrOf result Device) }
{
    let size = disk.blocks();
    match disk.read(n) {
        Ok(words) => Ok(copy_of(size, &words)),
        Err(Fault::Damaged) => Ok(HomeCopy::Unnamed),
        Err(Fault::Device) => Err(VolumeError::Device),
    }
}

/// Returns what the first valid home copy says. The second copy is read only if the first isn't valid.
///
/// # Errors
///
/// `NotVolume` if the disk has a number of blocks that no volume has, or neither copy has the name; `BadHome` if a copy
/// has the name but none is valid; `Device` if the device failed.
pub fn read_home<D: Disk>(disk: &mut D) -> Result<Home, VolumeError>
    ensures ok { (D.state disk.new).honest
        → IfOk result (λ home. IsHome (D.state disk.old).size (D.state disk.old).contents
        (home_in (layout_number home.layout) home.master)) }
    ensures inside { IfOk result (λ home. InSpace (D.state disk.old).size home.master) }
    ensures volume { IfOk result (λ home. IsVolumeSize (D.state disk.old).size) }
    ensures not_volume { (D.state disk.new).honest → IsErrOf result NotVolume
        → IsNotVolume (D.state disk.old).size (D.state disk.old).contents }
    ensures bad { (D.state disk.new).honest → IsErrOf result BadHome
        → IsBadHome (D.state disk.old).size (D.state disk.old).contents }
    ensures only { (e : VolumeError) → IsErrOf result e → (e ≡ NotVolume) ⊎ (e ≡ BadHome) ⊎ (e ≡ Device) }

    // A disk of another size isn't touched.
    ensures size_first { (IsVolumeSize (D.state disk.old).size → ⊥) → IsErrOf result NotVolume × (disk.new ≡ disk.old) }

    // Nothing is written.
    ensures disk { ReadsDisk (D.state disk.old) (D.state disk.new) (IsErrOf result Device) }
{
    if !is_volume_size(disk.blocks()) {
        return Err(VolumeError::NotVolume);
    }
    let first = read_copy(disk, HOME_COPIES[0])?;
    if let HomeCopy::Valid(home) = first {
        return Ok(home);
    }
    match (first, read_copy(disk, HOME_COPIES[1])?) {
        (_, HomeCopy::Valid(home)) => Ok(home),
        (HomeCopy::Unnamed, HomeCopy::Unnamed) => Err(VolumeError::NotVolume),
        _ => Err(VolumeError::BadHome),
    }
}
