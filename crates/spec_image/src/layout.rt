//! The regions of a disk, and what its blocks have room for. Each number of the layout is written here once; the
//! definitions in `specs/` say what it means.
//!
//! A disk has, in this order: block 0, which is zero and ignored; the two home copies; the gate; the header of the log
//! and its images; the allocation table; and the free space, with the chains of the directories and the blocks of the
//! versions. Numbers are block numbers, counted from 0, unless something else is stated. What differs between layouts
//! takes the layout as an argument.
ghost use Rattle.std.specs.Prelude.{◌≡◌, ◌+◌, ◌<◌, ◌↔◌, IsTrue, IfSome, IfNone, length, replicate};
ghost use Rattle.spec_image.specs.Regions.{IsVolumeSize, table_blocks, log_images, table_start, space_start};
ghost use Rattle.spec_image.specs.Faults.{InSpace};
ghost use Rattle.spec_image.specs.Retrieval.{date_limit};
ghost use Rattle.spec_image.specs.Layouts.{layout_number};
ghost use Rattle.spec_image.specs.declared.layout.Layout.{Layout};

use words36::{BLOCK_WORDS, Word};

/// The least number of blocks that a volume has.
pub const SMALLEST_VOLUME: u32 = 64;

/// The greatest number of blocks that a volume has.
pub const LARGEST_VOLUME: u32 = 131072;

/// The blocks of the home copies, in the order in which they are tried.
pub const HOME_COPIES: [u32; 2] = [1, 2];

/// The block that determines whether the log counts.
pub const GATE: u32 = 3;

/// The block of the log's header.
pub const LOG_HEADER: u32 = 4;

/// The first block of the log's images: `init` makes all blocks below it, on every disk.
pub const LOG_START: u32 = 5;

/// The number of bits in a word of the allocation table, each for one block of the disk.
pub const WORD_BITS: usize = 36;

/// The number of blocks of the disk that one block of the allocation table covers: 4608.
pub const TABLE_BLOCK_BITS: usize = WORD_BITS * BLOCK_WORDS;

/// The number of images that the log has room for, besides one for each block of the allocation table.
pub const OTHER_IMAGES: u32 = 8;

/// The number of words before the entries in a block of a directory: the next block, and the number of entries.
pub const DIRECTORY_HEAD: usize = 2;

/// The number of words in an entry of a directory.
pub const ENTRY_WORDS: usize = 3;

/// The number of entries that a block of a directory has room for: 42.
pub const BLOCK_ENTRIES: usize = (BLOCK_WORDS - DIRECTORY_HEAD) / ENTRY_WORDS;

/// The number of words before the pointers in a prime block.
pub const PRIME_HEAD: usize = 16;

/// The number of pointers that a prime block has room for: 112.
pub const PRIME_POINTERS: usize = BLOCK_WORDS - PRIME_HEAD;

/// The number of words before the pointers in an extension: the number of pointers, and the next extension.
pub const EXTENSION_HEAD: usize = 2;

/// The number of pointers that an extension has room for: 126.
pub const EXTENSION_POINTERS: usize = BLOCK_WORDS - EXTENSION_HEAD;

/// The greatest number of blocks of words in a file.
pub const MOST_BLOCKS: u32 = 16384;

/// The greatest number of words in a file.
pub const MOST_WORDS: u32 = MOST_BLOCKS * BLOCK_WORDS as u32;

/// Returns whether a disk of `size` blocks can be a volume.
pub fn is_volume_size(size: u32) -> bool
    ensures { IsTrue result ↔ IsVolumeSize size }
{
    (SMALLEST_VOLUME..=LARGEST_VOLUME).contains(&size)
}

/// Returns the number of blocks in the allocation table of a disk of `size` blocks.
pub fn table_blocks(size: u32) -> u32
    ensures { result ≡ table_blocks size }
{
    size.div_ceil(TABLE_BLOCK_BITS as u32)
}

/// Returns the number of images that the log of a disk of `size` blocks has room for.
pub fn log_images(size: u32) -> u32
    ensures { result ≡ log_images size }
{
    table_blocks(size) + OTHER_IMAGES
}

/// Returns the first block of the allocation table: the one after the log's last image.
pub fn table_start(size: u32) -> u32
    ensures { result ≡ table_start size }
{
    LOG_START + log_images(size)
}

/// Returns the first block of the free space: the one after the allocation table.
pub fn space_start(size: u32) -> u32
    ensures { result ≡ space_start size }
{
    table_start(size) + table_blocks(size)
}

/// Returns whether block `n` is in the free space of a disk of `size` blocks.
pub fn is_in_space(size: u32, n: u64) -> bool
    ensures { IsTrue result ↔ InSpace size n }
{
    (u64::from(space_start(size))..u64::from(size)).contains(&n)
}

/// Returns the block that comes next in a chain, or 0 if there is none; `None` if a next block is named but must not
/// be: the block that names it isn't full, or the next block is outside the free space.
pub fn follow(next: u64, full: bool, size: u32) -> Option<u32>
    ensures some { IfSome result (λ n. n ≡ next) }
    ensures full { IfSome result (λ n. 0 < n → IsTrue full) }
    ensures inside { IfSome result (λ n. 0 < n → InSpace size n) }
    ensures named { IfNone result (0 < next) }
    ensures none { IfNone result (IsTrue full → InSpace size next → ⊥) }
{
    if next == 0 {
        return Some(0);
    }
    if full && is_in_space(size, next) {
        Some(next as u32)
    } else {
        None
    }
}

/// Returns whether all words are zero, as are the words of a block after its contents.
pub fn are_zeros(words: &[Word]) -> bool
    ensures { IsTrue result ↔ (words.now ≡ replicate (length words.now) 0) }
{
    for word in words {
        if word.bits() != 0 {
            return false;
        }
    }
    true
}

/// How an image spells dates and quotas; its home copies have a number for it.
#[derive(Clone, Copy, Debug, PartialEq, Eq)]
pub enum Layout {
    /// Layout 1: dates of twelve bits, and no quotas.
    One,
    /// Layout 2: dates of fifteen bits, and quotas.
    Two,
}

impl Layout {
    /// Returns the number of the layout in a home copy.
    pub fn number(self) -> u64
        ensures { result ≡ layout_number self }
    {
        match self {
            Layout::One => 1,
            Layout::Two => 2,
        }
    }

    /// Returns the layout of a number; `None` if there is none.
    pub fn from_number(number: u64) -> Option<Layout>
        ensures some { IfSome result (λ layout. layout_number layout ≡ number) }
        ensures none { IfNone result ((layout : Layout) → layout_number layout ≡ number → ⊥) }
    {
        match number {
            1 => Some(Layout::One),
            2 => Some(Layout::Two),
            _ => None,
        }
    }

    /// Returns the last date that a file can have.
    pub fn last_date(self) -> u32
        ensures { result + 1 ≡ date_limit (layout_number self) }
    {
        match self {
            Layout::One => 4095,
            Layout::Two => 32767,
        }
    }
}
