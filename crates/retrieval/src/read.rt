//! A version, read from its prime block and its extensions.
ghost use Rattle.std.specs.Prelude.{◌≡◌, ◌*◌, ◌<◌, ◌≤◌, ◌^◌, ◌⊎◌, ℕ, List, Some, None, IfOk, IsErrOf, length};
ghost use Rattle.std.specs.List.{AllByRecursion};
ghost use Rattle.blockdisk.specs.Common.{Keeps, SameDisk, one_more};
ghost use Rattle.spec_image.specs.Common.{blocks_of, layout_number, IsVolumeSize, SpecPrime, IsRetrieved, most_blocks};
ghost use Rattle.spec_image.specs.Common.{InSpace, IsBadVersion};
ghost use Rattle.retrieval.specs.Common.{IsBadPrime, IsBadExtension, Overfills, IsStarted, Extends, IsVersionAt};
ghost use Rattle.retrieval.specs.Common.{IsReadAs, IsStandingVersion, rib_count};
ghost use Rattle.retrieval.specs.declared.error.RetrievalError.TheVariants.{BadRetrieval, Device, NoMemory};

use crate::parse::{parse_extension, parse_prime};
use crate::runs::{RunError, push_runs};
use crate::{Prime, RetrievalError, Version};
use blockdisk::{Disk, Fault};
use spec_image::layout::{
    EXTENSION_HEAD, EXTENSION_POINTERS, Layout, PRIME_HEAD, PRIME_POINTERS, follow,
};
use std::alloc::Global;
use words36::{BLOCK_WORDS, Block};

/// Reads a retrieval block.
fn read_block<D: Disk>(disk: &mut D, n: u32) -> Result<Block, RetrievalError>
    requires { n < (D.state disk.old).size }
    ensures words { (D.state disk.new).honest → IfOk result (λ block. (D.state disk.old).contents n ≡ Some block) }
    ensures bad { (D.state disk.new).honest → (k : ℕ) → IsErrOf result (BadRetrieval k)
        → (k ≡ n) × ((D.state disk.old).contents n ≡ None) }
    ensures named { (k : ℕ) → IsErrOf result (BadRetrieval k) → k ≡ n }
    ensures memory { IsErrOf result NoMemory → ⊥ }
    ensures keeps { (D.state disk.new).honest → Keeps (D.state disk.old) (D.state disk.new) }
    ensures same { SameDisk (D.state disk.old) (D.state disk.new) }
    ensures failed { IsErrOf result Device → (D.state disk.new).failures ≡ one_more (D.state disk.old).failures }
    ensures served { (IsErrOf result Device → ⊥) → (D.state disk.new).failures ≡ (D.state disk.old).failures }
{
    match disk.read(n) {
        Ok(block) => Ok(block),
        Err(Fault::Damaged) => Err(RetrievalError::BadRetrieval(n)),
        Err(Fault::Device) => Err(RetrievalError::Device),
    }
}

/// Returns how many blocks `words` words take.
fn blocks_of(words: u32) -> u32
    requires { words ≤ most_blocks * BLOCK_WORDS }
    ensures value { result ≡ blocks_of words }
    ensures few { result ≤ most_blocks }
{
    words.div_ceil(BLOCK_WORDS as u32)
}

/// Returns the version as its prime block has it, with the first extension, or 0.
fn start_version(
    alloc: Global,
    block: &Block,
    at: u32,
    size: u32,
    layout: Layout,
) -> Result<(Prime, Version, u32), RetrievalError>
    requires { IsVolumeSize size }
    ensures ok { IfOk result (λ started. IsStarted size (layout_number layout) block.now started.0 started.1
        started.2) }
    ensures bad { (k : ℕ) → IsErrOf result (BadRetrieval k) → (k ≡ at)
        × IsBadPrime size (layout_number layout) block.now }
    ensures device { IsErrOf result Device → ⊥ }
{
    let words = &block[..];
    let Some(head) = parse_prime(block, layout) else {
        return Err(RetrievalError::BadRetrieval(at));
    };
    let full = head.count == PRIME_POINTERS;
    let Some(next) = follow(head.next, full, size) else {
        return Err(RetrievalError::BadRetrieval(at));
    };
    let mut version = Version::new(alloc);
    version.set_length(head.length);
    let pointers = &words[PRIME_HEAD..PRIME_HEAD + head.count];
    match push_runs(pointers, size, blocks_of(head.length), &mut version) {
        Ok(()) => Ok((head.prime, version, next)),
        Err(RunError::Outside) => Err(RetrievalError::BadRetrieval(at)),
        Err(RunError::TooMany) => Err(RetrievalError::BadRetrieval(at)),
        Err(RunError::NoMemory) => Err(RetrievalError::NoMemory),
    }
}

/// Adds the extension `n` to the version at a prime block; returns the next, or 0.
fn extend_version(
    block: &Block,
    n: u32,
    at: u32,
    size: u32,
    version: &mut Version,
) -> Result<u32, RetrievalError>
    requires volume { IsVolumeSize size }
    requires words { version.old.words ≤ most_blocks * BLOCK_WORDS }
    requires room { length version.old.blocks ≤ blocks_of version.old.words }
    ensures ok { IfOk result (λ next. Extends size block.now n next version.old version.new) }
    ensures bad { (k : ℕ) → IsErrOf result (BadRetrieval k) → ((k ≡ n) × IsBadExtension size block.now)
        ⊎ ((k ≡ at) × Overfills block.now version.old) }
    ensures device { IsErrOf result Device → ⊥ }
{
    let words = &block[..];
    let Some(head) = parse_extension(block) else {
        return Err(RetrievalError::BadRetrieval(n));
    };
    let full = head.count == EXTENSION_POINTERS;
    let Some(next) = follow(head.next, full, size) else {
        return Err(RetrievalError::BadRetrieval(n));
    };
    let pointers = &words[EXTENSION_HEAD..EXTENSION_HEAD + head.count];
    match push_runs(pointers, size, blocks_of(version.length()), version) {
        Ok(()) => (),
        Err(RunError::Outside) => return Err(RetrievalError::BadRetrieval(n)),
        Err(RunError::TooMany) => return Err(RetrievalError::BadRetrieval(at)),
        Err(RunError::NoMemory) => return Err(RetrievalError::NoMemory),
    }
    version.push_rib(n)?;
    Ok(next)
}

/// Reads a version from an image of a layout: its prime block and its extensions. The data blocks aren't read.
///
/// # Errors
///
/// `BadRetrieval` with the prime block or an extension that is damaged or invalid in this layout: a number outside
/// the free space is never read, and the block that names it is refused; a prime block with a date that the layout
/// has no room for is refused before its extensions are read. `Device` if the device failed; `NoMemory` if there is
/// no memory for the lists of blocks.
pub fn read_version<D: Disk>(
    alloc: Global,
    disk: &mut D,
    at: u32,
    layout: Layout,
) -> Result<(Prime, Version), RetrievalError>
    // What the caller ensures.
    requires volume { IsVolumeSize (D.state disk.old).size }
    requires inside { at < (D.state disk.old).size }
    // What was read, or what is at a prime block that is refused.
    ensures ok { (D.state disk.new).honest
        → IfOk result (λ read. IsVersionAt (D.state disk.old).size (D.state disk.old).contents (layout_number layout) at
        read.0 read.1) }
    ensures bad { (D.state disk.new).honest → (k : ℕ) → IsErrOf result (BadRetrieval k)
        → IsBadVersion (D.state disk.old).size (D.state disk.old).contents (layout_number layout) at k }

    // Whatever the disk returns, a block that is named is the prime block or lies in the free space.
    ensures named { (k : ℕ) → IsErrOf result (BadRetrieval k) → (k ≡ at) ⊎ InSpace (D.state disk.old).size k }
    ensures whole { (D.state disk.new).honest → (p : SpecPrime) (ribs blocks : List ℕ)
        → IsStandingVersion (D.state disk.old).size (D.state disk.old).contents (layout_number layout) at p ribs blocks
        → (k : ℕ) → IsErrOf result (BadRetrieval k) → ⊥ }
    ensures reads { (D.state disk.new).honest → (p : SpecPrime) (ribs blocks : List ℕ)
        → IsRetrieved (layout_number layout) (D.state disk.old).contents p at ribs blocks → p.place.name.ext < 2 ^ 18
        → IfOk result (λ read. IsReadAs p ribs blocks read.0 read.1) }
    // It is a valid version.
    ensures blocks_inside { IfOk result (λ read. AllByRecursion (InSpace (D.state disk.old).size) read.1.blocks) }
    ensures ribs_inside { IfOk result (λ read. AllByRecursion (InSpace (D.state disk.old).size) read.1.ribs) }
    ensures counted { IfOk result (λ read. length read.1.blocks ≡ blocks_of read.1.words) }
    ensures few { IfOk result (λ read. read.1.words ≤ most_blocks * BLOCK_WORDS) }
    ensures few_ribs { IfOk result (λ read. length read.1.ribs ≤ rib_count (length read.1.blocks)) }
    // The device: what failed, and how often.
    ensures keeps { (D.state disk.new).honest → Keeps (D.state disk.old) (D.state disk.new) }
    ensures same { SameDisk (D.state disk.old) (D.state disk.new) }
    ensures failed { IsErrOf result Device → (D.state disk.new).failures ≡ one_more (D.state disk.old).failures }
    ensures served { (IsErrOf result Device → ⊥) → (D.state disk.new).failures ≡ (D.state disk.old).failures }
{
    let size = disk.blocks();
    let block = read_block(disk, at)?;
    let (prime, mut version, mut next) = start_version(alloc, &block, at, size, layout)?;
    while next != 0 {
        let block = read_block(disk, next)?;
        next = extend_version(&block, next, at, size, &mut version)?;
    }
    if version.count() as u32 != blocks_of(version.length()) {
        return Err(RetrievalError::BadRetrieval(at));
    }
    Ok((prime, version))
}
