//! A chain, read from the disk.
ghost use Rattle.std.specs.Prelude.{◌≡◌, ◌<◌, ◌≤◌, ◌⊎◌, ◌++◌, ◌∷◌, [], ℕ, List, true, false, Some, None, IfOk, OnOk};
ghost use Rattle.std.specs.Prelude.{IsErrOf, length, map, slice_set};
ghost use Rattle.std.specs.List.{AllByRecursion};
ghost use Rattle.std.specs.FinMap.Entries.{find};
ghost use Rattle.blockdisk.specs.Common.{SameDisk, one_more};
ghost use Rattle.spec_image.specs.Common.{times, EachOnce, IsVolumeSize, InSpace};
ghost use Rattle.changeset.specs.Common.{OnlyReads};
ghost use Rattle.alloctab.specs.Common.{flag_at};
ghost use Rattle.std.specs.Vec.{vec_len, vec_capacity};
ghost use Rattle.directory.specs.Common.{HasPlaces, SpellsBlock, AreGood, IsBadWords, IsBadAt, Adds, ReadsOn};
ghost use Rattle.directory.specs.declared.error.DirectoryError.TheVariants.{BadDirectory, BlockTwice, Device, NoMemory};
ghost use Rattle.directory.specs.declared.load.AddError.TheVariants.{Outside, Again};

use crate::gathered::{GatherError, Gathered};
use crate::parse::{entry_words, is_directory_block};
use crate::prealloc::push;
use crate::{Chain, ChainEntry, DirectoryError};
use alloctab::Reached;
use blockdisk::{Disk, Fault};
use spec_image::layout::{BLOCK_ENTRIES, follow, is_in_space};
use std::alloc::Global;
use words36::{Block, Word};

/// Why the entries of a block weren't added to those before.
#[derive(Clone, Copy)]
enum AddError {
    /// One names a block outside the free space.
    Outside,
    /// The key of one is there already.
    Again,
    /// A growth was refused.
    NoMemory,
}

/// Adds the entry that has these words.
fn push_entry<E: ChainEntry>(
    words: [Word; 3],
    size: u32,
    entries: &mut Gathered<E>,
) -> Result<(), AddError>
    requires volume { IsVolumeSize size }
    requires good { AreGood E.order E.IsEntry E.target size (map E.view entries.old) }
    ensures ok { OnOk result ((e : E.Key × E.Stored) → E.words_of e ≡ words
        → map E.view entries.new ≡ map E.view entries.old ++ e ∷ []) }
    ensures good { OnOk result (AreGood E.order E.IsEntry E.target size (map E.view entries.new)) }
    ensures outside { IsErrOf result Outside → (e : E.Key × E.Stored) → E.IsEntry e → E.words_of e ≡ words
        → InSpace size (E.target e) → ⊥ }
    ensures again { IsErrOf result Again → (e : E.Key × E.Stored) → E.words_of e ≡ words
        → find E.order e.0 (map E.view entries.old) ≡ None → ⊥ }
{
    let Ok(entry) = E::parse(words) else {
        return Err(AddError::Outside);
    };
    if !is_in_space(size, u64::from(entry.target())) {
        return Err(AddError::Outside);
    }
    match entries.push(entry) {
        Ok(()) => Ok(()),
        Err(GatherError::Again) => Err(AddError::Again),
        Err(GatherError::NoMemory) => Err(AddError::NoMemory),
    }
}

/// Adds the `count` entries of a block.
fn push_entries<E: ChainEntry>(
    block: &Block,
    count: usize,
    size: u32,
    entries: &mut Gathered<E>,
) -> Result<(), AddError>
    requires volume { IsVolumeSize size }
    requires few { count ≤ 42 }
    requires good { AreGood E.order E.IsEntry E.target size (map E.view entries.old) }
    ensures ok { OnOk result ((next : ℕ) (es : List (E.Key × E.Stored))
        → SpellsBlock E.words_of E.IsEntry block.now next es → length es ≡ count
        → map E.view entries.new ≡ map E.view entries.old ++ es) }
    ensures good { OnOk result (AreGood E.order E.IsEntry E.target size (map E.view entries.new)) }
    ensures outside { IsErrOf result Outside → (next : ℕ) (es : List (E.Key × E.Stored))
        → SpellsBlock E.words_of E.IsEntry block.now next es → length es ≡ count
        → AllByRecursion (λ e. InSpace size (E.target e)) es → ⊥ }
    ensures again { IsErrOf result Again → (next : ℕ) (es : List (E.Key × E.Stored))
        → SpellsBlock E.words_of E.IsEntry block.now next es → length es ≡ count
        → EachOnce E.order (map E.view entries.old ++ es) → ⊥ }
{
    for i in 0..count {
        push_entry(entry_words(block, i), size, entries)?;
    }
    Ok(())
}

/// Adds the entries of block `n`; returns the next block of the chain, or 0.
fn add_block<E: ChainEntry>(
    block: &Block,
    n: u32,
    size: u32,
    entries: &mut Gathered<E>,
) -> Result<u32, DirectoryError>
    requires volume { IsVolumeSize size }
    requires good { AreGood E.order E.IsEntry E.target size (map E.view entries.old) }
    ensures ok { IfOk result (λ next. Adds E.order E.words_of E.IsEntry E.target size block.now next
        (map E.view entries.old) (map E.view entries.new)) }
    ensures bad { (k : ℕ) → IsErrOf result (BadDirectory k)
        → (k ≡ n) × IsBadWords E.order E.words_of E.IsEntry E.target size block.now (map E.view entries.old) }
    ensures twice { (k : ℕ) → IsErrOf result (BlockTwice k) → ⊥ }
    ensures device { IsErrOf result Device → ⊥ }
{
    if !is_directory_block::<E>(block) {
        return Err(DirectoryError::BadDirectory(n));
    }
    let count = block[1].bits() as usize;
    let full = count == BLOCK_ENTRIES;
    let Some(next) = follow(block[0].bits(), full, size) else {
        return Err(DirectoryError::BadDirectory(n));
    };
    let is_first = entries.as_slice().is_empty();
    if count == 0 && !is_first {
        return Err(DirectoryError::BadDirectory(n));
    }
    match push_entries(block, count, size, entries) {
        Ok(()) => Ok(next),
        Err(AddError::Outside) => Err(DirectoryError::BadDirectory(n)),
        Err(AddError::Again) => Err(DirectoryError::BadDirectory(n)),
        Err(AddError::NoMemory) => Err(DirectoryError::NoMemory),
    }
}

/// Reads a block of a chain.
fn read_block<D: Disk>(disk: &mut D, n: u32) -> Result<Block, DirectoryError>
    requires { n < (D.state disk.old).size }
    ensures words { (D.state disk.new).honest → IfOk result (λ block. (D.state disk.old).contents n ≡ Some block) }
    ensures bad { (D.state disk.new).honest → (k : ℕ) → IsErrOf result (BadDirectory k)
        → (k ≡ n) × ((D.state disk.old).contents n ≡ None) }
    ensures named { (k : ℕ) → IsErrOf result (BadDirectory k) → k ≡ n }
    ensures twice { (k : ℕ) → IsErrOf result (BlockTwice k) → ⊥ }
    ensures memory { IsErrOf result NoMemory → ⊥ }
    ensures reads { (D.state disk.new).honest → OnlyReads (D.state disk.old) (D.state disk.new) }
    ensures same { SameDisk (D.state disk.old) (D.state disk.new) }
    ensures failed { IsErrOf result Device → (D.state disk.new).failures ≡ one_more (D.state disk.old).failures }
    ensures served { (IsErrOf result Device → ⊥) → (D.state disk.new).failures ≡ (D.state disk.old).failures }
{
    match disk.read(n) {
        Ok(block) => Ok(block),
        Err(Fault::Damaged) => Err(DirectoryError::BadDirectory(n)),
        Err(Fault::Device) => Err(DirectoryError::Device),
    }
}

/// Continues with block `n` of a chain: marks it, reads it, and adds it and its entries to those before. Returns
/// the next block, or 0.
fn read_on<E: ChainEntry, D: Disk>(
    disk: &mut D,
    n: u32,
    size: u32,
    reached: &mut Reached,
    blocks: &mut Vec<u32>,
    entries: &mut Gathered<E>,
) -> Result<u32, DirectoryError>
    // What the caller ensures.
    requires size { size ≡ (D.state disk.old).size }
    requires volume { IsVolumeSize size }
    requires inside { n < size }
    requires marks { length reached.old ≡ size }
    requires good { AreGood E.order E.IsEntry E.target size (map E.view entries.old) }
    requires places { HasPlaces (vec_len blocks.old) (vec_capacity blocks.old) }
    // What was read of the block, and its mark.
    ensures ok { IfOk result (λ next. ReadsOn E.order E.words_of E.IsEntry E.target size (D.state disk.new).honest
        (D.state disk.old).contents n next (map E.view entries.old) (map E.view entries.new)) }
    ensures blocks { IfOk result (λ next. blocks.new.items ≡ blocks.old.items ++ n ∷ []) }
    ensures places { HasPlaces (vec_len blocks.new) (vec_capacity blocks.new) }
    ensures fresh { IfOk result (λ next. flag_at reached.old n ≡ false) }
    ensures marked { reached.new ≡ slice_set reached.old n true }
    // When it refuses.
    ensures bad { (D.state disk.new).honest → (k : ℕ) → IsErrOf result (BadDirectory k)
        → (k ≡ n) × IsBadAt E.order E.words_of E.IsEntry E.target size (D.state disk.old).contents n
        (map E.view entries.old) }
    ensures named { (k : ℕ) → IsErrOf result (BadDirectory k) → k ≡ n }
    ensures twice { (k : ℕ) → IsErrOf result (BlockTwice k) → (k ≡ n) × (flag_at reached.old n ≡ true) }
    // The device: what failed, and how often.
    ensures reads { (D.state disk.new).honest → OnlyReads (D.state disk.old) (D.state disk.new) }
    ensures same { SameDisk (D.state disk.old) (D.state disk.new) }
    ensures failed { IsErrOf result Device → (D.state disk.new).failures ≡ one_more (D.state disk.old).failures }
    ensures served { (IsErrOf result Device → ⊥) → (D.state disk.new).failures ≡ (D.state disk.old).failures }
{
    if !reached.mark(n) {
        return Err(DirectoryError::BlockTwice(n));
    }
    let block = read_block(disk, n)?;
    match push(blocks, n) {
        Ok(()) => add_block(&block, n, size, entries),
        Err(_) => Err(DirectoryError::NoMemory),
    }
}

impl<E: ChainEntry> Chain<E> {
    ghost use Rattle.std.specs.Prelude.{◌+◌};
    ghost use Rattle.blockdisk.specs.Common.{SameDisk};
    ghost use Rattle.spec_image.specs.Common.{head_or_zero, times, Node, LeadsAlong};
    ghost use Rattle.alloctab.specs.Common.{digit_at};
    ghost use Rattle.directory.specs.Common.{IsChain, IsOn, viewed, nodes_of, IsBadChain, IsTwiceInChain, IsWholeChain};

    /// Reads the chain that begins in block `first`, and marks its blocks. A block that is marked already,
    /// by this call or before it, ends the walk before it is read: a loop ends it this way.
    ///
    /// # Errors
    ///
    /// `BadDirectory` with a block that is damaged or invalid, `BlockTwice` with a block that was marked already: a
    /// block of the free space, since a number outside is never read, and the block that names it is refused;
    /// `Device` if the device failed; `NoMemory` if there is no memory for the lists of blocks and entries. The
    /// blocks that were reached stay marked.
    pub fn load<D: Disk>(
        alloc: Global,
        disk: &mut D,
        first: u32,
        reached: &mut Reached,
    ) -> Result<Self, DirectoryError>
        // What the caller ensures.
        requires volume { IsVolumeSize (D.state disk.old).size }
        requires first { InSpace (D.state disk.old).size first }
        requires marks { length reached.old ≡ (D.state disk.old).size }
        // The chain that was read, as the disk spells it.
        ensures on { (D.state disk.new).honest
            → IfOk result (λ chain. IsOn E.words_of (D.state disk.old).contents (viewed E.view chain)) }
        ensures walk { (D.state disk.new).honest
            → IfOk result (λ chain. LeadsAlong E.words_of (D.state disk.old).contents first
            (nodes_of chain.blocks (map E.view chain.entries)) 0) }
        ensures first { IfOk result (λ chain. head_or_zero chain.blocks ≡ first) }
        ensures chain { IfOk result (λ chain. IsChain E.order E.IsEntry (viewed E.view chain)) }
        // It lies in the free space, and its blocks are marked.
        ensures inside { IfOk result (λ chain. AllByRecursion (InSpace (D.state disk.old).size) chain.blocks) }
        ensures targets { IfOk result (λ chain. AllByRecursion (λ e. InSpace (D.state disk.old).size (E.target e))
            (map E.view chain.entries)) }
        ensures marked { IfOk result (λ chain. (n : ℕ)
            → digit_at reached.new n ≡ digit_at reached.old n + times n chain.blocks) }
        ensures length { length reached.new ≡ length reached.old }
        // When it refuses.
        ensures bad { (D.state disk.new).honest → (k : ℕ) → IsErrOf result (BadDirectory k)
            → IsBadChain E.order E.words_of E.IsEntry E.target (D.state disk.old).size
            (D.state disk.old).contents first k }
        ensures twice { (D.state disk.new).honest → (k : ℕ) → IsErrOf result (BlockTwice k)
            → IsTwiceInChain E.words_of (D.state disk.old).contents reached.old first k }
        ensures whole { (D.state disk.new).honest → (nodes : List (Node (E.Key × E.Stored)))
            → IsWholeChain E.order E.words_of E.IsEntry E.target (D.state disk.old).size
            (D.state disk.old).contents reached.old first nodes
            → (k : ℕ) → IsErrOf result (BadDirectory k) → ⊥ }
        ensures once { (D.state disk.new).honest → (nodes : List (Node (E.Key × E.Stored)))
            → IsWholeChain E.order E.words_of E.IsEntry E.target (D.state disk.old).size
            (D.state disk.old).contents reached.old first nodes
            → (k : ℕ) → IsErrOf result (BlockTwice k) → ⊥ }

        // Whatever the disk returns, a block that is named lies in the free space.
        ensures named { (k : ℕ) → IsErrOf result (BadDirectory k) ⊎ IsErrOf result (BlockTwice k)
            → InSpace (D.state disk.old).size k }
        // The device: what failed, and how often.
        ensures reads { (D.state disk.new).honest → OnlyReads (D.state disk.old) (D.state disk.new) }
        ensures same { SameDisk (D.state disk.old) (D.state disk.new) }
        ensures failed { IsErrOf result Device → (D.state disk.new).failures ≡ one_more (D.state disk.old).failures }
        ensures served { (IsErrOf result Device → ⊥) → (D.state disk.new).failures ≡ (D.state disk.old).failures }
    {
        let size = disk.blocks();
        let mut blocks = Vec::new(alloc);
        let mut entries = Gathered::new(alloc);
        let mut next = first;
        while next != 0 {
            next = read_on(disk, next, size, reached, &mut blocks, &mut entries)?;
        }
        let entries = entries.finish()?;
        Ok(Chain { blocks, entries })
    }
}
