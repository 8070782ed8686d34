//! Edits of a directory: insertion, renaming and removal.
ghost use Rattle.std.specs.Prelude.{◌≡◌, ◌+◌, ◌*◌, ◌/◌, ◌-◌, ◌<◌, ◌≤◌, ◌⊎◌, ◌++◌, ◌∷◌, [], ℕ, suc, length, map, take};
ghost use Rattle.std.specs.Prelude.{drop, get_or, slice_set, option_to_list, Some, None, IsTrue, IsFalse, IsOk, IsSome};
ghost use Rattle.std.specs.Prelude.{IfErr, OnOk, OnErr};
ghost use Rattle.std.specs.FinMap.Entries.{find};
ghost use Rattle.changeset.specs.Common.{most_puts, replaced};
ghost use Rattle.spec_image.specs.Common.{directory_cost, times, from_entries, insert, remove};
ghost use Rattle.std.specs.Vec.{vec_len, vec_capacity};
ghost use Rattle.directory.specs.Common.{IsChain, viewed, HasPlaces, TakesBlock, PutsChain, inserted, renamed, removed};
ghost use Rattle.directory.specs.Common.{last_first, block_put};
ghost use Rattle.directory.specs.declared.error.DirectoryError.TheVariants.{NoMemory};

use crate::image::block_image;
use crate::{Chain, ChainEntry, DirectoryError};
use changeset::ChangeSet;
use spec_image::layout::BLOCK_ENTRIES;

impl<E: ChainEntry> Chain<E> {
    /// Gives a key its entry: in place of the one that has the key, or else after the last entry. If the last
    /// block is full then (`needs_block`), the entry goes into the block `fresh`, which becomes the last block of
    /// the chain; in all other cases `fresh` isn't used.
    ///
    /// # Errors
    ///
    /// `NoMemory` if there is no memory for a new key; nothing changes then.
    pub fn insert(
        &mut self,
        entry: E,
        fresh: Option<u32>,
        set: &mut ChangeSet,
    ) -> Result<(), DirectoryError>
        requires fresh { TakesBlock E.order (viewed E.view self.old) (E.view entry).0 → (n : ℕ) × (fresh ≡ Some n)
            × (times n self.old.blocks ≡ 0) }
        requires room { length set.old + 2 ≤ most_puts }

        ensures items { OnOk result (map E.view self.new.entries
            ≡ inserted E.order (map E.view self.old.entries) (E.view entry)) }
        ensures kept { (TakesBlock E.order (viewed E.view self.old) (E.view entry).0 → ⊥)
            → self.new.blocks ≡ self.old.blocks }
        ensures grown { (n : ℕ) → OnOk result (TakesBlock E.order (viewed E.view self.old) (E.view entry).0
            → fresh ≡ Some n → self.new.blocks ≡ self.old.blocks ++ n ∷ []) }
        ensures map { OnOk result (from_entries {R = E.order} (map E.view self.new.entries)
            ≡ insert (from_entries (map E.view self.old.entries)) (E.view entry).0 (E.view entry).1) }

        ensures put { PutsChain E.words_of (viewed E.view self.old) (viewed E.view self.new) set.old set.new }
        ensures few { length set.new ≤ length set.old + 2 }

        ensures there { IsSome (find E.order (E.view entry).0 (map E.view self.old.entries)) → IsOk result }
        ensures err { IfErr result (λ error. error ≡ NoMemory) }
        ensures same { OnErr result (self.new ≡ self.old) }
        ensures unput { OnErr result (set.new ≡ set.old) }
    {
        let reserve = self.preallocate_for(*self.blocks.allocator(), &entry)?;
        self.insert_into(reserve, entry, fresh, set);
        Ok(())
    }

    /// Puts an entry in place of the one with this key. It has the same key, or one that isn't there.
    pub fn rename(&mut self, key: &E::Key, entry: E, set: &mut ChangeSet)
        requires there { IsSome (find E.order key.now (map E.view self.old.entries)) }
        requires free { (key.now ≡ (E.view entry).0)
            ⊎ (find E.order (E.view entry).0 (map E.view self.old.entries) ≡ None) }
        requires room { length set.old < most_puts }

        ensures items { map E.view self.new.entries
            ≡ renamed E.order (map E.view self.old.entries) key.now (E.view entry) }
        ensures blocks { self.new.blocks ≡ self.old.blocks }
        ensures map { from_entries {R = E.order} (map E.view self.new.entries)
            ≡ insert (remove (from_entries (map E.view self.old.entries)) key.now) (E.view entry).0 (E.view entry).1 }

        ensures put { PutsChain E.words_of (viewed E.view self.old) (viewed E.view self.new) set.old set.new }
        ensures few { length set.new ≤ length set.old + 1 }
    {
        match self.find(key) {
            Some(i) => self.replace(i, entry, set),
            None => unreachable!(), // the key is there
        }
    }

    /// Takes out the entry with this key; the last entry moves into its place. A last block that becomes empty
    /// leaves the chain, unless it is the only one, and is returned.
    pub fn remove(&mut self, key: &E::Key, set: &mut ChangeSet) -> Option<u32>
        requires there { IsSome (find E.order key.now (map E.view self.old.entries)) }
        requires room { length set.old + 2 ≤ most_puts }

        ensures items { map E.view self.new.entries ≡ removed E.order (map E.view self.old.entries) key.now }
        ensures blocks { self.old.blocks ≡ self.new.blocks ++ option_to_list result }
        ensures map { from_entries {R = E.order} (map E.view self.new.entries)
            ≡ remove (from_entries (map E.view self.old.entries)) key.now }

        ensures put { PutsChain E.words_of (viewed E.view self.old) (viewed E.view self.new) set.old set.new }
        ensures few { length set.new ≤ length set.old + 2 }
    {
        match self.find(key) {
            Some(i) => self.take_out(i, set),
            None => unreachable!(), // the key is there
        }
    }

    /// Takes out the entry at a place.
    fn take_out(&mut self, i: usize, set: &mut ChangeSet) -> Option<u32>
        requires within { i < length self.old.entries }
        requires room { length set.old + 2 ≤ most_puts }
        ensures entries { self.new.entries ≡ take i self.old.entries ++ last_first (drop (suc i) self.old.entries) }
        ensures blocks { self.old.blocks ≡ self.new.blocks ++ option_to_list result }
        ensures put { PutsChain E.words_of (viewed E.view self.old) (viewed E.view self.new) set.old set.new }
        ensures few { length set.new ≤ length set.old + 2 }
    {
        self.entries.swap_remove(i);
        let freed = pop_empty(&mut self.blocks, self.entries.len());
        put_hole(
            &self.blocks,
            self.entries.as_slice(),
            i / BLOCK_ENTRIES,
            set,
        );
        freed
    }

    /// Puts an entry whose key is nowhere else in place of another.
    pub(crate) fn replace(&mut self, i: usize, entry: E, set: &mut ChangeSet)
        requires within { i < length self.old.entries }
        requires alone { find E.order (E.view entry).0 (take i (map E.view self.old.entries)
            ++ drop (suc i) (map E.view self.old.entries)) ≡ None }
        requires room { length set.old < most_puts }
        ensures done { self.new ≡ record self.old { entries = slice_set self.old.entries i entry } }
        ensures put { PutsChain E.words_of (viewed E.view self.old) (viewed E.view self.new) set.old set.new }
        ensures few { length set.new ≤ length set.old + 1 }
        ensures sound { IsChain E.order E.IsEntry (viewed E.view self.old) }
    {
        let _words = entry.words(); // an entry that has words is valid
        self.entries.set(i, entry);
        let k = i / BLOCK_ENTRIES;
        put_block(&self.blocks, self.entries.as_slice(), k, set);
    }
}

/// Takes out the last block if `count` entries leave it empty, unless it is the only one.
fn pop_empty(blocks: &mut Vec<u32>, count: usize) -> Option<u32>
    requires counted { length blocks.old.items ≡ directory_cost (count + 1) }
    requires places { HasPlaces (vec_len blocks.old) (vec_capacity blocks.old) }
    ensures blocks { blocks.old.items ≡ blocks.new.items ++ option_to_list result }
    ensures counted { length blocks.new.items ≡ directory_cost count }
    ensures places { HasPlaces (vec_len blocks.new) (vec_capacity blocks.new) }
{
    if count == 0 || count % BLOCK_ENTRIES != 0 {
        return None;
    }
    blocks.pop()
}

/// Puts block `k` of a chain, if there still is one, and the last block.
fn put_hole<E: ChainEntry>(blocks: &[u32], entries: &[E], k: usize, set: &mut ChangeSet)
    requires counted { length blocks.now ≡ directory_cost (length entries.now) }
    requires room { length set.old + 2 ≤ most_puts }
    ensures one { length blocks.now - 1 ≤ k
        → set.new ≡ replaced (block_put E.words_of (record { blocks = blocks.now; entries = map E.view entries.now })
        (length blocks.now - 1)) set.old }
    ensures both { k < length blocks.now - 1
        → set.new ≡ replaced (block_put E.words_of (record { blocks = blocks.now; entries = map E.view entries.now })
        (length blocks.now - 1)) (replaced
        (block_put E.words_of (record { blocks = blocks.now; entries = map E.view entries.now }) k) set.old) }
    ensures few { length set.new ≤ length set.old + 2 }
{
    let last = blocks.len() - 1;
    if k < last {
        put_block(blocks, entries, k, set);
    }
    put_block(blocks, entries, last, set);
}

/// Puts the last block of a chain, and before it the block that now names it, if it is new.
pub(crate) fn put_end<E: ChainEntry>(
    blocks: &[u32],
    entries: &[E],
    is_new: bool,
    set: &mut ChangeSet,
)
    requires begun { 42 * length blocks.now ≤ length entries.now + 42 }
    requires some { 0 < length blocks.now }
    requires two { IsTrue is_new → 1 < length blocks.now }
    requires room { length set.old + 2 ≤ most_puts }
    ensures one { IsFalse is_new → set.new
        ≡ replaced (block_put E.words_of (record { blocks = blocks.now; entries = map E.view entries.now })
        (length blocks.now - 1)) set.old }
    ensures both { IsTrue is_new → set.new
        ≡ replaced (block_put E.words_of (record { blocks = blocks.now; entries = map E.view entries.now })
        (length blocks.now - 1)) (replaced
        (block_put E.words_of (record { blocks = blocks.now; entries = map E.view entries.now })
        (length blocks.now - 2)) set.old) }
    ensures few { length set.new ≤ length set.old + 2 }
{
    let last = blocks.len() - 1;
    if is_new {
        put_block(blocks, entries, last - 1, set);
    }
    put_block(blocks, entries, last, set);
}

/// Returns the block after block `k` of a chain, or 0.
fn block_after(blocks: &[u32], k: usize) -> u32
    requires { k < length blocks.now }
    ensures { result ≡ get_or blocks.now (suc k) 0 }
{
    blocks.get(k + 1).copied().unwrap_or(0)
}

/// Puts block `k` of the chain with these blocks and entries.
fn put_block<E: ChainEntry>(blocks: &[u32], entries: &[E], k: usize, set: &mut ChangeSet)
    requires within { k < length blocks.now }
    requires begun { 42 * k ≤ length entries.now }
    requires room { length set.old < most_puts }
    ensures set { set.new
        ≡ replaced (block_put E.words_of (record { blocks = blocks.now; entries = map E.view entries.now }) k) set.old }
    ensures few { length set.new ≤ length set.old + 1 }
{
    let rest = &entries[BLOCK_ENTRIES * k..];
    let count = rest.len().min(BLOCK_ENTRIES);
    let words = block_image(&rest[..count], block_after(blocks, k));
    match set.put(blocks[k], &words) {
        Ok(()) => {}
        Err(_) => unreachable!(), // there is room for one more
    }
}
