//! Insertion in memory that is allocated before.
ghost use Rattle.std.specs.Prelude.{◌≡◌, ◌+◌, ◌*◌, ◌-◌, ◌<◌, ◌≤◌, ◌++◌, ◌∷◌, [], ℕ, length, map, option_to_list};
ghost use Rattle.std.specs.Prelude.{MatchOption, Some, None, IfSome, IsSome, IfOk, IsOk, IfErr};
ghost use Rattle.std.specs.FinMap.Entries.{find};
ghost use Rattle.changeset.specs.Common.{most_puts};
ghost use Rattle.spec_image.specs.Common.{times, from_entries, insert};
ghost use Rattle.directory.specs.Common.{viewed, TakesBlock, IsReserve, PutsChain, inserted, HasPlaces, IsSpareFor};
ghost use Rattle.std.specs.Vec.{vec_len, vec_capacity};
ghost use Rattle.directory.specs.declared.error.DirectoryError.TheVariants.{NoMemory};

use crate::edit::put_end;
use crate::prealloc::{Prealloc, preallocate, push_into};
use crate::{Chain, ChainEntry, DirectoryError};
use changeset::ChangeSet;
use std::alloc::Global;
use std::marker::Model;

/// Memory for one more entry of a chain, allocated before its block is known: for the list of entries if its key is
/// new, and for that of blocks if it takes one. If a list certainly has a place left, there is none.
#[derive(Drop)]
pub struct ChainPrealloc<E: ChainEntry> {
    blocks: Prealloc<u32>,
    entries: Prealloc<E>,
    order: Prealloc<usize>,
}

impl<E: ChainEntry> Model for ChainPrealloc<E> {
    ghost use Rattle.directory.specs.Common.{Places};

    ghost Value = { Places };

    ghost view = { λ r. record { blocks = r.blocks; entries = r.entries; order = r.order } };
}

/// Adds a block, if one is given, in memory allocated before.
fn push_block(blocks: &mut Vec<u32>, spare: Prealloc<u32>, block: Option<u32>)
    requires places { HasPlaces (vec_len blocks.old) (vec_capacity blocks.old) }
    requires spare { IfSome block (λ n. IsSpareFor (vec_len blocks.old) spare) }
    ensures blocks { blocks.new.items ≡ blocks.old.items ++ option_to_list block }
    ensures places { HasPlaces (vec_len blocks.new) (vec_capacity blocks.new) }
{
    if let Some(n) = block {
        push_into(blocks, spare, n);
    }
}

impl<E: ChainEntry> Chain<E> {
    /// Allocates the memory that `insert_into` takes for an entry with the key of this one. If the chain has an
    /// entry with it, it needs no memory.
    ///
    /// # Errors
    ///
    /// `NoMemory` if there is not enough.
    pub fn preallocate_for(
        &self,
        alloc: Global,
        entry: &E,
    ) -> Result<ChainPrealloc<E>, DirectoryError>
        ensures reserve { IfOk result (λ reserve. IsReserve E.order (viewed E.view self.now) (E.view entry.now).0
            reserve) }
        ensures there { IsSome (find E.order (E.view entry.now).0 (map E.view self.now.entries)) → IsOk result }
        ensures err { IfErr result (λ error. error ≡ NoMemory) }
    {
        if self.find(&entry.key()).is_some() {
            return Ok(ChainPrealloc {
                blocks: Prealloc::none(alloc),
                entries: Prealloc::none(alloc),
                order: Prealloc::none(alloc),
            });
        }
        let entries = self.entries.preallocate(alloc)?;
        let order = self.entries.preallocate_place(alloc)?;
        let blocks = self.preallocate_block(alloc)?;
        Ok(ChainPrealloc {
            blocks,
            entries,
            order,
        })
    }

    /// Allocates the memory for one more block, if the last one is full.
    fn preallocate_block(&self, alloc: Global) -> Result<Prealloc<u32>, DirectoryError>
        ensures spare { IfOk result (λ spare. length self.now.entries ≡ 42 * length self.now.blocks
            → IsSpareFor (length self.now.blocks) spare) }
        ensures err { IfErr result (λ error. error ≡ NoMemory) }
    {
        if !self.needs_block() {
            return Ok(Prealloc::none(alloc));
        }
        Ok(preallocate(alloc, self.blocks.len())?)
    }

    /// Gives a key its entry as `insert` does, in memory that `preallocate_for` allocated for this key: it can't fail.
    pub fn insert_into(
        &mut self,
        reserve: ChainPrealloc<E>,
        entry: E,
        fresh: Option<u32>,
        set: &mut ChangeSet,
    )
        requires reserve { IsReserve E.order (viewed E.view self.old) (E.view entry).0 reserve }
        requires fresh { TakesBlock E.order (viewed E.view self.old) (E.view entry).0 → (n : ℕ) × (fresh ≡ Some n)
            × (times n self.old.blocks ≡ 0) }
        requires puts { length set.old + 2 ≤ most_puts }

        ensures items { map E.view self.new.entries ≡ inserted E.order (map E.view self.old.entries) (E.view entry) }
        ensures kept { (TakesBlock E.order (viewed E.view self.old) (E.view entry).0 → ⊥)
            → self.new.blocks ≡ self.old.blocks }
        ensures grown { (n : ℕ) → TakesBlock E.order (viewed E.view self.old) (E.view entry).0 → fresh ≡ Some n
            → self.new.blocks ≡ self.old.blocks ++ n ∷ [] }
        ensures map { from_entries {R = E.order} (map E.view self.new.entries)
            ≡ insert (from_entries (map E.view self.old.entries)) (E.view entry).0 (E.view entry).1 }

        ensures put { PutsChain E.words_of (viewed E.view self.old) (viewed E.view self.new) set.old set.new }
        ensures few { length set.new ≤ length set.old + 2 }
    {
        if let Some(i) = self.find(&entry.key()) {
            self.replace(i, entry, set);
            return;
        }
        let block = if self.needs_block() { fresh } else { None };
        self.append_into(reserve, entry, block, set)
    }

    /// Adds an entry with a new key in memory allocated before, in a new last block if one is given.
    fn append_into(
        &mut self,
        reserve: ChainPrealloc<E>,
        entry: E,
        block: Option<u32>,
        set: &mut ChangeSet,
    )
        requires absent { find E.order (E.view entry).0 (map E.view self.old.entries) ≡ None }
        requires reserve { IsReserve E.order (viewed E.view self.old) (E.view entry).0 reserve }
        requires block { MatchOption block (length self.old.entries ≡ 42 * length self.old.blocks
            → ⊥) (λ n. (length self.old.entries ≡ 42 * length self.old.blocks) × (times n self.old.blocks ≡ 0)) }
        requires puts { length set.old + 2 ≤ most_puts }
        ensures entries { map E.view self.new.entries ≡ map E.view self.old.entries ++ E.view entry ∷ [] }
        ensures blocks { self.new.blocks ≡ self.old.blocks ++ option_to_list block }
        ensures put { PutsChain E.words_of (viewed E.view self.old) (viewed E.view self.new) set.old set.new }
        ensures few { length set.new ≤ length set.old + 2 }
    {
        let _words = entry.words(); // an entry that has words is valid
        let ChainPrealloc {
            blocks,
            entries,
            order,
        } = reserve;
        push_block(&mut self.blocks, blocks, block);
        self.entries.push_into(entries, order, entry);
        put_end(&self.blocks, self.entries.as_slice(), block.is_some(), set);
    }
}
