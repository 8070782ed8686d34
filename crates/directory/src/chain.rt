//! Directories in memory.
ghost use Rattle.std.specs.Prelude.{◌≡◌, ◌∷◌, [], length, IfOk};

use crate::ChainEntry;
use crate::entries::Entries;
use blockdisk::NoMemory;
use std::alloc::Global;
use std::marker::Model;

/// A directory in memory: the blocks of its chain in order, and its entries in the order of the disk. All
/// blocks except the last hold 42 entries.
#[derive(Drop)]
pub struct Chain<E: ChainEntry> {
    pub(crate) blocks: Vec<u32>,
    pub(crate) entries: Entries<E>,
}

impl<E: ChainEntry> Model for Chain<E> {
    ghost use Rattle.std.specs.Vec.{vec_len, vec_capacity};
    ghost use Rattle.directory.specs.Common.{ChainState, IsChain, viewed, chain_code};
    ghost use Rattle.directory.specs.Common.{HasPlaces};

    ghost Value = { ChainState E };

    ghost coded = { chain_code E.code };

    ghost view = { λ c. record { blocks = c.blocks.items; entries = c.entries } };

    ghost invariant = { λ c. IsChain E.order E.IsEntry
        (viewed E.view (record { blocks = c.blocks.items; entries = c.entries }))
        × HasPlaces (vec_len c.blocks) (vec_capacity c.blocks) };
}

impl<E: ChainEntry> Chain<E> {
    ghost use Rattle.directory.specs.Common.{IsChain, viewed};

    /// Returns a chain of one block with no entries.
    ///
    /// # Errors
    ///
    /// `NoMemory` if there is no memory for the list of blocks.
    pub fn bare(alloc: Global, block: u32) -> Result<Self, NoMemory>
        ensures { IfOk result (λ chain. chain ≡ record { blocks = block ∷ []; entries = [] }) }
    {
        Ok(Chain {
            blocks: vec![in alloc; block; 1]?,
            entries: Entries::new(alloc),
        })
    }

    /// Returns the numbers of the blocks, in order.
    pub fn blocks(&self) -> &[u32]
        ensures value { result.now ≡ self.now.blocks }
        ensures sound { IsChain E.order E.IsEntry (viewed E.view self.now) }
    {
        self.blocks.as_slice()
    }

    /// Returns the entries, in the order of the disk.
    pub fn entries(&self) -> &[E]
        ensures value { result.now ≡ self.now.entries }
        ensures sound { IsChain E.order E.IsEntry (viewed E.view self.now) }
    {
        self.entries.as_slice()
    }

    /// Returns how many entries there are.
    pub fn len(&self) -> usize
        ensures { result ≡ length self.now.entries }
    {
        self.entries.len()
    }
}
