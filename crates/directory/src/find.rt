//! The search for a key.
ghost use Rattle.std.specs.Prelude.{◌≡◌, ◌*◌, ◌↔◌, IfSome, IfNone, IsTrue, None, length, map};
ghost use Rattle.std.specs.FinMap.Entries.{find};
ghost use Rattle.directory.specs.Common.{IsChain, viewed, StandsAt};

use crate::{Chain, ChainEntry};
use spec_image::layout::BLOCK_ENTRIES;

impl<E: ChainEntry> Chain<E> {
    /// Returns the place of the entry with this key, counted from 0 in the order of the disk, or `None` if there is
    /// no such entry.
    pub fn find(&self, key: &E::Key) -> Option<usize>
        ensures found { IfSome result (λ i. (v : E.Stored)
            × StandsAt E.order (map E.view self.now.entries) key.now v i) }
        ensures none { IfNone result (find E.order key.now (map E.view self.now.entries) ≡ None) }
        ensures sound { IsChain E.order E.IsEntry (viewed E.view self.now) }
    {
        self.entries.find(key)
    }

    /// Returns whether the last block is full, so that an entry with a new key takes one more block.
    pub fn needs_block(&self) -> bool
        ensures { IsTrue result ↔ (length self.now.entries ≡ 42 * length self.now.blocks) }
    {
        let count = self.entries.len();
        count != 0 && count % BLOCK_ENTRIES == 0
    }
}
