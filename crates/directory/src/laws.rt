//! What holds for each chain in memory.
ghost use Rattle.std.specs.Prelude.{map};
ghost use Rattle.blockdisk.specs.Common.{Contents};
ghost use Rattle.spec_image.specs.Common.{AgreeOn, IsDirectory, from_entries, IsChainRead};
ghost use Rattle.directory.specs.Common.{IsOn, nodes_of, viewed};

use crate::{Chain, ChainEntry};

/// Proves that a chain in memory, if the contents of a disk spell it, is a directory there with the map of its
/// entries, is as a reader finds it, and stays as long as its blocks do.
pub fn chain_stands<E: ChainEntry>(chain: &Chain<E>)
    ensures stands { (contents : Contents) → IsOn E.words_of contents (viewed E.view chain.now)
        → IsDirectory E.order E.words_of E.IsEntry contents chain.now.blocks
        (from_entries (map E.view chain.now.entries)) }
    ensures read { (contents : Contents) → IsOn E.words_of contents (viewed E.view chain.now)
        → IsChainRead E.order E.words_of E.IsEntry contents (nodes_of chain.now.blocks (map E.view chain.now.entries)) }
    ensures kept { (old new : Contents) → IsOn E.words_of old (viewed E.view chain.now)
        → AgreeOn chain.now.blocks old new → IsOn E.words_of new (viewed E.view chain.now) }
{
    let _blocks = chain.blocks();
}
