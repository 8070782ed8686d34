//! Directories as chains of blocks: the master directory, whose entries are directories, and the
//! directories, whose entries are files. What the layer promises:
//!
//! 1. An `Entry` has three words on the disk. `parse` returns the entry with those words, or reports that no
//!    valid entry has them, or that such an entry names a block past any disk.
//! 2. A `Chain` has as many blocks as its entries cost, no block twice, no key twice, and only valid entries.
//! 3. `block_image` spells a block of a chain.
//! 4. A chain that the contents of a disk spell is a directory there, with the map of its entries, and
//!    stays one as long as its blocks stay. (`chain_stands`)
//! 5. On an honest disk `Chain::load` returns a chain that is there, all in the free space, as is what
//!    its entries name; or it names a block that has a fault or is reached twice, but never if a whole
//!    chain is there. It marks the blocks, writes nothing and ends on every disk, names no block outside
//!    the free space, and returns `Device` exactly with one more failure of the disk. (`on`, `walk`, `bad`,
//!    `twice`, `named`, `whole`, `once`, `failed`)
//! 6. `find` returns the place of a key, or none exactly if there is none. (`found`, `none`)
//! 7. `insert`, `rename` and `remove` make that edit of the map, and no other. (`map`) With their puts a
//!    disk that spelled the chain before spells the one after, and all other blocks are unchanged;
//!    there are at most two more puts. (`put`, `few`)
//! 8. A chain grows by the block that is passed to `insert`, if the last block is full when a new key comes, and
//!    gives back the one that `remove` returns. (`grown`, `kept`, `blocks`)
//! 9. `list_sorted` returns the entries in ascending key order.
//! 10. Of the calls on a chain `bare`, `load`, `insert`, `preallocate_for` and `list_sorted` alone take memory; if
//!    `insert` is refused it, chain and change set are unchanged. (`same`, `unput`)
//! 11. `insert_into` makes the edit of `insert` in memory that `preallocate_for` allocated before, and can't fail.
//!
//! A key is found by the places of the entries in the order of their keys, which are stored with the entries, and a
//! list is copied only when it is full.
#![tactic(auto)]

mod chain;
mod chain_prealloc;
mod edit;
mod entries;
mod entry;
mod error;
mod file;
mod find;
mod gathered;
mod image;
mod keys;
mod laws;
mod list;
mod load;
mod master;
mod order;
mod parse;
mod prealloc;

pub use chain::Chain;
pub use chain_prealloc::ChainPrealloc;
pub use entry::{ChainEntry, EntryFault};
pub use error::DirectoryError;
pub use file::FileEntry;
pub use keys::Keys;
pub use laws::chain_stands;
pub use master::MasterEntry;
pub use parse::is_directory_block;
pub use prealloc::Prealloc;
