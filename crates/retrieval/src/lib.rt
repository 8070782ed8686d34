//! Versions of files on the disk: what their prime blocks say, and where their data lie. What the layer
//! promises:
//!
//! 1. On an honest disk `read_version` returns a version that is there in the layout it is read in, all of whose
//!    data blocks and extensions lie in the free space; or it names an invalid retrieval block, but never if a valid
//!    version is there. What it returns is what the contents have there. In layout 1 a prime block with a date above
//!    4095 is invalid. (`ok`, `bad`, `whole`, `reads`)
//! 2. On every disk, honest or not, it returns, and the blocks in its result lie in the free space, as many as the
//!    length requires; a block that it names is the prime block or lies there too.
//!    (`blocks_inside`, `ribs_inside`, `counted`, `few`, `named`)
//! 3. It writes nothing, and returns `Device` exactly with one more failure of the disk. (`keeps`,
//!    `failed`, `served`)
//! 4. `prime_block` spells the prime block of a version, a pointer to each of the longest runs of its data blocks.
//!    `prime_block_for` rewrites one that was read for another name, and leaves its pointers unchanged. `is_prime_of`
//!    returns whether a block is the prime block of a version in memory, except for its pointers.
//! 5. A `Prime` has a protection below 1000 (octal) and a date of fifteen bits, of which layout 1 has twelve; its words
//!    are the same in all layouts that have the date. A `Mode` is one of the six data modes of files.
//! 6. `write_version` writes no block except the prime block and the ribs that it took from the table, all
//!    different, in the free space and free before; at Ok the version is there in each layout that has its date,
//!    and it is read back if its data blocks lie in the free space. The prime block and the ribs have the longest runs
//!    of these.
//!    (`written`, `read_back`, `prime_is`, `ribs_are`, `taken`, `own`, `apart`, `modified`)
//! 7. `get_words` returns the words of a body from a block, as many as are requested and are there, or names a
//!    data block that is damaged; it never returns such a block as words.
//!    (`words`, `whole`, `few`, `damaged`)
//! 8. After `put_words` the blocks hold the body with the words put, and with zeros before them if it ended
//!    earlier; no block that another version reaches is written, and the table holds the new blocks in place of the
//!    old ones. A damaged block is refused if words of it stay, and no other is; it is never taken for words.
//!    (`body`, `length`, `counted`, `modified`, `held`, `whole`, `edge`)
//! 9. Memory is allocated for the lists of runs and of ribs and for the words that are read, and a `Version` whose
//!    growth is refused is unchanged. `take_retrieval_blocks` and `write_retrieval_blocks` do what `write_version`
//!    does, in a list that was allocated before, with `rib_count` places or more.
//! 10. A `Version` shows a list of blocks and stores the longest runs of it (`AreKept`), so that a body in one run
//!    takes as little memory as one of a block. It also stores the end of each run in the list, so that a block is
//!    found by binary search.
//!    `run_at` returns a run that the next block of the list does not continue. (`longest`)
#![tactic(auto)]

mod block_list;
mod body;
mod build;
mod error;
mod head;
mod mode;
mod parse;
mod place;
mod pointers;
mod prime;
mod put;
mod read;
mod run;
mod run_parts;
mod runs;
mod space;
mod unchanged;
mod version;
mod write;

pub use body::get_words;
pub use build::{prime_block, prime_block_for};
pub use error::{BodyError, RetrievalError};
pub use head::{ExtensionHead, PrimeHead};
pub use mode::Mode;
pub use parse::{is_prime_of, parse_extension, parse_prime};
pub use prime::Prime;
pub use put::put_words;
pub use read::read_version;
pub use run::Run;
pub use version::Version;
pub use write::{rib_count, take_retrieval_blocks, write_retrieval_blocks, write_version};
