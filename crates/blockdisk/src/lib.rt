//! The disk as the file service sees it: blocks of 128 words, and what a crash may leave of them.
//!
//! What each `Disk` promises while it is honest, that is, while it has kept to this so far:
//!
//! 1. A read returns the words that the block holds, or `Damaged` if it holds none, and changes nothing. (`words`,
//!    `damaged`, `keeps`)
//! 2. A write puts its words into its block alone. The block is open then: until a sync succeeds, a crash may leave
//!    anything in it. (`put`, `writes`)
//! 3. After a sync that succeeds no block is open. One that fails may do to the open blocks what a crash may. (`syncs`,
//!    `fails`)
//! 4. What a crash may leave is stated by moments: `left_since` is what a crash could leave at any moment since an
//!    earlier one, and each write or sync that succeeds is followed by a new moment. (`moves`, `counts_now`,
//!    `only_now`, `reaches_back`)
//! 5. `read_run`, `write_run` and `verify` promise of neighbouring blocks what reads and writes one by one do.
//!    (`AreFilled`, `HoldRun`, `AreVerified`)
//!
//! And each disk, honest or not:
//!
//! 6. `Device` comes exactly with one more failure of the disk, and the number of blocks never changes. (`failed`,
//!    `served`, `same`)
//!
//! Two disks, and two functions over any disk:
//!
//! 7. `MemDisk` is a disk in memory, and always honest. Its record of writes and syncs determines what a crash may
//!    leave, and its `crash` leaves what is picked of that. (`allowed`, `left`)
//! 8. `FuseDisk` passes its calls to another disk until its fuse has blown. Then the next call or each one answers
//!    `Device`; a write that fails is done all the same. (`blown`, `passed`)
//! 9. `write_through` is a write and a sync. `write_copies` writes two copies so that after a crash at any moment the
//!    second is as it was or the first is new. (`leaves`)
//!
//! Proofs in the crates above use the laws in `specs/Laws.antt`, and never unfold a clock.
#![tactic(auto)]

mod copies;
mod disk;
mod fault;
mod fuse;
mod memory;
mod pick;

pub use copies::{write_copies, write_through};
pub use disk::Disk;
pub use fault::{Fault, NoMemory};
pub use fuse::{Fail, FuseDisk};
pub use memory::{DiskCall, MemDisk};
pub use pick::Pick;
