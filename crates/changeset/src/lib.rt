//! Changes of several blocks, all or none: the one place where crash safety is made.
//!
//! It takes no memory. What it promises on each honest disk whose gate is closed when a commit begins:
//!
//! 1. A crash at any moment of a commit leaves contents that settle, except for gate and log, to some that a
//!    crash could leave before it, or to those read before it with all puts. (`commit`, `crash`)
//! 2. If a commit returns `Ok` they are the latter, the gate is closed and no block is open.
//!    (`all`, `settled`, `gate`, `shut`)
//! 3. At each moment a commit has written no other block than gate, log and targets; a commit of no
//!    puts has only synced. If a sync failed, blocks that were open before may be anything, too.
//!    (`modified`, `near`, `nothing`, `unwritten`)
//! 4. A crash at any moment of a recovery leaves what settles like something that a crash could leave before
//!    it, and after its first sync like what was read before it. (`recover`, `crash`, `synced`)
//! 5. If a recovery returns `Ok` the contents are those that settled before it, the gate is closed (with
//!    zeros if it was open, and otherwise unchanged) and no block is open. (`recovered`, `settled`)
//! 6. A recovery writes only if the gate is open and the log good, and then only after its first sync; it
//!    returns `BadLog` only if nothing settles, and then never `Ok`. (`unmodified`, `unwritten`, `synced`,
//!    `bad`, `recovered`)
//!
//! And on every disk, honest or not:
//!
//! 7. `Device` comes exactly with one more failure of the disk, `TooMany` of a commit exactly if its
//!    log has too little room, and then nothing was done. (`failed`, `served`, `many`, `unchanged`)
//!
//! The order of a commit, and what each sync is for:
//!
//! ```text
//! images and header   write_log      only the log is modified: nobody reads it while the gate is closed
//!        | sync                      the whole log is on the disk before the gate can be open
//! gate opened         open_gate      one write: open with the whole log, or closed
//!        | sync                      the puts are made after this, and the places may be spoiled
//! places              write_places   an open gate makes up for what a crash spoils
//!        | sync                      all puts are on the disk before the log is abandoned
//! gate closed         close_gate     open or closed, the contents settle to the same
//!        | sync                      no block is open
//! ```
//!
//! The last two steps are `redo`. Recovery does only this, after a sync, if the gate is open and the log
//! good. The layers above state what they keep in the terms of `specs/Rest.antt`, and never mention gate
//! or log.
#![tactic(auto)]

mod change_set;
mod error;
mod gate;
mod log;
mod order;
mod recovery;

pub use change_set::{ChangeSet, MAX_PUTS};
pub use error::LogError;
pub use order::commit;
pub use recovery::{find_pending, recover};
