//! A disk over a file. What the layer guarantees:
//!
//! 1. Block n of the disk is the 1024 bytes from place 1024 * n, eight to a word, the most significant first; it is
//!    damaged exactly if one of its words has top bits set. In form 2 it is the 576 bytes from place 576 * n, nine to
//!    two words, and never damaged by them. (`damage_is_by_the_format`, `packed_bytes_are_words`)
//! 2. `ImageDisk` over any `Durable` is a `Disk`: its contents, open blocks, clock, crashes and count of failures are
//!    those that the file's bytes spell, and it is honest while the file is.
//! 3. A file is refused exactly if its length is not a multiple of a block's, if it has 2^32 blocks or more, or if it
//!    fails; nothing is written, and the file is handed back. (`block_count`, `new`) The disk of an open file holds
//!    what that file began with. (`open_file`, `BeganAs`) A disk can also be made of the whole blocks of a file of any
//!    length below 2^32 blocks; the number of bytes after them is returned. (`of_start`, `open_start`, `BeganCut`)
//! 4. A disk reads bytes ahead, if it has memory for them (`with_room`). What is in a buffer is what the file holds
//!    (`held`). If bytes that nobody needs can't be read, that is no failure (`prefetch`): `Device` is answered to a
//!    read of a block only if the file refused that block's own bytes. (`refused`)
//! 5. `MemFile` is a `Durable` without any assumption, and each of its calls leaves exactly what is stated.
//! 6. `HostFile` is a `Durable` over any system's calls, and honest while they are: an answer may end that, and none
//!    brings it back. What a call answered is right if the file is honest after it, so nobody has to know future
//!    answers. (`FileCalls`, `Durable`)
//! 7. A real file is the record of its calls: each call adds itself with its answer, and nothing else, on every file
//!    and without any assumption. (`noted`, `asked`) What goes on record is the call that the standard library got,
//!    as far as its traits state what a call does, and for a sync always. (`made`) One line of the code is trusted:
//!    that the impl of `SyncData` for a real file syncs it.
//! 8. It is honest while that record could be that of a file that keeps to the model and began as is supposed.
//!    (`SeekingFile`) No contract states which beginning that is: what is proved of a function that is given a file
//!    is proved for each. (`AssumedImage`) A file that answers by the model has an honest record, however it began.
//!    (`answers_by_the_model_are_honest`, `a_file_by_the_model_is_honest`)
//! 9. `Device` is answered exactly with one more failure, on every file. (`failed`, `served`) Its cause is a call
//!    that failed, moved no bytes or found another length, and the first reason is stored. (`because`)
//! 10. A file that has the number of a standard stream is distinguished from one that hasn't. (`apart`)
#![tactic(auto)]

mod assumed_image;
mod buffer;
mod buffered;
mod call_record;
mod calls;
mod codec;
mod durable;
mod form;
mod host;
mod image;
mod memory;
mod memory_calls;
mod packed;
mod seeking_file;
mod size;
mod streams;
mod system;

pub use assumed_image::AssumedImage;
pub use calls::FileCalls;
pub use durable::Durable;
pub use form::Form;
pub use host::HostFile;
pub use image::{ImageDisk, damage_is_by_the_format, packed_bytes_are_words};
pub use memory::MemFile;
pub use packed::PackedDisk;
pub use seeking_file::{
    SeekingFile, a_file_by_the_model_is_honest, answers_by_the_model_are_honest,
};
pub use size::{ImageError, block_count, whole_blocks};
pub use streams::apart;
pub use system::{HostCalls, SyncData, SystemCalls};
