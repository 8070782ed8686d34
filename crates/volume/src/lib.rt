//! A volume: directories and files on a disk of blocks. What the layer promises:
//!
//! 1. `Volume::init` makes a volume with no directory on every disk of 64 to 131072 blocks, in layout 1, and
//!    `init_layout` in the layout that is given: at Ok no block is open, and whatever a crash leaves after that stands
//!    for no files, in that layout. It writes the fixed regions except the log's images, and the first block of the
//!    master directory. (`stands`, `settled`, `bare`, `modified`, `near`)
//! 2. `Volume::open` recovers the disk first and then reads every block that it reaches, each once. If it returns Ok on
//!    an honest disk, the disk stood for some files, nothing but the recovery was done to it, the contents have the map
//!    that is in memory, the files are those that the disk stood for before, the gate is closed and no block is open.
//!    (`recovered`, `stood`, `files`, `settled`)
//! 3. Each refusal of `open` names a fault that the disk has when it is handed back; except for a fault of the device
//!    that disk was recovered, or nothing was written. Whatever the disk answers, a block that is named lies in the
//!    free space or is one of the table. (`refused`, `kept`, `named`)
//! 4. A crash at any moment of `open` leaves what stands for whatever some contents stood for that a crash could leave
//!    before it, and after its first sync for what the contents stood for; that sync is the first thing that is done.
//!    (`crash`, `synced`)
//! 5. `blocks`, `room`, `directory`, `look` and `list` answer from memory, exactly as the files have it, and don't
//!    touch the disk. (`value`, `listed`, `refused`)
//! 6. A crash at any moment of `make_dir` leaves what stands for the files before it or for those with the new
//!    directory, and if it returns Ok for the latter alone; each other answer except `Device` leaves disk and map as
//!    they were. After `Device` the volume has failed, and no other answer changes whether it has. Except after
//!    `Device` no block changes of a version that is read or being written. (`files`, which is `ChangesFiles`,
//!    `answer`, which is `DeviceAnswer`, `refused`, `kept`) The same holds for `delete_dir`, with the files without the
//!    directory: it removes a directory that has no file and in which none is being created, and the others keep what
//!    they have. (`no_directory`, `not_empty`, `directories`, `gone`, `primes`)
//! 7. `pin` pins the version that a file has, and `unpin` unpins it; `begin` books what a version costs as it begins,
//!    without words or with those of its file, whose blocks it shares, and `discard` gives back what is booked and held
//!    for it. None of them touches the disk. `get_words` returns the words of a version that is pinned or being
//!    written, and writes nothing. (`value`, `pinned`, `gone`, `begun`, `file`, `words`, `reads`, `untouched`)
//! 8. `put_words` writes blocks that no file and no other version has: whatever a crash leaves at any moment of it
//!    stands for the files from before. At Ok the version has its body with the words put; after a refusal and after
//!    `NoMemory` all is as before. (`quiet`, `rests`, `put`, `others`, `kept`, `readers`, `writers`)
//! 9. `publish` makes a version the file of its name, its last words put, by one change: whatever a crash leaves at any
//!    moment of it stands for the files from before, or for these with the version. At Ok it is the latter. All pinned
//!    versions stay, and except after `Device` their blocks do. (`crash`, `done`, `published`, `held`, `readers`,
//!    `writers`)
//! 10. On a volume that failed before, `put_words`, `get_words` and `publish` return `Failed`, and neither disk nor
//!     memory changes. `get_words` never returns a damaged block as words, and the others never take one for words that
//!     stay. (`failed`, `broken`, `whole`)
//! 11. `Device` comes exactly with one more failure of the disk, on every disk. (`answer`, and `disk`, which is
//!     `DiskAnswer`, for a call that is given a disk)
//! 12. `delete` removes a file by one change, with no block written before it: whatever a crash leaves at any moment of
//!     it stands for the files from before, or for these without the file. At Ok it is the latter. All versions that
//!     are pinned or being written stay, and except after `Device` their blocks do. (`files`, `removed`, `pending`,
//!     `held`)
//! 13. `rename` gives a file another place, in its directory or in another one, and another protection, by one change
//!     of the directories and the prime block. A crash finds it so, or as it was; no block is taken except for a
//!     directory that grows, and its version stays under its key, for whoever reads it. On every disk the prime block
//!     is rewritten only if it is the file's. (`files`, `within`, `across`, `pending`, `held`, `here`, `gone`,
//!     `primes`)
//! 14. `copy_image` copies a volume to another disk of as many blocks: what `open` states of its disk holds for the one
//!     that is copied, and at Ok the copy stands for the same files, with its gate closed and no block open. (`files`,
//!     `settled`, `copied`, `crash`, `refused`)
//! 15. `migrate` gives a volume layout 2: both home copies change as one, and no other block changes except those of
//!     gate and log. A crash at any moment leaves what stands for the files that the disk stood for, in the layout that
//!     they had or in layout 2; if it returns Ok, in layout 2. It refuses what `open` refuses. (`crash`, `synced`,
//!     `files`, `done`, `already`, `refused`, `kept`)
//! 16. `set_quota` gives a directory another quota by one change of the master directory: a crash finds it, or the
//!     quota from before, and nothing else in memory changes. (`files`, `limited`) `charge` and `quota` answer from
//!     memory what a directory is charged for and may have, and `quota_allows_begin`, `quota_allows_put` and
//!     `quota_allows_move` whether its quota leaves what a call would add. (`charged`, `value`)
//! 17. No call after `open` writes a home copy: on an honest disk blocks 0 to 2 stay, except after `Device`, and a
//!     crash at any moment of a call leaves there what one could leave before it. (`homes`, `home_blocks`; `files`)
//!
//! Between two calls the volume knows the map of its disk: the chains of its directories with their entries in the
//! order of the disk, for each entry where its version lies, and the allocation table with what is booked.
//! `specs/CurrentMap.antt` states how that and the contents meet, `specs/Rest.antt` what holds between two calls. For
//! contracts a volume is one value (`specs/States.antt`). Its type keeps what holds between two calls: no call requires
//! it, and `has_failed` states it if a proof needs it. (`sound`)
#![tactic(auto)]

mod begin;
mod blocks;
mod charge;
mod claims;
mod copy;
mod cost;
mod delete;
mod delete_dir;
mod discard;
mod error;
mod file_facts;
mod fresh;
mod get_words;
mod handles;
mod home;
mod list;
mod live;
mod make_dir;
mod marks;
mod migrate;
mod moves;
mod open;
mod pending;
mod pins;
mod prealloc;
mod prime_change;
mod publish;
mod publish_in_memory;
mod put_words;
mod query;
mod quota;
mod read;
mod read_file;
mod rename;
mod rename_across;
mod rename_within;
mod set_quota;
mod start;
mod transaction;
mod turns;
mod volume;

pub use charge::Charge;
pub use error::{CallError, CopyError, VolumeError};
pub use file_facts::FileFacts;
pub use handles::{Pending, Pin, VersionHandle};
pub use home::{Home, read_home, stated_size};
pub use migrate::Migrated;
pub use open::read_map;
pub use pending::PendingKind;
pub use read_file::{LoadedVersion, read_data, read_named};
pub use spec_image::layout::{LARGEST_VOLUME, Layout, SMALLEST_VOLUME};
pub use start::read_volume;
pub use volume::{LoadedDirectory, LoadedMap, Volume};
