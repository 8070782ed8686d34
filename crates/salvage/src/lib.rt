//! What is whole on a disk that a start refuses. Nothing is written to it.
//!
//! 1. `Copied::of` copies a disk into memory, up to the end of the volume by its home copies, and makes the pending
//!    puts of its log in the copy: it is as a start would find it. A block that can't be read, or that the disk doesn't
//!    have, is damaged in the copy, and each such fault is one of its findings. (`copied`, `lengths`, `findings`,
//!    `failures`)
//! 2. `survey_disk` finds the files that are whole: their retrieval blocks are valid, and none of their data blocks is
//!    damaged. A file that a directory names is in its place if no block of it is in another one, in a chain, or free
//!    by the allocation table; otherwise it is doubtful, and the reason is reported. Other prime blocks are searched
//!    for: each is that of a file that is found, or what is wrong with it is reported. Each fault that is reported is
//!    there, and costs what is reported. (`surveyed`)
//! 3. Of contents that stand for files exactly these are found in their place, with their words and attributes, and no
//!    others, unless free blocks are searched too. (`found`, `alone`)
//! 4. `read_words` returns the words of a file that was found. (`words`)
//! 5. `Device` comes exactly with one more failure of the disk, on every disk. (`failed`, `served`)
#![tactic(auto)]

mod chains;
mod claims;
mod copied;
mod counts;
mod error;
mod extensions;
mod finding;
mod free;
mod lists;
mod place;
mod saved;
mod scan;
mod search;
mod survey;
mod take;
mod tree;
mod words;

pub use copied::{Copied, CopyFaults};
pub use error::SalvageError;
pub use finding::{Cost, Defect, Finding};
pub use saved::SavedFile;
pub use search::Search;
pub use survey::{Survey, survey_disk};
pub use words::read_words;
