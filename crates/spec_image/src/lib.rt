//! What the words of an image stand for: definitions, and laws about them.
//!
//! The definitions are in `specs/`. Read them in this order: `Maps` (maps and lists of numbers), `Files` (files in
//! directories, as users see them), `Costs` (the blocks that they take), `Regions`, `Home`, `Log` and `Table` (the
//! fixed parts of an image), `Directories` and `Retrieval` (the blocks of directories and of files), `Splices` (bodies
//! by blocks), and `Stands` with `Layouts` (which files an image stands for, in which layout). The others build on
//! these: `Walks` and `Faults` (what a start refuses), `Quiet`, `Changes` and `Edits` (what leaves or changes the
//! files), `Counts` (numbers of blocks), `Published` and `Codes` (versions, and why a change of the files is refused),
//! and `Vector`, `Readings` and `Spoiled` (images that were written by hand). `Common` passes on what other crates
//! cite.
//!
//! A law is the contract of a function that does nothing. Besides laws, `src/` has only the plain types and the numbers
//! of the layout that definitions and code share.
#![tactic(auto)]

mod changes;
mod code;
mod edits;
mod entry;
mod laws;
pub mod layout;
mod maps;
mod put;
mod quiet;
mod spoiled;
mod starts;

pub use changes::{
    attributes_change, directories_are_made, directories_are_protected, directories_are_removed,
    files_are_removed, files_are_renamed, homes_are_raised, maps_change_by_parts,
    prime_blocks_are_rewritten, versions_are_published, versions_are_superseded,
};
pub use code::ErrorCode;
pub use edits::{directory_edits, master_edits};
pub use entry::Entry;
pub use laws::{
    bits_are_counted, chains_are_kept, layouts_are_named, log_is_no_part, maps_fit_their_cost,
    names_are_sixbit, one_meaning, quiet_writes, vectors_stand, versions_are_kept,
    versions_fit_their_cost,
};
pub use maps::{list_laws, map_laws, sum_laws};
pub use put::Put;
pub use quiet::quiet_stretch;
pub use spoiled::spoiled_images;
pub use starts::{faults_exclude, reading_finds_the_map};
