//! The file machine, which determines what every call answers and leaves: definitions, and laws about them.
//!
//! The definitions are in `specs/`. Read them in this order: `Jobs` (jobs, their channels, and the machine's state),
//! `Rights`, `Room` and `Charges` (what is allowed, and what there is room for), `Outcomes` (how a call ends), then the
//! calls, `Open`, `Lookup`, `Enter`, `Update`, `Rename`, `Inputs`, `Outputs` (with `Cores`, `CommandLists` and `Rings`:
//! the words of a core), `Close`, `MakeDir` and `Sessions`, and `Step`, which is the machine. `Runs` plays lists of
//! events, and `Crashes`, `PinnedVersions`, `Undone` and `Sound` define what is true along them. `Common` passes on
//! what other crates cite.
//!
//! A law is the contract of a function that does nothing. Besides laws, `src/` has only the plain types that
//! definitions and code share.
#![tactic(auto)]

mod act;
mod area;
mod call;
mod machine;
mod status;

pub use act::Act;
pub use area::Area;
pub use call::{Call, Event, Reply};
pub use machine::{
    jobs_are_apart, moments_go_on, quotas_are_not_overdrawn, readers_keep_versions,
    reading_holds_still, reading_takes_no_room, renames_move_one_version, room_is_not_overdrawn,
    runs_go_on, runs_tell_no_serials, serials_are_not_seen, splices_put_words, states_are_sound,
    undone_changes_nothing,
};
pub use status::IoStatus;
