//! A job's core: its words, the command lists in it, and its rings of buffers. The layer promises:
//!
//! 1. A `Core` has 1000 to 400000 words (octal), and their number never changes. `Core::new` makes the core of a job
//!    that logs in. (`fresh`, `length`)
//! 2. `word`, `set_word`, `words` and `put` read and write only the words that they name, and answer `AddressCheck`
//!    exactly if one of these is outside the core. (`there`, `kept`)
//! 3. `dump_list` names the areas of a command list, each of at least one word, and `lone_area` the one area of a list
//!    that is a command word and its end; the whole list is read before anything is moved. `gather` joins the words of
//!    areas, and `deal` deals words out to them. (`areas`, `some`, `none`, `dealt`)
//! 4. A step of a ring makes its writes in their order, so that the later one counts if two overlap; each word that it
//!    reads is the old core's. Setting up a ring of two first is a step of its own: what follows reads the core that
//!    this step left. (`opened`, `done`, `closed`)
//! 5. `ring_check` determines beforehand whether an IN, an OUT or a CLOSE can be done, and which words it hands to the
//!    file. (`words`, `none`) A step that can't be done changes nothing, nor does its setup. (`kept`)
//! 6. Only `Core::new` takes memory.
//! 7. `setup_areas`, `in_areas` and `out_areas` name beforehand the words that a setup, an IN and an OUT may change. No
//!    other word changes. (`set_up`, `filled`, `emptied`)
//!
//! Headers, buffers, byte pointers and command words are those of the TOPS-10 Monitor Calls Manual. The sizes of a
//! core, the order of the writes, how many command words are read and how many words they may name are this project's
//! profile. Of the definitions of `spec_machine`, `Rings`, `CommandLists` and `Cores` contain all of this; the clauses
//! here name them.
#![tactic(auto)]

mod area;
mod buffer;
mod byte_size;
mod command_list;
mod error;
mod laws;
mod moves;
mod ring_areas;
mod ring_check;
mod ring_parts;
mod ring_words;
mod rings;
mod user_core;

pub use area::CoreArea;
pub use byte_size::ByteSize;
pub use command_list::MAX_COMMANDS;
pub use error::CoreError;
pub use laws::steps_change_their_areas;
pub use moves::word_count;
pub use ring_areas::HEADER_WORDS;
pub use ring_check::RingStep;
pub use user_core::{Core, FIRST_FREE, LARGEST_CORE, SMALLEST_CORE};
