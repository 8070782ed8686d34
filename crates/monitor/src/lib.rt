//! The monitor: jobs, and the events that they hand in, over one volume. What the layer promises:
//!
//! 1. What the monitor stores stands for a state of the file machine: the volume's files, with any serials
//!    of their own, and a record for each job that is logged in. (`specs/Serves.antt`)
//! 2. `start` opens the volume of a disk. If it answers Ok, the files are those that the disk stood for,
//!    and nobody is logged in; otherwise the refusal is that of `Volume::open`, and the disk is handed back.
//!    (`started`, `refused`)
//! 3. `login` and `reset` answer as the machine's rows do, or report a lack of memory where the machine may, and
//!    leave the state of that row. Neither touches the disk. (`answered`, `kept`) On every disk their answers, and
//!    the jobs that they leave, are functions of the jobs, the layout and the arguments, except for a lack of
//!    memory. (`value`, `done`, `refused`, `in_layout`)
//! 4. `list` returns the list of a directory that the machine gives, by name and then by extension.
//!    (`listed`) On every disk only a few replies refuse it, and Device isn't one of them. (`nobody`, `only`)
//! 5. `deposit` and `examine` put and show a word of a job's core as the machine does (`answered`, `value`);
//!    `deposit_all` and `examine_all` do so with words in a row, as if one after the other (`done`, `answered`).
//! 6. `call` is the table of the calls, and each call is in the file of its name. It answers OPEN, INBUF, OUTBUF,
//!    LOOKUP, ENTER, RENAME, IN, OUT, USETI, USETO, CLOSE, RELEAS, GETSTS, RESET, MakeDir, DeleteDir and Quota, in dump
//!    mode and over rings of buffers, as the machine's rows do, or reports a lack of memory where the machine may, or
//!    blames the device; and it leaves the state of that row. (`answered`) One record states what every call promises.
//!    (`IsServing`) A crash at any moment of a call leaves the files from before, or those of that row if it is Done or
//!    met a fault of the device. (`crash`) Separate clauses state which answers, and which calls, leave the disk alone.
//!    (`idle`, `light`) A refusal leaves its code, and nothing else. (`refused`) DateRange, NoJob, NoChannel,
//!    AddressCheck and NoMemory leave everything as it was, on every disk. (`decided`, `memory`) The answer to a date
//!    that the layout of the disk can't hold is DateRange, on every disk. (`late`)
//! 7. Each version that the volume writes belongs to one output side of a job, and may be published under its
//!    name; each version that is pinned is pinned once for each input side that reads it. (`AreKeyed`, `ArePlaced`,
//!    `AreReading`) What an IN answers and leaves follows from its own job's record, which no other job changes.
//!    (`still`, `apart`)
//! 8. `room`, `charge`, `blocks` and `layout` are the volume's; nothing changes the layout. (`layout`) `finish` hands
//!    the disk back as it is.
//! 9. A monitor that has failed answers Failed to every event and changes nothing. It fails when the device does; on an
//!    honest disk nothing else makes it fail. (`failed`, `broken`, `blamed`, `counted`, `served`)
//! 10. `serve` serves any list of events, and answers each as the machine does. At the moment after each event
//!    all that a crash may leave stands for the files after the events so far, and from one moment to the next a crash
//!    leaves the files before that event or those after it. A Device counts as one failure of the disk, and all later
//!    replies are Failed. (`runs`, `counted`, `once`; `none` if there was no memory) Along the same run the words
//!    that an IN moves are those of the version that its LOOKUP found, or, on a channel that writes, those that it has
//!    written. (`runs`) `event` serves one event, and states of it what `call` states.
//! 11. `start_after_crash` finds the files of a moment along such a list, and never any others, even if any number of
//!    starts before it were stopped; it refuses the disk only for a lack of memory or a fault of the device.
//!    (`found`, `refused`, `between`, `again`)
//! 12. `changed_areas` returns beforehand which words of its own core a call of a job may change, from the call and the
//!    job before it. No other word of any core changes. (`served`, `value`; `calls_change_their_areas`)
#![tactic(auto)]

mod call;
mod changed;
mod changed_laws;
mod channel;
mod close;
mod close_job;
mod delete_dir;
mod enter;
mod found;
mod getsts;
mod hold;
mod inbuf;
mod input;
mod job;
mod laws;
mod list;
mod login;
mod lookup;
mod make_dir;
mod monitor;
mod open;
mod out;
mod outbuf;
mod output;
mod publish_output;
mod quota;
mod read;
mod read_in;
mod read_laws;
mod reader_laws;
mod releas;
mod rename;
mod reset;
mod restart;
mod ring;
mod serve;
mod status;
mod update;
mod useti;
mod useto;
mod words;

pub use changed_laws::{areas_have_these_words, calls_change_their_areas};
pub use channel::OpenChannel;
pub use input::Input;
pub use job::{Job, Jobs};
pub use laws::{files_have_a_start, pinned_versions_are_booked_once};
pub use monitor::Monitor;
pub use output::{Output, OutputKind};
pub use read_laws::{what_is_read_is_booked, what_is_read_stays};
pub use reader_laws::{readers_come_and_go, readers_keep_what_is_superseded};
pub use restart::start_after_crash;
pub use usercore::CoreArea;
pub use volume::{Charge, VolumeError as StartError};
