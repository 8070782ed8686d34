//! The languages of commands and of call scripts, which determine what lines mean, ask and print: definitions, and laws
//! about them.
//!
//! The definitions are in `specs/`. Read them in this order: `Lines` and `Spellings` (characters, and what they spell),
//! `Commands` and `Scripts` (the two grammars), `Texts` (what is printed), `Plans` (what a line asks of the machine),
//! `Transcripts` (lines, one after the other), and `Errands`, `Copies` and `Causes` (what comes of a line, and why it
//! is refused). `Common` passes on what other crates cite.
//!
//! A law is the contract of a function that does nothing. Besides laws, `src/` has only the plain types that
//! definitions and code share.
#![tactic(auto)]

mod causes;
mod command;
mod copies;
mod encoding;
mod style;
mod texts;

pub use causes::{plans_go_on, refusals_have_causes};
pub use command::{Command, Spec};
pub use copies::{copies_are_exact, errands_are_exact, reads_are_exact, states_stay_ready};
pub use encoding::Encoding;
pub use style::Style;
pub use texts::{lines_have_one_reading, served_acts_are_acts, texts_are_functions};
