//! The command line of the program as a `clap` value: `command_line` is that of the definition, subcommand by
//! subcommand (`specs/CommandLine.antt`), and has the texts of its help. What its matches mean is not known here.
#![tactic(auto)]

mod arguments;
mod table;

pub use table::command_line;
