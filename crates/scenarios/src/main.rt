//! Plays the worked rows of its standard input, which is the file `stdin` next to its sources, and prints which of them
//! come out as they should, and what the service asks of its disk in the last ones. The status is 1 if a line comes out
//! otherwise.
#![tactic(auto)]

use anyhow::Result;
use scenario_runner::play_all;
use std::process::ExitCode;

fn main(rt: HostRuntime) -> Result<ExitCode> {
    let mistakes = play_all(&rt, rt.alloc())?;
    Ok(ExitCode::from(u8::from(mistakes > 0)))
}
