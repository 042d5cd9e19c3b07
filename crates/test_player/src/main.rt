//! Plays the texts that its words name, which stand in its `data/`, and ends with the status 0 where all passed.
#![tactic(auto)]

use std::io;
use std::process::ExitCode;
use text_player::play_all;

fn main(rt: HostRuntime) -> io::Result<ExitCode> {
    Ok(if play_all(&rt)? {
        ExitCode::SUCCESS
    } else {
        ExitCode::FAILURE
    })
}
