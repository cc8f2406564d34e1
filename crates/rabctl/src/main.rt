// Plays a script from standard input, or from the file that the first argument names.
// The status is 1 if a line was an error or the script cannot be read.
#![tactic(auto)]

mod answer;
mod cabinet;
mod desk;
mod grants;
mod play;
mod printer;
mod problem;
mod reply;
mod show;

use anyhow::anyhow;
use std::io::BufReader;
use std::{env, fs};

// True if no line was an error.
fn run(rt: &HostRuntime) -> anyhow::Result<bool> {
    let clean = match env::args(rt)?.nth(1) {
        Some(name) => play::play(
            rt,
            BufReader::new(rt.alloc(), fs::open(rt, name.as_str())?)?,
        )?,
        None => play::play(rt, BufReader::new(rt.alloc(), rt.stdin())?)?,
    };
    Ok(clean)
}

fn main(rt: HostRuntime) -> anyhow::Result<()> {
    match run(&rt) {
        Ok(true) => Ok(()),
        Ok(false) => Err(anyhow!("a line was an error")),
        Err(e) => {
            let _ = eprintln!(rt; "rabctl: the script cannot be played: {e}");
            Err(e)
        }
    }
}
