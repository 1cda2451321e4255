//! Runs one of the benchmarks: `chains N forward`, `chains N reverse`, `stores N celebrity`, `stores N spread`,
//! `worlds N forward`, or `worlds N open`, which does all of that but the events; `commits N forward`,
//! `commits N often` with eight times as many epochs, `commits N cuts`, which does all of `forward` but the commits, or
//! `commits N open`, which does all but the events; `epochs N even`, `rank`, `long`, `ones`, `tens` or `idle`, the
//! versions alone, and with `-release` after `even`, `long` or `idle` each epoch is let go after the next;
//! `epochs N before`, which does all of `ones` but its epochs; `mining N 0`, `2` or `16`, epochs of N records each,
//! mined from so many landmarks after 200,000 records that are mined as one epoch, or `mining N 0-open`, `2-open` or
//! `16-open`, which end before them, or `0-scratch`, `2-scratch` or `16-scratch`, where they are evaluated from scratch.
#![tactic(auto)]

mod chains;
mod commits;
mod draws;
mod epochs;
mod mining;
mod shapes;
mod stores;
mod worlds;

use kin_ids::Memory;
use kin_ids::decimals::read_decimal;
use std::alloc::Global;
use std::env;
use std::process::ExitCode;

// Whether the words named a benchmark, which then ran.
fn run(alloc: Global, words: &[String]) -> Result<bool, Memory> {
    let [what, count, how] = words else {
        return Ok(false);
    };
    let Some(n @ 0..=4_000_000_000) = read_decimal(count.as_bytes()) else {
        return Ok(false);
    };
    match (what.as_str(), how.as_str()) {
        ("chains", "forward") => chains::forward(alloc, n)?,
        ("chains", "reverse") => chains::reverse(alloc, n)?,
        ("stores", "celebrity") => stores::celebrity(alloc, n as u32)?,
        ("stores", "spread") => stores::spread(alloc, n as u32)?,
        ("worlds", "open") => drop(worlds::open(alloc, n)?),
        ("worlds", "forward") => worlds::forward(alloc, n)?,
        ("commits", "open") => drop(commits::open(alloc, n, &[])?),
        ("commits", "cuts") => commits::cuts(alloc, n)?,
        ("commits", "forward") => commits::forward(alloc, n)?,
        ("commits", "often") => commits::often(alloc, n)?,
        ("epochs", how) => return epochs::run(alloc, n as u32, how),
        ("mining", how) => return mining::run(alloc, n, how),
        _ => return Ok(false),
    }
    Ok(true)
}

fn main(rt: HostRuntime) -> ExitCode {
    let Ok(args) = env::args(&rt) else {
        return ExitCode::from(2);
    };
    let Ok(words) = args.skip(1).collect::<Vec<String>>(rt.alloc()) else {
        return ExitCode::from(7);
    };
    match run(rt.alloc(), words.as_slice()) {
        Ok(true) => ExitCode::from(0),
        Ok(false) => ExitCode::from(2),
        Err(_) => ExitCode::from(7),
    }
}
