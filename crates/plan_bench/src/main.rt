//! Does work that `bin/bench` measures, and prints a line for each piece of work: what was done, and what it
//! found.
//!
//! Each piece of work has four arguments: what to do, two numbers, and a source. The source is the path of a
//! crontab or of a timer file, or `-` if none is read:
//!
//! - `read TIMES 0 SOURCE` makes the jobs of the source TIMES times, and finds how many there are. A timer file
//!   makes 8 jobs.
//! - `next TIMES COUNT SOURCE` searches for COUNT starts of its last job, one after the other, and finds the last
//!   of them. It does so TIMES times.
//! - `piece TIMES UPTO SOURCE` searches for a piece of that job's starts before the second UPTO, and finds how many
//!   there are. It does so TIMES times.
//! - `plan LIMIT SECONDS SOURCE` plans its jobs in one thread, without their delays, and finds how many starts there
//!   are, or 0 if that is more than the limit.
//! - `ring COUNT ROOM -` and `lock COUNT ROOM -` send COUNT messages from one thread to another, with a capacity of
//!   ROOM messages, and find how many arrived.
//!
//! Other arguments are rejected as invalid input, and so is work that can't be done.
#![tactic(auto)]

mod plans;
mod rings;
mod searches;
mod sources;

use plans::plan;
use rings::{through_lock, through_ring};
use searches::{next, piece};
use sources::read;
use std::alloc::Global;
use std::io::{self, ErrorKind};
use std::rt::Files;
use std::sync::Wait;
use std::thread::Threads;
use std::{env, fs};

fn main(rt: HostRuntime) -> io::Result<()> {
    let words: Vec<String> = env::args(&rt)?.collect(rt.alloc())?;
    let mut rest = words.get(1..).unwrap_or(&[]);
    for _ in 0..words.len() {
        if rest.is_empty() {
            break;
        }
        let [work, count, size, source, more @ ..] = rest else {
            return Err(bad_arguments());
        };
        let numbers = (number(count.as_str())?, number(size.as_str())?);
        let Some(found) = found(&rt, work.as_str(), numbers, source.as_str())? else {
            return Err(bad_arguments());
        };
        println!(rt; "{work} {source}: {found}")?;
        rest = more;
    }
    Ok(())
}

// Returns the error for arguments that request no work.
fn bad_arguments() -> io::Error {
    io::Error::from(ErrorKind::InvalidInput)
}

// Returns the number that an argument gives.
fn number(word: &str) -> io::Result<u64> {
    word.parse().or(Err(bad_arguments()))
}

// Returns what a piece of work finds, or `None` if there is no such work or it can't be done.
fn found<R: AllocGlobal + Files + Threads + Wait + Sync>(
    rt: &R,
    work: &str,
    numbers: (u64, u64),
    source: &str,
) -> io::Result<Option<u64>> {
    let (count, size) = numbers;
    let found = match work {
        "ring" => through_ring(rt, rt.alloc(), size as usize, count),
        "lock" => through_lock(rt, rt.alloc(), size as usize, count),
        _ => found_in(rt.alloc(), work, count, size, &fs::read(rt, source)?),
    };
    Ok(found)
}

// Returns what a piece of work finds in a source.
fn found_in(alloc: Global, work: &str, count: u64, size: u64, source: &[u8]) -> Option<u64> {
    match work {
        "read" => read(alloc, source, count),
        "next" => next(alloc, source, count, size),
        "piece" => piece(alloc, source, count, size),
        "plan" => plan(alloc, source, count, size),
        _ => None,
    }
}
