//! The program `agenda`: shows when jobs start, and what a mailbox replies, as its arguments request.
#![tactic(auto)]

use agenda_answers::{Frame, Host, answer, answer_arguments, columns_of, unread_arguments};
use agenda_inputs::{Files, read_front};
use plan_tree::DiskTree;
use std::alloc::Global;
use std::fs::File;
use std::io::IsTerminal;
use std::process::ExitCode;
use std::time::{SystemTime, UNIX_EPOCH};
use std::{env, io};

#[cfg(test)]
mod tests;

// The files of the machine.
#[derive(Drop)]
struct HostFiles<'a>(&'a HostRuntime);

impl Files for HostFiles<'_> {
    ghost use Rattle.std.specs.Prelude.{None};
    ghost use Rattle.agenda_inputs.specs.Files.{unknown};

    ghost held = { λ _ _. unknown };

    ghost opened = { λ _. None };

    ghost errors = { λ _. None };

    fn front(&mut self, alloc: Global, path: &str, most: u64) -> io::Result<Vec<u8>> {
        read_front(alloc, File::open(self.0, path)?, most)
    }
}

fn main(rt: HostRuntime) -> ExitCode {
    let (mut files, tree) = (HostFiles(&rt), DiskTree::new(&rt));
    let host = Host {
        tree: &tree,
        time: time_of(&rt),
        frame: Frame {
            columns: columns(&rt),
            terminal: rt.stdout().is_terminal(),
        },
    };
    let (mut out, mut err) = (rt.stdout(), rt.stderr());
    let status = match given_arguments(&rt) {
        Ok(words) => answer_arguments(
            &rt,
            rt.alloc(),
            words.as_slice(),
            &mut files,
            &host,
            &mut out,
            &mut err,
        ),
        Err(fault) => {
            let asked = Err(unread_arguments(rt.alloc(), fault.kind()));
            answer(
                &rt,
                rt.alloc(),
                asked,
                &mut files,
                &host,
                &mut out,
                &mut err,
            )
        }
    };
    ExitCode::from(status)
}

// Returns the time in seconds since 1970, or 0 if the clock can't be read or shows an earlier time.
fn time_of(rt: &HostRuntime) -> u64 {
    match SystemTime::now(rt) {
        Ok(time) => match time.duration_since(UNIX_EPOCH) {
            Ok(duration) => duration.as_secs(),
            Err(_) => 0,
        },
        Err(_) => 0,
    }
}

// Returns the number of columns of the terminal, if the environment gives it.
fn columns(rt: &HostRuntime) -> Option<u32> {
    match env::var(rt, "COLUMNS") {
        Ok(text) => columns_of(text.as_str()),
        Err(_) => None,
    }
}

// Returns the arguments of the command line, with the program's name first.
fn given_arguments(rt: &HostRuntime) -> io::Result<Vec<String>> {
    let words = env::args(rt)?.collect(rt.alloc())?;
    Ok(words)
}
