//! Tests of the names that errors print, where no contract states them.

use plan_mailbox::NewFault;
use plan_next::NoMemory;
use plan_rules::{AddFault, EventZones, Job, timer};
use std::fmt::Display;
use std::process::Abort;

// Checks that the error prints this name.
fn assert_name(rt: &(impl Abort + AllocGlobal), fault: &impl Display, name: &str) {
    let Ok(printed) = format!(in rt.alloc(); "{fault}") else {
        panic!(rt; "memory");
    };
    assert!(rt; printed.as_str() == name);
}

// Returns a job.
fn job(rt: &(impl Abort + AllocGlobal)) -> Job {
    let zones = EventZones::utc_alone();
    timer(rt.alloc(), "a.timer", b"[Timer]\n", &zones).expect(rt, "a job")
}

// Checks that the error about a job prints this name.
fn assert_name_of(rt: &(impl Abort + AllocGlobal), fault: AddFault, name: &str) {
    assert_name(rt, &fault, name);
}

#[test]
fn names_of_the_faults_of_jobs(rt: HostRuntime) {
    assert_name_of(&rt, AddFault::NoMemory(job(&rt)), "NoMemory");
    assert_name_of(&rt, AddFault::SameName(job(&rt)), "SameName");
    assert_name_of(&rt, AddFault::Full(job(&rt)), "Full");
}

#[test]
fn names_of_the_faults_of_pieces_and_mailboxes(rt: HostRuntime) {
    assert_name(&rt, &NoMemory, "NoMemory");
    assert_name(&rt, &NewFault::NoMemory, "NoMemory");
    assert_name(&rt, &NewFault::BadSize, "BadSize");
}
