//! Tests of calls that request no memory. Each test first makes a request of a certain size, the mark:
//! bin/refuse-memory makes it fail, and all requests after it.

ghost use Rattle.std.specs.Prelude.{length};
ghost use Rattle.plan_collect.specs.Agenda.{IsOfJobs};

use crate::collector::user_jobs;
use crate::ends::ends_of_one;
use plan_collect::{Agenda, Span};
use plan_mailbox::{Core, Post, Reply, Rings};
use plan_rules::{EventZones, Jobs, timer};
use plan_serial::plan_serial;
use plan_write::{Format, LineEnds, write_agenda};
use std::alloc::Global;
use std::io;
use std::io::Write;
use std::process::Abort;
use std::test::Fail;

// The size of the mark in bytes. bin/refuse-memory has the same number.
const LAST_REQUEST: usize = 271_829;

// Requests the mark, and returns whether the request failed.
fn ends(alloc: Global) -> bool {
    Vec::<u8>::with_capacity(alloc, LAST_REQUEST).is_err()
}

// Checks that requests still fail if the mark failed.
fn assert_ended(rt: &(impl Abort + AllocGlobal), ended: bool) {
    assert!(rt; Box::new(rt.alloc(), 0_u8).is_err() == ended);
}

// Checks the replies to the sends of a new mailbox of two senders with a capacity of one message. Closes sender 0.
fn assert_sends<P: Post<char>>(rt: &impl Abort, post: &mut P) {
    assert!(rt; post.is_new() && post.senders() == 2 && post.room() == 1);
    assert!(rt; post.send(0, 'a') == Reply::Sent);
    assert!(rt; post.send(0, 'b') == Reply::Full('b'));
    assert!(rt; post.send(2, 'c') == Reply::NoSender('c'));
    assert!(rt; post.close(0) == Reply::Shut);
    assert!(rt; post.send(0, 'd') == Reply::Closed('d'));
}

// Checks the replies to the takes that follow.
fn assert_takes<P: Post<char>>(rt: &impl Abort, post: &mut P) {
    assert!(rt; post.take() == Reply::Took(0, 'a'));
    assert!(rt; post.take() == Reply::Nothing);
    assert!(rt; post.close(1) == Reply::Shut);
    assert!(rt; post.take() == Reply::Ended);
}

// Checks that a mailbox of two senders with a capacity of one message replies without memory.
fn assert_replies<P: Post<char>>(rt: &(impl Abort + AllocGlobal), post: &mut P) {
    let ended = ends(rt.alloc());
    assert_sends(rt, post);
    assert_takes(rt, post);
    assert_ended(rt, ended);
}

#[test]
fn a_core_replies(rt: HostRuntime) {
    let mut core = Core::new(rt.alloc(), 2, 1).expect(&rt, "memory");
    assert_replies(&rt, &mut core);
}

#[test]
fn rings_reply(rt: HostRuntime) {
    let mut rings = Rings::new(rt.alloc(), 2, 1).expect(&rt, "memory");
    assert_replies(&rt, &mut rings);
}

#[test]
fn ends_send_and_settle(rt: HostRuntime) -> Result<(), Fail> {
    let (mut outlet, mut inlet) = ends_of_one(rt.alloc(), 2)?;
    let ended = ends(rt.alloc());
    assert!(rt; outlet.sender() == 0 && inlet.try_take().is_none());
    assert!(rt; outlet.try_send('a') == Ok(()) && outlet.try_send('b') == Ok(()));
    assert!(rt; outlet.try_send('c') == Err('c'));
    assert!(rt; inlet.try_take() == Some((0, 'a')));
    let receipt = outlet.close();
    assert!(rt; receipt.sender() == 0);
    assert!(rt; inlet.settle(0, receipt).is_ok());
    assert!(rt; inlet.try_take() == Some((0, 'b')) && inlet.try_take().is_none());
    assert_ended(&rt, ended);
    Ok(())
}

// A writer with a capacity of 256 bytes, enough for a header and two lines.
#[derive(Drop)]
struct Lines {
    bytes: [u8; 256],
    len: usize,
}

impl Write for Lines {
    fn write(&mut self, bytes: &[u8]) -> io::Result<usize> {
        let len = self.len.min(256);
        let count = bytes.len().min(256 - len);
        self.bytes[len..len + count].copy_from_slice(&bytes[..count]);
        self.len = len + count;
        Ok(count)
    }

    fn flush(&mut self) -> io::Result<()> {
        Ok(())
    }
}

// Returns a writer that has no bytes.
fn no_lines() -> Lines {
    Lines {
        bytes: [0; 256],
        len: 0,
    }
}

// Checks that a writer has these bytes.
fn assert_lines(rt: &impl Abort, lines: &Lines, text: &str) {
    assert!(rt; lines.bytes.get(..lines.len) == Some(text.as_bytes()));
}

// Checks that an agenda is written as this text.
fn assert_written(
    rt: &impl Abort,
    agenda: &Agenda,
    line_ends: &LineEnds,
    json: bool,
    delays: bool,
    text: &str,
)
    requires { IsOfJobs (length line_ends.now) agenda.now.entries }
{
    let mut out = no_lines();
    let format = Format { json, local: None };
    assert!(rt; write_agenda(agenda, line_ends, &format, delays, &mut out).is_ok());
    assert_lines(rt, &out, text);
}

// Adds a timer that starts each day.
fn add_daily(rt: &(impl Abort + AllocGlobal), jobs: &mut Jobs) {
    let zones = EventZones::utc_alone();
    let daily = timer(
        rt.alloc(),
        "b.timer",
        b"[Timer]\nOnCalendar=daily\n",
        &zones,
    );
    assert!(rt; jobs.add(daily.expect(rt, "a timer")).is_ok());
}

// Returns the job of a crontab, with a quote in its command, and a timer. Both start each day.
fn daily_jobs(rt: &(impl Abort + AllocGlobal)) -> Jobs {
    let mut jobs = user_jobs(rt.alloc(), "@daily \"\n").expect(rt, "jobs");
    add_daily(rt, &mut jobs);
    jobs
}

// The agenda of the first day, as text, with the delays, and in JSON. A timer may start up to a minute late if it has
// no other accuracy. In JSON a quote in a command has an escape.
const PLAIN: &str = "agenda 2\t1970-01-01T00:00:00Z\t1970-01-02T00:00:00Z\t2\n\
    1970-01-01T00:00:00Z\tcron:1\t\"\n\
    1970-01-01T00:00:00Z\tb.timer\tb.service\n";

const DELAYED: &str = "agenda 3\t1970-01-01T00:00:00Z\t1970-01-02T00:00:00Z\t2\n\
    1970-01-01T00:00:00Z\t1970-01-01T00:00:00Z\tcron:1\t\"\n\
    1970-01-01T00:00:00Z\t1970-01-01T00:01:00Z\tb.timer\tb.service\n";

const JSON: &str = "{\"start\":\"1970-01-01T00:00:00Z\",\"job\":\"cron:1\",\"run\":\"\\\"\"}\n\
    {\"start\":\"1970-01-01T00:00:00Z\",\"job\":\"b.timer\",\"run\":\"b.service\"}\n";

#[test]
fn an_agenda_is_written(rt: HostRuntime) {
    let jobs = daily_jobs(&rt);
    let span = Span::new(0, 86_400).expect(&rt, "a span");
    let agenda = plan_serial(rt.alloc(), &jobs, span, 10).expect(&rt, "an agenda");
    let line_ends = LineEnds::new(rt.alloc(), &jobs, false).expect(&rt, "memory");
    let json_ends = LineEnds::new(rt.alloc(), &jobs, true).expect(&rt, "memory");
    let ended = ends(rt.alloc());
    assert!(rt; agenda.since() == 0 && agenda.upto() == 86_400 && agenda.len() == 2);
    assert!(rt; agenda.entry(1) == Some((0, 1)) && agenda.entry(2).is_none());
    assert_written(&rt, &agenda, &line_ends, false, false, PLAIN);
    assert_written(&rt, &agenda, &line_ends, false, true, DELAYED);
    assert_written(&rt, &agenda, &json_ends, true, false, JSON);
    assert_ended(&rt, ended);
}
