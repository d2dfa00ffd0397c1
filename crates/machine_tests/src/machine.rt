//! Tests of all that is found on a machine.

use crate::tree::TextTree;
use plan_machine::{Machine, MachineSource, find_machine};
use std::alloc::{AllocError, Global};
use std::test::Fail;

// The boot reaches timers.target, which wants the timers.
const MACHINE: &str = "\
d etc
f etc/anacrontab x
f etc/crontab 17 * * * * root x|
d etc/cron.d
f etc/cron.d/bad~name x
d etc/systemd
d etc/systemd/system
l etc/systemd/system/default.target /usr/lib/systemd/system/timers.target
d etc/systemd/system/timers.target.wants
l etc/systemd/system/timers.target.wants/a.timer /usr/lib/systemd/system/a.timer
l etc/systemd/system/timers.target.wants/b@daily.timer /usr/lib/systemd/system/b@.timer
l etc/systemd/system/timers.target.wants/c.timer /usr/lib/systemd/system/c.timer
l etc/systemd/system/timers.target.wants/d.timer /usr/lib/systemd/system/d.timer
l etc/systemd/system/timers.target.wants/gone.timer /usr/lib/systemd/system/gone.timer
l etc/systemd/system/c.service /dev/null
d etc/systemd/system/a.timer.d
f etc/systemd/system/a.timer.d/x.conf [Timer]|Unit=d.service|
d usr
d usr/lib
d usr/lib/systemd
d usr/lib/systemd/system
f usr/lib/systemd/system/timers.target [Unit]|
f usr/lib/systemd/system/a.timer [Timer]|
f usr/lib/systemd/system/b@.timer [Timer]|OnCalendar=%i|
f usr/lib/systemd/system/b@.service [Service]|ExecStart=/bin/b|
f usr/lib/systemd/system/c.timer [Timer]|
f usr/lib/systemd/system/d.timer [Timer]|OnCalendar=%i|
f usr/lib/systemd/system/d.service [Service]|ExecStart=/bin/d|
d var
d var/spool
d var/spool/at
f var/spool/at/a00001 x
";

// The text of a source is after its path. A timer that is no instance keeps its specifiers.
const FOUND: &str = "\
crontab etc/crontab: 17 * * * * root x|
a.timer usr/lib/systemd/system/a.timer: [Timer]||[Unit]|[Timer]|Unit=d.service|
d.timer usr/lib/systemd/system/d.timer: [Timer]|OnCalendar=%i|
b-daily.timer usr/lib/systemd/system/b@.timer: [Timer]|OnCalendar=daily|
skipped etc/cron.d/bad~name: bad name
skipped etc/systemd/system/timers.target.wants/gone.timer: no such timer
not planned: etc/anacrontab: anacron starts jobs by days since they ran
not planned: usr/lib/systemd/system/c.timer: its unit c.service is masked
not planned: var/spool/at: jobs of at
no cron daemon
";

// Adds a source, with `|` for each newline of its text.
fn push_source(text: &mut String, source: &MachineSource) -> Result<(), AllocError> {
    text.push_str(source.name())?;
    text.push_str(" ")?;
    text.push_str(source.parts().path(0).unwrap_or(""))?;
    text.push_str(": ")?;
    for line in str::from_utf8(source.parts().text()).unwrap_or("").lines() {
        text.push_str(line)?;
        text.push_str("|")?;
    }
    text.push_str("\n")
}

fn shown(alloc: Global, machine: &Machine) -> Result<String, AllocError> {
    let mut text = String::new(alloc);
    for source in &machine.sources {
        push_source(&mut text, source)?;
    }
    for skipped in &machine.skipped {
        push_line(
            &mut text,
            "skipped ",
            skipped.path.as_str(),
            skipped.why.text(alloc)?.as_str(),
        )?;
    }
    for other in &machine.unplanned {
        push_line(
            &mut text,
            "not planned: ",
            other.path.as_str(),
            other.why.text(alloc)?.as_str(),
        )?;
    }
    if machine.lacks_cron_daemon {
        text.push_str("no cron daemon\n")?;
    }
    Ok(text)
}

fn push_line(text: &mut String, front: &str, path: &str, why: &str) -> Result<(), AllocError> {
    text.push_str(front)?;
    text.push_str(path)?;
    text.push_str(": ")?;
    text.push_str(why)?;
    text.push_str("\n")
}

#[test]
fn a_machine_has_crontabs_and_timers(rt: HostRuntime) -> Result<(), Fail> {
    let alloc = rt.alloc();
    let text = match find_machine(alloc, &TextTree(MACHINE), false, 1_048_577)? {
        Some(machine) => shown(alloc, &machine)?,
        None => String::new(alloc),
    };
    assert_eq!(&rt; text.as_str(), FOUND);
    Ok(())
}
