//! What is said about warnings.

pub(crate) const BAD_BOOLEAN: &str = "\
The value of 'Persistent=' isn't a boolean, so systemd ignores it. An empty
value isn't one either. The last boolean counts. If there is none, the timer
doesn't make up for starts that it missed. Write 'yes' or 'no'.

Before:
    Persistent=enabled
After:
    Persistent=yes
";

pub(crate) const BAD_DELAY: &str = "\
The value of 'RandomizedDelaySec=' or 'AccuracySec=' isn't a time span, so
systemd ignores it. The last valid value counts. If there is none, the random
delay is 0, or the accuracy a minute. Write numbers with units, such as '90s',
'5min' or '1h 30min'. systemd.time(7) lists the units.

Before:
    AccuracySec=5mins
After:
    AccuracySec=5min
";

pub(crate) const CARRIAGE_RETURN: &str = "\
The command of a line ends with a carriage return. The file was probably saved
by an editor on Windows. cron hands the carriage return to the shell, which
takes it as part of the last argument. Remove it from each line, for example
with dos2unix(1).
";

pub(crate) const CRON_DIFFERS: &str = "\
Debian's cron reads this line otherwise. The message says how. A command that
begins with '=' after a word such as '@daily' makes the line a setting. A NUL
byte ends the line. Of two backslashes in a row in a command, cron removes one.

Before:
    @daily grep -c '\\\\.' list
After:
    @daily grep -c '[.]' list
";

pub(crate) const CRON_IGNORES: &str = "\
Debian's cron ignores the whole file, so it starts none of its jobs. The message
says why. cron ignores a file if it rejects one line of it, if the file has more
than 10,003 lines, or if the last line has no newline at its end. cron writes to
the system's log that it ignored a file, and says nothing else.

Before:
    MAILTO=
After:
    MAILTO=\"\"
";

pub(crate) const DELAYED: &str = "\
The timer starts up to the time of 'RandomizedDelaySec=' later than planned. If
that doesn't matter, do nothing. To see how late a job may start, give --delays
to plan, upcoming or quiet. To start on time, remove the setting or set it to 0.

Before:
    RandomizedDelaySec=1h
After:
    RandomizedDelaySec=0
";

pub(crate) const EITHER_DAY: &str = "\
Both day fields are restricted, so the job starts on each day that either of
them matches. For example, '0 9 13 * 5' starts on each 13th and on each Friday.
If you meant this, do nothing. If you meant days that match both, write a timer,
such as 'Fri *-*-13 09:00', or let the command check the day.

Before:
    0 9 13 * 5 report
After:
    0 9 13 * * test $(date +\\%u) != 5 || report
";

pub(crate) const LINE_END: &str = "\
The line has a carriage return before its end, or a NUL byte, and systemd ends
the line there. systemd reads what follows a carriage return as another line.
Remove the byte, for example with dos2unix(1).
";

pub(crate) const MAY_STOP: &str = "\
systemd 252 may stop for good at this event, in a zone with summer time. A step
of the event has no end. When the clock changes, systemd can fail to find the
next start, and then the timer starts no more. Write the values out.

Before:
    OnCalendar=*-1/5-3 07:00 Europe/Oslo
After:
    OnCalendar=*-1,6,11-3 07:00 Europe/Oslo
";

pub(crate) const MERGED: &str = "\
Starts of the timer are closer to each other than its accuracy, so systemd may
merge them into one. The accuracy is the value of 'AccuracySec=', or a minute. A
random delay adds to it. For example, '*:*:0/10' starts once a minute. To have
each start, set the accuracy to a second or less.

Before:
    OnCalendar=*:*:0/10
After:
    OnCalendar=*:*:0/10
    AccuracySec=1s
";

pub(crate) const MONOTONIC: &str = "\
The timer also starts by 'OnBootSec=' or the like, which isn't planned. Such a
start depends on when the machine was booted, or on when a unit was last active.
If you need only the starts of 'OnCalendar=', do nothing. Otherwise expect more
starts than agenda prints.
";

pub(crate) const NEVER_STARTS: &str = "\
The rule of this line, or this event, has no start in any year. For example, it
names the 30th of February, or a date that the zone skipped. Check whether the
day fits the month, and the date the weekday. 'agenda next' prints the starts of
a corrected rule.

Before:
    0 0 31 4,6,9,11 * close-month
After:
    0 0 30 4,6,9,11 * close-month
";

pub(crate) const NO_EVENTS: &str = "\
The timer has a section '[Timer]', but no event is in it at the end. It starts
by 'OnClockChange=' or 'OnTimezoneChange=' alone, so no start is planned. If you
meant this, do nothing. Otherwise look for an empty value after the events.

Before:
    OnCalendar=daily
    OnCalendar=
    OnClockChange=yes
After:
    OnCalendar=
    OnCalendar=daily
    OnClockChange=yes
";

pub(crate) const NO_USER: &str = "\
The user of the line can't be the name of a user. It has a '/', or it begins
with '-' or a digit. In the system's crontab, and in files of /etc/cron.d, each
line has a user before the command. Write the user.

Before:
    30 4 * * * /usr/bin/backup --all
After:
    30 4 * * * root /usr/bin/backup --all
";

pub(crate) const PERCENT: &str = "\
The command has a '%' that doesn't follow a backslash, so cron ends the command
there. cron passes the rest to the command as its input, with a newline for each
further '%'. If you meant this, do nothing. Otherwise write '\\%' for each '%'.

Before:
    0 4 * * * backup --name $(date +%F)
After:
    0 4 * * * backup --name $(date +\\%F)
";

pub(crate) const RANGE_FROM_END: &str = "\
systemd 252 reads a range with a step after '~' from its first value on. agenda
reads it from the greater value down. For example, '1..4/2' has the values 1 and
3 for systemd, and 4 and 2 for agenda. End the range at a value that its step
reaches.

Before:
    OnCalendar=*-*~1..4/2
After:
    OnCalendar=*-*~1..3/2
";

pub(crate) const SKIPPED_STARTS: &str = "\
A step of the event has no end, and systemd 252 may skip starts because of it.
systemd carries such a step past the limit of its component into the next larger
one, and then skips the values before the carried one. For example, '*:0/25'
starts at 01:00, at 02:00 and so on, but never at 00:00. Give the step an end.

Before:
    OnCalendar=*:0/25
After:
    OnCalendar=*:0..50/25
";

pub(crate) const SYSTEMD_REJECTS: &str = "\
systemd 252 rejects the event, so the timer doesn't start at it. agenda reads it
as systemd.time(7) describes events, and plans it. The message says what to
write instead. 'systemd-analyze calendar' says how systemd reads an event.

Before:
    OnCalendar=*:*/15
After:
    OnCalendar=*:0/15
";

pub(crate) const TIMER_REJECTED: &str = "\
systemd 252 rejects the whole timer, so it starts nothing. The message says why.
A line that begins with '[' has to be a section's header, such as '[Timer]'. And
the timer needs a trigger: an event that systemd accepts, a monotonic setting
such as 'OnBootSec=' with a time span, or 'OnClockChange=' or
'OnTimezoneChange=' that is true.

Before:
    [Unit
    Description=Backup
    [Timer]
    OnCalendar=daily
After:
    [Unit]
    Description=Backup
    [Timer]
    OnCalendar=daily
";

pub(crate) const UNIT_IGNORED: &str = "\
systemd 252 ignores the value of 'Unit=', so the timer starts the service of its
own name. The value isn't the name of a unit with a suffix that systemd knows,
or it is the timer itself.

Before:
    Unit=backup
After:
    Unit=backup.service
";

pub(crate) const UNKNOWN_KEY: &str = "\
A setting in '[Timer]' isn't one of systemd.timer(5), so systemd ignores it.
Check its spelling: upper and lower case differ. If it belongs to another
section, move it there.

Before:
    OnCalender=daily
After:
    OnCalendar=daily
";

pub(crate) const ZONE_SETTING: &str = "\
The line sets 'CRON_TZ', which only cronie reads. agenda reads all rules in one
zone, that of --zone. If the crontab is for another cron, remove the line, and
write the rules in the zone of the machine. If it is for cronie, plan this
crontab alone, with the zone of the line as --zone.
";
