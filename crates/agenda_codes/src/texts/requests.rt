//! What is said about errors of the arguments and of the machine.

pub(crate) const BAD_BASELINE: &str = "\
A line of the agenda given to 'changes' isn't one that 'plan' prints. The file
was changed, isn't complete, or was made with --json, --delays or --table. The
error names its line. Make the file again.

Before:
    agenda plan --json .. >before
After:
    agenda plan .. >before
";

pub(crate) const BAD_COUNT: &str = "\
The number of --count isn't 1 to 1,000. For more starts run the command again,
with --after set to the last time that was printed.
";

pub(crate) const BAD_FORM: &str = "\
A time doesn't have the form '2024-01-01T00:00:00Z'. Write all 20 characters,
with leading zeros, 'T' and 'Z'.

Before:
    agenda upcoming --after '2024-01-01 6:00' --crontab jobs
After:
    agenda upcoming --after 2024-01-01T06:00:00Z --crontab jobs
";

pub(crate) const BAD_LEAST: &str = "\
The number of --least is 0. Give at least 1.
";

pub(crate) const BAD_LENGTH: &str = "\
The value of --least isn't a length. Give a time span of whole seconds, such as
'90min' or '2h 30min'. It is at least one second.

Before:
    agenda machine quiet --least 1:30
After:
    agenda machine quiet --least '1h 30min'
";

pub(crate) const BAD_LIMIT: &str = "\
The number of --limit isn't 1 to 1,000,000. Give a number in this range.
";

pub(crate) const BAD_SIZE: &str = "\
A size of the planners or of a script's mailbox is out of its range. Give 1 to 8
for --planners and 1 to 1,024 for --room, or omit these options. In the first
line of a script, the number of senders is 1 to 8, and the capacity 1 to 1,024.

Before:
    mailbox 9 16
After:
    mailbox 8 16
";

pub(crate) const BAD_TIME: &str = "\
A text isn't a time. Give a date and a time of day, such as '2026-12-01 22:00'
or 'tomorrow 02:00', only one of them, or the distance from now, such as '+8h'
or '2h ago'. agenda(1) lists all forms.

Before:
    agenda machine plan --since 8h
After:
    agenda machine plan --since +8h
";

pub(crate) const BAD_ZONE: &str = "\
The file of the zone isn't a valid TZif file. Name a file of
/usr/share/zoneinfo, or compile one with zic(8).
";

pub(crate) const BAD_ZONE_NAME: &str = "\
The value of --zone is neither a path nor a name of the time zone database. A
name has parts of letters, digits, '_', '-' and '+', with one '/' between them.
Begin a path with '/' or './'.

Before:
    --zone 'America/New York'
After:
    --zone America/New_York
";

pub(crate) const DEVICE: &str = "\
A file can't be opened or read, or standard output can't be written. If the line
names a file, it doesn't exist, is a directory, or you have no permission to
read it. Check its path and its mode. The file may be that of --zone. If the
line names no file, the disk is full or standard output is closed. Free space on
the disk, or write to another file.
";

pub(crate) const EMPTY_SPAN: &str = "\
The span of 'clear' has no second: --until isn't after --since. Nothing can
start in such a span, so the answer would say nothing. Give a later end.

Before:
    agenda machine clear --since 2026-12-01 --until 2026-12-01
After:
    agenda machine clear --since 2026-12-01 --until 2026-12-02
";

pub(crate) const NO_MEMORY: &str = "\
The program is out of memory, or a thread of a planner couldn't be started.
Choose a shorter span, fewer files, fewer planners or a shorter script, or allow
the program more memory.
";

pub(crate) const NO_SUCH_DATE: &str = "\
The calendar has no such date, or the day has no such time. Check the length of
the month, and whether it is a leap year. Hours go to 23, minutes and seconds to
59.

Before:
    --upto 2024-01-31T24:00:00Z
After:
    --upto 2024-02-01T00:00:00Z
";

pub(crate) const NO_SUCH_ZONE: &str = "\
The time zone database has no zone of that name, or isn't installed. See
'timedatectl list-timezones' for the names, or install the package tzdata. Names
are case-sensitive.

Before:
    --zone europe/berlin
After:
    --zone Europe/Berlin
";

pub(crate) const NOT_SETTLED: &str = "\
The messages of the planners didn't add up at the end, so nothing is printed. It
is proved that this never happens. If it does, report it as a bug.
";

pub(crate) const NOTHING_NAMED: &str = "\
No job, timer or crontab has such a name. The names of jobs are those that
'agenda machine plan' prints. That of a crontab is what its jobs have before the
colon. '*' stands for any bytes and '?' for one byte: quote them.

Before:
    agenda machine clear --except bakcup.timer
After:
    agenda machine clear --except 'backup*'
";

pub(crate) const OUT_OF_YEARS: &str = "\
A time is before 1970, or after 3000-01-01T00:00:00Z. Choose another span. If
the line is about the system clock, set it.
";

pub(crate) const TOO_MANY: &str = "\
The span has more starts than the limit. Raise --limit up to 1,000,000, or
choose a shorter span.
";
