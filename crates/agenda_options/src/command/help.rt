//! The texts of `--help`.

pub(super) const AGENDA: &str = "Shows when cron jobs and systemd timers will run";

pub(super) const AFTER_AGENDA: &str = "\
Times are given and printed in UTC, for the years 1970 to 2999. Rules are read in UTC, or
in the time zone that you give with --zone; --local prints times in that zone, too.
'agenda machine' finds the crontabs, the timers and the time zone of a machine. agenda(1)
describes the formats, the limits and every error.

Examples:
  agenda next --cron @daily --after 2024-01-01T00:00:00Z
  agenda plan --since 2024-01-01T00:00:00Z --until 2024-01-02T00:00:00Z backup.timer
  agenda upcoming --after 2024-01-01T00:00:00Z --crontab jobs backup.timer
  agenda quiet --since 2024-01-01T00:00:00Z --until 2024-01-02T00:00:00Z --crontab jobs
  agenda check --crontab jobs backup.timer
  agenda describe --cron '0 0 1,15 * 5'
  agenda machine check
  agenda explain OutOfRange
  agenda steps script";

pub(super) const NEXT: &str = "Prints the next starts of one rule";

pub(super) const NEXT_USAGE: &str =
    "agenda next [OPTIONS] --after <T> (--cron <TEXT> | --calendar <TEXT>)";

pub(super) const AFTER: &str = "\
Only starts later than this time, in UTC, such as
2024-01-01T00:00:00Z; the years are 1970 to 2999";

pub(super) const ZONE: &str = "\
The time zone of the rules, such as Europe/Berlin,
or the path of a TZif file; UTC if it isn't given";

pub(super) const EVENT_ZONES: &str = "\
Read events that end with a time zone, such as
'Mon..Fri 09:00 Europe/Berlin'";

pub(super) const KEEP_GOING: &str = "Skip what is invalid or can't be read, and report it";

pub(super) const DELAYS: &str = "\
Show each start with the latest time at which it may
happen (RandomizedDelaySec= and AccuracySec=)";

pub(super) const DENY: &str = "\
Print this warning as an error, with status 1; all is
every warning; may be given more than once";

pub(super) const ALLOW: &str = "\
Don't print this warning, even with --deny all; may be
given more than once";

pub(super) const JSON: &str = "\
Print each line as a JSON object; agenda(1)
describes the keys";

pub(super) const LOCAL: &str = "\
Print times in the time zone of --zone, such as
2024-03-31T03:00:00+02:00";

pub(super) const COUNT: &str = "How many starts, from 1 to 1000";

pub(super) const CRON: &str = "\
A cron rule: minute, hour, day of month, month and day
of week, or @hourly, @daily, @weekly, @monthly, @yearly";

pub(super) const CALENDAR: &str = "A calendar event, such as 'Mon..Fri *-*-* 04:30' or daily";

pub(super) const AFTER_NEXT: &str = "\
Give exactly one of --cron and --calendar. Prints one time per line. If the rule has fewer
starts before the year 3000, the last line is 'none'. With --json, there is no such line.
agenda(1) describes both grammars.

Example:
  agenda next --cron '30 4 1,15 * 5' --after 2024-01-01T00:00:00Z --count 4";

pub(super) const PLAN: &str = "Prints every start of crontabs and timers in a span of time";

pub(super) const SINCE: &str = "\
The start of the span, in UTC, such as
2024-01-01T00:00:00Z; the years are 1970 to 2999";

pub(super) const UNTIL: &str = "\
The end of the span, written in the same way; a start
at this time isn't included";

pub(super) const CRONTAB: &str = "A user's crontab, as 'crontab -l' prints it";

pub(super) const SYSTEM_CRONTAB: &str = "\
A crontab whose lines name a user, such as
/etc/crontab";

pub(super) const CRON_D: &str = "\
A package's crontab, such as /etc/cron.d/php;
may be given more than once";

pub(super) const SPOOL: &str = "\
A user's crontab in the spool directory;
may be given more than once";

pub(super) const TUNING: &str = "Tuning (the output stays the same)";

pub(super) const PLANNERS: &str = "How many threads search, from 1 to 8";

pub(super) const ROOM: &str = "\
How many messages of each thread may wait,
from 1 to 1024";

pub(super) const LIMIT: &str = "\
The maximum number of starts, from 1 to 1000000;
more are an error";

pub(super) const TIMER: &str = "A systemd timer file, such as backup.timer";

pub(super) const AFTER_PLAN: &str = "\
Prints a header line with the span and the number of starts, then a line for each start:
the time, the job's name and what it runs, separated by tabs. Lines are sorted by time.
Jobs that start at the same time are in this order: the user's crontab, the system
crontab, --cron-d, --spool, timers. With --delays, the latest time follows the time, and
a start before --since is included if it may be delayed into the span. With --json, there
is no header. agenda(1) describes the formats of the files.

Example:
  agenda plan --since 2024-01-01T00:00:00Z --until 2024-01-02T00:00:00Z \\
    --crontab jobs --limit 100 backup.timer rotate.timer";

pub(super) const UPCOMING: &str = "Prints when each job of crontabs and timers starts next";

pub(super) const AFTER_UPCOMING: &str = "\
Prints a line for each job: the time of its next start, the job's name and what it runs,
separated by tabs. Lines are sorted by time, then by job, as in plan. Jobs that don't
start again before the year 3000 come last, with 'none' instead of a time. With --delays,
the latest time follows the time. With --json, null stands for 'none'. agenda(1) describes
the formats of the files.

Example:
  agenda upcoming --after 2024-01-01T00:00:00Z --crontab jobs backup.timer";

pub(super) const QUIET: &str = "Prints the gaps in which no job of crontabs and timers starts";

pub(super) const QUIET_DELAYS: &str = "\
Show gaps in which no job may start, delays included
(RandomizedDelaySec= and AccuracySec=)";

pub(super) const LEAST: &str = "\
The minimum length of a gap in seconds,
from 1 to 4294967295";

pub(super) const AFTER_QUIET: &str = "\
Prints a line for each gap of the span in which nothing starts: its start, its end and its
length in seconds, separated by tabs. A gap lasts from a job's start, or from --since, to
the next job's start, or to --until. With --delays, it begins at the latest time of all
starts before it. agenda(1) describes the formats of the files.

Example:
  agenda quiet --since 2024-01-01T00:00:00Z --until 2024-01-08T00:00:00Z \\
    --least 3600 --crontab jobs backup.timer";

pub(super) const DOWNTIME: &str = "Prints what a machine misses while it is down, and what then";

pub(super) const AFTER_DOWNTIME: &str = "\
Prints a line for each job with a start in the span, delays included: the time of its first
start and of its last one, the number of its starts, what happens to them, the job's name
and what it runs, separated by tabs. 'lost' is missed for good, 'made up' starts once after
the end of the span (Persistent=), and 'at boot' is a job of @reboot. Lines are sorted by
the first start, then by job. agenda(1) describes the formats of the files.

Example:
  agenda downtime --since 2024-06-01T22:00:00Z --until 2024-06-02T04:00:00Z \\
    --crontab jobs backup.timer";

pub(super) const CLEAR: &str = "Succeeds if no job of crontabs and timers starts in a span";

pub(super) const AFTER_CLEAR: &str = "\
Prints nothing if no start may fall into the span, and the exit status is 0. Otherwise it
prints the first one, as plan --delays prints it, and the exit status is 1. What can't be
read or is invalid is an error, never status 0.

Example:
  agenda clear --since 2024-06-01T22:00:00Z --until 2024-06-01T23:30:00Z backup.timer";

pub(super) const CHANGES: &str = "Compares a plan with one that was made before";

pub(super) const AFTER_CHANGES: &str = "\
Plans the span of the agenda in BEFORE again, and prints a line for each start that is only
in one of both agendas: '-' for one that is only in BEFORE or '+' for one that is new, the
time, the job's name and what it runs, separated by tabs. Starts are compared by their time
and by what they run. The exit status is 0 if nothing changed, otherwise 1.

Example:
  agenda plan --since 2024-01-01T00:00:00Z --until 2024-01-08T00:00:00Z \\
    --crontab jobs >before
  agenda changes before --crontab jobs";

pub(super) const BEFORE: &str = "A file with what 'plan' printed, as text";

pub(super) const WEEK: &str = "Shows how many jobs start in each hour of a span";

pub(super) const AFTER_WEEK: &str = "\
Prints a row for each day and a column for each hour, as the clock of --zone shows them: '.'
for no start, 1 to 9, and '#' for 10 or more. A row ends with the sum of its day, and the
last row has the sums of all days. With --json, prints an object for each hour that has a
start.

Example:
  agenda week --since 2024-05-27T00:00:00Z --until 2024-06-03T00:00:00Z --crontab jobs";

pub(super) const CHECK: &str = "Prints errors and likely mistakes in crontabs and timers";

pub(super) const AFTER_CHECK: &str = "\
Prints all errors of all files, one per line, as PATH:LINE: error: TEXT [CODE], and
warnings, as PATH:LINE: warning: TEXT [CODE], about lines that are valid but may not mean
what you intended. A message about a whole file has no line number. The exit status is 1
if there is an error, otherwise 0. 'agenda explain CODE' says what to do about each CODE.

A comment '# agenda: allow CODE ..' directly above a line allows these warnings there; at
the head of a file, it allows them in the whole file.

Examples:
  agenda check --crontab jobs backup.timer
  agenda check --deny all --allow EitherDay --cron-d etc/cron.d/backup";

pub(super) const DESCRIBE: &str = "Says in words when a rule or each job starts";

pub(super) const AFTER_DESCRIBE: &str = "\
With --cron or --calendar, prints one line: when the rule starts its job. Otherwise prints
a line for each job of the files: its name, when it starts, and what it runs, separated by
tabs. The words say exactly which times match: rules that match different times never have
the same words. A rule of --cron or --calendar comes without files.

Examples:
  agenda describe --cron '0 0 1,15 * 5'
  agenda describe --crontab jobs backup.timer";

pub(super) const MACHINE: &str = "Answers questions about a machine's crontabs and timers";

pub(super) const AFTER_MACHINE: &str = "\
The machine is the one that agenda runs on, or, with --root, one whose disk is mounted at
DIR. Its crontabs, its timers with their drop-ins, and its time zone are found by the rules
of cron and systemd. Nothing on it is changed. agenda(1) says which files are read.
Without a command, the options are those of upcoming.

Examples:
  agenda machine
  agenda machine plan --since 'sat 22:00' --until 'sun 04:00'
  agenda machine check --root /mnt";

pub(super) const NOMINAL: &str = "Don't count the delays of timers";

pub(super) const STEPS: &str = "Runs a script of steps on a mailbox, for testing";

pub(super) const FILE: &str =
    "The script: a line that makes the mailbox, then a line for each step";

pub(super) const AFTER_STEPS: &str = "\
Prints the mailbox's reply to each step, one per line. The first line of the script is
'mailbox SENDERS CAPACITY': 1 to 8 senders, each with 1 to 1024 messages that may wait.
Each further line is a step, 10000 at most: 'send S TEXT', 'take' or 'close S', where S
counts the senders from 0. agenda-steps(1) describes the replies.

Example:
  agenda steps script";

pub(super) const EXPLAIN: &str = "Explains a code, such as OutOfRange, and what to do about it";

pub(super) const CODE: &str = "\
The code of an error or a warning, in upper or lower case;
without it, all codes are listed";

pub(super) const AFTER_EXPLAIN: &str = "\
A code is the name that a line of an error or a warning ends with. Prints what the code
means and what to do about it, for some codes with an example. Without a code, prints a
line for each: the code and what it means in one sentence, separated by a tab. agenda(1)
has the same sentences.

Example:
  agenda explain OutOfRange";
