//! The texts of `--help` of `agenda machine` and of its questions.

pub(super) const TABLE: &str = "Print a table, also if standard output isn't a terminal";

pub(super) const TEXT: &str = "Print text, also on a terminal";

pub(super) const USAGE: &str = "agenda machine [COMMAND] [OPTIONS]";

pub(super) const ROOT: &str = "Read the machine whose root directory is DIR";

pub(super) const ALL: &str = "Include timers that aren't enabled";

pub(super) const ZONE: &str = "\
The time zone of the rules, such as Europe/Berlin,
or the path of a TZif file; that of the machine
if it isn't given";

pub(super) const UTC: &str = "\
Read the rules in UTC, like --zone UTC, and print
times in UTC";

pub(super) const AFTER: &str = "\
Only starts later than this time, such as
'tomorrow 02:00', '2026-12-01 22:00' or +8h";

pub(super) const SINCE: &str = "\
The start of the span, such as 'tomorrow 02:00',
'2026-12-01 22:00' or +8h";

pub(super) const UNTIL: &str = "\
The end of the span, written in the same way, which
isn't in it; 06:00 and +8h are counted from its
start";

pub(super) const LEAST: &str = "\
The minimum length of a gap, such as 90min or 2h";

pub(super) const EXCEPT: &str = "\
Ignore the jobs and crontabs with such a name: in it
* stands for any bytes and ? for one byte; may be
given more than once";

pub(super) const ONLY: &str = "Ignore all other jobs; may be given more than once";

pub(super) const IDLE: &str = "\
Include idle jobs, whose commands do nothing on the
machine; otherwise they are only reported";

pub(super) const STRICT: &str = "\
Let an error in a file stop the answer, instead of
skipping what is invalid";

pub(super) const UPCOMING: &str = "Prints when each job of a machine starts next";

pub(super) const AFTER_UPCOMING: &str = "\
Prints what 'agenda upcoming' prints, about the files that 'agenda machine sources' lists.
Times are those of the machine's clocks, with their offset from UTC. Standard error has a
line for each file that is skipped or isn't planned, and the errors of the files. The exit
status is 1 if there is such an error or if a file can't be read, otherwise 0.

Example:
  agenda machine upcoming --root /mnt --delays";

pub(super) const PLAN: &str = "Prints every start of a machine's jobs in a span of time";

pub(super) const AFTER_PLAN: &str = "\
Prints what 'agenda plan' prints, about the files that 'agenda machine sources' lists.
Times are those of the machine's clocks, with their offset from UTC. Standard error has a
line for each file that is skipped or isn't planned, and the errors of the files. The exit
status is 1 if there is such an error or if a file can't be read, otherwise 0.

Example:
  agenda machine plan --since 'sat 22:00' --until 'sun 04:00'";

pub(super) const QUIET: &str = "Prints the gaps in which no job of a machine starts";

pub(super) const AFTER_QUIET: &str = "\
Prints what 'agenda quiet --delays' prints, about the files that 'agenda machine sources'
lists. Times are those of the machine's clocks, with their offset from UTC. Standard error
has a line for each file that is skipped or isn't planned, and the errors of the files.
The exit status is 1 if there is such an error or if a file can't be read, otherwise 0.

Example:
  agenda machine quiet --since tomorrow --least 2h";

pub(super) const DOWNTIME: &str = "Prints what a machine misses while it is down, and what then";

pub(super) const AFTER_DOWNTIME: &str = "\
Prints what 'agenda downtime' prints, about the files that 'agenda machine sources' lists.
Times are those of the machine's clocks, with their offset from UTC. Standard error has a
line for each file that is skipped or isn't planned, and the errors of the files. The exit
status is 1 if there is such an error or if a file can't be read, otherwise 0.

Example:
  agenda machine downtime --since 'sat 22:00' --until 'sun 04:00'";

pub(super) const CLEAR: &str = "Succeeds if no job of a machine starts in a span";

pub(super) const AFTER_CLEAR: &str = "\
Exit status 0: no start of a job may fall into the span, and nothing is unknown. 1: a start
may, and the first one is printed. 4: none is known to, but a job may start at times that
files don't tell, as standard error says. 2: an argument is rejected.

Example:
  agenda machine clear --until +90min && reboot";

pub(super) const CHANGES: &str = "Compares a machine's plan with one made before";

pub(super) const AFTER_CHANGES: &str = "\
Prints what 'agenda changes' prints, about the files that 'agenda machine sources' lists.
BEFORE has what 'agenda machine plan' printed into a file. Times are those of the machine's
clocks, with their offset from UTC. Standard error has a line for each file that is skipped
or isn't planned, and the errors of the files. The exit status is 1 if a start changed, if
there is such an error or if a file can't be read, otherwise 0.

Example:
  agenda machine plan --until +7d >before
  agenda machine changes before";

pub(super) const WEEK: &str = "Shows how many jobs of a machine start in each hour";

pub(super) const AFTER_WEEK: &str = "\
Prints what 'agenda week' prints, about the files that 'agenda machine sources' lists, in
the machine's time zone: a week from the start of today, if no span is given. Standard
error has a line for each file that is skipped or isn't planned, and the errors of the
files. The exit status is 1 if there is such an error or if a file can't be read, otherwise
0.

Example:
  agenda machine week --since 'mon' --until '+7d'";

pub(super) const SCRIPTS: &str =
    "Lists the scripts that run-parts starts, with the next start of each";

pub(super) const AFTER_SCRIPTS: &str = "\
Prints a line for each script that a job of the machine starts by run-parts, such as those
in /etc/cron.daily: the name of the job, the time of its next start and the path of the
script, separated by tabs. A job starts its scripts one after the other, in the order of
their lines. Times are those of the machine's clocks, with their offset from UTC. Standard
error has a line for each file that is skipped or isn't planned, and the errors of the
files. The exit status is 1 if there is such an error or if a file can't be read, otherwise
0.

Examples:
  agenda machine scripts
  agenda machine scripts --after 'tomorrow'";

pub(super) const SOURCES: &str = "Lists a machine's crontabs and timers";

pub(super) const AFTER_SOURCES: &str = "\
Prints a line for each crontab and each timer: its kind, its name and its path, separated
by tabs. The kinds are system-crontab, cron-d, spool and timer. After a timer there is a
line of the kind drop-in for each of its drop-ins. Standard error has a line for each file
that is skipped or isn't planned. The exit status is 1 if a file or a directory can't be
read, otherwise 0.

Example:
  agenda machine sources --root /mnt --all";

pub(super) const CHECK: &str =
    "Prints errors and likely mistakes in a machine's crontabs and timers";

pub(super) const AFTER_CHECK: &str = "\
Prints all errors and warnings about the files that 'agenda machine sources' lists, in the
form of 'agenda check'. Each names the file and the line that it is about, even if that is
a line of a drop-in. Standard error has a line for each file that is skipped or isn't
planned. The exit status is 1 if there is an error, or if a file or a directory can't be
read, otherwise 0.

Example:
  agenda machine check --root /mnt --zone Europe/Berlin";

pub(super) const NEXT: &str = "Prints the next starts of a rule by the machine's clock";

pub(super) const RULE: &str = "\
A cron rule of five words, or one that begins with @,
or a calendar event of systemd; put it in quotes";

pub(super) const AFTER_NEXT: &str = "\
Prints what 'agenda next' prints of the rule, in the time zone of the machine that agenda
runs on. Times are those of its clocks, with their offset from UTC. A RULE of five words,
or that begins with @, is a cron rule; any other is a calendar event, which may end with a
time zone.

Examples:
  agenda machine next '30 2 * * *'
  agenda machine next 'Mon..Fri 09:00 Europe/Berlin' --count 1";

pub(super) const DESCRIBE: &str = "Says in words when each job of a machine starts";

pub(super) const AFTER_DESCRIBE: &str = "\
Prints what 'agenda describe' prints, about the files that 'agenda machine sources' lists,
or, with a RULE, about this rule alone. Standard error has a line for each file that is
skipped or isn't planned, and the errors of the files. The exit status is 1 if there is
such an error or if a file can't be read, otherwise 0.

Examples:
  agenda machine describe
  agenda machine describe 'Mon..Fri 09:00 Europe/Berlin'";
