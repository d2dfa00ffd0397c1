//! Runs of the program as rows of text, and the files that they read.

/// The files of the rows: for each file a line with its path, and what it has. Lines with `%` are between them.
pub const FILES: &str = "\
steps
mailbox 1 1
send 0 a
send 0 b
take
%
twelve
mailbox 2 2
send 0 a
send 0 b
send 0 c
send 1 d
take
take
close 0
send 0 e
take
take
close 1
take
%
crontab
# nightly
MAILTO=x
@reboot a
@daily b
%
timers/rot.timer
[Timer]
OnCalendar=daily
%
unmeant
0 0 31 2 * a
0 0 1 * 1 b
%
n.timer
[Timer]
%
broken
@daily b
@dayly c
%
minutes
* * * * * x
%
./a
no TZif
%
/usr/share/zoneinfo/Europe/Oslo
TZif2\0\0\0\0\0\0\0\0\0\0\0\0\0\0\0\0\0\0\0\0\0\0\0\0\0\0\0\0\0\0\0\0\0\0\x01\0\0\0\x04\
    \0\0\x0e\x10\0\0CET\0\
    TZif2\0\0\0\0\0\0\0\0\0\0\0\0\0\0\0\0\0\0\0\0\0\0\0\0\0\0\0\0\0\0\0\0\0\0\x01\0\0\0\x04\
    \0\0\x0e\x10\0\0CET\0
CET-1CEST,M3.5.0,M10.5.0/3
%
./oslo
TZif2\0\0\0\0\0\0\0\0\0\0\0\0\0\0\0\0\0\0\0\0\0\0\0\0\0\0\0\0\0\0\0\0\0\0\x01\0\0\0\x04\
    \0\0\x0e\x10\0\0CET\0\
    TZif2\0\0\0\0\0\0\0\0\0\0\0\0\0\0\0\0\0\0\0\0\0\0\0\0\0\0\0\0\0\0\0\0\0\0\x01\0\0\0\x04\
    \0\0\x0e\x10\0\0CET\0
CET-1CEST,M3.5.0,M10.5.0/3
%
t.timer
[Timer]
OnCalendar=09:00 Europe/Oslo
OnCalendar=No/Zone 10:00
OnCalendar=10:00 Europe/Oslo
OnCalendar=daily No/Zone
OnCalendar=daily UTC
OnCalendar=hourly No/Zone
OnCalendar=11:00 Europe/Oslo
";

// The first part of each table: the exit status, how many files are opened, and the arguments, which are
// separated by bars. The text on standard output follows. A line `--` is before that on standard error. Lines
// with `%` are between rows.

/// Requests that are answered, one of each command.
pub const ANSWERS: &str = "\
0 0 agenda|next|--after|2024-01-01T00:00:00Z|--count|4|--cron|30 4 1,15 * 5
2024-01-01T04:30:00Z
2024-01-05T04:30:00Z
2024-01-12T04:30:00Z
2024-01-15T04:30:00Z
%
0 1 agenda|steps|twelve
sent
sent
full c
sent
took 0 a
took 1 d
shut
closed e
took 0 b
nothing
shut
ended
%
0 2 agenda|plan|--since|2024-01-01T00:00:00Z|--upto|2024-01-02T00:00:00Z|--crontab|crontab|timers/rot.timer
agenda 2\t2024-01-01T00:00:00Z\t2024-01-02T00:00:00Z\t2
2024-01-01T00:00:00Z\tcron:4\tb
2024-01-01T00:00:00Z\trot.timer\trot.service
%
0 2 agenda|upcoming|--after|2024-01-01T00:00:00Z|--crontab|crontab|timers/rot.timer
2024-01-02T00:00:00Z\tcron:4\tb
2024-01-02T00:00:00Z\trot.timer\trot.service
none\tcron:3\ta
%
0 2 agenda|quiet|--since|2024-01-01T00:00:00Z|--upto|2024-01-02T00:00:00Z|--crontab|crontab|timers/rot.timer
2024-01-01T00:00:00Z\t2024-01-02T00:00:00Z\t86400
%
0 2 agenda|check|--crontab|unmeant|n.timer
unmeant:1: warning: never starts [NeverStarts]
unmeant:2: warning: starts on days that match either day field, not both [EitherDay]
n.timer: warning: systemd 252 rejects this timer: it has no valid trigger [TimerRejected]
";

/// A request that skips a file, so that its status is 3 in any case.
pub const KEPT: &str = "\
3 2 agenda|upcoming|--after|2024-01-01T00:00:00Z|--keep-going|--crontab|broken|a b.timer
2024-01-02T00:00:00Z\tcron:1\tb
--
agenda: a b.timer: Device
broken:2: error: unknown word '@dayly' [UnknownWord]
";

/// Requests that are rejected or fail.
pub const ERRORS: &str = "\
1 0 agenda|next|--after|2024-01-01T00:00:00Z|--cron|60 * * * *
--
agenda: rule: part 1: OutOfRange
%
2 0 agenda|next|--after|2024-01-01T00:00:00Z
--
exactly one of --cron and --calendar
%
3 1 agenda|steps|b c
--
agenda: b c: Device
";

/// Requests that show which files are opened.
///
/// Times and the span are checked before any file is opened, and the minimum gap of `quiet` after all files are
/// read and before their texts are. Each path is opened once, up to the first that fails. No file is opened for
/// UTC. The file of a zone is opened once, also if events name it, and without `--event-zones` for no event.
pub const OPENED: &str = "\
0 0 agenda|next|--after|2999-12-31T23:59:59Z|--cron|* * * * *|--zone|UTC
none
%
0 0 agenda|next|--after|2024-07-01T00:00:00Z|--calendar|07:00 UTC|--event-zones
2024-07-01T07:00:00Z
%
0 1 agenda|next|--after|2024-07-01T00:00:00Z|--calendar|09:00 Europe/Oslo|--event-zones|--count|1
2024-07-01T07:00:00Z
%
0 1 agenda|next|--after|2024-07-01T00:00:00Z|--calendar|09:00 Europe/Oslo|--event-zones|--zone|Europe/Oslo
2024-07-01T07:00:00Z
%
0 1 agenda|next|--after|2024-07-01T00:00:00Z|--calendar|09:00 Europe/Oslo|--event-zones|--zone|/usr/share/zoneinfo/Europe/Oslo
2024-07-01T07:00:00Z
%
0 2 agenda|next|--after|2024-07-01T00:00:00Z|--calendar|09:00 Europe/Oslo|--event-zones|--zone|./oslo
2024-07-01T07:00:00Z
%
0 1 agenda|steps|steps
sent
full b
took 0 a
%
0 1 agenda|plan|--since|2024-01-01T00:00:00Z|--upto|2024-01-01T00:00:00Z|--crontab|crontab
agenda 2\t2024-01-01T00:00:00Z\t2024-01-01T00:00:00Z\t0
%
0 2 agenda|check|--crontab|crontab|timers/rot.timer
%
1 2 agenda|check|--cron-d|timers/rot.timer|crontab
timers/rot.timer: error: not a name that cron reads [BadTabName]
timers/rot.timer:1: error: expected five fields and a command [WrongParts]
crontab: error: not a timer's name: it must end in .timer and name no template (for a crontab, use --crontab or --cron-d) [BadTimerName]
crontab: error: no [Timer] section [NoTimerSection]
%
1 3 agenda|check|--event-zones|t.timer|--zone|UTC
t.timer:3: error: weekday in 'No/Zone 10:00': unknown name [BadName]
t.timer:5: error: time zone in 'daily No/Zone': unknown [Zone]
t.timer:7: error: time zone in 'hourly No/Zone': unknown [Zone]
%
1 3 agenda|check|--event-zones|t.timer|--zone|Europe/Oslo
t.timer:3: error: weekday in 'No/Zone 10:00': unknown name [BadName]
t.timer:5: error: time zone in 'daily No/Zone': unknown [Zone]
t.timer:7: error: time zone in 'hourly No/Zone': unknown [Zone]
%
1 1 agenda|upcoming|--after|2024-01-01T00:00:00Z|--keep-going|--crontab|broken
2024-01-02T00:00:00Z\tcron:1\tb
--
broken:2: error: unknown word '@dayly' [UnknownWord]
%
1 1 agenda|next|--after|2999-12-31T23:59:59Z|--cron|* * * * *|--zone|./a
--
agenda: zone: BadZone
%
1 0 agenda|next|--after|2999-12-31T23:59:59Z|--cron|* * * * *|--zone|a b
--
agenda: zone: BadZoneName
%
1 1 agenda|next|--after|2999-12-31T23:59:59Z|--cron|* * * * *|--zone|No/File
--
agenda: zone: NoSuchZone
%
1 1 agenda|next|--after|2024-07-01T00:00:00Z|--calendar|09:00 No/Zone|--event-zones
--
agenda: rule: part 8: Zone
%
1 0 agenda|next|--after|2024-07-01T00:00:00Z|--calendar|09:00 Europe/Oslo
--
agenda: rule: part 8: Zone
%
1 1 agenda|plan|--since|2024-01-01T00:00:00Z|--upto|2024-01-02T00:00:00Z|--crontab|c|--zone|./a
--
agenda: zone: BadZone
%
3 1 agenda|plan|--since|2024-01-01T00:00:00Z|--upto|2024-01-02T00:00:00Z|--crontab|c|--zone|./b
--
agenda: ./b: Device
%
3 1 agenda|plan|--since|2024-01-01T00:00:00Z|--upto|2024-01-02T00:00:00Z|--crontab|c|--zone|UTC
--
agenda: c: Device
%
1 0 agenda|plan|--since|2024|--upto|x|timers/rot.timer
--
agenda: since: BadForm
%
1 0 agenda|plan|--since|2024-01-01T00:00:00Z|--upto|2023-12-31T23:59:59Z|--crontab|crontab
--
agenda: span: Backwards
%
1 0 agenda|plan|--since|2024-01-01T00:00:00Z|--upto|2024-02-30T00:00:00Z|--crontab|crontab
--
agenda: upto: NoSuchDate
%
3 2 agenda|plan|--since|2024-01-01T00:00:00Z|--upto|2024-01-02T00:00:00Z|--crontab|crontab|--system-crontab|a b|c.timer
--
agenda: a b: Device
%
3 2 agenda|check|--crontab|crontab|--system-crontab|a b|c.timer
--
agenda: a b: Device
%
1 0 agenda|upcoming|--after|x|timers/rot.timer
--
agenda: after: BadForm
%
1 2 agenda|quiet|--since|2024-01-01T00:00:00Z|--upto|2024-01-02T00:00:00Z|--least|0|--crontab|timers/rot.timer|--cron-d|crontab
--
agenda: quiet: BadLeast
";

/// Requests whose answers are of another form, or longer than 65,536 bytes. Each line has the exit status, the
/// number of writes, the arguments and, after `=`, the number of bytes where it is known.
///
/// Those are a thousand lines of 69 bytes; 1,440 lines of 58 and of 76 bytes; a thousand lines of 66 and of 124
/// bytes, without the digits of their numbers, of which there are 2,893; and a header of 56 bytes with 5,760 lines
/// of 30 bytes.
pub const WRITES: &str = "\
0 1 agenda|--help
0 1 agenda|plan|--help
0 1 agenda|--version
0 1 agenda|explain
0 1 agenda|next|--after|2024-01-01T00:00:00Z|--count|4|--cron|30 4 1,15 * 5|--json
0 1 agenda|plan|--since|2024-01-01T00:00:00Z|--upto|2024-01-02T00:00:00Z|--crontab|crontab|--json
0 1 agenda|plan|--since|2024-01-01T00:00:00Z|--upto|2024-01-02T00:00:00Z|--crontab|crontab|--local
0 1 agenda|plan|--since|2024-01-01T00:00:00Z|--upto|2024-01-02T00:00:00Z|--crontab|crontab|--json|--local|--delays
0 1 agenda|plan|--since|2024-01-01T00:00:00Z|--upto|2024-01-02T00:00:00Z|--crontab|crontab|--keep-going
0 1 agenda|quiet|--since|2024-01-01T00:00:00Z|--upto|2024-01-02T00:00:00Z|--crontab|crontab|--json
0 1 agenda|quiet|--since|2024-01-01T00:00:00Z|--upto|2024-01-02T00:00:00Z|--crontab|crontab|--local
0 1 agenda|quiet|--since|2024-01-01T00:00:00Z|--upto|2024-01-02T00:00:00Z|--crontab|crontab|--json|--local|--delays
0 1 agenda|quiet|--since|2024-01-01T00:00:00Z|--upto|2024-01-02T00:00:00Z|--crontab|crontab|--keep-going
0 1 agenda|upcoming|--after|2024-01-01T00:00:00Z|--crontab|crontab|--json
0 1 agenda|upcoming|--after|2024-01-01T00:00:00Z|--crontab|crontab|--local
0 1 agenda|upcoming|--after|2024-01-01T00:00:00Z|--crontab|crontab|--json|--local|--delays
0 1 agenda|upcoming|--after|2024-01-01T00:00:00Z|--crontab|crontab|--keep-going
0 1 agenda|check|--json|--crontab|unmeant|n.timer
0 2 agenda|next|--json|--local|--count|1000|--after|2024-01-01T00:00:00Z|--cron|* * * * *=69000
0 2 agenda|plan|--json|--since|2024-01-01T00:00:00Z|--upto|2024-01-02T00:00:00Z|--crontab|minutes=83520
0 2 agenda|quiet|--json|--least|60|--since|2024-01-01T00:00:00Z|--upto|2024-01-02T00:00:00Z|--crontab|minutes=109440
0 2 agenda|upcoming|--json|--after|2024-01-01T00:00:00Z|--crontab|jobs=68893
1 2 agenda|check|--json|--crontab|faults=126893
0 3 agenda|plan|--since|2024-01-01T00:00:00Z|--upto|2024-01-05T00:00:00Z|--crontab|minutes=172856";

/// A row of these tables.
#[derive(Drop)]
pub struct Row<'a> {
    /// The exit status.
    pub status: u8,
    /// The number of files that are opened, or of writes.
    pub count: usize,
    /// The arguments.
    pub words: &'a str,
    /// The text on standard output.
    pub out: &'a str,
    /// The text on standard error.
    pub err: &'a str,
}

impl<'a> Row<'a> {
    /// Reads a row. If it has another form, no run is as it says.
    pub fn read(row: &'a str) -> Row<'a> {
        let (head, texts) = row.split_once('\n').unwrap_or((row, ""));
        let (out, err) = texts.split_once("--\n").unwrap_or((texts, ""));
        let (status, head) = head.split_once(' ').unwrap_or(("", head));
        let (count, words) = head.split_once(' ').unwrap_or(("", head));
        Row {
            status: status.parse().unwrap_or(255),
            count: count.parse().unwrap_or(usize::MAX),
            words,
            out,
            err,
        }
    }
}
