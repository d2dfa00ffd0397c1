//! What is said about errors in files and scripts.

pub(crate) const BAD_LINE: &str = "\
A line of a script has none of the forms that are allowed. Check that words are
separated by exactly one space. The first line makes the mailbox, and each
further line is a step. An empty script is reported at line 1.

Before:
    take 0
After:
    take
";

pub(crate) const BAD_SETTING: &str = "\
A line of a crontab begins like a setting and has no '='. If it is meant to be a
job, write the five fields, or a word with '@', before the command.

Before:
    backup --all
After:
    @daily backup --all
";

pub(crate) const BAD_TAB_NAME: &str = "\
The name of a file of --cron-d or --spool isn't allowed there. If an editor or
dpkg left the file, such as php.dpkg-old, don't give it: cron doesn't read it
either. Else give a copy under another name.

Before:
    /etc/cron.d/backup.sh
After:
    /etc/cron.d/backup
";

pub(crate) const BAD_TIMER_NAME: &str = "\
The file's name isn't one of a timer. It must end in '.timer', and have 7 to 255
characters: letters, digits and ':', '-', '_', '.' and '\\'. Give a copy under
another name. If the file is a template or an instance, which has an '@' in its
name, also replace the specifiers in the copy by their values. 'agenda machine'
does both for you.

Before:
    backup@home.timer
After:
    backup-home.timer
";

pub(crate) const FULL: &str = "\
There are more than 1,000 jobs. Plan the files one after the other. Remove the
header of each agenda with 'tail -n +2', and merge the other lines with sort(1).
'agenda check' reports the first job after 1,000. This job and those after it
aren't added, but their rules are checked.
";

pub(crate) const NO_COMMAND: &str = "\
The line has a rule but no command. In a crontab whose lines name a user, the
user or the command is missing. Check that you gave the right one of --crontab
and --system-crontab.

Before:
    30 4 * * * backup
After:
    30 4 * * * root backup
";

pub(crate) const NO_TIMER_SECTION: &str = "\
The file has no section '[Timer]'. Add it, or don't give the file.

Before:
    OnCalendar=daily
After:
    [Timer]
    OnCalendar=daily
";

pub(crate) const NOT_UTF8: &str = "\
The bytes of the file aren't UTF-8. Convert them with iconv(1).
";

pub(crate) const SAME_NAME: &str = "\
Two jobs have the same name, because a file is given twice or because files of
two directories have the same name. Of two timers, give the one that systemd
would use. If a package's crontab and a user's have the same name, give a copy
of one under another name.
";

pub(crate) const TOO_LARGE: &str = "\
The file has more than 1,048,576 bytes. Check its path, or split it. The file of
a zone must be a TZif file, which is smaller.
";

pub(crate) const TOO_MANY_LINES: &str = "\
The timer has more than 64 events at once. Split it into two files.
";

pub(crate) const TOO_MANY_STEPS: &str = "\
The script has more than 10,000 steps. Split it.
";
