//! What is said about errors in rules and calendar events.

pub(crate) const BACKWARDS: &str = "\
A range in a rule, or the span of --since and --upto, ends before it starts.
Split the range in two, such as '22-23,0-4' for '22-4'. If it is the span, swap
the two times.

Before:
    0 22-4 * * * backup
After:
    0 22-23,0-4 * * * backup
";

pub(crate) const BAD_NAME: &str = "\
A month or weekday has a name that isn't known, or a part has a name and can't
have one. In a cron rule write three letters. In a calendar event weekdays may
also be written in full, and months are numbers.

Before:
    0 6 * * monday report
After:
    0 6 * * mon report
";

pub(crate) const BAD_NUMBER: &str = "\
A value isn't a number of 1 to 4 digits. Write digits only: forms with '~' or
'?' aren't supported.

Before:
    0 6 ? * 1-5 report
After:
    0 6 * * 1-5 report
";

pub(crate) const FRACTION: &str = "\
The second of a calendar event has a fraction. Round it to whole seconds.

Before:
    OnCalendar=*:*:29.5
After:
    OnCalendar=*:*:30
";

pub(crate) const OUT_OF_RANGE: &str = "\
A value is outside the range of its part. For example, midnight is hour 0 and
not 24. In a cron rule, minutes are 0 to 59, hours 0 to 23, days of the month 1
to 31, months 1 to 12, and days of the week 0 to 7. In a calendar event, years
are 1970 to 2999, and seconds 0 to 59.

Before:
    0 24 * * * backup
After:
    0 0 * * * backup
";

pub(crate) const SPECIFIER: &str = "\
A calendar event has a '%', and specifiers aren't expanded. Replace the
specifier by its value.

Before:
    OnCalendar=*:%i
After:
    OnCalendar=*:15
";

pub(crate) const UNKNOWN_WORD: &str = "\
There is no such word for a rule. Instead of the five fields of a cron rule you
can write '@yearly', '@annually', '@monthly', '@weekly', '@daily', '@midnight',
'@hourly' or '@reboot', in lower case. A calendar event can be 'minutely',
'hourly', 'daily', 'weekly', 'monthly', 'quarterly', 'semiannually', 'yearly' or
'annually'.

Before:
    @every_hour poll
After:
    @hourly poll
";

pub(crate) const WRONG_PARTS: &str = "\
A part is missing, is empty, or is one too many. A cron rule has five fields,
and a step is allowed only after '*' or a range. A calendar event has weekdays,
a date, a time, or several of them in this order. It may end with a time zone.

Before:
    5/15 * * * * poll
After:
    5-59/15 * * * * poll
";

pub(crate) const ZERO_STEP: &str = "\
A step is 0. Write at least 1, or remove the step.

Before:
    */0 * * * * poll
After:
    */10 * * * * poll
";

pub(crate) const ZONE: &str = "\
A calendar event ends with an unknown time zone, or --event-zones isn't given.
Without that option, UTC is the only zone that an event may name. With it, an
event may name any zone of the time zone database: see 'timedatectl
list-timezones' for the names, and mind upper and lower case.

Before:
    OnCalendar=Mon..Fri 09:00 europe/berlin
After:
    OnCalendar=Mon..Fri 09:00 Europe/Berlin
";
