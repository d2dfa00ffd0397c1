//! The messages of warnings, in words.

ghost use Rattle.std.specs.Prelude.{◌≡◌};
ghost use Rattle.std.specs.Option.{option_map};
ghost use Rattle.plan_streams.specs.Writer.{Takes};
ghost use Rattle.plan_write.specs.Json.{text_in};
ghost use Rattle.agenda_findings.specs.Warnings.{after_quote, before_quote, warning_message};

use crate::quotes::put_around;
use plan_check::Warning;
use plan_streams::{Stream, TextWriter};
use plan_write::put_text;

// Puts the message of a warning, before what it ends with.
pub(crate) fn put_warning<S: Stream>(
    warning: Warning,
    quote: &str,
    json: bool,
    lines: &mut TextWriter<'_, S>,
)
    ensures { Takes S.holds S.takes_all lines.old lines.new (text_in json (warning_message warning quote.now)) }
{
    let before = before_quote(warning);
    match after_quote(warning) {
        Some(after) => put_around(before, quote, after, json, lines),
        None => put_text(json, before.as_bytes(), lines),
    }
}

// Returns the message of a warning, or what comes before the text that it quotes.
#[tactic(auto, unfolding(crate::specs::Warnings::before_quote))]
fn before_quote(warning: Warning) -> &'static str
    ensures { result.now ≡ before_quote warning }
{
    match warning {
        Warning::NeverStarts => "never starts",
        Warning::EitherDay => "starts on days that match either day field, not both",
        Warning::NoEvents => "no OnCalendar= event, so no start is planned",
        Warning::Percent => "cron ends the command at the first % and passes the rest as input",
        Warning::CarriageReturn => "the command ends with a carriage return",
        Warning::ZoneSetting =>
            "CRON_TZ is read by cronie alone; agenda reads all rules in one zone",
        Warning::Monotonic => "also starts by OnBootSec= or the like, which is not planned",
        Warning::Merged => "starts less than AccuracySec= apart may be merged; set AccuracySec=1s",
        Warning::CronIgnores => "cron ignores this file: ",
        Warning::CronDiffers => "",
        Warning::TimerRejected => "systemd 252 rejects this ",
        Warning::LineEnd => "systemd ",
        Warning::SkippedStarts => "systemd 252 may pass over starts of ",
        Warning::UnknownKey => "unknown setting ",
        Warning::BadDelay => "",
        Warning::BadBoolean => "",
        Warning::Delayed => "starts up to ",
        Warning::SystemdRejects => "systemd 252 rejects ",
        Warning::RangeFromEnd => "systemd 252 reads ",
        Warning::MayStop => "systemd 252 may stop for good at ",
        Warning::NoUser => "",
        Warning::UnitIgnored => "systemd 252 ignores Unit=",
    }
}

// Returns what comes after the text that the message of a warning quotes, or `None` if it quotes none.
#[tactic(auto, unfolding(crate::specs::Warnings::after_quote))]
fn after_quote(warning: Warning) -> Option<&'static str>
    ensures { option_map (λ after. after.now) result ≡ after_quote warning }
{
    match warning {
        Warning::SkippedStarts => Some(": give the step an end"),
        Warning::UnknownKey => Some(" in [Timer]"),
        Warning::BadDelay => Some(" is not a time span"),
        Warning::BadBoolean => Some(" is not a boolean"),
        Warning::Delayed => Some(" later than planned (RandomizedDelaySec=)"),
        Warning::SystemdRejects => Some(": "),
        Warning::RangeFromEnd => Some(" otherwise: "),
        Warning::MayStop => Some(" in a zone with summer time: "),
        Warning::NoUser => Some(" is no user: this file's lines have a user before the command"),
        Warning::UnitIgnored => Some(""),
        _ => None,
    }
}
