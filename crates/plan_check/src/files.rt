//! The findings of a file, by the kind of its source.

ghost use Rattle.std.specs.Prelude.{◌≡◌, ◌++◌, ◌∷◌, [], IfOk, OnOk};
ghost use Rattle.plan_check.specs.Files.{after_file, after_text, bytes_cause, cause_at_once, file_cause, file_findings, file_of, in_file, name_detail, name_error, name_findings, text_findings};

use crate::context::TimerContext;
use crate::crontabs::add_crontab;
use crate::finding::{Finding, FindingKind};
use crate::known::Known;
use crate::report::kept;
use crate::timers::add_timer;
use plan_rules::{Kind, LineCause, LineFault, SourceKind, text_of};
use plan_texts::Text;
use std::alloc::{AllocError, Global};

// How the name of a timer's file ends.
const TIMER_ENDING: &[u8] = b".timer";

// How a crontab is checked, if one is given where a timer is expected.
const CRONTAB_HINT: &str = "for a crontab, use --crontab or --cron-d";

/// Returns all findings of the file of a source of this kind, in order. Adds the jobs of which nothing is rejected to
/// `known`, which has the jobs before them. Timers are read in this context.
///
/// The first finding is that the name is bad: `BadTabName` or `BadTimerName`, see `SourceKind::name_cause`. But the crontab
/// of a user may have any name that isn't empty. A file whose name is bad makes no jobs, so it has no findings about their names. If the name of a timer doesn't end in `.timer`, the
/// message ends with how a crontab is checked. If the text has more than 1,048,576 bytes, the
/// next finding is `TooLarge`; else, if it isn't UTF-8, it is `NotUtf8`. Such a text has no lines.
///
/// The jobs of the crontab of a user, or of the system, are named after `cron` or `system`, and those of another
/// crontab after its file. A user precedes each command in the system's crontab and in those of /etc/cron.d (crontab(5),
/// cron(8) of Debian).
///
/// The findings of a crontab are those of its lines, in order (crontab(5)):
///
/// - A rejected line has one error: the one that `crontab` of plan_rules returns if this line is the first
///   that is rejected.
/// - Any other line that isn't empty, a comment or a setting makes a job. If another job has its name, the
///   error is `SameName`. Else, if there are 1,000 jobs, it is `Full`, which is reported once for all files.
///   In both cases the job isn't added.
/// - The warnings on the job come last: `NeverStarts`, unless it is `@reboot`, then `EitherDay`, `Percent` and
///   `CarriageReturn`.
/// - A setting of a zone, `CRON_TZ`, has the warning `ZoneSetting`.
///
/// The findings of a timer file are these, in this order (systemd.timer(5)):
///
/// - `NoTimerSection`, if the text has lines.
/// - `SameName` if another job has the file's name. Else `Full` if there are 1,000 jobs, once for all files.
/// - The warning `NoEvents` if there is a `[Timer]` section and the list of events is empty at the end.
/// - The warning `Monotonic` if a setting such as `OnBootSec=` has a value, and no later one empties the list.
/// - The warning `Delayed` if the last value of `RandomizedDelaySec=` is a delay.
/// - By line: each event's error, or the warnings `NeverStarts` and `SkippedStarts`, as `TimerReader` of
///   plan_rules reads it; and the warning `UnknownKey` for each other key than those of systemd.timer(5).
///
/// A job is added unless another job has its name or there are 1,000 jobs. A timer's job is added only if no error
/// is one of the whole file. Its rule is the list of the events that aren't rejected.
///
/// If `known` has no clock, there are no warnings. `Finding` says which text each finding quotes.
///
/// # Errors
///
/// `AllocError` if an allocation fails. The contract doesn't say what `known` has then. Capacity for one finding is
/// allocated first. So without a clock, an error of a job's name needs no more memory if it is the first finding.
pub fn file_findings(
    alloc: Global,
    known: &mut Known,
    kind: SourceKind,
    name: &str,
    bytes: &[u8],
    context: &TimerContext,
) -> Result<Vec<Finding>, AllocError>
    ensures found { IfOk result (λ found. found.items ≡ file_findings context.now known.old (file_of kind name.now bytes.now)) }
    ensures known { OnOk result (known.new ≡ after_file context.now known.old (file_of kind name.now bytes.now)) }
{
    let mut found = Vec::with_capacity(alloc, 1)?;
    add_name(alloc, known, &mut found, kind, name)?;
    add_text(alloc, known, &mut found, kind, name, bytes, context)?;
    Ok(found)
}

/// Returns what is wrong with the file of a source of this kind before its lines are read: `BadTabName`,
/// `BadTimerName`, `TooLarge` or `NotUtf8`, the first of them. This requests no memory.
pub fn cause_at_once(kind: SourceKind, name: &str, bytes: &[u8]) -> Option<LineCause>
    ensures { result ≡ cause_at_once kind name.now bytes.now }
{
    file_cause(kind, name).or(bytes_cause(bytes))
}

// Returns what is wrong with the name of a file of this kind.
fn file_cause(kind: SourceKind, name: &str) -> Option<LineCause>
    ensures { result ≡ file_cause kind name.now }
{
    match kind {
        SourceKind::Spool if !name.is_empty() => None,
        _ => kind.name_cause(name),
    }
}

// Begins the file with a name, and adds what is wrong with the name.
fn add_name(
    alloc: Global,
    known: &mut Known,
    found: &mut Vec<Finding>,
    kind: SourceKind,
    name: &str,
) -> Result<(), AllocError>
    ensures found { OnOk result (found.new.items ≡ found.old.items ++ name_findings kind name.now) }
    ensures known { known.new ≡ in_file known.old kind name.now }
{
    let cause = file_cause(kind, name);
    known.begin_file(cause.is_none());
    match cause {
        Some(cause) => add_name_error(alloc, found, name, cause),
        None => Ok(()),
    }
}

// Adds the error of a file's name.
fn add_name_error(
    alloc: Global,
    found: &mut Vec<Finding>,
    name: &str,
    cause: LineCause,
) -> Result<(), AllocError>
    ensures { OnOk result (found.new.items ≡ found.old.items ++ name_error name.now cause ∷ []) }
{
    let detail = name_detail(alloc, name, cause)?;
    found.push(Finding {
        line: 0,
        kind: FindingKind::Rejected(cause),
        quote: None,
        detail,
    })?;
    Ok(())
}

// Returns what the error of a file's name ends with.
fn name_detail(alloc: Global, name: &str, cause: LineCause) -> Result<Option<Text>, AllocError>
    ensures { IfOk result (λ detail. detail ≡ name_detail name.now cause) }
{
    match cause {
        LineCause::BadTimerName if !name.as_bytes().ends_with(TIMER_ENDING) => {
            Ok(Some(kept(alloc, CRONTAB_HINT)?))
        }
        _ => Ok(None),
    }
}

// Adds the findings of a file's text.
fn add_text(
    alloc: Global,
    known: &mut Known,
    found: &mut Vec<Finding>,
    kind: SourceKind,
    name: &str,
    bytes: &[u8],
    context: &TimerContext,
) -> Result<(), AllocError>
    ensures found { OnOk result (found.new.items ≡ found.old.items
        ++ text_findings context.now known.old kind name.now bytes.now) }
    ensures known { OnOk result (known.new ≡ after_text context.now known.old kind name.now bytes.now) }
{
    match kind {
        SourceKind::Crontab => add_crontab(alloc, known, found, "cron", Kind::User, bytes),
        SourceKind::System => add_crontab(alloc, known, found, "system", Kind::System, bytes),
        SourceKind::CronD => add_crontab(alloc, known, found, name, Kind::System, bytes),
        SourceKind::Spool => add_crontab(alloc, known, found, name, Kind::User, bytes),
        SourceKind::Timer => add_timer(alloc, known, found, name, bytes, context),
    }
}

// Returns what is wrong with the bytes of a file.
fn bytes_cause(bytes: &[u8]) -> Option<LineCause>
    ensures { result ≡ bytes_cause bytes.now }
{
    match text_of(bytes) {
        Ok(_) => None,
        Err(LineFault { cause, .. }) => Some(cause),
    }
}
