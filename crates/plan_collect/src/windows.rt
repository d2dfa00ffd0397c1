//! The laws of windows: which entries an agenda has, and what it is without delays.

ghost use Rattle.plan_collect.specs.Windows.{HasEachWindowOnce, WithoutDelaysIsAgenda};

/// States the law of entries: each start of a job whose window meets the span is an entry of the agenda once, and
/// there are no other entries. The window of a start reaches from the start to the job's delay later, both
/// included.
///
/// The function does nothing: its contract is the law.
pub fn agenda_has_each_window_once()
    ensures { HasEachWindowOnce }
{}

/// States the law of delays: for jobs without delays, the agenda has the starts in the span.
///
/// The function does nothing: its contract is the law.
pub fn without_delays_windows_are_the_agenda()
    ensures { WithoutDelaysIsAgenda }
{}
