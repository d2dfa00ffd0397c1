//! Which codes are those of warnings.

ghost use Rattle.std.specs.Prelude.{◌≡◌};
ghost use Rattle.agenda_codes.specs.Warned.{is_of_warning};

use crate::code::Code;

impl Code {
    /// Returns whether the code is that of a warning. The other codes are those of errors.
    pub fn is_of_warning(self) -> bool
        ensures { result ≡ is_of_warning self }
    {
        matches!(
            self,
            Code::BadBoolean
                | Code::BadDelay
                | Code::CarriageReturn
                | Code::CronDiffers
                | Code::CronIgnores
                | Code::Delayed
                | Code::EitherDay
                | Code::LineEnd
                | Code::MayStop
                | Code::Merged
                | Code::Monotonic
                | Code::NeverStarts
                | Code::NoEvents
                | Code::NoUser
                | Code::Percent
                | Code::RangeFromEnd
                | Code::SkippedStarts
                | Code::SystemdRejects
                | Code::TimerRejected
                | Code::UnitIgnored
                | Code::UnknownKey
                | Code::ZoneSetting
        )
    }
}
