//! The days of a week.

ghost use Rattle.std.specs.Prelude.{◌≡◌, ◌+◌, ◌<◌, ◌^◌, None, slice_index_or};
ghost use Rattle.plan_week.specs.Table.{day_with};
ghost use Rattle.plan_week.specs.Week.{count_of, day_by, is_met};

/// A day by a clock, and how many starts each of its hours has.
#[derive(Clone, Copy, Debug)]
pub struct Day {
    /// The number of the day, from 0 for 1970-01-01.
    pub number: u64,
    /// The number of starts in each hour, from 0 to 23; `None` for an hour that isn't in the span.
    pub hours: [Option<u64>; 24],
}

impl Day {
    /// Returns the day with a number. None of its hours is in the span.
    #[tactic(auto, unfolding(crate::specs::Week::hours_of_day))]
    pub(crate) fn new(number: u64) -> Day
        ensures { result ≡ day_by (λ _. None) number }
    {
        Day {
            number,
            hours: [None; 24],
        }
    }

    /// Adds starts to an hour, which is then in the span.
    pub(crate) fn add(&mut self, hour: usize, starts: u64)
        requires hour { hour < 24 }
        requires room { count_of (slice_index_or self.old.hours hour None) + starts < 2 ^ 64 }
        ensures { self.new ≡ day_with hour starts self.old }
    {
        self.hours[hour] = Some(self.hours[hour].unwrap_or(0) + starts);
    }

    /// Returns whether some hour of the day is in the span.
    pub(crate) fn is_met(&self) -> bool
        ensures { result ≡ is_met self.now }
    {
        self.hours.iter().any(|hour| hour.is_some())
    }
}
