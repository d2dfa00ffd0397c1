//! How a thread backs off while it has nothing to do.

ghost use Rattle.std.specs.Prelude.{◌≡◌, ◌≤◌, ◌*◌};
ghost use Rattle.std.specs.Duration.{as_nanos};
ghost use Rattle.plan_threads.specs.Pausing.{first_sleep, longest_sleep, next_sleep};

use crossbeam_utils::Backoff;
use std::sync::Wait;
use std::thread::Parker;
use std::time::Duration;

// The first and the longest sleep, in microseconds.
const FIRST_SLEEP_MICROS: u64 = 60;

const LONGEST_SLEEP_MICROS: u64 = 320;

/// Backs off for longer each time, so that the thread takes no processor from the threads that it waits for:
/// it spins a little, then yields, then sleeps for longer and longer.
#[derive(Drop)]
pub(crate) struct Pause {
    backoff: Backoff,
    parker: Parker,

    /// The next sleep, in microseconds.
    sleep_micros: u64,

    ghost at_least: { first_sleep ≤ sleep_micros },
    ghost at_most: { sleep_micros ≤ longest_sleep },
}

impl Pause {
    /// Makes a pause that hasn't backed off yet.
    pub(crate) fn new() -> Pause
        ensures { result.sleep_micros ≡ first_sleep }
    {
        Pause {
            backoff: Backoff::new(),
            parker: Parker::new(),
            sleep_micros: FIRST_SLEEP_MICROS,
        }
    }

    /// Starts anew, because there was something to do.
    pub(crate) fn end(&mut self)
        ensures { self.new.sleep_micros ≡ first_sleep }
    {
        self.backoff.reset();
        self.sleep_micros = FIRST_SLEEP_MICROS;
    }

    /// Backs off, because there was nothing to do.
    pub(crate) fn step_back<R: Wait>(&mut self, rt: &R) {
        if self.backoff.is_completed() {
            self.sleep(rt);
        } else {
            self.backoff.snooze();
        }
    }

    // Sleeps. The next sleep will be longer, up to the longest.
    fn sleep<R: Wait>(&mut self, rt: &R)
        ensures { self.new.sleep_micros ≡ next_sleep self.old.sleep_micros }
    {
        self.parker.park_timeout(rt, self.next_sleep());
        self.sleep_micros = (self.sleep_micros * 2).min(LONGEST_SLEEP_MICROS);
    }

    // Returns how long the next sleep lasts.
    fn next_sleep(&self) -> Duration
        ensures { as_nanos result ≡ self.now.sleep_micros * 1_000 }
    {
        Duration::from_micros(self.sleep_micros)
    }
}
