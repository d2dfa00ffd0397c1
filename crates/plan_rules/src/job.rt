//! A job: its name, what it runs, the rule by which it starts, its delay, and whether it makes up for missed starts.

ghost use Rattle.std.specs.Prelude.{◌≡◌, option_map, string_bytes, OnErr, OnOk};
ghost use Rattle.std.specs.Arc.{arc_value};
ghost use Rattle.plan_rules.specs.Delays.{nominal};
ghost use Rattle.plan_rules.specs.Zone.{job_in};

use plan_clock::Clock;
use plan_match::Rule;
use plan_texts::Text;
use std::alloc::{AllocError, Global};
use std::marker::Model;
use std::sync::Arc;

/// A job of a crontab or of a timer file: its name, what it runs, the rule by which it starts, its delay, and whether it
/// makes up for a start that was missed.
#[derive(Debug, Drop)]
pub struct Job {
    name: String,
    user: Option<String>,
    command: String,
    rule: Arc<Rule>,
    delay: u64,
    is_persistent: bool,
}

impl Model for Job {
    ghost use Rattle.std.specs.Prelude.{option_map, string_bytes};
    ghost use Rattle.std.specs.Arc.{arc_value};
    ghost use Rattle.plan_rules.specs.Job.{JobParts, job_code};

    ghost Value = { JobParts };

    ghost coded = { job_code };

    ghost view = { λ job. record {
      name = string_bytes job.name;
      user = option_map (λ user. string_bytes user) job.user;
      command = string_bytes job.command;
      rule = arc_value job.rule;
      delay = job.delay;
      persistent = job.is_persistent;
    } };
}

impl Job {
    // Makes a job of these parts.
    pub(crate) fn new(
        name: String,
        user: Option<String>,
        command: String,
        rule: Arc<Rule>,
        delay: u64,
        is_persistent: bool,
    ) -> Job
        ensures name { result.name ≡ string_bytes name }
        ensures user { result.user ≡ option_map (λ user. string_bytes user) user }
        ensures command { result.command ≡ string_bytes command }
        ensures rule { result.rule ≡ arc_value rule }
        ensures delay { result.delay ≡ delay }
        ensures persistent { result.persistent ≡ is_persistent }
    {
        Job {
            name,
            user,
            command,
            rule,
            delay,
            is_persistent,
        }
    }

    // Puts the job in the zone of a clock. If an allocation fails, the job is unchanged.
    pub(crate) fn put_in_zone(&mut self, alloc: Global, clock: &Clock) -> Result<(), AllocError>
        ensures zone { OnOk result (self.new ≡ job_in clock.now self.old) }
        ensures unchanged { OnErr result (self.new ≡ self.old) }
    {
        let rule = self.rule.in_zone(alloc, clock)?;
        self.rule = Arc::new(alloc, rule)?;
        Ok(())
    }

    // Sets the job's delay to 0.
    pub(crate) fn drop_delay(&mut self)
        ensures { self.new ≡ nominal self.old }
    {
        self.delay = 0;
    }

    /// Returns the job's name, which no other job of a plan has.
    ///
    /// The name of a job in a crontab is `LABEL:n` for line n, with the crontab's label or its file's name.
    /// The name of a timer's job is the name of the timer file.
    pub fn name(&self) -> &str
        ensures { result.now ≡ self.now.name }
    {
        self.name.as_str()
    }

    /// Returns the job's name as an owned text, and drops the rest of the job.
    pub fn into_name(self) -> Text
        ensures { result ≡ self.name }
    {
        Text::new(self.name)
    }

    /// Returns the user that runs the command, if the job's line names one. Only a line in the format of the
    /// system's crontab does.
    pub fn user(&self) -> Option<&str>
        ensures { option_map (λ user. user.now) result ≡ self.now.user }
    {
        self.user.as_deref()
    }

    /// Returns the command of the job, as it was written. The command of a timer's job is the name of the unit
    /// that the timer starts.
    pub fn command(&self) -> &str
        ensures { result.now ≡ self.now.command }
    {
        self.command.as_str()
    }

    /// Returns the rule by which the job starts.
    pub fn rule(&self) -> &Arc<Rule>
        ensures { arc_value result.now ≡ self.now.rule }
    {
        &self.rule
    }

    /// Returns the job's delay, in seconds: how long after a time of its rule it may still start. It is 0 for a
    /// job of a crontab.
    pub fn delay(&self) -> u64
        ensures { result ≡ self.now.delay }
    {
        self.delay
    }

    /// Returns whether the job makes up for a start that was missed: it is that of a timer with `Persistent=`, which starts
    /// its unit once when it becomes active again (systemd.timer(5)).
    pub fn is_persistent(&self) -> bool
        ensures { result ≡ self.now.persistent }
    {
        self.is_persistent
    }
}
