//! The laws that connect the findings of a file with the jobs that it makes, and with its errors.

ghost use Rattle.std.specs.Prelude.{◌≡◌, List};
ghost use Rattle.plan_rules.specs.Job.{JobParts};
ghost use Rattle.plan_check.specs.declared.context.TimerContext.{TimerContext};
ghost use Rattle.plan_check.specs.Deciding.{known_jobs, known_with, strictly};
ghost use Rattle.plan_check.specs.Finding.{errors_of};
ghost use Rattle.plan_check.specs.Known.{KnownJobs, without_warnings};
ghost use Rattle.plan_check.specs.Files.{File, after_file, file_findings, file_reading};

/// States the law of the error that decides: after files that made jobs, a file with a good name makes exactly the jobs
/// that `crontab` or `timer` of plan_rules returns, added in order, and the error that decides among its findings is the
/// error of its name, else that of this function, else `SameName` or `Full` of the first job that can't be added. A timer's
/// job has the delay that it has in its context.
///
/// The function does nothing: its contract is the law.
pub fn a_file_means_its_reading()
    ensures { (context : TimerContext) (jobs : List JobParts) (file : File)
        → strictly context (known_jobs jobs) file
        ≡ known_with jobs (file_reading context file.kind file.name file.bytes) }
{}

/// States the law of errors: without a clock, the findings of a file are the errors among those with one, and the same
/// jobs are kept.
///
/// The function does nothing: its contract is the law.
pub fn errors_need_no_clock()
    ensures found { (context : TimerContext) (known : KnownJobs) (file : File)
        → file_findings context (without_warnings known) file ≡ errors_of (file_findings context known file) }
    ensures known { (context : TimerContext) (known : KnownJobs) (file : File)
        → after_file context (without_warnings known) file ≡ without_warnings (after_file context known file) }
{}
