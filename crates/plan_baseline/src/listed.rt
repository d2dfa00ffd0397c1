//! A start of an agenda, as its line has it.

/// A start of a job, as a line of an agenda has it.
#[derive(Clone, Copy, Debug)]
pub struct Listed<'a> {
    /// The second of the start, counted from 1970-01-01T00:00:00Z.
    pub second: u64,
    /// The name of the job.
    pub job: &'a [u8],
    /// What the job runs.
    pub runs: &'a [u8],
}
