//! The ends of the lines of jobs, made once for each job.

ghost use Rattle.std.specs.Prelude.{◌≡◌, [], ◌∷◌, ◌++◌, IfOk, IsOk, OnOk, map, option_copied, slice_get};
ghost use Rattle.plan_write.specs.Json.{json_string};
ghost use Rattle.std.specs.List.{flat_map};
ghost use Rattle.plan_write.specs.Texts.{end_in, end_members_of, end_text, file_members, line_end, line_value, more_string, object_end, object_ends, paths_member, scripts_member, user_member};

use crate::json_strings::push_string;
use plan_rules::{Job, Jobs, Text};
use std::alloc::{AllocError, Global};
use std::marker::Model;

/// The file that a job comes from.
#[derive(Debug, Drop)]
pub struct JobFile {
    /// The path of the file.
    pub path: Text,
    /// The number of the job's line in it, in decimal; `None` if the job comes from no single line, as that of a timer.
    pub line: Option<Text>,
    /// The paths of the scripts that the job runs by run-parts, in order.
    pub scripts: Vec<Text>,
}

impl Model for JobFile {
    ghost use Rattle.plan_write.specs.JobFile.{JobFileParts};

    ghost Value = { JobFileParts };

    ghost view = { λ file. record { path = file.path; line = file.line; scripts = file.scripts.items } };
}

/// For each job of a plan, by its number, the end of the lines that an answer has for it: what comes after the
/// times. In text this is the job's name, a tab, what it runs, and a newline. What a job runs is its user, if it has
/// one, a space, and its command. In JSON it is the members of the job's name, of its file, if that is given, of its
/// user, if it has one, of its command, and of its scripts, if it has some. The job's delay is kept too.
#[derive(Drop)]
pub struct LineEnds {
    ends: Vec<LineEnd>,
}

impl Model for LineEnds {
    ghost use Rattle.std.specs.Prelude.{List};
    ghost use Rattle.plan_write.specs.Texts.{EndParts};

    ghost Value = { List EndParts };

    ghost view = { λ ends. ends.ends.items };
}

impl LineEnds {
    /// Makes the ends of the lines of jobs, in text or in JSON.
    ///
    /// # Errors
    ///
    /// `AllocError` if an allocation fails.
    pub fn new(alloc: Global, jobs: &Jobs, json: bool) -> Result<LineEnds, AllocError>
        ensures ends { IfOk result (λ ends. ends ≡ map (line_end json) jobs.now) }

        // Without jobs it requests no memory.
        ensures spared { jobs.now ≡ [] → IsOk result }
    {
        let mut ends = Vec::with_capacity(alloc, jobs.len())?;
        for number in 0..jobs.len() {
            if let Some(job) = jobs.get(number) {
                ends.push(LineEnd::new(alloc, job, json)?)?;
            }
        }
        Ok(LineEnds { ends })
    }

    /// Makes the ends of the objects of jobs in JSON, each with the members of the file that the job comes from: that
    /// at the job's place. A job without such a file has no such members.
    ///
    /// # Errors
    ///
    /// `AllocError` if an allocation fails.
    pub fn with_files(alloc: Global, jobs: &Jobs, files: &[JobFile]) -> Result<LineEnds, AllocError>
        ensures ends { IfOk result (λ ends. ends ≡ object_ends files.now jobs.now) }

        // Without jobs it requests no memory.
        ensures spared { jobs.now ≡ [] → IsOk result }
    {
        let mut ends = Vec::with_capacity(alloc, jobs.len())?;
        for number in 0..jobs.len() {
            if let Some(job) = jobs.get(number) {
                ends.push(LineEnd::with_file(alloc, job, files.get(number))?)?;
            }
        }
        Ok(LineEnds { ends })
    }

    /// Returns the end of the lines of the job with a number.
    #[inline(always)]
    pub fn get(&self, number: usize) -> Option<&LineEnd>
        ensures { option_copied result ≡ slice_get self.now number }
    {
        self.ends.get(number)
    }
}

/// The end of the lines of a job, and the job's delay in seconds.
#[derive(Drop)]
pub struct LineEnd {
    text: Vec<u8>,
    delay: u64,
}

impl Model for LineEnd {
    ghost use Rattle.plan_write.specs.Texts.{EndParts, end_code};

    ghost Value = { EndParts };

    ghost coded = { end_code };

    ghost view = { λ end. record { text = end.text.items; delay = end.delay } };
}

impl LineEnd {
    // Makes the end of the lines of a job.
    fn new(alloc: Global, job: &Job, json: bool) -> Result<LineEnd, AllocError>
        ensures { IfOk result (λ end. end ≡ line_end json job.now) }
    {
        let text = text_of(alloc, job, json)?;
        Ok(LineEnd {
            text,
            delay: job.delay(),
        })
    }

    // Makes the end of the objects of a job, with its file, if that is given.
    fn with_file(alloc: Global, job: &Job, file: Option<&JobFile>) -> Result<LineEnd, AllocError>
        ensures { IfOk result (λ end. end ≡ object_end (option_copied file.entry) job.now) }
    {
        let text = members_of(alloc, job, file)?;
        Ok(LineEnd {
            text,
            delay: job.delay(),
        })
    }

    /// Returns the text.
    #[inline(always)]
    pub fn text(&self) -> &[u8]
        ensures { result.now ≡ self.now.text }
    {
        &self.text
    }

    /// Returns the job's delay, in seconds.
    #[inline(always)]
    pub(crate) fn delay(&self) -> u64
        ensures { result ≡ self.now.delay }
    {
        self.delay
    }
}

// Returns the text of the end of the lines of a job.
fn text_of(alloc: Global, job: &Job, json: bool) -> Result<Vec<u8>, AllocError>
    ensures { IfOk result (λ text. text.items ≡ end_in json job.now) }
{
    if json {
        members_of(alloc, job, None)
    } else {
        columns_of(alloc, job)
    }
}

// Returns the end of the lines of a job in text.
fn columns_of(alloc: Global, job: &Job) -> Result<Vec<u8>, AllocError>
    ensures { IfOk result (λ text. text.items ≡ end_text job.now) }
{
    let name = job.name();
    let command = job.command();
    let text = match job.user() {
        Some(user) => format!(in alloc; "{name}\t{user} {command}\n")?,
        None => format!(in alloc; "{name}\t{command}\n")?,
    };
    Ok(text.into_bytes())
}

// Returns the end of the objects of a job, with its file, if that is given.
fn members_of(alloc: Global, job: &Job, file: Option<&JobFile>) -> Result<Vec<u8>, AllocError>
    ensures { IfOk result (λ text. text.items ≡ end_members_of (option_copied file.entry) job.now) }
{
    let mut text = Vec::new(alloc);
    push_members(&mut text, job, file)?;
    Ok(text)
}

// Appends the end of the objects of a job to a text.
fn push_members(text: &mut Vec<u8>, job: &Job, file: Option<&JobFile>) -> Result<(), AllocError>
    ensures { OnOk result (text.new.items ≡ text.old.items ++ end_members_of (option_copied file.entry) job.now) }
{
    push_member(text, b",\"job\":", job.name())?;
    push_file(text, file)?;
    push_user(text, job)?;
    push_member(text, b",\"run\":", job.command())?;
    push_scripts(text, file)?;
    text.extend_from_slice(b"}\n")
}

// Appends the member of a job's scripts, if it is known to have some.
fn push_scripts(text: &mut Vec<u8>, file: Option<&JobFile>) -> Result<(), AllocError>
    ensures { OnOk result (text.new.items ≡ text.old.items ++ scripts_member (option_copied file.entry)) }
{
    match file {
        None => Ok(()),
        Some(file) => push_paths(text, file.scripts.as_slice()),
    }
}

// Appends the member of these scripts, if there are any.
fn push_paths(text: &mut Vec<u8>, scripts: &[Text]) -> Result<(), AllocError>
    ensures { OnOk result (text.new.items ≡ text.old.items ++ paths_member scripts.now) }
{
    match scripts.split_first() {
        None => Ok(()),
        Some((first, more)) => push_array(text, first, more),
    }
}

// Appends the member of these scripts.
fn push_array(text: &mut Vec<u8>, first: &Text, more: &[Text]) -> Result<(), AllocError>
    ensures { OnOk result (text.new.items ≡ text.old.items ++ paths_member (first.now ∷ more.now)) }
{
    push_member(text, b",\"scripts\":[", first.as_str())?;
    push_more(text, more)?;
    text.push(b']')?;
    Ok(())
}

// Appends more strings of an array.
fn push_more(text: &mut Vec<u8>, strings: &[Text]) -> Result<(), AllocError>
    ensures { OnOk result (text.new.items ≡ text.old.items ++ flat_map more_string strings.now) }
{
    for string in strings {
        push_member(text, b",", string.as_str())?;
    }
    Ok(())
}

// Appends the members of the file that a job comes from, if it is given.
fn push_file(text: &mut Vec<u8>, file: Option<&JobFile>) -> Result<(), AllocError>
    ensures { OnOk result (text.new.items ≡ text.old.items ++ file_members (option_copied file.entry)) }
{
    match file {
        None => Ok(()),
        Some(file) => {
            push_member(text, b",\"path\":", file.path.as_str())?;
            text.extend_from_slice(b",\"line\":")?;
            text.extend_from_slice(line_value(&file.line))
        }
    }
}

// Returns a job's line in its file as JSON has it.
fn line_value(line: &Option<Text>) -> &[u8]
    ensures { result.now ≡ line_value line.now }
{
    match line {
        Some(line) => line.as_str().as_bytes(),
        None => b"null",
    }
}

// Appends the member of a job's user, if it has one.
fn push_user(text: &mut Vec<u8>, job: &Job) -> Result<(), AllocError>
    ensures { OnOk result (text.new.items ≡ text.old.items ++ user_member job.now.user) }
{
    match job.user() {
        None => Ok(()),
        Some(user) => push_member(text, b",\"user\":", user),
    }
}

// Appends what opens a member, and its string.
fn push_member(text: &mut Vec<u8>, opening: &[u8], string: &str) -> Result<(), AllocError>
    ensures { OnOk result (text.new.items ≡ text.old.items ++ (opening.now ++ json_string string.now)) }
{
    text.extend_from_slice(opening)?;
    push_string(text, string)
}
