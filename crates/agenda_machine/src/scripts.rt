//! The scripts that the jobs of a machine's crontabs run by run-parts, line by line.

ghost use Rattle.std.specs.Prelude.{◌≡◌, true, IfOk, IfSome, map};
ghost use Rattle.std.specs.Fmt.{decimal};
ghost use Rattle.std.specs.Option.{option_map};
ghost use Rattle.std.specs.Str.{bytes_eq};
ghost use Rattle.agenda_machine.specs.Scripts.{script_lines, scripts_at, scripts_of, with_scripts};

use crate::idle::whose_crontab;
use itoa::Buffer as Digits;
use plan_machine::MachineSource;
use plan_rules::Kind;
use plan_runs::{LineScripts, scripts_of_lines};
use plan_texts::Text;
use plan_tree::Tree;
use std::alloc::{AllocError, Global};
use std::marker::Model;

// A source, and its lines that run scripts.
#[derive(Drop)]
pub(crate) struct ScriptedSource<'a> {
    // The source.
    pub(crate) source: &'a MachineSource,
    // The lines, in order.
    pub(crate) lines: Vec<LineScripts>,
}

impl<'a> Model for ScriptedSource<'a> {
    ghost use Rattle.agenda_machine.specs.Scripts.{SourceScripts};

    ghost Value = { SourceScripts };

    ghost view = { λ one. record { source = one.source.now; lines = one.lines.items } };
}

// Returns sources, each with its lines that run scripts.
pub(crate) fn scripted_sources<'a, T: Tree>(
    alloc: Global,
    tree: &T,
    sources: &'a [MachineSource],
) -> Result<Vec<ScriptedSource<'a>>, AllocError>
    ensures { T.is_known ≡ true → IfOk result (λ all. all.items ≡ map (with_scripts (T.held tree.now)) sources.now) }
{
    let mut all = Vec::with_capacity(alloc, sources.len())?;
    for source in sources {
        all.push(with_scripts(alloc, tree, source)?)?;
    }
    Ok(all)
}

// Returns a source with its lines that run scripts.
fn with_scripts<'a, T: Tree>(
    alloc: Global,
    tree: &T,
    source: &'a MachineSource,
) -> Result<ScriptedSource<'a>, AllocError>
    ensures { T.is_known ≡ true → IfOk result (λ one. one ≡ with_scripts (T.held tree.now) source.now) }
{
    let lines = script_lines(
        alloc,
        tree,
        whose_crontab(source.kind()),
        source.name(),
        source.parts().text(),
    )?;
    Ok(ScriptedSource { source, lines })
}

// Returns the lines of a text that run scripts, if it is a crontab's.
fn script_lines<T: Tree>(
    alloc: Global,
    tree: &T,
    kind: Option<Kind>,
    owner: &str,
    text: &[u8],
) -> Result<Vec<LineScripts>, AllocError>
    ensures { T.is_known ≡ true → IfOk result (λ lines.
        lines.items ≡ script_lines (T.held tree.now) kind owner.now text.now) }
{
    match kind {
        None => Ok(Vec::new(alloc)),
        Some(kind) => scripts_of_lines(alloc, tree, kind, owner, text),
    }
}

// Returns the scripts of a job with this line, among the lines that run scripts.
pub(crate) fn scripts_of(
    alloc: Global,
    lines: &[LineScripts],
    line: Option<&str>,
) -> Result<Vec<Text>, AllocError>
    ensures { IfOk result (λ scripts. scripts.items ≡ scripts_of lines.now (option_map (λ line. line.now) line.entry)) }
{
    match line {
        None => Ok(Vec::new(alloc)),
        Some(line) => scripts_at(alloc, lines, line),
    }
}

// Returns the scripts of the line with this number in decimal.
fn scripts_at(alloc: Global, lines: &[LineScripts], line: &str) -> Result<Vec<Text>, AllocError>
    ensures { IfOk result (λ scripts. scripts.items ≡ scripts_at lines.now line.now) }
{
    let number = number_of(line);
    for one in lines {
        if is_line(one.line, number, line) {
            return copies_of(alloc, one.scripts.as_slice());
        }
    }
    Ok(Vec::new(alloc))
}

// Returns the number that a text is in decimal, if it has one of 32 bits.
fn number_of(text: &str) -> Option<u32>
    ensures { IfSome result (λ number. decimal number ≡ text.now) }
{
    match text.parse::<u32>() {
        Ok(number) if Digits::new().format(number) == text => Some(number),
        _ => None,
    }
}

// Returns whether a line is the one with this number in decimal, whose number is given if it has one of 32 bits.
#[tactic(auto, using(crate::proofs::ScriptLemmas::by_number))]
fn is_line(at: u32, number: Option<u32>, line: &str) -> bool
    requires { IfSome number (λ number. decimal number ≡ line.now) }
    ensures { result ≡ bytes_eq (decimal at) line.now }
{
    match number {
        Some(number) => at == number,
        None => Digits::new().format(at) == line,
    }
}

// Returns a copy of some paths.
fn copies_of(alloc: Global, paths: &[Text]) -> Result<Vec<Text>, AllocError>
    ensures { IfOk result (λ copies. copies.items ≡ paths.now) }
{
    let mut copies = Vec::with_capacity(alloc, paths.len())?;
    for path in paths {
        copies.push(Text::new(String::from_str(alloc, path.as_str())?))?;
    }
    Ok(copies)
}
