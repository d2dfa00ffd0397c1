//! The names that errors print, where no contract states them.
use agenda_arguments::UsageFault;
use agenda_faults::RunFault;
use agenda_script::{ScriptCause, ScriptFault};
use agenda_sources::SourceFault;
use plan_collect::{CollectFault, PlanFault};
use plan_rules::{LineCause, LineFault, RuleCause, RuleFault, Text};
use plan_streams::WriteFault;
use std::alloc::{AllocError, Global};
use std::fmt::Display;
use std::test::Fail;

// Returns what these errors print, each in a line.
fn lines(alloc: Global, faults: &[impl Display]) -> Result<String, AllocError> {
    let mut lines = String::new(alloc);
    for fault in faults {
        writeln!(lines, "{fault}")?;
    }
    Ok(lines)
}

// Returns the error of a line.
fn bad(line: u32, cause: LineCause) -> LineFault {
    LineFault { line, cause }
}

#[test]
fn names_of_faults_of_commands(rt: HostRuntime) -> Result<(), Fail> {
    let (part, line) = (2, 2);
    let names =
        "NoMemory\nBadCount\nBadLeast\nWrongParts\nBadLine\nNoCommand\nBadTabName\nSameName\nFull\n\
        Missing\nBadSize\nDevice\nClosed\n";
    let faults = [
        RunFault::NoMemory,
        RunFault::BadCount,
        RunFault::BadLeast,
        RunFault::Rule(RuleFault {
            part,
            cause: RuleCause::WrongParts,
        }),
        RunFault::Script(ScriptFault {
            line,
            cause: ScriptCause::BadLine,
        }),
        RunFault::InSource(0, bad(1, LineCause::NoCommand)),
        RunFault::InSource(7, bad(0, LineCause::BadTabName)),
        RunFault::SameName(Text::new(String::new(rt.alloc()))),
        RunFault::Full,
        RunFault::Plan(PlanFault::Collect(CollectFault::Missing)),
        RunFault::Plan(PlanFault::BadSize),
        RunFault::Device(WriteFault::Device),
        RunFault::Device(WriteFault::Closed),
    ];
    assert_eq!(&rt; lines(rt.alloc(), &faults)?.as_str(), names);
    Ok(())
}

#[test]
fn names_of_faults_of_sources_and_arguments(rt: HostRuntime) -> Result<(), Fail> {
    let faults = [
        SourceFault::NoMemory,
        SourceFault::InSource(0, bad(1, LineCause::BadSetting)),
        SourceFault::InSource(1, bad(0, LineCause::NoTimerSection)),
        SourceFault::SameName(Text::new(String::new(rt.alloc()))),
        SourceFault::Full,
    ];
    let names = "NoMemory\nBadSetting\nNoTimerSection\nSameName\nFull\n";
    assert_eq!(&rt; lines(rt.alloc(), &faults)?.as_str(), names);
    let faults = [
        UsageFault::NoMemory,
        UsageFault::Usage(Text::new(String::new(rt.alloc()))),
        UsageFault::Help(Text::new(String::new(rt.alloc()))),
    ];
    assert_eq!(&rt;
        lines(rt.alloc(), &faults)?.as_str(),
        "NoMemory\nUsage\nHelp\n"
    );
    Ok(())
}
