//! The laws about the codes of errors and warnings.

ghost use Rattle.std.specs.Prelude.{List};
ghost use Rattle.agenda_commands.specs.CodeLaws.{ComesOnLine, EndsWithCode, HasCode, HasLine, HasWarningCode};
ghost use Rattle.agenda_faults.specs.FaultLines.{fault_text};
ghost use Rattle.agenda_faults.specs.declared.faults.Failure.{Failure};
ghost use Rattle.agenda_sources.specs.declared.SourcePath.{SourcePath};
ghost use Rattle.plan_check.specs.Finding.{warning_name};
ghost use Rattle.plan_check.specs.declared.Warning.{Warning};
ghost use Rattle.plan_rules.specs.Causes.{line_cause};
ghost use Rattle.plan_rules.specs.declared.LineCause.{LineCause};

/// States the laws of codes: the line of an error ends with the name of a code, and errors and warnings in files
/// have the names of codes, warnings those of warnings. So `run_explain` explains what is reported, and each warning can be
/// denied and allowed. Two errors about the root of a machine
/// have no code.
///
/// The function does nothing: its contract is the laws.
pub fn codes_are_explained()
    ensures lines { (sources : List SourcePath) → (failure : Failure) → HasLine failure
        → EndsWithCode (fault_text sources failure) }
    ensures causes { (cause : LineCause) → ComesOnLine cause → HasCode (line_cause cause) }
    ensures warnings { (warning : Warning) → HasWarningCode (warning_name warning) }
{}
