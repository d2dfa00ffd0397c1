//! The law of agendas that are read back.

ghost use Rattle.plan_baseline.specs.ReadBack.{AgendasAreReadBack};

/// States the law of reading back: the text that is written of an agenda is read as its span and, in order, the line of each
/// entry, and not otherwise. The agenda is in order and without delays, and its texts have no newlines, nor tabs where a tab ends them.
///
/// The function does nothing: its contract is the law.
pub fn agendas_are_read_back()
    ensures { AgendasAreReadBack }
{}
