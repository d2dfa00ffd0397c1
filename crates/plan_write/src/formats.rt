//! How an answer is written: as text or as JSON, in UTC or by the clock of a zone.

ghost use Rattle.std.specs.Prelude.{◌≡◌, IsTrue};
ghost use Rattle.plan_write.specs.Formats.{utc_text};

use plan_rules::NamedZone;

/// How an answer is written.
#[derive(Debug, Drop)]
pub struct Format {
    /// Whether each line is a JSON object (RFC 8259). Otherwise the answer is text.
    pub json: bool,
    /// The zone by whose clock times are shown. Text then has local times in place of those in UTC, and JSON has
    /// both.
    pub local: Option<NamedZone>,
}

impl Format {
    // Returns whether this is the format of text in UTC.
    pub(crate) fn is_utc_text(&self) -> bool
        ensures { IsTrue result → self.now ≡ utc_text }
    {
        !self.json && self.local.is_none()
    }
}
