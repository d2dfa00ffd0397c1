//! The texts of the answers: of agendas, their gaps, the next starts of jobs, of their scripts and of one rule, and the
//! replies of a mailbox. Those of findings are in agenda_findings, and those of codes in agenda_codes.
//!
//! Most of them are text or JSON, and show times in UTC or by the clock of a zone: see `formats`. Agendas and next
//! starts can show the latest starts too, for jobs that have delays.
//!
//! The agendas come from plan_collect and the jobs from plan_rules. Each text goes to a stream by a `TextWriter` of
//! plan_streams. Read `formats` first, then `agenda`. Each other module has the text that it is named after.
#![tactic(auto)]

mod agenda;
mod formats;
mod job_lines;
mod json_strings;
mod latest;
mod line_ends;
mod local_times;
mod next;
mod quiet;
mod replies;
mod scripts;
mod shown;
mod stamp;
mod time_fields;
mod upcoming;

pub use agenda::{write_agenda, write_entry};
pub use formats::Format;
pub use json_strings::{hex_digit, put_string, put_text, strings_read_back};
pub use line_ends::{JobFile, LineEnd, LineEnds};
pub use local_times::LocalStamp;
pub use next::write_next;
pub use plan_collect::Upcoming;
pub use quiet::{nominal_gaps_are_of_marks, nothing_starts_in_gaps, write_quiet};
pub use replies::write_replies;
pub use scripts::{JobScripts, write_scripts};
pub use shown::{push_shown, put_shown};
pub use time_fields::{LineStamps, Stamps, TimeField, put_field, put_time};
pub use upcoming::write_upcoming;
