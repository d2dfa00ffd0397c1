//! How cron of Debian 12 (3.0pl1) reads crontabs that agenda accepts, and hints for lines that agenda rejects.
//!
//! cron ignores a whole crontab for one line that it can't read, and reads some lines otherwise than agenda does.
//! Open `lines` first, which says what cron takes as a line. `settings` and `commands` say what it accepts there, and
//! how it changes a command. `users` says which words can't be a user. `hints` says why a line may be rejected: it is
//! written for another program. `words` finds the words of a line.
#![tactic(auto)]

mod commands;
mod hints;
mod lines;
mod settings;
mod users;
mod words;

pub use commands::{
    begins_with_star, has_bare_percent, has_two_backslashes, is_too_long, shell_command,
};
pub use hints::hint;
pub use lines::{ends_at_nul, first_beyond, is_unended};
pub use settings::{is_setting_of_word, setting_fault};
pub use users::is_no_user;
pub use words::word_at;
