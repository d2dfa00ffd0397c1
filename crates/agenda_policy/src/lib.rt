//! Which warnings of `check` are errors, and which are left out: by its options, and by comments in the sources.
//!
//! The crate depends on plan_check, which has the warnings, on agenda_codes for their codes, and on agenda_sources
//! for the findings. Read `policy` first, then `judging`, which applies a policy to findings. `reading` makes a policy
//! of the values of options, by `nearest` for a code that doesn't exist. `comments` are those of a source.
#![tactic(auto)]

mod code_list;
mod comments;
mod judging;
mod nearest;
mod policy;
mod reading;

pub use code_list::CodeList;
pub use judging::{errors_need_no_policy, judged};
pub use policy::Policy;
pub use reading::{PolicyFault, read_policy};
