//! Which words are no user, where a line of the system's crontab has one.

ghost use Rattle.std.specs.Prelude.{◌≡◌, ◌==◌, ◌||◌};
ghost use Rattle.std.specs.Char.{is_ascii_digit};
ghost use Rattle.std.specs.Str.{byte};
ghost use Rattle.plan_texts.specs.Text.{begins_with};
ghost use Rattle.plan_cron.specs.Users.{is_no_user};

/// Returns whether a word is no user, so that the user was probably forgotten: it has a `/`, or begins with `-` or a
/// digit.
pub fn is_no_user(user: &str) -> bool
    ensures { result ≡ is_no_user user.now }
{
    user.as_bytes().contains(&b'/') || begins_like_argument(user.as_bytes())
}

// Returns whether a word begins with `-` or a digit.
fn begins_like_argument(word: &[u8]) -> bool
    ensures { result ≡ begins_with (λ b. (b == byte "-") || is_ascii_digit b) word.now }
{
    match word {
        [first, ..] => *first == b'-' || first.is_ascii_digit(),
        [] => false,
    }
}
