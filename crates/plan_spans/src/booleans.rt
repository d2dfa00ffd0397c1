//! The booleans of settings (systemd.syntax(7)).

ghost use Rattle.std.specs.Prelude.{◌≡◌};
ghost use Rattle.plan_spans.specs.Booleans.{boolean, boolean_after, is_false, is_true};

/// Returns the boolean of a setting's value, as systemd 252 reads it: `1`, `yes`, `y`, `true`, `t` and `on` are true, and
/// `0`, `no`, `n`, `false`, `f` and `off` are false, whatever their case. Returns `None` for any other value.
pub fn boolean(value: &str) -> Option<bool>
    ensures { result ≡ boolean value.now }
{
    if is_true(value) {
        return Some(true);
    }
    if is_false(value) {
        return Some(false);
    }
    None
}

/// Returns the boolean of a key after one more setting, a name and a value, by the boolean before it. A value that isn't a
/// boolean is ignored, and so is an empty one.
pub fn boolean_after(key: &str, before: bool, name: &str, value: &str) -> bool
    ensures { result ≡ boolean_after key.now before (name.now, value.now) }
{
    if name != key {
        return before;
    }
    boolean(value).unwrap_or(before)
}

// Returns whether a value is true.
fn is_true(value: &str) -> bool
    ensures { result ≡ is_true value.now }
{
    value.eq_ignore_ascii_case("1")
        || value.eq_ignore_ascii_case("yes")
        || value.eq_ignore_ascii_case("y")
        || value.eq_ignore_ascii_case("true")
        || value.eq_ignore_ascii_case("t")
        || value.eq_ignore_ascii_case("on")
}

// Returns whether a value is false.
fn is_false(value: &str) -> bool
    ensures { result ≡ is_false value.now }
{
    value.eq_ignore_ascii_case("0")
        || value.eq_ignore_ascii_case("no")
        || value.eq_ignore_ascii_case("n")
        || value.eq_ignore_ascii_case("false")
        || value.eq_ignore_ascii_case("f")
        || value.eq_ignore_ascii_case("off")
}
