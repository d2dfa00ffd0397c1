//! The numbers of time spans.

ghost use Rattle.std.specs.Prelude.{◌≡◌, ◌<◌, ◌≤◌, ◌^◌, true, nat_lt, IfSome, Some, None, if◌then◌else◌, length};
ghost use Rattle.std.specs.Char.{is_ascii_digit};
ghost use Rattle.std.specs.List.{prefix_len, take_while, list_all};
ghost use Rattle.std.specs.Option.{option_map};
ghost use Rattle.plan_texts.specs.Text.{begins_with, digits_after};
ghost use Rattle.plan_spans.specs.Spans.{after_digits, after_plus, number_in_front, whole_micros, fraction_micros};

// The parts of a number at the start of a text.
#[derive(Clone, Copy)]
pub(crate) struct Number<'a> {
    // The digits before the point.
    pub whole: &'a [u8],
    // The digits after the point.
    pub fraction: &'a [u8],
    // What follows the number.
    pub rest: &'a [u8],
}

// Returns how many digits a text begins with.
fn digits_in_front(text: &[u8]) -> usize
    ensures count { result ≡ prefix_len is_ascii_digit text.now }
    ensures inside { result ≤ length text.now }
{
    text.iter().take_while(|byte| byte.is_ascii_digit()).count()
}

// Returns whether a text begins with a digit.
fn begins_with_digit(text: &[u8]) -> bool
    ensures { result ≡ begins_with is_ascii_digit text.now }
{
    matches!(text, [first, ..] if first.is_ascii_digit())
}

// Returns the digits at the start of a text, and what follows them.
fn cut_digits(text: &[u8]) -> (&[u8], &[u8])
    ensures digits { result.0.now ≡ take_while is_ascii_digit text.now }
    ensures rest { result.1.now ≡ after_digits text.now }
    ensures all { list_all is_ascii_digit result.0.now ≡ true }
{
    text.split_at(digits_in_front(text))
}

// Returns a text without the `+` at its start, if a digit follows that.
fn after_plus(text: &[u8]) -> &[u8]
    ensures { result.now ≡ after_plus text.now }
{
    match text {
        [b'+', rest @ ..] if begins_with_digit(rest) => rest,
        _ => text,
    }
}

// Returns the number at the start of a text, or `None` if there is none.
#[tactic(auto, unfolding(crate::specs::Spans::number_in_front))]
pub(crate) fn cut_number(text: &[u8]) -> Option<Number<'_>>
    ensures value { option_map (λ number.
        record { whole = number.whole.now; fraction = number.fraction.now; rest = number.rest.now }) result
        ≡ number_in_front text.now }
    ensures whole { IfSome result (λ number. list_all is_ascii_digit number.whole.now ≡ true) }
    ensures fraction { IfSome result (λ number. list_all is_ascii_digit number.fraction.now ≡ true) }
    ensures shorter { IfSome result (λ number. length number.rest.now < length text.now) }
{
    let (whole, rest) = cut_digits(after_plus(text));
    if let [b'.', rest @ ..] = rest {
        let (fraction, rest) = cut_digits(rest);
        if fraction.is_empty() {
            return None;
        }
        return Some(Number {
            whole,
            fraction,
            rest,
        });
    }
    if whole.is_empty() {
        return None;
    }
    Some(Number {
        whole,
        fraction: &[],
        rest,
    })
}

// Returns the number that digits write, or `None` if it is 2^63 or more.
fn whole_number(digits: &[u8]) -> Option<u64>
    requires { list_all is_ascii_digit digits.now ≡ true }
    ensures { result ≡ (if nat_lt (digits_after 0 digits.now) (2 ^ 63) then Some (digits_after 0 digits.now) else None) }
{
    let mut number: u64 = 0;
    for digit in digits {
        number = number
            .checked_mul(10)?
            .checked_add(u64::from(*digit - b'0'))?;
    }
    if number > i64::MAX as u64 {
        return None;
    }
    Some(number)
}

// Returns the microseconds of a whole number of units, or `None` if that is too large.
pub(crate) fn whole_micros(unit: u64, digits: &[u8]) -> Option<u64>
    requires some { 0 < unit }
    requires all { list_all is_ascii_digit digits.now ≡ true }
    ensures { result ≡ whole_micros unit digits.now }
{
    let number = whole_number(digits)?;
    if number >= u64::MAX / unit {
        return None;
    }
    Some(number * unit)
}

// Returns the microseconds of the digits after the point. Each digit counts its part of the unit, rounded down.
pub(crate) fn fraction_micros(unit: u64, digits: &[u8]) -> u64
    requires all { list_all is_ascii_digit digits.now ≡ true }
    ensures value { result ≡ fraction_micros unit digits.now }
    ensures within { result ≤ unit }
{
    let mut sum = 0;
    let mut part = unit;
    for digit in digits {
        part /= 10;
        sum += u64::from(*digit - b'0') * part;
    }
    sum
}
