//! Tests of patterns.

use crate::fits;
use std::test::Fail;

// Patterns, names, and whether the name fits. \u{e9} is two bytes in UTF-8.
const ROWS: [(&str, &str, bool); 17] = [
    ("", "", true),
    ("", "a", false),
    ("*", "", true),
    ("a*", "a", true),
    ("a*c", "abcbc", true),
    ("a*c", "abcb", false),
    ("?", "", false),
    ("?", "\u{e9}", false),
    ("??", "\u{e9}", true),
    ("*:3", "backup:3", true),
    ("a\\*", "a\\b", true),
    ("*a*b*", "xxaxxb", true),
    ("*.timer", "apt-daily.timer", true),
    ("**", "x", true),
    ("[a]", "a", false),
    ("a", "A", false),
    // Trying each place for each `*` would take years.
    (
        "*a*a*a*a*a*a*a*a*a*a*a*a*a*a*a*a*a*a*a*a*b",
        "aaaaaaaaaaaaaaaaaaaaaaaaaaaaaaaaaaaaaaaaaaaaaaaaaaaaaaaaaaaa",
        false,
    ),
];

#[test]
fn names_fit_patterns(rt: HostRuntime) -> Result<(), Fail> {
    for (pattern, name, want) in ROWS {
        assert_eq!(&rt; fits(pattern, name), want, "{pattern} {name}");
    }
    Ok(())
}
