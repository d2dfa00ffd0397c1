//! Tests of the units of names: which names are valid, and which links in a user's directory are aliases.

use crate::tree::TextTree;
use plan_units::{dir_at, is_unit_name, is_valid_name, unit_of};
use std::test::Fail;

// systemd.unit(5), and unit_name_is_valid of systemd 252: the names of units, one a line.
const UNITS: &str = "\
a.timer
a@b.timer
a@b@c.timer
a@@.timer
A-0:_.\\x2d.service
a.timer.d.socket
-.slice
a.device
a.mount
a.automount
a.swap
a.target
a.path
a.scope
";

// Names of no unit, of which the first is empty.
const INVALID: &str = "
timer
.timer
@.timer
@b.timer
a.timers
a.Timer
a.timer@
a b.timer
a@b%.timer
\u{e0}.timer
";

#[test]
fn names_of_units_are_valid(rt: HostRuntime) -> Result<(), Fail> {
    for name in UNITS.lines() {
        assert!(&rt; is_valid_name(name) && is_unit_name(name));
    }
    // the name of a template is no unit
    assert!(&rt; is_valid_name("a@.timer") && !is_unit_name("a@.timer"));
    for name in INVALID.lines() {
        assert!(&rt; !is_valid_name(name) && !is_unit_name(name));
    }
    Ok(())
}

// Two directories of a user's units, and one of the system's. The parent of one is a link.
const USER: &str = "\
d home
d home/alice
d home/alice/user
f home/alice/user/own.timer x
l home/alice/user/by-name.timer own.timer
l home/alice/user/by-path.timer /lib/systemd/user/a.timer
l home/alice/user/by-end.timer ../../../usr/lib/systemd/user/a.timer
l home/alice/user/of-system.timer /usr/lib/systemd/system/a.timer
l home/alice/user/of-nothing.timer /usr/lib/systemd/user/b.timer
l home/alice/user/elsewhere.timer /opt/a.timer
l lib usr/lib
d usr
d usr/lib
d usr/lib/systemd
d usr/lib/systemd/system
f usr/lib/systemd/system/a.timer x
d usr/lib/systemd/user
f usr/lib/systemd/user/a.timer x
";

// A name and its unit for that user (systemd.unit(5)). A link that leads out of the user's directories is no alias.
const UNITS_OF_USER: &str = "\
own.timer own.timer
by-name.timer own.timer
by-path.timer a.timer
by-end.timer a.timer
of-system.timer of-system.timer
of-nothing.timer none
elsewhere.timer elsewhere.timer
";

#[test]
fn links_between_directories_of_a_user_are_aliases(rt: HostRuntime) -> Result<(), Fail> {
    let alloc = rt.alloc();
    let tree = TextTree(USER);
    let mut dirs = Vec::new(alloc);
    for path in &["home/alice/user", "lib/systemd/user"] {
        if let Some(dir) = dir_at(alloc, &tree, path)? {
            dirs.push(dir)?;
        }
    }
    for line in UNITS_OF_USER.lines() {
        let (name, expected) = line.split_once(' ').unwrap_or((line, ""));
        let unit = unit_of(alloc, &tree, dirs.as_slice(), name)?;
        let found = match &unit {
            Some(unit) => unit.name.as_str(),
            None => "none",
        };
        assert_eq!(&rt; found, expected);
    }
    Ok(())
}
