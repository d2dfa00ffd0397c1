//! The users of a machine (passwd(5)).

ghost use Rattle.std.specs.Prelude.{◌≡◌, true, IfOk, map};
ghost use Rattle.std.specs.Option.{option_map};
ghost use Rattle.plan_owners.specs.Users.{home_in, id_in, name_in, names_of, number_of, text_in, user_by, user_in, users_at, users_of, users_of_found};

use plan_rules::Names;
use plan_texts::lines::is_too_large;
use plan_texts::{Text, pieces};
use plan_tree::{Tree, contents};
use std::alloc::{AllocError, Global};

// The number of bytes that are read of a file: one more than a text may have.
const MOST_READ: u64 = 1_048_577;

/// A user of a machine.
#[derive(Debug, Drop)]
pub struct User {
    /// The name.
    pub name: Text,
    /// The number, in decimal.
    pub number: Text,
    /// The home directory, as it is written; empty if the line has none, or one that isn't UTF-8.
    pub home: Text,
}

/// Returns the users of a machine in the order of its etc/passwd (passwd(5)), or `None` if that can't be read.
///
/// # Errors
///
/// `AllocError` if an allocation fails.
pub fn users_of<T: Tree>(alloc: Global, tree: &T) -> Result<Option<Vec<User>>, AllocError>
    ensures { T.is_known ≡ true → IfOk result (λ users.
        option_map (λ all. all.items) users ≡ users_of (T.held tree.now)) }
{
    users_at(alloc, tree, MOST_READ, "etc/passwd")
}

// Returns the users in the first bytes of the file where a path leads, or `None` if it can't be read.
#[tactic(auto, unfolding(crate::specs::Users::users_at))]
fn users_at<T: Tree>(
    alloc: Global,
    tree: &T,
    most: u64,
    path: &str,
) -> Result<Option<Vec<User>>, AllocError>
    ensures { T.is_known ≡ true → IfOk result (λ users.
        option_map (λ all. all.items) users ≡ users_at (T.held tree.now) most path.now) }
{
    let found = contents(alloc, tree, path, most)?;
    users_of_found(alloc, found)
}

// Returns the users of what was read, if anything was.
fn users_of_found(alloc: Global, found: Option<Vec<u8>>) -> Result<Option<Vec<User>>, AllocError>
    ensures { IfOk result (λ users. option_map (λ all. all.items) users
        ≡ users_of_found (option_map (λ bytes. bytes.items) found)) }
{
    let Some(bytes) = found else {
        return Ok(None);
    };
    if is_too_large(bytes.as_slice()) {
        return Ok(None);
    }
    let mut users = Vec::new(alloc);
    let lines = pieces(alloc, bytes.as_slice(), b'\n')?;
    for line in lines.as_slice() {
        if let Some(user) = user_in(alloc, line)? {
            users.push(user)?;
        }
    }
    Ok(Some(users))
}

// Returns the user of a line.
#[tactic(auto, unfolding(crate::specs::Users::user_in))]
fn user_in(alloc: Global, line: &[u8]) -> Result<Option<User>, AllocError>
    ensures { IfOk result (λ user. user ≡ user_in line.now) }
{
    let fields = pieces(alloc, line, b':')?;
    user_by(alloc, fields.as_slice())
}

// Returns the user of a line with these fields.
#[tactic(auto, using(crate::proofs::UserLemmas::too_few))]
fn user_by(alloc: Global, fields: &[&[u8]]) -> Result<Option<User>, AllocError>
    ensures { IfOk result (λ user. user ≡ user_by (map (λ field. field.now) fields.now)) }
{
    let [name, _, number, group, more @ ..] = fields else {
        return Ok(None);
    };
    let (Some(name), Some(number), Some(_)) = (name_in(name), id_in(number), id_in(group)) else {
        return Ok(None);
    };
    Ok(Some(User {
        name: Text::new(String::from_str(alloc, name)?),
        number: Text::new(format!(in alloc; "{number}")?),
        home: Text::new(String::from_str(alloc, home_in(more))?),
    }))
}

// Returns the name of a user in a field.
fn name_in(field: &[u8]) -> Option<&str>
    ensures { option_map (λ name. name.now) result ≡ name_in field.now }
{
    let name = text_in(field)?;
    match name.as_bytes() {
        [b'#' | b'+' | b'-', ..] => None,
        _ => Some(name),
    }
}

// Returns the number of a user or a group in a field.
#[tactic(auto, using(crate::proofs::UserLemmas::parsed))]
fn id_in(field: &[u8]) -> Option<u32>
    ensures { result ≡ id_in field.now }
{
    text_in(field)?.parse::<u32>().ok()
}

// Returns the text of a field without the white space before it, if it is UTF-8.
#[tactic(auto, using(plan_texts::proofs::Utf8Lemmas::yes_utf8, plan_texts::proofs::Utf8Lemmas::no_utf8))]
fn text_in(field: &[u8]) -> Option<&str>
    ensures { option_map (λ text. text.now) result ≡ text_in field.now }
{
    match str::from_utf8(field) {
        Ok(text) => Some(text.trim_ascii_start()),
        Err(_) => None,
    }
}

// Returns the home directory among the fields after the group, or nothing.
#[tactic(auto, using(plan_texts::proofs::Utf8Lemmas::yes_utf8, plan_texts::proofs::Utf8Lemmas::no_utf8))]
fn home_in<'a>(fields: &[&'a [u8]]) -> &'a str
    ensures { result.now ≡ home_in (map (λ field. field.now) fields.now) }
{
    match fields {
        [_, home, ..] => match str::from_utf8(home) {
            Ok(home) => home,
            Err(_) => "",
        },
        _ => "",
    }
}

// Returns the number of the first user with a name, in decimal.
pub(crate) fn number_of<'a>(users: &'a [User], name: &str) -> Option<&'a str>
    ensures { option_map (λ number. number.now) result ≡ number_of users.now name.now }
{
    for user in users {
        if user.name.as_str() == name {
            return Some(user.number.as_str());
        }
    }
    None
}

// Returns the names of users, each once.
pub(crate) fn names_of(alloc: Global, users: &[User]) -> Result<Names, AllocError>
    ensures { IfOk result (λ names. names ≡ names_of users.now) }
{
    let mut names = Names::new(alloc);
    for user in users {
        names.add(alloc, user.name.as_str())?;
    }
    Ok(names)
}
