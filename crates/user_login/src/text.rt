//! A line of the users file.
ghost use Rattle.std.specs.Prelude.{◌≡◌, ◌∷◌, ◌++◌, [], OnOk, OnErr};
ghost use Rattle.std.specs.List.{list_any};
ghost use Rattle.user_login.specs.UsersFile.{without_cr as without_cr_of, is_skipped as is_skipped_of, user_of, has_name, OnLine, OnNumbered};

use crate::fault::{UsersFault, UsersKind};
use addr_pattern::{Name, cut_first};
use hex::FromHex;
use lists::List;
use socks_grammar::User;

const USERS: usize = 4096;

/// The line without one CR at its end.
fn without_cr(line: &[u8]) -> &[u8]
    ensures { result.now ≡ without_cr_of line.now }
{
    match line.split_last() {
        Some((last, front)) => { if *last == b'\r' { front } else { line } },
        None => line,
    }
}

/// An empty line, or a comment.
fn is_skipped(line: &[u8]) -> bool
    ensures { result ≡ is_skipped_of line.now }
{
    match line {
        [] => true,
        [first, ..] => *first == b'#',
    }
}

/// The user that a line without its end says.
fn read_user(line: &[u8]) -> Option<User>
    ensures { result ≡ user_of line.now }
{
    let (front, digits) = cut_first(line, b':')?;
    let name = Name::read(front).ok()?;
    let digest = <[u8; 32] as FromHex>::from_hex(digits).ok()?;
    Some(User { name, digest })
}

fn has_name_among(users: &[User], name: &[u8]) -> bool
    ensures { result ≡ list_any (has_name name.now) users.now }
{
    users.iter().any(|user| user.name.as_bytes() == name)
}

/// Takes up what a line says. A kind other than `Memory` is what is wrong with it; the users stay as they were.
fn add_line(users: &mut List<User>, line: &[u8]) -> Result<(), UsersKind>
    ensures { OnLine users.old line.now users.new result }
{
    let line = without_cr(line);
    if is_skipped(line) {
        return Ok(());
    }
    let Some(user) = read_user(line) else {
        return Err(UsersKind::BadLine);
    };
    if has_name_among(users.as_slice(), user.name.as_bytes()) {
        return Err(UsersKind::Repeated);
    }
    if users.len() >= USERS {
        return Err(UsersKind::TooMany);
    }
    users.push(user)?;
    Ok(())
}

/// The same, with the number of the line in the fault.
pub fn add_numbered(users: &mut List<User>, number: u32, line: &[u8]) -> Result<(), UsersFault>
    ensures { OnNumbered users.old number line.now users.new result }
{
    match add_line(users, line) {
        Ok(()) => Ok(()),
        Err(kind) => Err(UsersFault { line: number, kind }),
    }
}
