//! The users who may log in.
ghost use Rattle.std.specs.Prelude.{◌≡◌, ◌≤◌, [], length, IfOk, is_some};
ghost use Rattle.socks_grammar.specs.Users.{user_fits};
ghost use Rattle.user_login.specs.Checking.{user_number, OnFound};
ghost use Rattle.user_login.specs.UsersFile.{OnUsers, are_users, longest};

use crate::digest::is_same_digest;
use crate::fault::{UsersFault, UsersKind};
use crate::text::add_numbered;
use addr_pattern::cut_first;
use lists::List;
use sha2::{Digest, Sha256};
use socks_grammar::User;
use std::alloc::{AllocError, Global};
use std::marker::Model;

/// The users who may log in: at most 4,096, no two of one name. Contracts see the list of them, in the order of their
/// file.
#[derive(Drop)]
pub struct Users {
    /// None where there are no users, so that these take no allocator.
    users: Option<List<User>>,
}

impl Model for Users {
    ghost use Rattle.std.specs.Prelude.{List as Items, ◌≡◌, true};
    ghost use Rattle.socks_grammar.specs.declared.user.User.{User as SomeUser};
    ghost use Rattle.user_login.specs.UsersFile.{are_users, listed};

    ghost Value = { Items SomeUser };

    ghost view = { λ u. listed u.users };

    ghost invariant = { λ u. are_users (listed u.users) ≡ true };
}

/// The copy of a user; it takes no memory.
fn copy_user(user: &User) -> User
    ensures { result ≡ user.now }
{
    User {
        name: user.name.copy(),
        digest: user.digest,
    }
}

fn copy_users(alloc: Global, users: &[User]) -> Result<List<User>, AllocError>
    ensures { IfOk result (λ copy. copy ≡ users.now) }
{
    let mut copy = List::make(alloc);
    for user in users {
        copy.push(copy_user(user))?;
    }
    Ok(copy)
}

impl Users {
    ghost use Rattle.std.specs.Prelude.{true};

    /// No users: nobody can log in.
    pub fn empty() -> Users
        ensures { result ≡ [] }
    {
        Users { users: None }
    }

    /// The users of a users file's text: lines `NAME:HEX`, a name of 1 to 255 bytes from 21 to 7E without `:`, and the 64
    /// hexadecimal digits of either case of SHA-256 of the password. Empty lines and lines that begin with `#` are skipped, and
    /// one CR at the end of a line.
    pub fn read(alloc: Global, text: &[u8]) -> Result<Users, UsersFault>
        ensures { OnUsers text.now result }
    {
        if text.len() > 1_048_576 {
            return Err(UsersFault {
                line: 0,
                kind: UsersKind::TooLong,
            });
        }
        let users = read_lines(alloc, text)?;
        Ok(Users { users: Some(users) })
    }

    /// Equal users. An `AllocError` comes where memory is refused.
    pub fn from_slice(alloc: Global, users: &[User]) -> Result<Users, AllocError>
        requires { are_users users.now ≡ true }
        ensures { IfOk result (λ copy. copy ≡ users.now) }
    {
        let users = copy_users(alloc, users)?;
        Ok(Users { users: Some(users) })
    }

    /// The users as a list, in the order of their file; nothing is copied.
    pub fn into_list(self, alloc: Global) -> List<User>
        ensures { result ≡ self }
    {
        let Users { users } = self;
        match users {
            None => List::make(alloc),
            Some(users) => users,
        }
    }

    /// The users in the order of their file, as their numbers count them from 1.
    pub fn as_slice(&self) -> &[User]
        ensures value { result.now ≡ self.now }
        ensures limited { are_users self.now ≡ true }
    {
        match &self.users {
            None => &[],
            Some(users) => users.as_slice(),
        }
    }

    /// The number, from 1, of the user with this name and this password. An empty name or password is nobody's.
    pub fn check(&self, name: &[u8], password: &[u8]) -> Option<u32>
        ensures number { result ≡ user_number self.now name.now password.now }
        ensures fits { is_some result ≡ user_fits self.now name.now password.now }
    {
        if name.is_empty() || password.is_empty() {
            return None;
        }
        let digest = Sha256::digest(password);
        let users = self.as_slice();
        for (i, user) in users.iter().enumerate() {
            if user.name.as_bytes() == name && is_same_digest(&user.digest, &digest) {
                return Some(i as u32 + 1);
            }
        }
        None
    }

    /// The user with this name and this password. An empty name or password is nobody's.
    pub fn find(&self, name: &[u8], password: &[u8]) -> Option<&User>
        ensures { OnFound self.now name.now password.now result }
    {
        let number = self.check(name, password)?;
        let users = self.as_slice();
        Some(&users[number as usize - 1])
    }

    /// Equal users. An `AllocError` comes where memory is refused.
    pub fn copy(&self, alloc: Global) -> Result<Users, AllocError>
        ensures { IfOk result (λ copy. copy ≡ self.now) }
    {
        Users::from_slice(alloc, self.as_slice())
    }
}

/// The users of the lines of a text.
fn read_lines(alloc: Global, text: &[u8]) -> Result<List<User>, UsersFault>
    requires { length text.now ≤ longest }
    ensures { OnUsers text.now result }
{
    let mut users = List::make(alloc);
    let mut rest = text;
    let mut line = 1;
    'lines: while let Some((front, behind)) = cut_first(rest, b'\n') {
        add_numbered(&mut users, line, front)?;
        rest = behind;
        line += 1;
    }
    add_numbered(&mut users, line, rest)?;
    Ok(users)
}
