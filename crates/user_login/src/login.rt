//! The messages of the login (RFC 1929, section 2).
ghost use Rattle.std.specs.Prelude.{◌≡◌, ◌∷◌, [], ◌≤◌, length};
ghost use Rattle.socks_grammar.specs.Fronts.{IsFront};
ghost use Rattle.socks_grammar.specs.Grammar.{login_status, spelled_login};
ghost use Rattle.user_login.specs.Messages.{OnCounted, OnLogin};

use addr_pattern::{BadAt, BadKind, Front, Short, Span};
use socks_grammar::Login;

/// Where a login has its name and its password. Each has 0 to 255 bytes of any value.
#[derive(Clone, Copy, PartialEq, Eq, Debug)]
pub struct LoginAt {
    pub name: Span,
    pub password: Span,
}

/// The bytes behind the length that stands at a place, or None where they aren't all there.
fn counted(bytes: &[u8], at: usize) -> Option<Span>
    requires { at ≤ length bytes.now }
    ensures { OnCounted bytes.now at result }
{
    let (count, rest) = bytes[at..].split_first()?;
    let len = usize::from(*count);
    if rest.len() < len {
        return None;
    }
    Some(Span { at: at + 1, len })
}

/// The login at the front of what a client sends (RFC 1929, section 2). Both parts lie within the bytes.
pub fn read_login(bytes: &[u8]) -> Front<LoginAt>
    ensures { OnLogin bytes.now result }
{
    let Some((version, _)) = bytes.split_first() else {
        return Front::More;
    };
    if *version != 1 {
        return Front::Bad(bad_version(*version));
    }
    let Some(name) = counted(bytes, 1) else {
        return Front::More;
    };
    let Some(password) = counted(bytes, name.at + name.len) else {
        return Front::More;
    };
    Front::Whole {
        value: LoginAt { name, password },
        len: password.at + password.len,
    }
}

fn bad_version(byte: u8) -> BadAt
    ensures { result ≡ record { at = 0; byte = byte; kind = BadKind.Version } }
{
    BadAt {
        at: 0,
        byte,
        kind: BadKind::Version,
    }
}

/// The login with this name and this password (RFC 1929, section 2).
pub fn write_login(login: &Login) -> Short
    ensures { result ≡ spelled_login login.now.name login.now.password }
{
    let name = login.name.as_bytes();
    let password = login.password.as_bytes();
    let mut bytes = Short::empty();
    bytes.add(&[1, name.len() as u8]);
    bytes.add(name);
    bytes.add(&[password.len() as u8]);
    bytes.add(password);
    bytes
}

/// The status at the front of what a server answers to a login; 0 is success (RFC 1929, section 2).
pub fn read_status(bytes: &[u8]) -> Front<u8>
    ensures { IsFront (λ status. status) result (login_status 0 bytes.now) }
{
    match bytes {
        [] => Front::More,
        [version, rest @ ..] => {
            if *version != 1 {
                return Front::Bad(bad_version(*version));
            }
            match rest {
                [] => Front::More,
                [status, ..] => Front::Whole {
                    value: *status,
                    len: 2,
                },
            }
        }
    }
}

/// The answer to a login with this status (RFC 1929, section 2).
pub fn write_status(status: u8) -> Short
    ensures { result ≡ 1 ∷ status ∷ [] }
{
    let mut bytes = Short::empty();
    bytes.add(&[1, status]);
    bytes
}
