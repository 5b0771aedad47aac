ghost use Rattle.std.specs.Prelude.{◌≡◌, ◌≤◌, ◌+◌, ◌++◌, length};
ghost use Rattle.socks_grammar.specs.Grammar.{command_byte, spelled_addr, spelled_endpoint, spelled_greeting, spelled_host, spelled_request5};
ghost use Rattle.socks5_codec.specs.Writes.{IsCommand5, spelled_method, spelled_reply5};

use addr_pattern::{Addr, Endpoint, Host, Short};
use socks_grammar::Command;

/// The code of a command: 1 for Connect, 2 for Bind, 3 for UdpAssociate (RFC 1928, section 4).
fn code_of(command: Command) -> u8
    requires { IsCommand5 command }
    ensures { result ≡ command_byte command }
{
    match command {
        Command::Connect => 1,
        Command::Bind => 2,
        Command::UdpAssociate => 3,
        _ => unreachable!(),
    }
}

/// Puts an address behind its type behind what stands (RFC 1928, section 5).
fn add_addr(out: &mut Short, addr: &Addr)
    requires { length out.old + 17 ≤ 520 }
    ensures added { out.new ≡ out.old ++ spelled_addr addr.now }
    ensures short { length out.new ≤ length out.old + 17 }
{
    match addr {
        Addr::V4(addr) => {
            out.add(&[1]);
            out.add(&addr.to_be_bytes());
        }
        Addr::V6(addr) => {
            out.add(&[4]);
            out.add(&addr.to_be_bytes());
        }
    }
}

/// Puts an endpoint behind what stands (RFC 1928, section 6).
pub fn add_endpoint(out: &mut Short, at: &Endpoint)
    requires { length out.old + 19 ≤ 520 }
    ensures { out.new ≡ out.old ++ spelled_endpoint at.now }
{
    add_addr(out, &at.addr);
    out.add(&at.port.to_be_bytes());
}

/// Puts a host behind its type behind what stands (RFC 1928, section 5).
fn add_host(out: &mut Short, host: &Host)
    requires { length out.old + 257 ≤ 520 }
    ensures added { out.new ≡ out.old ++ spelled_host host.now }
    ensures short { length out.new ≤ length out.old + 257 }
{
    match host {
        Host::Addr(addr) => add_addr(out, addr),
        Host::Name(name) => {
            let name = name.as_bytes();
            out.add(&[3, name.len() as u8]);
            out.add(name);
        }
    }
}

/// The bytes of a greeting, which offers 00, no login, and with a login 02 as well (RFC 1928, section 3).
pub fn write_greeting(login: bool) -> Short
    ensures { result ≡ spelled_greeting login }
{
    let mut out = Short::empty();
    if login {
        out.add(&[5, 2, 0, 2]);
    } else {
        out.add(&[5, 1, 0]);
    }
    out
}

/// The bytes of the answer to a greeting (RFC 1928, section 3).
pub fn write_method(method: u8) -> Short
    ensures { result ≡ spelled_method method }
{
    let mut out = Short::empty();
    out.add(&[5, method]);
    out
}

/// The bytes of a request (RFC 1928, section 4).
pub fn write_request5(command: Command, host: &Host, port: u16) -> Short
    requires { IsCommand5 command }
    ensures { result ≡ spelled_request5 command host.now port }
{
    let mut out = Short::empty();
    out.add(&[5, code_of(command), 0]);
    add_host(&mut out, host);
    out.add(&port.to_be_bytes());
    out
}

/// The bytes of a reply (RFC 1928, section 6).
pub fn write_reply5(code: u8, at: &Endpoint) -> Short
    ensures { result ≡ spelled_reply5 code at.now }
{
    let mut out = Short::empty();
    out.add(&[5, code, 0]);
    add_endpoint(&mut out, at);
    out
}
