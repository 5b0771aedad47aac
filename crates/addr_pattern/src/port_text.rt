ghost use Rattle.std.specs.Prelude.{◌≡◌, ◌≤◌, ◌+◌, ◌++◌, Some, None, MatchOption, length};
ghost use Rattle.addr_pattern.specs.AddressText.{number_text};
ghost use Rattle.addr_pattern.specs.PatternText.{service_of, port_of, test_of, sign_operator, word_operator, operator_of, range_of, bare_test as bare_test_of, begins_blank as begins_blank_of, behind_port as behind_port_of, port_read, behind_plain_port, port_part, port_text};

use crate::blanks::{is_word, skip_blanks, strip_front, trim_end};
use crate::cut::cut_first;
use crate::number::{add_number, read_number};
use crate::pattern::PortTest;
use crate::short::Short;

/// How a port is compared.
#[derive(Clone, Copy, PartialEq, Eq, Debug)]
pub enum Operator {
    Eq,
    Ne,
    Ge,
    Le,
    Gt,
    Lt,
}

impl Operator {
    fn test(self, port: u16) -> PortTest
        ensures { Some result ≡ test_of self (Some port) }
    {
        match self {
            Operator::Eq => PortTest::Eq(port),
            Operator::Ne => PortTest::Ne(port),
            Operator::Ge => PortTest::Ge(port),
            Operator::Le => PortTest::Le(port),
            Operator::Gt => PortTest::Gt(port),
            Operator::Lt => PortTest::Lt(port),
        }
    }
}

/// The port that stands for a service.
fn service(text: &[u8]) -> Option<u16>
    ensures { result ≡ service_of text.now }
{
    if is_word(text, b"ftp") {
        return Some(21);
    }
    if is_word(text, b"ssh") {
        return Some(22);
    }
    if is_word(text, b"telnet") {
        return Some(23);
    }
    if is_word(text, b"smtp") {
        return Some(25);
    }
    if is_word(text, b"domain") {
        return Some(53);
    }
    if is_word(text, b"http") {
        return Some(80);
    }
    if is_word(text, b"pop3") {
        return Some(110);
    }
    if is_word(text, b"imap") {
        return Some(143);
    }
    if is_word(text, b"https") {
        return Some(443);
    }
    if is_word(text, b"socks") {
        return Some(1080);
    }
    None
}

/// A port by its number or its service.
fn read_port(text: &[u8]) -> Option<u16>
    ensures { result ≡ port_of text.now }
{
    match read_number(text, 65535) {
        Some(port) => Some(port as u16),
        None => service(text),
    }
}

/// The operator of signs in front, and what stands behind it.
fn read_sign(text: &[u8]) -> Option<(Operator, &[u8])>
    ensures { MatchOption result (sign_operator text.now ≡ None) (λ p. sign_operator text.now ≡ Some (p.0, p.1.now)) }
{
    if let Some(rest) = strip_front(text, b"=") {
        return Some((Operator::Eq, rest));
    }
    if let Some(rest) = strip_front(text, b"!=") {
        return Some((Operator::Ne, rest));
    }
    if let Some(rest) = strip_front(text, b">=") {
        return Some((Operator::Ge, rest));
    }
    if let Some(rest) = strip_front(text, b"<=") {
        return Some((Operator::Le, rest));
    }
    if let Some(rest) = strip_front(text, b">") {
        return Some((Operator::Gt, rest));
    }
    if let Some(rest) = strip_front(text, b"<") {
        return Some((Operator::Lt, rest));
    }
    None
}

/// The operator of letters in front, and what stands behind it.
fn read_word(text: &[u8]) -> Option<(Operator, &[u8])>
    ensures { MatchOption result (word_operator text.now ≡ None) (λ p. word_operator text.now ≡ Some (p.0, p.1.now)) }
{
    if let Some(rest) = strip_front(text, b"eq") {
        return Some((Operator::Eq, rest));
    }
    if let Some(rest) = strip_front(text, b"neq") {
        return Some((Operator::Ne, rest));
    }
    if let Some(rest) = strip_front(text, b"ne") {
        return Some((Operator::Ne, rest));
    }
    if let Some(rest) = strip_front(text, b"ge") {
        return Some((Operator::Ge, rest));
    }
    if let Some(rest) = strip_front(text, b"le") {
        return Some((Operator::Le, rest));
    }
    if let Some(rest) = strip_front(text, b"gt") {
        return Some((Operator::Gt, rest));
    }
    if let Some(rest) = strip_front(text, b"lt") {
        return Some((Operator::Lt, rest));
    }
    None
}

fn read_operator(text: &[u8]) -> Option<(Operator, &[u8])>
    ensures { MatchOption result (operator_of text.now ≡ None) (λ p. operator_of text.now ≡ Some (p.0, p.1.now)) }
{
    match read_sign(text) {
        Some(found) => Some(found),
        None => read_word(text),
    }
}

/// One port, or a range whose lower end is not above its upper.
fn read_bare(text: &[u8]) -> Option<PortTest>
    ensures { result ≡ bare_test_of text.now }
{
    match cut_first(text, b'-') {
        None => {
            let port = read_port(text)?;
            Some(PortTest::Eq(port))
        }
        Some((low, high)) => range(read_port(trim_end(low)), read_port(skip_blanks(high))),
    }
}

fn range(low: Option<u16>, high: Option<u16>) -> Option<PortTest>
    ensures { result ≡ range_of low high }
{
    let low = low?;
    let high = high?;
    if low > high {
        return None;
    }
    Some(PortTest::Range(low, high))
}

fn begins_blank(text: &[u8]) -> bool
    ensures { result ≡ begins_blank_of text.now }
{
    match text {
        [] => false,
        [first, ..] => *first == b' ',
    }
}

/// The port part behind the first blank of a pattern: `port`, and an operator with a port, or behind a blank one port
/// or a range. Blanks round an operator and round `-` are optional.
pub fn read_test(text: &[u8]) -> Option<PortTest>
    ensures { result ≡ port_read text.now }
{
    let behind = strip_front(skip_blanks(text), b"port")?;
    read_behind(behind)
}

fn read_behind(text: &[u8]) -> Option<PortTest>
    ensures { result ≡ behind_port_of (Some text.now) }
{
    if let Some((operator, digits)) = read_operator(skip_blanks(text)) {
        let port = read_port(skip_blanks(digits))?;
        return Some(operator.test(port));
    }
    if begins_blank(text) {
        read_bare(skip_blanks(text))
    } else {
        None
    }
}

/// The port part of an address to listen on or to go to: `port`, and `=` or a blank before the one port. Blanks round
/// `=` are optional.
pub fn read_port_part(text: &[u8]) -> Option<u16>
    ensures { result ≡ port_part text.now }
{
    let behind = strip_front(skip_blanks(text), b"port")?;
    read_plain_port(behind)
}

fn read_plain_port(text: &[u8]) -> Option<u16>
    ensures { result ≡ behind_plain_port (Some text.now) }
{
    match strip_front(skip_blanks(text), b"=") {
        Some(digits) => read_port(skip_blanks(digits)),
        None => {
            if begins_blank(text) {
                read_port(skip_blanks(text))
            } else {
                None
            }
        }
    }
}

/// Puts the port part behind what the text holds.
pub fn add_test(out: &mut Short, test: PortTest)
    requires { length out.old ≤ 400 }
    ensures { out.new ≡ out.old ++ port_text test }
{
    match test {
        PortTest::Any => {}
        PortTest::Eq(port) => add_port(out, b" port = ", port),
        PortTest::Ne(port) => add_port(out, b" port != ", port),
        PortTest::Ge(port) => add_port(out, b" port >= ", port),
        PortTest::Le(port) => add_port(out, b" port <= ", port),
        PortTest::Gt(port) => add_port(out, b" port > ", port),
        PortTest::Lt(port) => add_port(out, b" port < ", port),
        PortTest::Range(low, high) => {
            add_port(out, b" port ", low);
            out.add(b"-");
            add_number(out, high);
        }
    }
}

fn add_port(out: &mut Short, front: &[u8], port: u16)
    requires room { length out.old ≤ 400 }
    requires small { length front.now ≤ 20 }
    ensures added { out.new ≡ out.old ++ (front.now ++ number_text port) }
    ensures short { length out.new ≤ length out.old + length front.now + 5 }
{
    out.add(front);
    add_number(out, port);
}
