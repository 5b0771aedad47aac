ghost use Rattle.std.specs.Prelude.{◌≡◌, ◌≤◌, ◌+◌, ◌++◌, [], length};
ghost use Rattle.sockd_commands.specs.Quick.{Prints, sink, fault_text as fault_words, conf_fault_text as conf_fault_words, conf_kind_text as conf_kind_words, users_fault_text as users_fault_words, users_kind_text as users_kind_words, kind_text as kind_words};

use crate::end::End;
use crate::whole::write_all;
use addr_pattern::Short;
use conf_model::{ConfFault, ConfKind};
use conf_text::TextFault;
use itoa::Buffer;
use net_ends::Sink;
use replay_script::{ScriptFault, ScriptKind};
use user_login::{UsersFault, UsersKind};

fn conf_kind_text(kind: ConfKind) -> &'static str
    ensures text { result.now ≡ conf_kind_words kind }
    ensures short { length result.now ≤ 21 }
{
    match kind {
        ConfKind::UnknownKeyword => "unknown keyword",
        ConfKind::BadValue => "bad value",
        ConfKind::GssapiRefused => "gssapi refused",
        ConfKind::PamRefused => "pam refused",
        ConfKind::MethodRefused => "method refused",
        ConfKind::InterfaceRefused => "interface refused",
        ConfKind::MissingInternal => "missing internal",
        ConfKind::ControlNotLoopback => "control not loopback",
        ConfKind::TooMany => "too many",
        ConfKind::Text(TextFault::NotAscii(_)) => "not ascii",
        ConfKind::Text(TextFault::NoColon(_)) => "no colon",
        ConfKind::Text(TextFault::UnclosedBlock(_)) => "unclosed block",
        ConfKind::Text(TextFault::StrayBrace(_)) => "stray brace",
        ConfKind::Text(TextFault::TooLong) => "too long",
        ConfKind::Text(TextFault::Memory) | ConfKind::Memory => "memory",
    }
}

fn add_conf_fault(text: &mut Short, fault: ConfFault)
    requires { length text.old ≤ 100 }
    ensures text { text.new ≡ text.old ++ conf_fault_words fault }
    ensures short { length text.new ≤ length text.old + 50 }
{
    let mut digits = Buffer::new();
    text.add(b"conf line ");
    text.add(digits.format(fault.line).as_bytes());
    text.add(b": ");
    text.add(conf_kind_text(fault.kind).as_bytes());
}

fn users_kind_text(kind: UsersKind) -> &'static str
    ensures text { result.now ≡ users_kind_words kind }
    ensures short { length result.now ≤ 21 }
{
    match kind {
        UsersKind::BadLine => "bad line",
        UsersKind::Repeated => "repeated",
        UsersKind::TooMany => "too many",
        UsersKind::TooLong => "too long",
        UsersKind::Memory => "memory",
    }
}

fn add_users_fault(text: &mut Short, fault: UsersFault)
    requires { length text.old ≤ 100 }
    ensures text { text.new ≡ text.old ++ users_fault_words fault }
    ensures short { length text.new ≤ length text.old + 50 }
{
    let mut digits = Buffer::new();
    text.add(b"users line ");
    text.add(digits.format(fault.line).as_bytes());
    text.add(b": ");
    text.add(users_kind_text(fault.kind).as_bytes());
}

fn add_kind(text: &mut Short, kind: ScriptKind)
    requires { length text.old ≤ 100 }
    ensures text { text.new ≡ text.old ++ kind_words kind }
    ensures short { length text.new ≤ length text.old + 50 }
{
    match kind {
        ScriptKind::Length => text.add(b"length"),
        ScriptKind::Header => text.add(b"header"),
        ScriptKind::Conf(fault) => add_conf_fault(text, fault),
        ScriptKind::Users(fault) => add_users_fault(text, fault),
        ScriptKind::NotBuilt => text.add(b"not built"),
        ScriptKind::Memory => text.add(b"memory"),
    }
}

fn add_conf_line(text: &mut Short, fault: ConfFault)
    requires { text.old ≡ [] }
    ensures { text.new ≡ fault_words (End.Conf fault) }
{
    text.add(b"sockd: ");
    add_conf_fault(text, fault);
    text.add(b"\n");
}

fn add_script_line(text: &mut Short, fault: ScriptFault)
    requires { text.old ≡ [] }
    ensures { text.new ≡ fault_words (End.Script fault) }
{
    let mut digits = Buffer::new();
    text.add(b"sockd: script line ");
    text.add(digits.format(fault.line).as_bytes());
    text.add(b": ");
    add_kind(text, fault.kind);
    text.add(b"\n");
}

/// The line for standard error, or nothing where all was done.
fn fault_text(end: &End) -> Short
    ensures { result ≡ fault_words end.now }
{
    let mut text = Short::empty();
    match end {
        End::Done => {}
        End::Conf(fault) => add_conf_line(&mut text, *fault),
        End::Script(fault) => add_script_line(&mut text, *fault),
        End::Usage => text.add(b"sockd: usage\n"),
        End::InputFault => text.add(b"sockd: fault input\n"),
        End::OutputFault => text.add(b"sockd: fault output\n"),
        End::StoreFault => text.add(b"sockd: fault store\n"),
        End::Memory => text.add(b"sockd: memory\n"),
    }
    text
}

/// Writes the fault text of an end. Where that fails nothing more can be done.
pub fn report<E: Sink>(end: &End, err: &mut E)
    ensures { Prints (sink (E.told err.old) (E.faults err.old)) (sink (E.told err.new) (E.faults err.new)) (fault_words end.now) }
{
    write_all(err, fault_text(end).as_slice());
}
