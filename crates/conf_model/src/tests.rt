use super::*;
use conf_text::TextFault;
use std::alloc::Global;
use std::test::*;

/// The kind of a fault, in a word or two.
fn kind_word(kind: ConfKind) -> &'static str {
    match kind {
        ConfKind::UnknownKeyword => "unknown keyword",
        ConfKind::BadValue => "bad value",
        ConfKind::GssapiRefused => "gssapi refused",
        ConfKind::PamRefused => "pam refused",
        ConfKind::MethodRefused => "method refused",
        ConfKind::InterfaceRefused => "interface refused",
        ConfKind::MissingInternal => "missing internal",
        ConfKind::ControlNotLoopback => "control not loopback",
        ConfKind::TooMany => "too many",
        ConfKind::Text(TextFault::NotAscii(_)) => "not ascii",
        ConfKind::Text(TextFault::NoColon(_)) => "no colon",
        ConfKind::Text(TextFault::UnclosedBlock(_)) => "unclosed block",
        ConfKind::Text(TextFault::StrayBrace(_)) => "stray brace",
        ConfKind::Text(_) => "too long",
        ConfKind::Memory => "memory",
    }
}

/// The canonical text of a text's configuration, or the line and the kind of its fault.
fn shown(alloc: Global, text: &[u8]) -> Result<String, Fail> {
    let mut out = String::new(alloc);
    match read_config(alloc, text) {
        Ok(config) => {
            let text = write_config(alloc, &config.copy(alloc)?)?;
            out.push_str(str::from_utf8(text.as_slice())?)?;
        }
        Err(fault) => write!(out, "line {}: {}", fault.line, kind_word(fault.kind))?,
    }
    Ok(out)
}

/// A text and its canonical text, and a text with a fault.
#[test]
fn canonical_texts(rt: HostRuntime) -> Result<(), Fail> {
    for (text, answer) in [
        (
            "internal: 10.0.0.1 # here\nsocks pass { from: 0/0 }",
            "internal: 10.0.0.1 port = 1080
socksmethod: none
timeout.negotiate: 30
timeout.io: 0
socks pass {
  from: 0/0
  to: 0/0
}
",
        ),
        ("internal: eth0", "line 1: interface refused"),
    ] {
        assert_eq!(rt; shown(rt.alloc(), text.as_bytes())?.as_str(), answer);
    }
    Ok(())
}
