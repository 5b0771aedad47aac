use super::*;
use lists::{List, Text};
use std::alloc::Global;
use std::test::*;

/// An entry as `LINE KEY [VALUE] ..`.
fn show_entry(text: &mut String, line: u32, key: &Text, values: &List<Text>) -> Result<(), Fail> {
    write!(text, "{line} {}", str::from_utf8(key.as_slice())?)?;
    for value in values.as_slice() {
        write!(text, " [{}]", str::from_utf8(value.as_slice())?)?;
    }
    Ok(())
}

/// A text's statements, one behind the other, or its fault.
fn shown(alloc: Global, text: &[u8]) -> Result<String, Fail> {
    let mut out = String::new(alloc);
    match read_statements(alloc, text) {
        Ok(statements) => {
            for s in statements.as_slice() {
                show_entry(&mut out, s.line, &s.key, &s.values)?;
                if let Some(entries) = &s.block {
                    out.push_str(" {")?;
                    for entry in entries.as_slice() {
                        out.push_str(" ")?;
                        show_entry(&mut out, entry.line, &entry.key, &entry.values)?;
                        out.push_str(",")?;
                    }
                    out.push_str(" }")?;
                }
                out.push_str("; ")?;
            }
        }
        Err(TextFault::NotAscii(line)) => write!(out, "not ascii {line}")?,
        Err(TextFault::NoColon(line)) => write!(out, "no colon {line}")?,
        Err(TextFault::UnclosedBlock(line)) => write!(out, "unclosed block {line}")?,
        Err(TextFault::StrayBrace(line)) => write!(out, "stray brace {line}")?,
        Err(TextFault::TooLong) => out.push_str("too long")?,
        Err(TextFault::Memory) => out.push_str("memory")?,
    }
    Ok(out)
}

/// Texts that are read, and texts that are not.
#[test]
fn statements_of_texts(rt: HostRuntime) -> Result<(), Fail> {
    for (text, want) in [
        ("a: b c: d\ne: f", "1 a [b]; 1 c [d]; 2 e [f]; "),
        ("client\n# x\n\tpass\n{\n}", "1 client pass { }; "),
        ("a {\nb: c\nsocks pass { }", "stray brace 3"),
        ("client pass {\nx", "no colon 2"),
    ] {
        assert_eq!(rt;
            shown(rt.alloc(), text.as_bytes())?.as_str(),
            want,
            "at {text}"
        );
    }
    Ok(())
}
