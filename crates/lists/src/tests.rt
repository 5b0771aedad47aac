use super::*;
use std::test::*;

/// Each change of a text, and what it then holds.
#[test]
fn changes_of_a_text(rt: HostRuntime) -> Result<(), Fail> {
    for (before, len, more, after) in [
        ("", 0, "", ""),
        ("", 3, "ab", "ab"),
        ("socks", 4, "", "sock"),
        ("socks", 9, "4a", "socks4a"),
        ("socks", 0, "4", "4"),
    ] {
        let mut text = Text::from_slice(rt.alloc(), before.as_bytes())?;
        text.truncate(len);
        text.add(more.as_bytes())?;
        assert_eq!(rt; text.as_slice(), after.as_bytes(), "at {before}");
        assert_eq!(rt; text.len(), after.len(), "at {before}");
    }
    Ok(())
}

/// Items by their places.
#[test]
fn items_of_a_list(rt: HostRuntime) -> Result<(), Fail> {
    let mut list: List<u32> = List::make(rt.alloc());
    list.push(7)?;
    list.push(8)?;
    list.push(9)?;
    assert_eq!(rt; list.replace(0, 1), 7);
    list.set(1, 2);
    list.set_last(3);
    assert_eq!(rt; list.as_slice(), [1, 2, 3].as_slice());
    assert_eq!(rt; list.get(2), Some(&3));
    assert_eq!(rt; list.get(3), None);
    let list = List::from_vec(list.into_vec());
    assert_eq!(rt; list.len(), 3);
    Ok(())
}
