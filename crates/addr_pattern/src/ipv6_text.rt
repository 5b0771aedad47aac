ghost use Rattle.std.specs.Prelude.{◌≡◌, ◌<◌, ◌≤◌, ◌+◌, ◌*◌, ◌%◌, ◌++◌, length};
ghost use Rattle.addr_pattern.specs.AddressText.{hex_digit as hex_digit_of, groups as groups_of, group_text, ipv6_text, joined, zeros_at_front, longest_run as first_longest, text_with_run};

use crate::short::Short;

/// Puts an address behind what the text holds (RFC 5952, section 4), without a dotted tail.
pub fn add_ipv6(out: &mut Short, addr: u128)
    requires { length out.old ≤ 400 }
    ensures added { out.new ≡ out.old ++ ipv6_text addr }
    ensures short { length out.new ≤ length out.old + 82 }
{
    let groups = eight_groups(addr);
    let run = longest_run(&groups);
    add_with_run(out, &groups, run);
}

/// The eight groups of an address, the highest first.
fn eight_groups(addr: u128) -> [u16; 8]
    ensures { result ≡ groups_of 8 addr }
{
    let seven = addr / 65536;
    let six = seven / 65536;
    let five = six / 65536;
    let four = five / 65536;
    let three = four / 65536;
    let two = three / 65536;
    let one = two / 65536;
    [
        low_group(one),
        low_group(two),
        low_group(three),
        low_group(four),
        low_group(five),
        low_group(six),
        low_group(seven),
        low_group(addr),
    ]
}

fn low_group(n: u128) -> u16
    ensures { result ≡ n % 65536 }
{
    (n % 65536) as u16
}

/// Puts groups behind what the text holds, with `::` in the place of a run of them of two or more.
fn add_with_run(out: &mut Short, groups: &[u16], run: (usize, usize))
    requires within { run.0 + run.1 ≤ length groups.now }
    requires short { length out.old + 5 * length groups.now + 2 ≤ 520 }
    ensures added { out.new ≡ out.old ++ text_with_run groups.now run }
    ensures bounded { length out.new ≤ length out.old + 5 * length groups.now + 2 }
{
    if run.1 < 2 {
        add_joined(out, groups);
        return;
    }
    add_joined(out, &groups[..run.0]);
    out.add(b"::");
    add_joined(out, &groups[run.0 + run.1..]);
}

/// The longest run of zeros, the first of equal ones: its place and its length.
fn longest_run(groups: &[u16]) -> (usize, usize)
    ensures run { result ≡ first_longest groups.now }
    ensures within { result.0 + result.1 ≤ length groups.now }
{
    match groups {
        [] => (0, 0),
        [_, rest @ ..] => {
            let here = zeros_at(groups);
            let found = longest_run(rest);
            if here < found.1 {
                (found.0 + 1, found.1)
            } else {
                (0, here)
            }
        }
    }
}

/// How many zeros are in front.
fn zeros_at(groups: &[u16]) -> usize
    ensures zeros { result ≡ zeros_at_front groups.now }
    ensures within { result ≤ length groups.now }
{
    match groups {
        [0, rest @ ..] => 1 + zeros_at(rest),
        _ => 0,
    }
}

/// Puts groups behind what the text holds, with `:` between them.
fn add_joined(out: &mut Short, groups: &[u16])
    requires { length out.old + 5 * length groups.now ≤ 520 }
    ensures added { out.new ≡ out.old ++ joined groups.now }
    ensures short { length out.new ≤ length out.old + 5 * length groups.now }
{
    match groups {
        [] => {}
        [group] => add_group(out, *group),
        [group, rest @ ..] => {
            add_group(out, *group);
            out.add(b":");
            add_joined(out, rest);
        }
    }
}

/// Puts a group in hexadecimal digits, without leading zeros, behind what the text holds.
fn add_group(out: &mut Short, group: u16)
    requires { length out.old + 4 ≤ 520 }
    ensures added { out.new ≡ out.old ++ group_text group }
    ensures short { length out.new ≤ length out.old + 4 }
{
    if group < 16 {
        return out.add(&[hex_digit(group)]);
    }
    let high = group / 16;
    if high < 16 {
        return out.add(&[hex_digit(high), hex_digit(group % 16)]);
    }
    let higher = high / 16;
    if higher < 16 {
        return out.add(&[
            hex_digit(higher),
            hex_digit(high % 16),
            hex_digit(group % 16),
        ]);
    }
    out.add(&[
        hex_digit(higher / 16),
        hex_digit(higher % 16),
        hex_digit(high % 16),
        hex_digit(group % 16),
    ])
}

fn hex_digit(digit: u16) -> u8
    requires { digit < 16 }
    ensures { result ≡ hex_digit_of digit }
{
    if digit < 10 {
        b'0' + digit as u8
    } else {
        b'a' + (digit as u8 - 10)
    }
}
