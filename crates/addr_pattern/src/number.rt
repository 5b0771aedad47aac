ghost use Rattle.std.specs.Prelude.{◌≡◌, ◌≤◌, ◌+◌, ◌++◌, length, IfSome};
ghost use Rattle.addr_pattern.specs.AddressText.{no_leading_zero as no_leading_zero_of, number_of_text, number_text};

use crate::short::Short;

fn no_leading_zero(text: &[u8]) -> bool
    ensures { result ≡ no_leading_zero_of text.now }
{
    match text {
        [] => false,
        [_] => true,
        [first, ..] => *first != b'0',
    }
}

/// The decimal number that a text is, without leading zeros and at most the limit.
pub fn read_number(text: &[u8], limit: u32) -> Option<u32>
    ensures number { result ≡ number_of_text limit text.now }
    ensures within { IfSome result (λ n. n ≤ limit) }
{
    if !no_leading_zero(text) {
        return None;
    }
    let mut number = 0u64;
    for digit in text {
        if !digit.is_ascii_digit() {
            return None;
        }
        number = number * 10 + u64::from(*digit - b'0');
        if number > u64::from(limit) {
            return None;
        }
    }
    Some(number as u32)
}

/// A number in decimal digits.
pub fn write_number(number: u32) -> Short
    ensures { result ≡ number_text number }
{
    let mut text = Short::empty();
    add_digits(&mut text, number);
    text
}

/// Puts the digits of a number behind what the text holds.
pub fn add_number(out: &mut Short, number: u16)
    requires { length out.old + 5 ≤ 520 }
    ensures added { out.new ≡ out.old ++ number_text number }
    ensures short { length out.new ≤ length out.old + 5 }
{
    add_digits(out, u32::from(number));
}

fn add_digits(out: &mut Short, number: u32)
    requires { length out.old + length (number_text number) ≤ 520 }
    ensures { out.new ≡ out.old ++ number_text number }
{
    if number >= 10 {
        add_digits(out, number / 10);
    }
    out.add(&[b'0' + (number % 10) as u8]);
}
