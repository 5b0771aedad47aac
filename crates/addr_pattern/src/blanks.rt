ghost use Rattle.std.specs.Prelude.{◌≡◌, Some, None, MatchOption, bytes_eq};
ghost use Rattle.addr_pattern.specs.PatternText.{skip_blanks as skip_blanks_of, trim_end as trim_end_of, strip_front as strip_front_of};

/// Without the blanks in front.
pub fn skip_blanks(text: &[u8]) -> &[u8]
    ensures { result.now ≡ skip_blanks_of text.now }
{
    let mut at = 0;
    while at < text.len() {
        if text[at] != b' ' {
            return &text[at..];
        }
        at += 1;
    }
    b""
}

/// Without the blanks at the end.
pub fn trim_end(text: &[u8]) -> &[u8]
    ensures { result.now ≡ trim_end_of text.now }
{
    let mut end = text.len();
    while end > 0 {
        if text[end - 1] != b' ' {
            return &text[..end];
        }
        end -= 1;
    }
    b""
}

/// What stands behind this front.
pub fn strip_front<'a>(text: &'a [u8], front: &[u8]) -> Option<&'a [u8]>
    ensures { MatchOption result (strip_front_of front.now text.now ≡ None) (λ t. strip_front_of front.now text.now ≡ Some t.now) }
{
    match front {
        [] => Some(text),
        [wanted, front @ ..] => match text {
            [byte, rest @ ..] => {
                if byte == wanted {
                    strip_front(rest, front)
                } else {
                    None
                }
            }
            [] => None,
        },
    }
}

/// Whether the text is this word, byte for byte.
pub fn is_word(text: &[u8], word: &[u8]) -> bool
    ensures { result ≡ bytes_eq text.now word.now }
{
    text == word
}
