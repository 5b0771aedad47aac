ghost use Rattle.std.specs.Prelude.{◌≡◌, ◌∷◌, ◌||◌, map, bytes_eq};
ghost use Rattle.addr_pattern.specs.Matches.{lower, without_last_dot as without_last_dot_of, folded, ends_with};

/// The name without one closing dot.
fn without_last_dot(name: &[u8]) -> &[u8]
    ensures { result.now ≡ without_last_dot_of name.now }
{
    match name.split_last() {
        Some((last, front)) => { if *last == b'.' { front } else { name } },
        None => name,
    }
}

/// Equal but for the case of ASCII letters.
fn same_letters(a: &[u8], b: &[u8]) -> bool
    ensures { result ≡ bytes_eq (map lower a.now) (map lower b.now) }
{
    a.eq_ignore_ascii_case(b)
}

/// The same name, compared without the case of ASCII letters and without one closing dot.
pub fn is_same_name(a: &[u8], b: &[u8]) -> bool
    ensures { result ≡ bytes_eq (folded a.now) (folded b.now) }
{
    same_letters(without_last_dot(a), without_last_dot(b))
}

/// Ends with a dot and the domain, compared in the same way.
pub fn is_below(name: &[u8], domain: &[u8]) -> bool
    ensures { result ≡ ends_with (46 ∷ folded domain.now) (folded name.now) }
{
    let name = without_last_dot(name);
    let domain = without_last_dot(domain);
    if name.len() <= domain.len() {
        return false;
    }
    let dot = name.len() - domain.len() - 1;
    let (_, end) = name.split_at(dot + 1);
    name[dot] == b'.' && same_letters(end, domain)
}

/// The domain itself, or a name that stands below it.
pub fn is_in_domain(name: &[u8], domain: &[u8]) -> bool
    ensures { result ≡ (bytes_eq (folded name.now) (folded domain.now) || ends_with (46 ∷ folded domain.now) (folded name.now)) }
{
    is_same_name(name, domain) || is_below(name, domain)
}
