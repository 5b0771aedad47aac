use addr_pattern::Name;

/// A name and its password, as a client of a proxy says them (RFC 1929).
#[derive(Drop)]
pub struct Login {
    pub name: Name,
    pub password: Name,
}
