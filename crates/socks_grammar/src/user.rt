use addr_pattern::Name;

/// A user: the name, and the digest of the password.
#[derive(Drop)]
pub struct User {
    pub name: Name,
    pub digest: [u8; 32],
}
