use crate::addr::Addr;
use crate::name::Name;

/// A host, by its address or its name.
#[derive(Drop)]
pub enum Host {
    Addr(Addr),
    Name(Name),
}
