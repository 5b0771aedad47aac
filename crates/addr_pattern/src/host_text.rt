ghost use Rattle.std.specs.Prelude.{◌≡◌};
ghost use Rattle.addr_pattern.specs.PatternText.{host_read};

use crate::addr::Addr;
use crate::fault::AddrFault;
use crate::host::Host;
use crate::name::Name;

impl Host {
    /// An address where `Addr::read` reads one, else a name by `Name::read`.
    pub fn read(bytes: &[u8]) -> Result<Host, AddrFault>
        ensures { result ≡ host_read bytes.now }
    {
        match Addr::read(bytes) {
            Ok(addr) => Ok(Host::Addr(addr)),
            Err(_) => match Name::read(bytes) {
                Ok(name) => Ok(Host::Name(name)),
                Err(fault) => Err(fault),
            },
        }
    }
}
