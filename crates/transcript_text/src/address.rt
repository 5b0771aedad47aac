ghost use Rattle.std.specs.Prelude.{◌≡◌, ◌++◌, OnOk};
ghost use Rattle.addr_pattern.specs.AddressText.{addr_text, endpoint_text};

use addr_pattern::{Addr, Endpoint};
use lists::Text;
use std::alloc::AllocError;

/// Appends an address.
pub(crate) fn add_addr(out: &mut Text, addr: Addr) -> Result<(), AllocError>
    ensures { OnOk result (out.new ≡ out.old ++ addr_text addr) }
{
    out.add(addr.write().as_slice())
}

/// Appends an endpoint: an address of IPv6 stands in brackets.
pub(crate) fn add_endpoint(out: &mut Text, endpoint: Endpoint) -> Result<(), AllocError>
    ensures { OnOk result (out.new ≡ out.old ++ endpoint_text endpoint) }
{
    out.add(endpoint.write().as_slice())
}
