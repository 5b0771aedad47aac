//! Laws of the texts.
//!
//! Each function does nothing; its contract is the law.

ghost use Rattle.addr_pattern.specs.ReadAgain.{NumberReadAgain, AddrReadAgain, EndpointReadAgain, PatternReadAgain, PortPartReadAgain, AddrInRange, EndpointInRange, PatternInRange, PortPartInRange, PlainAddr, PlainHost};

/// A number that is written is read again, up to each limit that it keeps.
pub fn number_read_again()
    ensures { NumberReadAgain }
{}

/// An address that is written is read again.
pub fn addr_read_again()
    ensures { AddrReadAgain }
{}

/// An endpoint that is written is read again.
pub fn endpoint_read_again()
    ensures { EndpointReadAgain }
{}

/// A pattern that is written is read again.
pub fn pattern_read_again()
    ensures { PatternReadAgain }
{}

/// One port that is written as a test is read again as the port part of an address.
pub fn port_part_read_again()
    ensures { PortPartReadAgain }
{}

/// An address that is read is of the width of its family.
pub fn addr_in_range()
    ensures { AddrInRange }
{}

/// An endpoint that is read has an address and a port in range.
pub fn endpoint_in_range()
    ensures { EndpointInRange }
{}

/// A pattern that is read can be written: its numbers are in range, and no name of it is digits and dots alone.
pub fn pattern_in_range()
    ensures { PatternInRange }
{}

/// A port part that is read is a port in range.
pub fn port_part_in_range()
    ensures { PortPartInRange }
{}

/// A written address stands as one word, and none that ends like a key.
pub fn plain_addr()
    ensures { PlainAddr }
{}

/// The written host of a pattern stands as one word, and none that ends like a key.
pub fn plain_host()
    ensures { PlainHost }
{}
