//! Laws of preludes.
//!
//! The function does nothing; its contract is the laws.

ghost use Rattle.handshake_core.specs.PreludeLaws.{BadIsFirst, MoreIsUnanswered, MoreIsUnsettled, WholeStandsAlone};

/// Of a client's input more is wanted exactly where it can still become a prelude or be refused. A bad byte is the first after which
/// no prelude is possible, and a whole prelude doesn't depend on what follows.
pub fn preludes_stop_exactly()
    ensures answered { MoreIsUnsettled }
    ensures unanswered { MoreIsUnanswered }
    ensures bad { BadIsFirst }
    ensures whole { WholeStandsAlone }
{}
