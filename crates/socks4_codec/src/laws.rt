//! Laws of the spellings.
//!
//! Each function does nothing; its contract is the law.

ghost use Rattle.socks_grammar.specs.Grammar.{request4};
ghost use Rattle.socks_grammar.specs.Prefixes.{StopsExactly};
ghost use Rattle.socks4_codec.specs.Laws.{RequestsReadAgain, RepliesInPieces, RepliesReadAgain};
ghost use Rattle.socks4_codec.specs.Parts.{parts4, reply4};

/// A request that is written is read again, whatever follows it. An address 0.0.0.x with x not 0 is the sign of a name, and
/// isn't.
pub fn requests_read_again()
    ensures { RequestsReadAgain }
{}

/// A reply with a code from 90 to 93 that is written is read again, whatever follows it.
pub fn replies_read_again()
    ensures { RepliesReadAgain }
{}

/// A reply is its head and the endpoint behind it.
pub fn replies_in_pieces()
    ensures { RepliesInPieces }
{}

/// More is wanted exactly of the proper prefixes of requests.
pub fn requests_stop_exactly()
    ensures parts { StopsExactly parts4 }
    ensures asked { StopsExactly request4 }
{}

/// More is wanted exactly of the proper prefixes of replies.
pub fn replies_stop_exactly()
    ensures { StopsExactly reply4 }
{}
