//! Laws of the spellings.
//!
//! Each function does nothing; its contract is the law.

ghost use Rattle.socks_grammar.specs.Grammar.{greeting, method_answer, request5, udp_header};
ghost use Rattle.socks_grammar.specs.Prefixes.{StopsExactly};
ghost use Rattle.socks5_codec.specs.Laws.{GreetingsReadAgain, HeadersReadAgain, IsSameAnywhere, MethodsReadAgain, RepliesInPieces, RepliesReadAgain, RequestsReadAgain};
ghost use Rattle.socks5_codec.specs.Parts.{header_spelled, reply5, request_spelled};

/// A greeting that is written is read again, whatever follows it.
pub fn greetings_read_again()
    ensures { GreetingsReadAgain }
{}

/// The answer to a greeting that is written is read again, whatever follows it.
pub fn methods_read_again()
    ensures { MethodsReadAgain }
{}

/// A request that is written is read again, whatever follows it.
pub fn requests_read_again()
    ensures { RequestsReadAgain }
{}

/// A reply that is written is read again, whatever follows it.
pub fn replies_read_again()
    ensures { RepliesReadAgain }
{}

/// The header of a datagram that is written is read again, whatever follows it.
pub fn headers_read_again()
    ensures { HeadersReadAgain }
{}

/// A reply is its head and its rest.
pub fn replies_in_pieces()
    ensures { RepliesInPieces }
{}

/// A request or a reply behind other bytes is read as at the front, with its places moved.
pub fn places_move()
    ensures spelled { IsSameAnywhere request_spelled }
    ensures requests { IsSameAnywhere request5 }
    ensures replies { IsSameAnywhere reply5 }
{}

/// More is wanted exactly of the proper prefixes of greetings, and of the answers to them.
pub fn greetings_stop_exactly()
    ensures offered { StopsExactly greeting }
    ensures answered { StopsExactly method_answer }
{}

/// More is wanted exactly of the proper prefixes of requests.
pub fn requests_stop_exactly()
    ensures spelled { StopsExactly request_spelled }
    ensures asked { StopsExactly request5 }
{}

/// More is wanted exactly of the proper prefixes of replies.
pub fn replies_stop_exactly()
    ensures { StopsExactly reply5 }
{}

/// More is wanted exactly of the proper prefixes of the headers of datagrams.
pub fn headers_stop_exactly()
    ensures spelled { StopsExactly header_spelled }
    ensures meant { StopsExactly udp_header }
{}
