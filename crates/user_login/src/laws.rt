//! Laws of the login and of the users file.
//!
//! Each function does nothing; its contract is the law.

ghost use Rattle.socks_grammar.specs.Grammar.{login, login_status};
ghost use Rattle.socks_grammar.specs.Prefixes.{StopsExactly};
ghost use Rattle.user_login.specs.Laws.{LoginReadAgain, StatusReadAgain, UsersKeepLimits};

/// A login that is written is read again, whatever follows.
pub fn login_read_again()
    ensures { LoginReadAgain }
{}

/// A status that is written is read again, whatever follows.
pub fn status_read_again()
    ensures { StatusReadAgain }
{}

/// The users of a file are at most 4,096, and no two have one name.
pub fn users_keep_limits()
    ensures { UsersKeepLimits }
{}

/// More is wanted exactly of the proper prefixes of logins.
pub fn logins_stop_exactly()
    ensures { StopsExactly login }
{}

/// More is wanted exactly of the proper prefixes of statuses.
pub fn statuses_stop_exactly()
    ensures { StopsExactly login_status }
{}
