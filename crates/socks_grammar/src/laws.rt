//! Laws of the grammars.
//!
//! The function does nothing; its contract is the law.

ghost use Rattle.socks_grammar.specs.Stable.{SplitIsStable};

/// An input that is more than the beginning of a prelude stays what it is, whatever follows.
pub fn split_is_stable()
    ensures { SplitIsStable }
{}
