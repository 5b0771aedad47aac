/// What is wrong with a byte.
#[derive(Clone, Copy, PartialEq, Eq, Debug)]
pub enum BadKind {
    Version,
    Command,
    Atyp,
    Field,
}

/// The first byte after which no spelling is possible.
#[derive(Clone, Copy, PartialEq, Eq, Debug)]
pub struct BadAt {
    pub at: usize,
    pub byte: u8,
    pub kind: BadKind,
}

/// A part of a byte text: where it begins, and how many bytes it has.
#[derive(Clone, Copy, PartialEq, Eq, Debug)]
pub struct Span {
    pub at: usize,
    pub len: usize,
}

/// What stands at the front of bytes.
#[derive(Drop)]
pub enum Front<T> {
    Whole { value: T, len: usize },
    More,
    Bad(BadAt),
}
