/// Memory was refused: the error of a function whose other errors are its own, so that `AllocError` is none of them.
#[derive(Clone, Copy, PartialEq, Eq, Debug)]
pub struct Memory;
