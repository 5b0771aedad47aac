/// A word of a text, with its line.
#[derive(Clone, Copy)]
pub enum Token<'a> {
    Open(u32),
    Close(u32),
    /// A key, without its colon.
    Key(u32, &'a [u8]),
    /// Any other word.
    Value(u32, &'a [u8]),
}
