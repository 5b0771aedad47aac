ghost use Rattle.std.specs.Prelude.{◌+◌, ◌<◌, ◌^◌, length};

/// A place in a text: the bytes that are still to be read, and the line at which they begin.
#[derive(Clone, Copy)]
pub struct Cursor<'a> {
    pub line: u32,
    pub rest: &'a [u8],
    ghost room: { line + length rest.now < 2 ^ 32 },
}
