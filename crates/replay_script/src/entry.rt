use socks_machine::ScriptLine;

/// What a text line of a script is: one that says nothing, or a line of the script.
#[derive(Drop)]
pub enum TextLine {
    /// An empty line, or one that begins with `#`.
    Skipped,
    Served(ScriptLine),
}
