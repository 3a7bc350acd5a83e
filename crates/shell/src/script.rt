use outside::Text;

/// A file of commands.
#[derive(Debug, Drop)]
pub struct Script {
    pub file: Text,
    /// Whether a prompt is written before each line.
    pub prompts: bool,
    /// Whether the file may be absent.
    pub lenient: bool,
    /// Whether each line is written before it is done.
    pub shows: bool,
}
