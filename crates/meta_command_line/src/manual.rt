/// The numbers that a word may write, from the least to the greatest.
#[derive(Clone, Copy)]
pub struct Range {
    pub least: u32,
    pub most: u32,
}

/// A command of a program: its name, and the numbers that the words after it write.
#[derive(Clone, Copy)]
pub struct CommandForm {
    pub name: &'static str,
    pub numbers: &'static [Range],
}

/// What a program says of itself.
#[derive(Clone, Copy)]
pub struct Manual {
    /// The name of the program. It stands before each line on standard error.
    pub name: &'static str,
    /// The version of the program.
    pub version: &'static str,
    /// The text of its help, without the last line feed.
    pub help: &'static str,
    /// The commands of the program, each with another name.
    pub commands: &'static [CommandForm],
}
