ghost use Rattle.std.specs.Prelude.{◌↔◌, ◌≡◌, IsTrue};
ghost use Rattle.meta_command_line.specs.Asked.{AsksFor, AsksAmong};

use meta_types::Text;

/// What words ask of the program itself.
#[derive(Clone, Copy, Debug, PartialEq, Eq)]
pub enum Asked {
    /// The help of the program.
    Help,
    /// The version of the program.
    Version,
    /// Nothing: the words are for the program's work.
    Work,
}

pub(crate) fn is_text(word: &Text, text: &str) -> bool
    ensures { IsTrue result ↔ (word.now ≡ text.now) }
{
    word.as_bytes() == text.as_bytes()
}

impl Asked {
    /// What the words ask for. `help` alone asks for the help. Otherwise the first of `--help`, `-h`, `--version` and `-V` among the words
    /// decides.
    pub fn of(words: &[Text]) -> Asked
        ensures { AsksFor words.now result }
    {
        if let [word] = words {
            if is_text(word, "help") {
                return Asked::Help;
            }
        }
        Asked::among(words)
    }

    /// What the first word asks for that asks for something.
    fn among(words: &[Text]) -> Asked
        ensures { AsksAmong words.now result }
    {
        for word in words {
            if is_text(word, "--help") || is_text(word, "-h") {
                return Asked::Help;
            }
            if is_text(word, "--version") || is_text(word, "-V") {
                return Asked::Version;
            }
        }
        Asked::Work
    }
}
