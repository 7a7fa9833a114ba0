ghost use Rattle.std.specs.Prelude.{◌≡◌, ◌≢◌, [], ◌∷◌, IfSome, IfNone, ℕ};
ghost use Rattle.meta_query.specs.declared.command.Command.{Command};
ghost use Rattle.meta_query.specs.Command.{command_name, number_words, AreWordsOf};

use super::synthesis::number_in;
use meta_types::Text;

/// What `run` is asked to do.
#[derive(Clone, Copy, Debug, PartialEq, Eq)]
pub enum Command {
    /// `query`: to answer each line of the input.
    Query,
    /// `recheck`: to read the text of tables in the input, and to answer the queries after it by the tables that were read.
    Recheck,
    /// `tables`: to write the table text of the declarations.
    Tables,
    /// `types`: to write the text of the types.
    Types,
    /// `settings`: to write the text of the groups of settings.
    Settings,
    /// `instructions`: to write the text of the instructions.
    Instructions,
    /// `builder`: to write the text of the builder of instructions.
    Builder,
    /// `synth N`: to write in one line what the tables of the declarations hold that are made from the number N.
    Synth(u32),
}

impl Command {
    /// The command of the words. It is `None` exactly if the words are no command. Each command is one word, but for `synth N`: its number
    /// is decimal, has no zero before it, and is at most 4,294,967,295.
    pub fn parse(words: &[Text]) -> Option<Command>
        ensures some { IfSome result (λ c. AreWordsOf c words.now) }
        ensures none { IfNone result ((c : Command) → ¬ AreWordsOf c words.now) }
    {
        match words {
            [word] => Command::named(word.as_bytes()),
            [word, number] => Command::numbered(word, number),
            _ => None,
        }
    }

    /// The command of this name, which has no number.
    fn named(name: &[u8]) -> Option<Command>
        ensures some { IfSome result (λ c. (name.now ≡ command_name c) × (number_words c ≡ [])) }
        ensures none { IfNone result ((c : Command) → number_words c ≡ [] → name.now ≢ command_name c) }
    {
        if name == b"query".as_slice() {
            return Some(Command::Query);
        }
        if name == b"recheck".as_slice() {
            return Some(Command::Recheck);
        }
        if name == b"tables".as_slice() {
            return Some(Command::Tables);
        }
        if name == b"types".as_slice() {
            return Some(Command::Types);
        }
        if name == b"settings".as_slice() {
            return Some(Command::Settings);
        }
        if name == b"instructions".as_slice() {
            return Some(Command::Instructions);
        }
        if name == b"builder".as_slice() {
            return Some(Command::Builder);
        }
        None
    }

    fn numbered(name: &Text, number: &Text) -> Option<Command>
        ensures some { IfSome result (λ c. AreWordsOf c (name.now ∷ number.now ∷ [])) }
        ensures none { IfNone result ((c : Command) → ¬ AreWordsOf c (name.now ∷ number.now ∷ [])) }
    {
        if name.as_bytes() != b"synth".as_slice() {
            return None;
        }
        let n = number_in(number)?;
        Some(Command::Synth(n))
    }
}
