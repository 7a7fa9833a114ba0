ghost use Rattle.std.specs.Prelude.{◌≡◌, ◌↔◌, ℕ, List, IsTrue, IfSome, IfNone};
ghost use Rattle.meta_command_line.specs.Usage.{misuse_place};
ghost use Rattle.meta_command_line.specs.Misuse.{IsNumberIn, AreNumbersIn, IsMisuseAfter, IsMisuse, AreTaken, IsFirstNamed, NamesNone};
ghost use Rattle.meta_command_line.specs.declared.manual.CommandForm.{CommandForm as spec_CommandForm};
ghost use Rattle.meta_command_line.specs.declared.misuse.Misuse.{Misuse as spec_Misuse};

use super::asked::is_text;
use super::manual::{CommandForm, Range};
use meta_lines::number_in;
use meta_types::Text;

/// Why words are no command of a program. A place after the name of a command counts from 0.
#[derive(Clone, Copy, Debug, PartialEq, Eq)]
pub enum Misuse {
    /// There is no word.
    NoWord,
    /// The first word is the name of no command.
    NoCommand,
    /// The word at this place after the name isn't a number that may stand there.
    NoNumber(usize),
    /// No word may stand at this place after the name.
    WordTooMany(usize),
    /// A number is missing at the end.
    NumberMissing,
}

impl Range {
    /// Whether the word writes one of these numbers: in decimal, with no zero before it.
    pub fn is_written(&self, word: &Text) -> bool
        ensures { IsTrue result ↔ IsNumberIn self.now word.now }
    {
        match number_in(word.as_bytes(), u64::from(self.most)) {
            Some(number) => u64::from(self.least) <= number,
            None => false,
        }
    }
}

fn named<'c>(commands: &'c [CommandForm], name: &Text) -> Option<&'c CommandForm>
    ensures some { IfSome result (λ c. IsFirstNamed commands.now name.now c.now) }
    ensures none { IfNone result (NamesNone commands.now name.now) }
{
    for command in commands {
        if is_text(name, command.name) {
            return Some(command);
        }
    }
    None
}

/// Why the words after a name aren't its numbers, if they aren't.
fn after(numbers: &[Range], words: &[Text]) -> Option<Misuse>
    ensures none { IfNone result (AreNumbersIn numbers.now words.now) }
    ensures some { IfSome result (IsMisuseAfter numbers.now words.now) }
{
    for k in 0..numbers.len() {
        if k >= words.len() {
            return Some(Misuse::NumberMissing);
        }
        if !numbers[k].is_written(&words[k]) {
            return Some(Misuse::NoNumber(k));
        }
    }
    (words.len() > numbers.len()).then_some(Misuse::WordTooMany(numbers.len()))
}

impl Misuse {
    /// Why the words are none of these commands, by the first word that is wrong. It is `None` if they are a command. If several commands
    /// have one name, only the first counts.
    pub fn of(commands: &[CommandForm], words: &[Text]) -> Option<Misuse>
        ensures none { IfNone result (AreTaken commands.now words.now) }
        ensures some { IfSome result (IsMisuse commands.now words.now) }
    {
        match words {
            [] => Some(Misuse::NoWord),
            [name, words @ ..] => match named(commands, name) {
                Some(command) => after(command.numbers, words),
                None => Some(Misuse::NoCommand),
            },
        }
    }

    /// The place, after the name, of the wrong word, and 0 if there is no such word.
    pub(crate) fn place(self) -> usize
        ensures { result ≡ misuse_place self }
    {
        match self {
            Misuse::NoNumber(place) | Misuse::WordTooMany(place) => place,
            Misuse::NoWord | Misuse::NoCommand | Misuse::NumberMissing => 0,
        }
    }
}

/// Words that a program takes have no misuse.
pub fn never_both()
    ensures { (commands : List spec_CommandForm) (words : List (List ℕ)) (m : spec_Misuse) → AreTaken commands words
        → IsMisuse commands words m → ⊥ }
{}
