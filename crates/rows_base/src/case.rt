use super::trouble::{Answer, Trouble};
use super::words::number;
use meta_types::Text;
use std::alloc::{AllocError, Global};
use std::fmt::{Debug, Display};
use std::str::FromStr;

/// A line: its words, which are taken one by one, its documentation, and the answer to it, which is written piece by piece. The first
/// trouble is kept, and stands for the answer at its end.
#[derive(Drop)]
pub struct Case<'l> {
    words: Vec<&'l str>,
    taken: usize,
    doc: &'l str,
    text: String,
    trouble: Option<Trouble>,
}

impl<'l> Case<'l> {
    /// Reads a line. Its words have one space between them, and ` | ` stands before its documentation.
    pub fn of(alloc: Global, line: &'l str) -> Result<Case<'l>, AllocError> {
        let (words, doc) = line.split_once(" | ").unwrap_or((line, ""));
        Ok(Case {
            words: words.split(' ').collect(alloc)?,
            taken: 0,
            doc,
            text: String::new(alloc),
            trouble: None,
        })
    }

    /// The documentation of the line, which may be empty.
    pub fn doc(&self) -> &'l str {
        self.doc
    }

    /// Takes all words that aren't taken yet.
    pub fn rest(&mut self) -> &[&'l str] {
        let words = self.words.as_slice();
        let taken = self.taken;
        self.taken = words.len();
        words.split_at(taken.min(words.len())).1
    }

    /// How many words are taken.
    pub fn taken(&self) -> usize {
        self.taken
    }

    /// Goes back to where this many words were taken.
    pub fn go_back(&mut self, taken: usize) {
        self.taken = taken;
    }

    /// Whether there are words that aren't taken yet.
    pub fn has_more(&self) -> bool {
        self.taken < self.words.len()
    }

    /// Ends the words of a line, and keeps the trouble of its answer, if there was any. If a word isn't taken, the line asks nothing.
    pub fn close(&mut self, answered: Answer) {
        if let Err(trouble) = answered {
            self.refuse(trouble);
        }
        if self.has_more() {
            self.refuse(Trouble::BadLine);
        }
    }

    /// Takes the next word. If there is none, the line asks nothing.
    pub fn word(&mut self) -> &'l str {
        let Some(word) = self.words.get(self.taken).copied() else {
            self.refuse(Trouble::BadLine);
            return "";
        };
        self.taken = self.taken.saturating_add(1);
        word
    }

    /// Takes the next word, which has to be this one.
    pub fn expect(&mut self, word: &str) {
        if self.word() != word {
            self.refuse(Trouble::BadLine);
        }
    }

    /// Takes the next word, which has to be a number.
    pub fn number<N: FromStr + Default + Drop>(&mut self) -> N
    where
        N::Err: Drop,
    {
        let word = self.word();
        self.value(number(word))
    }

    /// Keeps the first trouble.
    pub fn refuse(&mut self, trouble: Trouble) {
        if self.trouble.is_none() {
            self.trouble = Some(trouble);
        }
    }

    /// Keeps the trouble that memory ran out, if it did.
    pub fn note(&mut self, outcome: Result<(), AllocError>) {
        if outcome.is_err() {
            self.refuse(Trouble::OutOfMemory);
        }
    }

    /// The value that was found. If there was trouble, it is kept, and the value is the default one.
    pub fn value<T: Default + Drop, E>(&mut self, outcome: Result<T, E>) -> T
    where
        Trouble: From<E>,
    {
        match outcome {
            Ok(value) => value,
            Err(error) => {
                self.refuse(error.into());
                T::default()
            }
        }
    }

    /// The trouble, if there was any.
    pub fn trouble(&self) -> Option<Trouble> {
        self.trouble
    }

    /// How many bytes of the answer are written so far.
    pub fn written(&self) -> usize {
        self.text.len()
    }

    /// Writes one character.
    pub fn letter(&mut self, letter: char) {
        let written = self.text.push(letter);
        self.note(written);
    }

    /// Writes a text.
    pub fn text(&mut self, text: &str) {
        let written = self.text.push_str(text);
        self.note(written);
    }

    /// Writes a text that was made, unless memory ran out.
    pub fn made(&mut self, text: Result<Text, AllocError>) {
        match text {
            Ok(text) => self.text(text.as_str()),
            Err(_) => self.refuse(Trouble::OutOfMemory),
        }
    }

    /// Writes a value as it is displayed.
    pub fn shown<T: Display>(&mut self, value: &T) {
        let written = write!(self.text, "{value}");
        self.note(written);
    }

    /// Writes a text, and after it a value as it is displayed.
    pub fn field<T: Display>(&mut self, before: &str, value: &T) {
        self.text(before);
        self.shown(value);
    }

    /// Writes a value as `Debug` shows it.
    pub fn debugged<T: Debug>(&mut self, value: &T) {
        let written = write!(self.text, "{value:?}");
        self.note(written);
    }

    /// Writes a byte as two hexadecimal digits.
    pub fn hexadecimal(&mut self, byte: u8) {
        let written = write!(self.text, "{byte:02x}");
        self.note(written);
    }

    /// Writes `yes` or `no`.
    pub fn yes_or_no(&mut self, is_so: bool) {
        self.text(if is_so { "yes" } else { "no" });
    }

    /// Writes a number, or `-` if there is none.
    pub fn number_or_dash(&mut self, number: Option<u16>) {
        match number {
            Some(number) => self.shown(&number),
            None => self.letter('-'),
        }
    }

    /// Separates what comes next from what was written, if anything was.
    pub fn separate(&mut self, between: char) {
        if !self.text.is_empty() {
            self.letter(between);
        }
    }

    /// Writes one more item of a list that begins at `start`, after a comma if it isn't the first.
    pub fn item(&mut self, start: usize, item: &str) {
        if self.text.len() > start {
            self.letter(',');
        }
        self.text(item);
    }

    /// Writes `-` if the list that begins at `start` is empty.
    pub fn end_list(&mut self, start: usize) {
        if self.text.len() == start {
            self.letter('-');
        }
    }

    /// Adds the answer and a line feed to the answers: what was written, or the word for the trouble if there was any.
    pub fn end(&self, answers: &mut String) -> Result<(), AllocError> {
        let text = match self.trouble {
            None => self.text.as_str(),
            Some(Trouble::BadLine | Trouble::NoCase) => "no case",
            Some(Trouble::Differ) => "differ",
            Some(Trouble::OutOfMemory) => return Err(AllocError),
        };
        push_line(text, answers)
    }
}

/// Something that answers lines. The lines before a line may change its answer.
pub trait Answering<'l> {
    /// Adds the answer to a line, and a line feed.
    fn answer_line(&mut self, line: &'l str, answers: &mut String) -> Result<(), AllocError>;
}

pub(crate) fn push_line(line: &str, answers: &mut String) -> Result<(), AllocError> {
    answers.push_str(line)?;
    answers.push('\n')
}

/// Adds the answers to the lines. A line that begins with `#` is copied.
pub fn answer_lines<'l, A: Answering<'l>>(
    answering: &mut A,
    lines: &'l str,
    answers: &mut String,
) -> Result<(), AllocError> {
    for line in lines.lines() {
        if line.starts_with('#') {
            push_line(line, answers)
        } else {
            answering.answer_line(line, answers)
        }?;
    }
    Ok(())
}
