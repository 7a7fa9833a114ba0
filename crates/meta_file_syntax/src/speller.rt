ghost use Rattle.std.specs.Prelude.{◌≡◌, ◌++◌, ◌∷◌, [], List, OnOk};
ghost use Rattle.meta_file_syntax.specs.declared.token.Token.{Token};
ghost use Rattle.meta_file_syntax.specs.declared.token.Token.TheVariants.{Key, Word, Quoted};
ghost use Rattle.meta_file_syntax.specs.Spelling.{docs, comment, truth, number, each_after, listed, named};

use super::bytes::Bytes;
use super::keyword::Keyword;
use super::name::Name;
use super::token::Token;
use std::alloc::{AllocError, Global};

/// A thing that stands in lists, and has tokens.
pub(crate) trait Spelled {
    ghost tokens: { Self → List Token };

    fn add_to(&self, speller: &mut Speller) -> Result<(), AllocError>
        ensures { OnOk result (speller.new.tokens.items ≡ speller.old.tokens.items ++ tokens self.now) };
}

/// A list of tokens that is being made.
#[derive(Drop)]
pub(crate) struct Speller {
    pub(crate) alloc: Global,
    pub(crate) tokens: Vec<Token>,
}

impl Speller {
    pub(crate) fn add(&mut self, token: Token) -> Result<(), AllocError>
        ensures { OnOk result (self.new.tokens.items ≡ self.old.tokens.items ++ token ∷ []) }
    {
        self.tokens.push(token)?;
        Ok(())
    }

    pub(crate) fn add_word(&mut self, word: &[u8]) -> Result<(), AllocError>
        ensures { OnOk result (self.new.tokens.items ≡ self.old.tokens.items ++ Word word.now ∷ []) }
    {
        let word = Bytes::of(Vec::from_slice(self.alloc, word)?);
        self.add(Token::Word(word))
    }

    /// Adds a text in quotes.
    pub(crate) fn add_text(&mut self, text: &Bytes) -> Result<(), AllocError>
        ensures { OnOk result (self.new.tokens.items ≡ self.old.tokens.items ++ Quoted text.now ∷ []) }
    {
        let text = text.copy(self.alloc)?;
        self.add(Token::Quoted(text))
    }

    pub(crate) fn add_number(&mut self, value: u16) -> Result<(), AllocError>
        ensures { OnOk result (self.new.tokens.items ≡ self.old.tokens.items ++ number value ∷ []) }
    {
        let text = format!(in self.alloc; "{value}")?;
        self.add_word(text.as_bytes())
    }

    pub(crate) fn add_truth(&mut self, value: bool) -> Result<(), AllocError>
        ensures { OnOk result (self.new.tokens.items ≡ self.old.tokens.items ++ truth value ∷ []) }
    {
        if value {
            return self.add_word(b"true");
        }
        self.add_word(b"false")
    }

    /// Adds documentation and a keyword, with which an item begins.
    pub(crate) fn begin(&mut self, lines: &[Bytes], keyword: Keyword) -> Result<(), AllocError>
        ensures { OnOk result (self.new.tokens.items ≡ self.old.tokens.items ++ (docs lines.now ++ Key keyword ∷ [])) }
    {
        for line in lines {
            self.add(Token::Doc(line.copy(self.alloc)?))?;
        }
        self.add(Token::Key(keyword))
    }

    /// Adds a comment, which is a text in quotes, if there is one.
    pub(crate) fn add_comment(&mut self, text: &Option<Bytes>) -> Result<(), AllocError>
        ensures { OnOk result (self.new.tokens.items ≡ self.old.tokens.items ++ comment text.now) }
    {
        match text {
            Some(text) => self.add_text(text),
            None => Ok(()),
        }
    }

    pub(crate) fn add_all<T: Spelled>(&mut self, parts: &[T]) -> Result<(), AllocError>
        ensures { OnOk result (self.new.tokens.items ≡ self.old.tokens.items ++ each_after [] T.tokens parts.now) }
    {
        for part in parts {
            part.add_to(self)?;
        }
        Ok(())
    }

    /// Adds the tokens of the parts, with a comma between each two.
    pub(crate) fn add_listed<T: Spelled>(&mut self, parts: &[T]) -> Result<(), AllocError>
        ensures { OnOk result (self.new.tokens.items ≡ self.old.tokens.items ++ listed T.tokens parts.now) }
    {
        let [first, more @ ..] = parts else {
            return Ok(());
        };
        first.add_to(self)?;
        for part in more {
            self.add(Token::Sign(b','))?;
            part.add_to(self)?;
        }
        Ok(())
    }
}

impl Spelled for Name {
    ghost tokens = { named };

    fn add_to(&self, speller: &mut Speller) -> Result<(), AllocError> {
        match self {
            Name::Plain(word) => speller.add_word(word.as_slice()),
            Name::Quoted(text) => speller.add_text(text),
        }
    }
}
