use super::bytes::Bytes;
use super::flaw::Flaw;
use super::keyword::Keyword;
use std::alloc::{AllocError, Global};

/// A token: a part of a file that isn't a blank or a comment.
#[derive(Drop)]
pub enum Token {
    /// A keyword, which begins an item.
    Key(Keyword),
    /// Another word: letters, digits and `_`.
    Word(Bytes),
    /// A text in quotes, without the backslashes.
    Quoted(Bytes),
    /// One of the signs `=` `:` `,` `(` `)` `[` `]` `-` `>` `.`.
    Sign(u8),
    /// A line of documentation, without its slashes, the blank after them, and its line end.
    Doc(Bytes),
    /// What can't be a token of an item. The rest of its line isn't read.
    Stray(Flaw),
}

ghost use Rattle.std.specs.Prelude.{◌≡◌, IfOk};

impl Token {
    /// Makes a copy of the token.
    pub fn copy(&self, alloc: Global) -> Result<Token, AllocError>
        ensures { IfOk result (λ t. t ≡ self.now) }
    {
        match self {
            Token::Key(keyword) => Ok(Token::Key(*keyword)),
            Token::Word(word) => Ok(Token::Word(word.copy(alloc)?)),
            Token::Quoted(text) => Ok(Token::Quoted(text.copy(alloc)?)),
            Token::Sign(sign) => Ok(Token::Sign(*sign)),
            Token::Doc(line) => Ok(Token::Doc(line.copy(alloc)?)),
            Token::Stray(flaw) => Ok(Token::Stray(*flaw)),
        }
    }
}
