ghost use Rattle.std.specs.Prelude.{◌≡◌, ◌==◌, ◌+◌, ◌^◌, ◌<◌, ◌≤◌, ◌-◌, ◌++◌, ◌∷◌, [], length, replicate, IfOk, OnOk};
ghost use Rattle.std.specs.Str.Lines.{strip_carriage_return};
ghost use Rattle.meta_file_syntax.specs.declared.token.Token.TheVariants.{Word, Quoted, Sign, Doc, Stray};
ghost use Rattle.meta_file_syntax.specs.declared.scanner.Mode.{Mode};
ghost use Rattle.meta_file_syntax.specs.Scan.{in_mode, word_token, is_word_byte, is_blank, is_sign, class_of, begun, told, next, ended_by};
ghost use Rattle.meta_file_syntax.specs.Scan.{ended, after, given, tokens_in};
ghost use Rattle.meta_file_syntax.specs.TokenLines.{line_past, lines_in, last_line_in};

use super::bytes::Bytes;
use super::flaw::Flaw;
use super::keyword::Keyword;
use super::token::Token;
use super::tokens::Tokens;
use std::alloc::{AllocError, Global};
use std::mem;

/// What the scanner is reading.
#[derive(Clone, Copy)]
enum Mode {
    /// Nothing, at the front of a line.
    Start,
    /// Nothing, after something else in the line.
    Between,
    InWord,
    /// A text between quotes.
    InText,
    /// A text between quotes, after a backslash.
    Escape,
    /// What comes after one slash.
    Slash,
    /// What comes after one slash at the front of a line.
    StartSlash,
    /// What comes after two slashes at the front of a line.
    TwoSlashes,
    /// What comes after three slashes at the front of a line.
    ThreeSlashes,
    InDoc,
    Comment,
    /// The rest of a line, after what can't be a token of an item.
    Lost,
}

/// The class of a byte that stands where nothing has begun.
#[derive(Clone, Copy)]
enum Class {
    WordByte,
    Blank,
    Quote,
    SlashByte,
    SignByte,
    NoClass,
}

#[derive(Drop)]
struct Scanner {
    alloc: Global,
    mode: Mode,
    bytes: Vec<u8>,
    tokens: Vec<Token>,
}

/// Whether the byte is a letter, a digit or `_`.
fn is_word_byte(byte: u8) -> bool
    ensures { result ≡ is_word_byte byte }
{
    matches!(byte, b'a'..=b'z' | b'A'..=b'Z' | b'0'..=b'9' | b'_')
}

/// The token of a whole word: a keyword, or another word.
fn word_token(bytes: Vec<u8>) -> Token
    ensures { result ≡ word_token bytes.items }
{
    match Keyword::of(&bytes) {
        Some(keyword) => Token::Key(keyword),
        None => Token::Word(Bytes::of(bytes)),
    }
}

/// The line without the CR at its end, if it has one. Only one CR is taken off.
fn without_cr(mut line: Vec<u8>) -> Vec<u8>
    ensures { result.items ≡ strip_carriage_return line.items }
{
    if line.last() == Some(&b'\r') {
        line.pop();
    }
    line
}

impl Scanner {
    /// Takes the bytes read so far out of the scanner.
    fn taken(&mut self) -> Vec<u8>
        ensures bytes { result.items ≡ self.old.bytes.items }
        ensures left { self.new.bytes.items ≡ [] }
        ensures tokens { self.new.tokens.items ≡ self.old.tokens.items }
        ensures mode { self.new.mode ≡ self.old.mode }
    {
        mem::replace(&mut self.bytes, Vec::new(self.alloc))
    }

    /// Goes on in a mode, without bytes read so far.
    fn enter(&mut self, mode: Mode)
        ensures mode { self.new.mode ≡ mode }
        ensures bytes { self.new.bytes.items ≡ [] }
        ensures tokens { self.new.tokens.items ≡ self.old.tokens.items }
    {
        self.mode = mode;
        self.bytes.clear();
    }

    fn add(&mut self, token: Token) -> Result<(), AllocError>
        ensures tokens { OnOk result (self.new.tokens.items ≡ self.old.tokens.items ++ token ∷ []) }
        ensures mode { self.new.mode ≡ self.old.mode }
        ensures bytes { self.new.bytes.items ≡ self.old.bytes.items }
    {
        self.tokens.push(token)?;
        Ok(())
    }

    /// Adds a flaw, after which the rest of the line isn't read.
    fn lose(&mut self, flaw: Flaw) -> Result<(), AllocError>
        ensures state { OnOk result (in_mode self.new.mode self.new.bytes.items ≡ in_mode Mode.Lost []) }
        ensures tokens { OnOk result (self.new.tokens.items ≡ self.old.tokens.items ++ Stray flaw ∷ []) }
    {
        self.enter(Mode::Lost);
        self.add(Token::Stray(flaw))
    }

    /// Adds a byte to what is being read, and goes on in a mode.
    fn keep(&mut self, mode: Mode, byte: u8) -> Result<(), AllocError>
        ensures tokens { self.new.tokens.items ≡ self.old.tokens.items }
        ensures mode { self.new.mode ≡ mode }
        ensures bytes { OnOk result (self.new.bytes.items ≡ self.old.bytes.items ++ byte ∷ []) }
    {
        self.mode = mode;
        self.bytes.push(byte)?;
        Ok(())
    }

    /// Reads a byte where nothing has begun, at the front of a line or later in it.
    fn begin(&mut self, front: bool, byte: u8) -> Result<(), AllocError>
        ensures state { OnOk result (in_mode self.new.mode self.new.bytes.items ≡ begun front (class_of byte) byte) }
        ensures tokens { OnOk result (self.new.tokens.items ≡ self.old.tokens.items ++ told (class_of byte) byte) }
    {
        match class_of(byte) {
            Class::WordByte => {
                self.enter(Mode::InWord);
                self.keep(Mode::InWord, byte)
            }
            Class::Blank => {
                self.enter(if front { Mode::Start } else { Mode::Between });
                Ok(())
            }
            Class::Quote => {
                self.enter(Mode::InText);
                Ok(())
            }
            Class::SlashByte => {
                self.enter(if front { Mode::StartSlash } else { Mode::Slash });
                Ok(())
            }
            Class::SignByte => {
                self.enter(Mode::Between);
                self.add(Token::Sign(byte))
            }
            Class::NoClass => self.lose(Flaw::StrayByte(byte)),
        }
    }

    #[tactic(auto, unfolding(crate::specs::Scan::next, crate::specs::Scan::ended_by))]
    fn go_on_in_text(&mut self, byte: u8) -> Result<(), AllocError>
        ensures state { OnOk result (in_mode self.new.mode self.new.bytes.items ≡ next Mode.InText self.old.bytes.items byte) }
        ensures tokens { OnOk result (self.new.tokens.items ≡ self.old.tokens.items ++ ended_by Mode.InText self.old.bytes.items byte) }
    {
        match byte {
            b'"' => {
                let text = self.taken();
                self.enter(Mode::Between);
                self.add(Token::Quoted(Bytes::of(text)))
            }
            b'\\' => {
                self.mode = Mode::Escape;
                Ok(())
            }
            _ => self.keep(Mode::InText, byte),
        }
    }

    #[tactic(auto, unfolding(crate::specs::Scan::next, crate::specs::Scan::ended_by))]
    fn go_on_after_three_slashes(&mut self, byte: u8) -> Result<(), AllocError>
        ensures state { OnOk result (in_mode self.new.mode self.new.bytes.items ≡ next Mode.ThreeSlashes self.old.bytes.items byte) }
        ensures tokens { OnOk result (self.new.tokens.items ≡ self.old.tokens.items
            ++ ended_by Mode.ThreeSlashes self.old.bytes.items byte) }
    {
        match byte {
            b'/' => {
                self.enter(Mode::Comment);
                Ok(())
            }
            b' ' => {
                self.enter(Mode::InDoc);
                Ok(())
            }
            _ => {
                self.enter(Mode::InDoc);
                self.keep(Mode::InDoc, byte)
            }
        }
    }

    #[tactic(auto, unfolding(crate::specs::Scan::next, crate::specs::Scan::ended_by))]
    fn take(&mut self, byte: u8) -> Result<(), AllocError>
        ensures state { OnOk result (in_mode self.new.mode self.new.bytes.items ≡ after self.old.mode self.old.bytes.items byte) }
        ensures tokens { OnOk result (self.new.tokens.items ≡ self.old.tokens.items ++ given self.old.mode self.old.bytes.items byte) }
    {
        if byte == b'\n' {
            return self.end_line();
        }
        match self.mode {
            Mode::Start => self.begin(true, byte),
            Mode::Between => self.begin(false, byte),
            Mode::InWord if is_word_byte(byte) => self.keep(Mode::InWord, byte),
            Mode::InWord => {
                let word = self.taken();
                self.add(word_token(word))?;
                self.begin(false, byte)
            }
            Mode::InText => self.go_on_in_text(byte),
            Mode::Escape => match byte {
                b'n' => self.keep(Mode::InText, b'\n'),
                b'"' | b'\\' => self.keep(Mode::InText, byte),
                _ => self.lose(Flaw::BadEscape),
            },
            Mode::Slash | Mode::StartSlash if byte != b'/' => self.lose(Flaw::LoneSlash),
            Mode::Slash => {
                self.enter(Mode::Comment);
                Ok(())
            }
            Mode::StartSlash => {
                self.enter(Mode::TwoSlashes);
                Ok(())
            }
            Mode::TwoSlashes => {
                self.enter(if byte == b'/' {
                    Mode::ThreeSlashes
                } else {
                    Mode::Comment
                });
                Ok(())
            }
            Mode::ThreeSlashes => self.go_on_after_three_slashes(byte),
            Mode::InDoc => self.keep(Mode::InDoc, byte),
            Mode::Comment => {
                self.enter(Mode::Comment);
                Ok(())
            }
            Mode::Lost => {
                self.enter(Mode::Lost);
                Ok(())
            }
        }
    }

    #[tactic(auto, unfolding(crate::specs::Scan::ended))]
    fn end_line(&mut self) -> Result<(), AllocError>
        ensures state { OnOk result (in_mode self.new.mode self.new.bytes.items ≡ in_mode Mode.Start []) }
        ensures tokens { OnOk result (self.new.tokens.items ≡ self.old.tokens.items ++ ended self.old.mode self.old.bytes.items) }
    {
        let (mode, bytes) = (self.mode, self.taken());
        self.enter(Mode::Start);
        match mode {
            Mode::InWord => self.add(word_token(bytes)),
            Mode::InText => self.add(Token::Stray(Flaw::NoClosingQuote)),
            Mode::Escape => self.add(Token::Stray(Flaw::BadEscape)),
            Mode::Slash | Mode::StartSlash => self.add(Token::Stray(Flaw::LoneSlash)),
            Mode::ThreeSlashes => self.add(Token::Doc(Bytes::of(Vec::new(self.alloc)))),
            Mode::InDoc => self.add(Token::Doc(Bytes::of(without_cr(bytes)))),
            Mode::Start | Mode::Between | Mode::TwoSlashes | Mode::Comment | Mode::Lost => Ok(()),
        }
    }
}

#[tactic(auto, unfolding(crate::specs::Scan::class_of))]
fn class_of(byte: u8) -> Class
    ensures { result ≡ class_of byte }
{
    if is_word_byte(byte) {
        return Class::WordByte;
    }
    match byte {
        b' ' | b'\t' | b'\r' => Class::Blank,
        b'"' => Class::Quote,
        b'/' => Class::SlashByte,
        b'=' | b':' | b',' | b'(' | b')' | b'[' | b']' | b'-' | b'>' | b'.' => Class::SignByte,
        _ => Class::NoClass,
    }
}

/// The number of the line in which the byte after this one stands.
pub(crate) fn line_past(line: usize, byte: u8) -> usize
    requires { line + 1 < 2 ^ 64 }
    ensures { result ≡ line_past line byte }
{
    if byte == b'\n' { line + 1 } else { line }
}

/// Gives a line to each token that doesn't have one yet.
#[tactic(auto, using(std::proofs::lemmas::List::take_all))]
fn number(lines: &mut Vec<usize>, tokens: &[Token], line: usize) -> Result<(), AllocError>
    requires { length lines.old.items ≤ length tokens.now }
    ensures { OnOk result (lines.new.items ≡ lines.old.items ++ replicate (length tokens.now - length lines.old.items) line) }
{
    lines.resize(tokens.len(), line)
}

pub(crate) fn scan(alloc: Global, text: &[u8]) -> Result<Tokens, AllocError>
    ensures tokens { IfOk result (λ v. v.tokens.items ≡ tokens_in text.now) }
    ensures lines { IfOk result (λ v. v.lines.items ≡ lines_in text.now) }
    ensures last { IfOk result (λ v. v.last_line ≡ last_line_in text.now) }
    // Each token has a line.
    ensures each { IfOk result (λ v. length v.lines.items ≡ length v.tokens.items) }
{
    let mut scanner = Scanner {
        alloc,
        mode: Mode::Start,
        bytes: Vec::new(alloc),
        tokens: Vec::new(alloc),
    };
    let mut lines = Vec::new(alloc);
    let mut line = 1;
    let mut last_line = 1;
    for byte in text {
        scanner.take(*byte)?;
        number(&mut lines, &scanner.tokens, line)?;
        last_line = line;
        line = line_past(line, *byte);
    }
    scanner.end_line()?;
    number(&mut lines, &scanner.tokens, line)?;
    Ok(Tokens {
        tokens: scanner.tokens,
        lines,
        last_line,
    })
}
