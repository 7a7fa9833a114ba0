ghost use Rattle.std.specs.Prelude.{◌≡◌, ◌<◌, ◌∷◌, [], length, IsTrue, IfSome, IfNone, Ok};
ghost use Rattle.std.specs.Fmt.{decimal};
ghost use Rattle.meta_file_syntax.specs.declared.token.Token.TheVariants.{Doc};
ghost use Rattle.meta_file_reader.specs.Parts.{Gives, name_at, word_at, text_at, sign_or_at, sign_at, chosen_at, truth_of, truth_at};
ghost use Rattle.meta_file_reader.specs.Parts.{number_of, byte_at, comment_at, docs_at, word_first, sign_first, begins_with_digit};
ghost use Rattle.meta_file_reader.specs.Parts.{digit_first, call_first};

use super::fault::{Fault, PartError, Wanted};
use meta_file_syntax::{Bytes, Docs, Name, Token};
use meta_lines::{number_u8, number_u16};
use std::alloc::Global;

pub(crate) fn name_of(
    alloc: Global,
    tokens: &[Token],
    wanted: Wanted,
) -> Result<(Name, &[Token]), PartError>
    ensures { Gives (λ x. (x.0, x.1.now)) result (name_at wanted tokens.now) }
{
    match tokens {
        [Token::Word(word), rest @ ..] => Ok((Name::Plain(word.copy(alloc)?), rest)),
        [Token::Quoted(text), rest @ ..] => Ok((Name::Quoted(text.copy(alloc)?), rest)),
        _ => Err(PartError::Fault(Fault {
            left: tokens.len(),
            wanted,
        })),
    }
}

pub(crate) fn word_of(
    alloc: Global,
    tokens: &[Token],
    wanted: Wanted,
) -> Result<(Bytes, &[Token]), PartError>
    ensures { Gives (λ x. (x.0, x.1.now)) result (word_at wanted tokens.now) }
{
    match tokens {
        [Token::Word(word), rest @ ..] => Ok((word.copy(alloc)?, rest)),
        _ => Err(PartError::Fault(Fault {
            left: tokens.len(),
            wanted,
        })),
    }
}

pub(crate) fn text_of(alloc: Global, tokens: &[Token]) -> Result<(Bytes, &[Token]), PartError>
    ensures { Gives (λ x. (x.0, x.1.now)) result (text_at tokens.now) }
{
    match tokens {
        [Token::Quoted(text), rest @ ..] => Ok((text.copy(alloc)?, rest)),
        _ => Err(PartError::Fault(Fault {
            left: tokens.len(),
            wanted: Wanted::Text,
        })),
    }
}

/// Reads a sign. `wanted` is what the error names.
pub(crate) fn after_sign_or(
    tokens: &[Token],
    sign: u8,
    wanted: Wanted,
) -> Result<&[Token], PartError>
    ensures { Gives (λ x. x.now) result (sign_or_at wanted sign tokens.now) }
{
    match tokens {
        [Token::Sign(byte), rest @ ..] if *byte == sign => Ok(rest),
        _ => Err(PartError::Fault(Fault {
            left: tokens.len(),
            wanted,
        })),
    }
}

pub(crate) fn after_sign(tokens: &[Token], sign: u8) -> Result<&[Token], PartError>
    ensures { Gives (λ x. x.now) result (sign_at sign tokens.now) }
{
    after_sign_or(tokens, sign, Wanted::Sign(sign))
}

fn truth_of(word: &[u8]) -> Option<bool>
    ensures { result ≡ truth_of word.now }
{
    if word == b"true".as_slice() {
        return Some(true);
    }
    if word == b"false".as_slice() {
        return Some(false);
    }
    None
}

pub(crate) fn truth(tokens: &[Token]) -> Result<(bool, &[Token]), PartError>
    ensures { Gives (λ x. (x.0, x.1.now)) result (truth_at tokens.now) }
{
    let fault = Fault {
        left: tokens.len(),
        wanted: Wanted::Truth,
    };
    match tokens {
        [Token::Word(word), rest @ ..] => match truth_of(word.as_slice()) {
            Some(value) => Ok((value, rest)),
            None => Err(PartError::Fault(fault)),
        },
        _ => Err(PartError::Fault(fault)),
    }
}

/// The number from 0 to 255 that a word is, if it is one.
#[tactic(auto, using(crate::proofs::PartLaws::byte_some, crate::proofs::PartLaws::byte_none))]
fn byte_of(word: &[u8]) -> Option<u8>
    ensures { result ≡ number_of 255 word.now }
{
    match number_u8(word) {
        Some(number) => Some(number),
        None => None,
    }
}

pub(crate) fn byte(tokens: &[Token]) -> Result<(u8, &[Token]), PartError>
    ensures { Gives (λ x. (x.0, x.1.now)) result (byte_at tokens.now) }
{
    let fault = Fault {
        left: tokens.len(),
        wanted: Wanted::Byte,
    };
    match tokens {
        [Token::Word(word), rest @ ..] => match byte_of(word.as_slice()) {
            Some(value) => Ok((value, rest)),
            None => Err(PartError::Fault(fault)),
        },
        _ => Err(PartError::Fault(fault)),
    }
}

#[tactic(auto, using(crate::proofs::PartLaws::part_number_some, crate::proofs::PartLaws::part_number_over))]
fn up_to_256(word: &[u8], number: u16) -> Option<u16>
    requires { word.now ≡ decimal number }
    ensures { result ≡ number_of 256 word.now }
{
    if number <= 256 { Some(number) } else { None }
}

/// The number from 0 to 256 that a word is, if it is one.
#[tactic(auto, using(crate::proofs::PartLaws::part_number_none))]
fn part_number_of(word: &[u8]) -> Option<u16>
    ensures { result ≡ number_of 256 word.now }
{
    match number_u16(word) {
        Some(number) => up_to_256(word, number),
        None => None,
    }
}

/// Reads a number from 0 to 256. `wanted` is what the error names.
pub(crate) fn part_number(tokens: &[Token], wanted: Wanted) -> Result<(u16, &[Token]), PartError>
    ensures { Gives (λ x. (x.0, x.1.now)) result (chosen_at wanted (number_of 256) tokens.now) }
{
    let fault = Fault {
        left: tokens.len(),
        wanted,
    };
    match tokens {
        [Token::Word(word), rest @ ..] => match part_number_of(word.as_slice()) {
            Some(value) => Ok((value, rest)),
            None => Err(PartError::Fault(fault)),
        },
        _ => Err(PartError::Fault(fault)),
    }
}

pub(crate) fn begins_with_word(tokens: &[Token], word: &[u8]) -> bool
    ensures is { result ≡ word_first word.now tokens.now }
    ensures some { IsTrue result → 0 < length tokens.now }
{
    match tokens {
        [Token::Word(first), ..] => first.as_slice() == word,
        _ => false,
    }
}

pub(crate) fn begins_with_sign(tokens: &[Token], sign: u8) -> bool
    ensures is { result ≡ sign_first sign tokens.now }
    ensures some { IsTrue result → 0 < length tokens.now }
{
    match tokens {
        [Token::Sign(first), ..] => *first == sign,
        _ => false,
    }
}

fn is_digit_first(word: &[u8]) -> bool
    ensures { result ≡ begins_with_digit word.now }
{
    match word {
        [first, ..] => matches!(*first, b'0'..=b'9'),
        [] => false,
    }
}

pub(crate) fn begins_with_digit(tokens: &[Token]) -> bool
    ensures { result ≡ digit_first tokens.now }
{
    match tokens {
        [Token::Word(word), ..] => is_digit_first(word.as_slice()),
        _ => false,
    }
}

/// Whether the first token is a word, and `(` comes after it.
pub(crate) fn begins_with_call(tokens: &[Token]) -> bool
    ensures { result ≡ call_first tokens.now }
{
    match tokens {
        [Token::Word(_), rest @ ..] => begins_with_sign(rest, b'('),
        _ => false,
    }
}

pub(crate) fn comment(
    alloc: Global,
    tokens: &[Token],
) -> Result<(Option<Bytes>, &[Token]), PartError>
    ensures { Gives (λ x. (x.0, x.1.now)) result (Ok (comment_at tokens.now)) }
{
    match tokens {
        [Token::Quoted(text), rest @ ..] => Ok((Some(text.copy(alloc)?), rest)),
        _ => Ok((None, tokens)),
    }
}

/// The line of documentation at the front, and the tokens after it.
fn first_doc(tokens: &[Token]) -> Option<(&Bytes, &[Token])>
    ensures some { IfSome result (λ x. tokens.now ≡ Doc x.0.now ∷ x.1.now) }
    ensures none { IfNone result (docs_at tokens.now ≡ ([], tokens.now)) }
{
    match tokens {
        [Token::Doc(line), rest @ ..] => Some((line, rest)),
        _ => None,
    }
}

/// Reads lines of documentation. There may be none.
pub(crate) fn docs_of(alloc: Global, tokens: &[Token]) -> Result<(Docs, &[Token]), PartError>
    ensures { Gives (λ x. (x.0, x.1.now)) result (Ok (docs_at tokens.now)) }
{
    let mut lines = Vec::new(alloc);
    let mut rest = tokens;
    while let Some((line, after)) = first_doc(rest) {
        lines.push(line.copy(alloc)?)?;
        rest = after;
    }
    Ok((Docs::of(lines), rest))
}
