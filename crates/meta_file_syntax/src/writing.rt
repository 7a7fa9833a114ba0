ghost use Rattle.std.specs.Prelude.{◌≡◌, ◌++◌, List, OnOk, IfOk};
ghost use Rattle.meta_file_syntax.specs.Encoding.{text_tokens};
ghost use Rattle.meta_file_syntax.specs.Laid.{escaped, doc_line, written, closes, opens, separator, laid, CanWriteAll};
ghost use Rattle.meta_file_syntax.specs.declared.token.Token.{Token};

use super::token::Token;
use std::alloc::{AllocError, Global};

/// Adds a text as it stands between quotes, with its backslashes.
pub fn write_escaped(text: &mut Vec<u8>, bytes: &[u8]) -> Result<(), AllocError>
    ensures { OnOk result (text.new.items ≡ text.old.items ++ escaped bytes.now) }
{
    for byte in bytes {
        match *byte {
            b'\n' => text.extend_from_slice(b"\\n")?,
            b'"' | b'\\' => text.extend_from_slice(&[b'\\', *byte])?,
            _ => text.push(*byte)?,
        }
    }
    Ok(())
}

/// Adds a line of documentation, which stands after its slashes.
fn write_doc(text: &mut Vec<u8>, line: &[u8]) -> Result<(), AllocError>
    ensures { OnOk result (text.new.items ≡ text.old.items ++ doc_line line.now) }
{
    if line.is_empty() {
        return Ok(());
    }
    text.extend_from_slice(b" ")?;
    text.extend_from_slice(line)?;
    if line[line.len() - 1] == b'\r' {
        text.extend_from_slice(b"\r")?;
    }
    Ok(())
}

fn write_token(text: &mut Vec<u8>, token: &Token) -> Result<(), AllocError>
    ensures { OnOk result (text.new.items ≡ text.old.items ++ written token.now) }
{
    match token {
        Token::Key(keyword) => text.extend_from_slice(keyword.as_slice()),
        Token::Word(word) => text.extend_from_slice(word.as_slice()),
        Token::Quoted(quoted) => {
            text.extend_from_slice(b"\"")?;
            write_escaped(text, quoted.as_slice())?;
            text.extend_from_slice(b"\"")
        }
        Token::Sign(sign) => text.extend_from_slice(&[*sign]),
        Token::Doc(line) => {
            text.extend_from_slice(b"///")?;
            write_doc(text, line.as_slice())
        }
        Token::Stray(_) => Ok(()),
    }
}

/// Whether the token is a sign without a blank before it.
fn closes(token: &Token) -> bool
    ensures { result ≡ closes token.now }
{
    match token {
        Token::Sign(sign) => matches!(*sign, b':' | b',' | b'(' | b')' | b']' | b'.' | b'>'),
        _ => false,
    }
}

/// Whether the token is a sign without a blank after it.
fn opens(token: &Token) -> bool
    ensures { result ≡ opens token.now }
{
    match token {
        Token::Sign(sign) => matches!(*sign, b'(' | b'[' | b'.' | b'-'),
        _ => false,
    }
}

fn write_separator(text: &mut Vec<u8>, last: &Token, token: &Token) -> Result<(), AllocError>
    ensures { OnOk result (text.new.items ≡ text.old.items ++ separator last.now token.now) }
{
    if matches!(last, Token::Doc(_)) || matches!(token, Token::Key(_) | Token::Doc(_)) {
        return text.extend_from_slice(b"\n");
    }
    if closes(token) || opens(last) {
        return Ok(());
    }
    text.extend_from_slice(b" ")
}

/// The canonical text of the tokens. Documentation and keywords begin a line, and there is a blank between two other tokens, except beside
/// some signs. If each token can be written, the text has these tokens (`what_is_laid_is_read`), and `tokens_of` reads them from it, except
/// a comma directly before `)` or `]`.
#[tactic(auto, unfolding(crate::specs::Laid::laid, crate::specs::Laid::then_text))]
pub fn write_tokens(alloc: Global, tokens: &[Token]) -> Result<Vec<u8>, AllocError>
    ensures { IfOk result (λ v. v.items ≡ laid tokens.now) }
{
    let mut text = Vec::new(alloc);
    let [first, more @ ..] = tokens else {
        return Ok(text);
    };
    write_token(&mut text, first)?;
    let mut last = first;
    for token in more {
        write_separator(&mut text, last, token)?;
        write_token(&mut text, token)?;
        last = token;
    }
    text.push(b'\n')?;
    Ok(text)
}

/// The canonical text of tokens has these tokens, including documentation and all commas.
pub fn what_is_laid_is_read()
    ensures { (ts : List Token) → CanWriteAll ts → text_tokens (laid ts) ≡ ts }
{}
