ghost use Rattle.std.specs.Prelude.{◌≡◌, ◌+◌, ◌<◌, ◌≤◌, ◌^◌, ◌++◌, ◌∷◌, [], true, false, length, IfOk, IfSome, IfNone};
ghost use Rattle.std.specs.Str.{is_utf8};
ghost use Rattle.std.specs.Str.Lossy.{utf8_valid_len};
ghost use Rattle.meta_file_syntax.specs.declared.token.Token.TheVariants.{Stray};
ghost use Rattle.meta_file_syntax.specs.declared.flaw.Flaw.TheVariants.{NotUtf8};
ghost use Rattle.meta_file_syntax.specs.Scan.{tokens_in};
ghost use Rattle.meta_file_syntax.specs.TokenLines.{lines_in, line_after};
ghost use Rattle.meta_file_syntax.specs.Encoding.{whole_lines, text_tokens, text_lines, text_last_line};

use super::flaw::Flaw;
use super::scanner::{line_past, scan};
use super::token::Token;
use super::tokens::Tokens;
use std::alloc::{AllocError, Global};
use std::str;

/// The place of the first byte at which no character begins, if the text isn't UTF-8.
#[tactic(auto, using(crate::proofs::Utf8::is_text, crate::proofs::Utf8::no_text))]
fn place_of_no_character(text: &[u8]) -> Option<usize>
    ensures none { IfNone result (true ≡ is_utf8 text.now) }
    ensures some { IfSome result (λ n. false ≡ is_utf8 text.now) }
    ensures place { IfSome result (λ n. n ≡ utf8_valid_len text.now) }
    ensures within { IfSome result (λ n. n < length text.now) }
{
    match str::from_utf8(text) {
        Ok(_) => None,
        Err(error) => Some(error.valid_up_to()),
    }
}

/// The lines at the front of a text that end in an LF.
fn whole_lines(text: &[u8]) -> &[u8]
    ensures { result.now ≡ whole_lines text.now }
{
    let mut start = 0;
    for (place, byte) in text.iter().enumerate() {
        if *byte == b'\n' {
            start = place + 1;
        }
    }
    &text[..start]
}

/// The number of the line in which the byte after a text would stand.
fn line_after(text: &[u8]) -> usize
    ensures { result ≡ line_after 1 text.now }
{
    let mut line = 1;
    for byte in text {
        line = line_past(line, *byte);
    }
    line
}

/// The tokens of a text, with their lines. The first line that isn't UTF-8 is a flaw, and the last token.
pub(crate) fn scan_text(alloc: Global, text: &[u8]) -> Result<Tokens, AllocError>
    ensures tokens { IfOk result (λ v. v.tokens.items ≡ text_tokens text.now) }
    ensures lines { IfOk result (λ v. v.lines.items ≡ text_lines text.now) }
    ensures last { IfOk result (λ v. v.last_line ≡ text_last_line text.now) }
    // Each token has a line.
    ensures each { IfOk result (λ v. length v.lines.items ≡ length v.tokens.items) }
{
    let Some(place) = place_of_no_character(text) else {
        return scan(alloc, text);
    };
    let lines = whole_lines(&text[..place]);
    let mut read = scan(alloc, lines)?;
    let line = line_after(lines);
    read.tokens.push(Token::Stray(Flaw::NotUtf8))?;
    read.lines.push(line)?;
    read.last_line = line;
    Ok(read)
}
