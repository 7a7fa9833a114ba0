ghost use Rattle.std.specs.Prelude.{◌≡◌, ◌++◌, ◌∷◌, [], ◌&&◌, IfOk, OnOk, length, if◌then◌else◌};
ghost use Rattle.meta_file_syntax.specs.Squeezed.{is_comma, ends_first, squeezed, squeezed_lines};

use super::token::Token;
use super::tokens::Tokens;
use std::alloc::{AllocError, Global};
use std::collections::VecDeque;

/// Whether the token is a comma directly before `)` or `]`.
fn is_dropped(token: &Token, rest: &VecDeque<Token>) -> bool
    ensures { result ≡ (is_comma token.now && ends_first rest.now.items) }
{
    match (token, rest.front()) {
        (Token::Sign(sign), Some(Token::Sign(next))) => {
            *sign == b',' && (*next == b')' || *next == b']')
        }
        _ => false,
    }
}

/// Adds a token, unless it is a comma directly before `)` or `]`.
fn keep(
    kept: &mut Tokens,
    token: Token,
    line: usize,
    rest: &VecDeque<Token>,
) -> Result<(), AllocError>
    ensures tokens { OnOk result (kept.new.tokens.items ≡ kept.old.tokens.items
        ++ (if is_comma token && ends_first rest.now.items then [] else token ∷ [])) }
    ensures lines { OnOk result (kept.new.lines.items ≡ kept.old.lines.items
        ++ (if is_comma token && ends_first rest.now.items then [] else line ∷ [])) }
    ensures last { kept.new.last_line ≡ kept.old.last_line }
{
    if is_dropped(&token, rest) {
        return Ok(());
    }
    kept.tokens.push(token)?;
    kept.lines.push(line)?;
    Ok(())
}

/// The tokens and their lines, without each comma directly before `)` or `]`.
pub(crate) fn squeeze(alloc: Global, whole: Tokens) -> Result<Tokens, AllocError>
    requires { length whole.lines.items ≡ length whole.tokens.items }
    ensures tokens { IfOk result (λ v. v.tokens.items ≡ squeezed whole.tokens.items) }
    ensures lines { IfOk result (λ v. v.lines.items ≡ squeezed_lines whole.tokens.items whole.lines.items) }
    ensures last { IfOk result (λ v. v.last_line ≡ whole.last_line) }
    ensures each { IfOk result (λ v. length v.lines.items ≡ length v.tokens.items) }
{
    let Tokens {
        tokens,
        lines,
        last_line,
    } = whole;
    let mut rest = VecDeque::from_vec(tokens);
    let mut kept = Tokens {
        tokens: Vec::new(alloc),
        lines: Vec::new(alloc),
        last_line,
    };
    for line in &lines {
        let Some(token) = rest.pop_front() else {
            unreachable!()
        };
        keep(&mut kept, token, *line, &rest)?;
    }
    Ok(kept)
}
