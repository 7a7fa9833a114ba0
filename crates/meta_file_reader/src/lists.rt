ghost use Rattle.std.specs.Prelude.{◌≡◌, ◌<◌, List, length, IsTrue};
ghost use Rattle.std.specs.Prelude.{Result as Read};
ghost use Rattle.meta_file_syntax.specs.declared.token.Token.{Token};
ghost use Rattle.meta_file_reader.specs.declared.fault.Fault.{Fault};
ghost use Rattle.meta_file_reader.specs.declared.fault.Wanted.{Wanted};
ghost use Rattle.meta_file_reader.specs.Parts.{Gives};
ghost use Rattle.meta_file_reader.specs.Lists.{comma_or, separator_at, step_at, more_at, GivesMore, some_at, closes_first, list_at};

use super::fault::{Fault, PartError, Wanted};
use super::parts::{begins_with_call, begins_with_digit, begins_with_sign, name_of};
use meta_file_syntax::{Listed, Name, Token};
use std::alloc::Global;

/// A thing that lists in a file have.
pub(crate) trait Element: Drop {
    // Reading such a thing, if this is wanted.
    ghost at: { Wanted → List Token → Read (Self × List Token) Fault };

    /// Reads one such thing. `wanted` is what the error names.
    fn read(alloc: Global, tokens: &[Token], wanted: Wanted) -> Result<(Self, &[Token]), PartError>
        ensures { Gives (λ x. (x.0, x.1.now)) result (at wanted tokens.now) };
}

impl Element for Name {
    ghost use Rattle.meta_file_reader.specs.Parts.{name_at};

    ghost at = { name_at };

    fn read(
        alloc: Global,
        tokens: &[Token],
        wanted: Wanted,
    ) -> Result<(Name, &[Token]), PartError> {
        name_of(alloc, tokens, wanted)
    }
}

/// What stands between the parts of a list, and how the list ends.
#[derive(Clone, Copy)]
pub(crate) enum Layout {
    /// Commas, up to `)`.
    Parentheses,
    /// Commas, up to `]`.
    Brackets,
    /// Commas. The list ends if no comma follows a part.
    Commas,
    /// Nothing. The list ends if no word follows that begins with a digit.
    Numbers,
    /// Nothing. The list ends if no word follows that has a `(` after it.
    Calls,
}

/// Reads a comma, or the sign that closes the list. The answer says whether a part follows.
fn comma_or(tokens: &[Token], close: u8, wanted: Wanted) -> Result<(bool, &[Token]), PartError>
    ensures { Gives (λ x. (x.0, x.1.now)) result (comma_or close wanted tokens.now) }
{
    match tokens {
        [Token::Sign(sign), rest @ ..] if *sign == close => Ok((false, rest)),
        [Token::Sign(b','), rest @ ..] => Ok((true, rest)),
        _ => Err(PartError::Fault(Fault {
            left: tokens.len(),
            wanted,
        })),
    }
}

/// Reads what stands between two parts. The answer says whether a part follows.
fn separator(tokens: &[Token], layout: Layout) -> Result<(bool, &[Token]), PartError>
    ensures { Gives (λ x. (x.0, x.1.now)) result (separator_at layout tokens.now) }
{
    match layout {
        Layout::Parentheses => comma_or(tokens, b')', Wanted::CommaOrClose),
        Layout::Brackets => comma_or(tokens, b']', Wanted::CommaOrBracket),
        Layout::Commas => {
            if begins_with_sign(tokens, b',') {
                return Ok((true, &tokens[1..]));
            }
            Ok((false, tokens))
        }
        Layout::Numbers => Ok((begins_with_digit(tokens), tokens)),
        Layout::Calls => Ok((begins_with_call(tokens), tokens)),
    }
}

fn next_part<T: Element>(
    alloc: Global,
    tokens: &[Token],
    layout: Layout,
    wanted: Wanted,
) -> Result<(Option<T>, &[Token]), PartError>
    ensures { Gives (λ x. (x.0, x.1.now)) result (step_at (T.at wanted) layout tokens.now) }
{
    let (follows, rest) = separator(tokens, layout)?;
    if !follows {
        return Ok((None, rest));
    }
    let (part, rest) = T::read(alloc, rest, wanted)?;
    Ok((Some(part), rest))
}

/// Reads the parts after the first. There are at most as many as tokens.
fn more<'t, T: Element>(
    alloc: Global,
    parts: &mut Vec<T>,
    tokens: &'t [Token],
    layout: Layout,
    wanted: Wanted,
    count: usize,
) -> Result<&'t [Token], PartError>
    ensures { GivesMore (λ x. x.now) parts.old.items parts.new.items result (more_at (T.at wanted) layout count tokens.now) }
{
    let mut rest = tokens;
    for _ in 0..count {
        let (next, after) = next_part(alloc, rest, layout, wanted)?;
        rest = after;
        match next {
            None => return Ok(rest),
            Some(part) => parts.push(part)?,
        }
    }
    Err(PartError::Fault(Fault {
        left: rest.len(),
        wanted: Wanted::CommaOrClose,
    }))
}

/// Reads one or more parts.
#[tactic(auto, unfolding(crate::specs::Lists::some_at))]
pub(crate) fn some<T: Element>(
    alloc: Global,
    tokens: &[Token],
    layout: Layout,
    wanted: Wanted,
) -> Result<(Listed<T>, &[Token]), PartError>
    ensures { Gives (λ x. (x.0, x.1.now)) result (some_at (T.at wanted) layout tokens.now) }
{
    let mut parts = Vec::new(alloc);
    let (first, rest) = T::read(alloc, tokens, wanted)?;
    parts.push(first)?;
    let rest = more(alloc, &mut parts, rest, layout, wanted, tokens.len())?;
    Ok((Listed::of(parts), rest))
}

fn closes_first(tokens: &[Token], layout: Layout) -> bool
    ensures is { result ≡ closes_first layout tokens.now }
    ensures some { IsTrue result → 0 < length tokens.now }
{
    match layout {
        Layout::Parentheses => begins_with_sign(tokens, b')'),
        Layout::Brackets => begins_with_sign(tokens, b']'),
        Layout::Commas | Layout::Numbers | Layout::Calls => false,
    }
}

/// Reads parts up to the sign that closes the list. There may be none.
#[tactic(auto, unfolding(crate::specs::Lists::list_at))]
pub(crate) fn list<T: Element>(
    alloc: Global,
    tokens: &[Token],
    layout: Layout,
    wanted: Wanted,
) -> Result<(Listed<T>, &[Token]), PartError>
    ensures { Gives (λ x. (x.0, x.1.now)) result (list_at (T.at wanted) layout tokens.now) }
{
    if closes_first(tokens, layout) {
        return Ok((Listed::of(Vec::new(alloc)), &tokens[1..]));
    }
    some(alloc, tokens, layout, wanted)
}
