ghost use Rattle.std.specs.Prelude.{◌≡◌};
ghost use Rattle.meta_file_syntax.specs.Words.{function_named, dimension_of};
ghost use Rattle.meta_file_reader.specs.Parts.{Gives, chosen_at};
ghost use Rattle.meta_file_reader.specs.SetReading.{calls_at, closed_at, type_at, members_at, set_at, wanted_colon};
ghost use Rattle.meta_file_reader.specs.SetReading.{variable_at, type_item_at};

use super::fault::{Fault, PartError, Wanted};
use super::lists::{Element, Layout, some};
use super::parts::{
    after_sign, after_sign_or, begins_with_call, begins_with_digit, begins_with_sign,
    begins_with_word, comment, part_number, word_of,
};
use meta_file_syntax::{
    AliasItem, Bytes, Dimension, Docs, Item, Listed, Members, Part, SetExpr, Span, Token, TypeExpr,
    TypeItem, function_named,
};
use meta_types::DerivedFunc;
use std::alloc::Global;

fn function_word(tokens: &[Token], wanted: Wanted) -> Result<(DerivedFunc, &[Token]), PartError>
    ensures { Gives (λ x. (x.0, x.1.now)) result (chosen_at wanted function_named tokens.now) }
{
    let fault = Fault {
        left: tokens.len(),
        wanted,
    };
    match tokens {
        [Token::Word(word), rest @ ..] => match function_named(word.as_slice()) {
            Some(function) => Ok((function, rest)),
            None => Err(PartError::Fault(fault)),
        },
        _ => Err(PartError::Fault(fault)),
    }
}

impl Element for DerivedFunc {
    ghost use Rattle.meta_file_reader.specs.SetReading.{function_at};

    ghost at = { function_at };

    #[tactic(auto, unfolding(crate::specs::SetReading::function_at))]
    fn read(
        _alloc: Global,
        tokens: &[Token],
        wanted: Wanted,
    ) -> Result<(DerivedFunc, &[Token]), PartError> {
        let (function, rest) = function_word(tokens, wanted)?;
        let rest = after_sign(rest, b'(')?;
        Ok((function, rest))
    }
}

/// Reads functions, each with its `(`.
#[tactic(auto, unfolding(crate::specs::SetReading::calls_at))]
fn calls(alloc: Global, tokens: &[Token]) -> Result<(Listed<DerivedFunc>, &[Token]), PartError>
    ensures { Gives (λ x. (x.0, x.1.now)) result (calls_at tokens.now) }
{
    if begins_with_call(tokens) {
        return some(alloc, tokens, Layout::Calls, Wanted::Function);
    }
    Ok((Listed::of(Vec::new(alloc)), tokens))
}

/// Reads `count` times a `)`.
fn after_closed(tokens: &[Token], count: usize) -> Result<&[Token], PartError>
    ensures { Gives (λ x. x.now) result (closed_at count tokens.now) }
{
    let mut rest = tokens;
    for _ in 0..count {
        rest = after_sign(rest, b')')?;
    }
    Ok(rest)
}

#[tactic(auto, unfolding(crate::specs::SetReading::type_at))]
pub(crate) fn type_expr(alloc: Global, tokens: &[Token]) -> Result<(TypeExpr, &[Token]), PartError>
    ensures { Gives (λ x. (x.0, x.1.now)) result (type_at tokens.now) }
{
    let (functions, rest) = calls(alloc, tokens)?;
    let (word, rest) = word_of(alloc, rest, Wanted::Type)?;
    let rest = after_closed(rest, functions.as_slice().len())?;
    Ok((TypeExpr { functions, word }, rest))
}

impl Element for Span {
    ghost use Rattle.meta_file_reader.specs.SetReading.{span_at};

    ghost at = { span_at };

    #[tactic(auto, unfolding(crate::specs::SetReading::span_at, crate::specs::SetReading::high_at))]
    fn read(
        _alloc: Global,
        tokens: &[Token],
        wanted: Wanted,
    ) -> Result<(Span, &[Token]), PartError> {
        let (low, rest) = part_number(tokens, wanted)?;
        if !begins_with_sign(rest, b'.') {
            return Ok((Span { low, high: None }, rest));
        }
        let rest = after_sign(&rest[1..], b'.')?;
        let (number, rest) = part_number(rest, Wanted::PartNumber)?;
        let high = Some(number);
        Ok((Span { low, high }, rest))
    }
}

#[tactic(auto, unfolding(crate::specs::SetReading::members_at))]
fn members(alloc: Global, tokens: &[Token]) -> Result<(Members, &[Token]), PartError>
    ensures { Gives (λ x. (x.0, x.1.now)) result (members_at tokens.now) }
{
    if begins_with_word(tokens, b"all") {
        return Ok((Members::All, &tokens[1..]));
    }
    if begins_with_word(tokens, b"none") {
        return Ok((Members::Nothing, &tokens[1..]));
    }
    if begins_with_digit(tokens) {
        let (spans, rest) = some(alloc, tokens, Layout::Numbers, Wanted::PartNumber)?;
        return Ok((Members::Spans(spans), rest));
    }
    Err(PartError::Fault(Fault {
        left: tokens.len(),
        wanted: Wanted::Members,
    }))
}

fn dimension(tokens: &[Token], wanted: Wanted) -> Result<(Dimension, &[Token]), PartError>
    ensures { Gives (λ x. (x.0, x.1.now)) result (chosen_at wanted dimension_of tokens.now) }
{
    let fault = Fault {
        left: tokens.len(),
        wanted,
    };
    match tokens {
        [Token::Word(word), rest @ ..] => match Dimension::of(word.as_slice()) {
            Some(dimension) => Ok((dimension, rest)),
            None => Err(PartError::Fault(fault)),
        },
        _ => Err(PartError::Fault(fault)),
    }
}

impl Element for Part {
    ghost use Rattle.meta_file_reader.specs.SetReading.{part_at};

    ghost at = { part_at };

    #[tactic(auto, unfolding(crate::specs::SetReading::part_at))]
    fn read(
        alloc: Global,
        tokens: &[Token],
        wanted: Wanted,
    ) -> Result<(Part, &[Token]), PartError> {
        let (dimension, rest) = dimension(tokens, wanted)?;
        let (members, rest) = members(alloc, rest)?;
        Ok((Part { dimension, members }, rest))
    }
}

#[tactic(auto, unfolding(crate::specs::SetReading::set_at))]
fn set(alloc: Global, tokens: &[Token]) -> Result<(SetExpr, &[Token]), PartError>
    ensures { Gives (λ x. (x.0, x.1.now)) result (set_at tokens.now) }
{
    if begins_with_word(tokens, b"like") {
        let (word, rest) = word_of(alloc, &tokens[1..], Wanted::Type)?;
        return Ok((SetExpr::Like(word), rest));
    }
    let (parts, rest) = some(alloc, tokens, Layout::Commas, Wanted::Dimension)?;
    Ok((SetExpr::Parts(parts), rest))
}

/// What is wanted after the word of a type, and after the text that is shown.
fn wanted_colon(shown: &Option<Bytes>) -> Wanted
    ensures { result ≡ wanted_colon shown.now }
{
    match shown {
        None => Wanted::ColonOrEquals,
        Some(_) => Wanted::Sign(b':'),
    }
}

/// Reads a type variable, after its word.
#[tactic(auto, unfolding(crate::specs::SetReading::variable_at))]
fn variable(
    alloc: Global,
    docs: Docs,
    word: Bytes,
    tokens: &[Token],
) -> Result<(Item, &[Token]), PartError>
    ensures { Gives (λ x. (x.0, x.1.now)) result (variable_at docs word tokens.now) }
{
    let (shown, rest) = comment(alloc, tokens)?;
    let rest = after_sign_or(rest, b':', wanted_colon(&shown))?;
    let (set, rest) = set(alloc, rest)?;
    let item = TypeItem {
        docs,
        word,
        shown,
        set,
    };
    Ok((Item::Type(item), rest))
}

/// Reads a type variable or another word for a type, after the keyword.
#[tactic(auto, unfolding(crate::specs::SetReading::type_item_at, crate::specs::SetReading::alias_at))]
pub(crate) fn type_item(
    alloc: Global,
    docs: Docs,
    tokens: &[Token],
) -> Result<(Item, &[Token]), PartError>
    ensures { Gives (λ x. (x.0, x.1.now)) result (type_item_at docs tokens.now) }
{
    let (word, rest) = word_of(alloc, tokens, Wanted::TypeWord)?;
    if begins_with_sign(rest, b'=') {
        let (means, rest) = type_expr(alloc, &rest[1..])?;
        return Ok((Item::Alias(AliasItem { docs, word, means }), rest));
    }
    variable(alloc, docs, word, rest)
}
