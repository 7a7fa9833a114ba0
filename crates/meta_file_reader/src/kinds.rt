ghost use Rattle.meta_file_reader.specs.Parts.{Gives};
ghost use Rattle.meta_file_reader.specs.SetReading.{imm_enum_at, value_of_at, sort_at, field_at, kind_item_at};

use super::fault::{Fault, PartError, Wanted};
use super::lists::{Element, Layout, list};
use super::parts::{after_sign, begins_with_word, name_of, text_of, word_of};
use super::types::type_expr;
use meta_file_syntax::{Docs, EnumValue, KindItem, Name, Sort, Token};
use std::alloc::Global;

impl Element for EnumValue {
    ghost use Rattle.meta_file_reader.specs.SetReading.{enum_value_at};

    ghost at = { enum_value_at };

    #[tactic(auto, unfolding(crate::specs::SetReading::enum_value_at))]
    fn read(
        alloc: Global,
        tokens: &[Token],
        wanted: Wanted,
    ) -> Result<(EnumValue, &[Token]), PartError> {
        let (name, rest) = name_of(alloc, tokens, wanted)?;
        let rest = after_sign(rest, b'=')?;
        let (rust, rest) = name_of(alloc, rest, Wanted::RustValue)?;
        Ok((EnumValue { name, rust }, rest))
    }
}

/// Reads values, after `imm_enum`.
#[tactic(auto, unfolding(crate::specs::SetReading::imm_enum_at))]
fn imm_enum(alloc: Global, tokens: &[Token]) -> Result<(Sort, &[Token]), PartError>
    ensures { Gives (λ x. (x.0, x.1.now)) result (imm_enum_at tokens.now) }
{
    let rest = after_sign(tokens, b'(')?;
    let (values, rest) = list(alloc, rest, Layout::Parentheses, Wanted::Value)?;
    Ok((Sort::ImmEnum(values), rest))
}

/// Reads a type, after `value`.
#[tactic(auto, unfolding(crate::specs::SetReading::value_of_at))]
fn value_of(alloc: Global, tokens: &[Token]) -> Result<(Sort, &[Token]), PartError>
    ensures { Gives (λ x. (x.0, x.1.now)) result (value_of_at tokens.now) }
{
    let rest = after_sign(tokens, b'(')?;
    let (what, rest) = type_expr(alloc, rest)?;
    let rest = after_sign(rest, b')')?;
    Ok((Sort::Value(what), rest))
}

#[tactic(auto, unfolding(crate::specs::SetReading::sort_at))]
fn sort(alloc: Global, tokens: &[Token]) -> Result<(Sort, &[Token]), PartError>
    ensures { Gives (λ x. (x.0, x.1.now)) result (sort_at tokens.now) }
{
    if begins_with_word(tokens, b"entity") {
        return Ok((Sort::Entity, &tokens[1..]));
    }
    if begins_with_word(tokens, b"imm") {
        return Ok((Sort::Imm, &tokens[1..]));
    }
    if begins_with_word(tokens, b"imm_enum") {
        return imm_enum(alloc, &tokens[1..]);
    }
    if begins_with_word(tokens, b"varargs") {
        return Ok((Sort::Varargs, &tokens[1..]));
    }
    if begins_with_word(tokens, b"value") {
        return value_of(alloc, &tokens[1..]);
    }
    Err(PartError::Fault(Fault {
        left: tokens.len(),
        wanted: Wanted::Sort,
    }))
}

#[tactic(auto, unfolding(crate::specs::SetReading::field_at))]
fn field(alloc: Global, tokens: &[Token]) -> Result<(Option<Name>, &[Token]), PartError>
    ensures { Gives (λ x. (x.0, x.1.now)) result (field_at tokens.now) }
{
    if !begins_with_word(tokens, b"field") {
        return Ok((None, tokens));
    }
    let (name, rest) = name_of(alloc, &tokens[1..], Wanted::FieldName)?;
    Ok((Some(name), rest))
}

#[tactic(auto, unfolding(crate::specs::SetReading::kind_item_at))]
pub(crate) fn kind_item(
    alloc: Global,
    docs: Docs,
    tokens: &[Token],
) -> Result<(KindItem, &[Token]), PartError>
    ensures { Gives (λ x. (x.0, x.1.now)) result (kind_item_at docs tokens.now) }
{
    let (word, rest) = word_of(alloc, tokens, Wanted::KindWord)?;
    let rest = after_sign(rest, b':')?;
    let (sort, rest) = sort(alloc, rest)?;
    let (rust, rest) = text_of(alloc, rest)?;
    let (field, rest) = field(alloc, rest)?;
    let item = KindItem {
        docs,
        word,
        sort,
        rust,
        field,
    };
    Ok((item, rest))
}
