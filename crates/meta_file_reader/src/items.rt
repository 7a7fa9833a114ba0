ghost use Rattle.std.specs.Prelude.{◌≡◌, List, length, IfOk};
ghost use Rattle.meta_file_reader.specs.Parts.{Gives};
ghost use Rattle.meta_file_reader.specs.Reading.{format_at, group_at, item_by, item_after, item_at, items_at};

use super::fault::{Fault, PartError, Wanted};
use super::formats::format_item;
use super::insts::inst_item;
use super::kinds::kind_item;
use super::parts::{docs_of, name_of};
use super::settings::{bool_item, enum_item, num_item, preset_item};
use super::types::type_item;
use meta_file_syntax::{Docs, Item, Keyword, Token};
use std::alloc::Global;

/// Reads a format, after its keyword. It must have no documentation.
fn format_after<'t>(
    alloc: Global,
    docs: &Docs,
    tokens: &'t [Token],
) -> Result<(Item, &'t [Token]), PartError>
    ensures { Gives (λ x. (x.0, x.1.now)) result (format_at docs.now tokens.now) }
{
    if !docs.as_slice().is_empty() {
        return Err(PartError::Fault(Fault {
            left: tokens.len() + 1,
            wanted: Wanted::Documented,
        }));
    }
    let (item, rest) = format_item(alloc, tokens)?;
    Ok((Item::Format(item), rest))
}

/// Reads a group, after its keyword. It must have no documentation.
fn group_after<'t>(
    alloc: Global,
    docs: &Docs,
    tokens: &'t [Token],
) -> Result<(Item, &'t [Token]), PartError>
    ensures { Gives (λ x. (x.0, x.1.now)) result (group_at docs.now tokens.now) }
{
    if !docs.as_slice().is_empty() {
        return Err(PartError::Fault(Fault {
            left: tokens.len() + 1,
            wanted: Wanted::Documented,
        }));
    }
    let (name, rest) = name_of(alloc, tokens, Wanted::GroupName)?;
    Ok((Item::Group(name), rest))
}

fn item_by(
    alloc: Global,
    docs: Docs,
    keyword: Keyword,
    tokens: &[Token],
) -> Result<(Item, &[Token]), PartError>
    ensures { Gives (λ x. (x.0, x.1.now)) result (item_by docs keyword tokens.now) }
{
    match keyword {
        Keyword::Type => type_item(alloc, docs, tokens),
        Keyword::Kind => {
            let (item, rest) = kind_item(alloc, docs, tokens)?;
            Ok((Item::Kind(item), rest))
        }
        Keyword::Format => format_after(alloc, &docs, tokens),
        Keyword::Inst => {
            let (item, rest) = inst_item(alloc, docs, tokens)?;
            Ok((Item::Inst(item), rest))
        }
        Keyword::Group => group_after(alloc, &docs, tokens),
        Keyword::Bool => {
            let (item, rest) = bool_item(alloc, docs, tokens)?;
            Ok((Item::Bool(item), rest))
        }
        Keyword::Num => {
            let (item, rest) = num_item(alloc, docs, tokens)?;
            Ok((Item::Num(item), rest))
        }
        Keyword::Enum => {
            let (item, rest) = enum_item(alloc, docs, tokens)?;
            Ok((Item::Enum(item), rest))
        }
        Keyword::Preset => {
            let (item, rest) = preset_item(alloc, docs, tokens)?;
            Ok((Item::Preset(item), rest))
        }
    }
}

fn item_after(alloc: Global, docs: Docs, tokens: &[Token]) -> Result<(Item, &[Token]), PartError>
    ensures { Gives (λ x. (x.0, x.1.now)) result (item_after docs tokens.now) }
{
    match tokens {
        [Token::Key(keyword), rest @ ..] => item_by(alloc, docs, *keyword, rest),
        _ => Err(PartError::Fault(Fault {
            left: tokens.len(),
            wanted: if docs.as_slice().is_empty() {
                Wanted::Item
            } else {
                Wanted::Documented
            },
        })),
    }
}

#[tactic(auto, unfolding(crate::specs::Reading::item_at))]
fn item_of(alloc: Global, tokens: &[Token]) -> Result<(Item, &[Token]), PartError>
    ensures { Gives (λ x. (x.0, x.1.now)) result (item_at tokens.now) }
{
    let (docs, rest) = docs_of(alloc, tokens)?;
    item_after(alloc, docs, rest)
}

/// Reads items up to the end.
pub(crate) fn items(alloc: Global, tokens: &[Token]) -> Result<Vec<Item>, PartError>
    ensures { Gives (λ v. v.items) result (items_at (length tokens.now) tokens.now) }
{
    let mut items = Vec::new(alloc);
    let mut rest = tokens;
    for _ in 0..tokens.len() {
        if rest.is_empty() {
            return Ok(items);
        }
        let (next, after) = item_of(alloc, rest)?;
        items.push(next)?;
        rest = after;
    }
    if rest.is_empty() {
        return Ok(items);
    }
    Err(PartError::Fault(Fault {
        left: rest.len(),
        wanted: Wanted::Item,
    }))
}
