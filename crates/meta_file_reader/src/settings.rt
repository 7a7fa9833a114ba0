ghost use Rattle.meta_file_reader.specs.Parts.{Gives};
ghost use Rattle.meta_file_reader.specs.Reading.{bool_item_at, num_item_at, enum_item_at, preset_item_at};

use super::fault::{PartError, Wanted};
use super::lists::{Layout, list};
use super::parts::{after_sign, byte, comment, name_of, truth};
use meta_file_syntax::{BoolItem, Docs, EnumItem, NumItem, PresetItem, Token};
use std::alloc::Global;

#[tactic(auto, unfolding(crate::specs::Reading::bool_item_at))]
pub(crate) fn bool_item(
    alloc: Global,
    docs: Docs,
    tokens: &[Token],
) -> Result<(BoolItem, &[Token]), PartError>
    ensures { Gives (λ x. (x.0, x.1.now)) result (bool_item_at docs tokens.now) }
{
    let (name, rest) = name_of(alloc, tokens, Wanted::SettingName)?;
    let rest = after_sign(rest, b'=')?;
    let (default, rest) = truth(rest)?;
    let (comment, rest) = comment(alloc, rest)?;
    let item = BoolItem {
        docs,
        name,
        default,
        comment,
    };
    Ok((item, rest))
}

#[tactic(auto, unfolding(crate::specs::Reading::num_item_at))]
pub(crate) fn num_item(
    alloc: Global,
    docs: Docs,
    tokens: &[Token],
) -> Result<(NumItem, &[Token]), PartError>
    ensures { Gives (λ x. (x.0, x.1.now)) result (num_item_at docs tokens.now) }
{
    let (name, rest) = name_of(alloc, tokens, Wanted::SettingName)?;
    let rest = after_sign(rest, b'=')?;
    let (default, rest) = byte(rest)?;
    let (comment, rest) = comment(alloc, rest)?;
    let item = NumItem {
        docs,
        name,
        default,
        comment,
    };
    Ok((item, rest))
}

#[tactic(auto, unfolding(crate::specs::Reading::enum_item_at))]
pub(crate) fn enum_item(
    alloc: Global,
    docs: Docs,
    tokens: &[Token],
) -> Result<(EnumItem, &[Token]), PartError>
    ensures { Gives (λ x. (x.0, x.1.now)) result (enum_item_at docs tokens.now) }
{
    let (name, rest) = name_of(alloc, tokens, Wanted::SettingName)?;
    let rest = after_sign(rest, b'(')?;
    let (values, rest) = list(alloc, rest, Layout::Parentheses, Wanted::Value)?;
    let (comment, rest) = comment(alloc, rest)?;
    let item = EnumItem {
        docs,
        name,
        values,
        comment,
    };
    Ok((item, rest))
}

#[tactic(auto, unfolding(crate::specs::Reading::preset_item_at))]
pub(crate) fn preset_item(
    alloc: Global,
    docs: Docs,
    tokens: &[Token],
) -> Result<(PresetItem, &[Token]), PartError>
    ensures { Gives (λ x. (x.0, x.1.now)) result (preset_item_at docs tokens.now) }
{
    let (name, rest) = name_of(alloc, tokens, Wanted::PresetName)?;
    let rest = after_sign(rest, b'(')?;
    let (args, rest) = list(alloc, rest, Layout::Parentheses, Wanted::Argument)?;
    let item = PresetItem { docs, name, args };
    Ok((item, rest))
}
