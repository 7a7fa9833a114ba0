use super::bytes::Bytes;
use super::docs::Docs;
use super::formats::FormatItem;
use super::insts::InstItem;
use super::kinds::KindItem;
use super::listed::Listed;
use super::name::Name;
use super::types::{AliasItem, TypeItem};

/// A boolean of a group: `bool NAME = true`, and a comment.
#[derive(Drop)]
pub struct BoolItem {
    /// The lines of documentation above the boolean.
    pub docs: Docs,
    /// The name of the boolean.
    pub name: Name,
    /// The default of the boolean.
    pub default: bool,
    /// The comment after the boolean, if there is one.
    pub comment: Option<Bytes>,
}

/// A number of a group: `num NAME = 16`, and a comment.
#[derive(Drop)]
pub struct NumItem {
    /// The lines of documentation above the number.
    pub docs: Docs,
    /// The name of the number.
    pub name: Name,
    /// The default of the number.
    pub default: u8,
    /// The comment after the number, if there is one.
    pub comment: Option<Bytes>,
}

/// An enum of a group: `enum NAME(VALUE, VALUE)`, and a comment. The first value is the default.
#[derive(Drop)]
pub struct EnumItem {
    /// The lines of documentation above the enum.
    pub docs: Docs,
    /// The name of the enum.
    pub name: Name,
    /// The values in order.
    pub values: Listed<Name>,
    /// The comment after the enum, if there is one.
    pub comment: Option<Bytes>,
}

/// A preset of a group: `preset NAME(NAME, NAME)`. The names in parentheses are those of booleans and of earlier presets of the group.
#[derive(Drop)]
pub struct PresetItem {
    /// The lines of documentation above the preset.
    pub docs: Docs,
    /// The name of the preset.
    pub name: Name,
    /// The names that the preset lists, in order.
    pub args: Listed<Name>,
}

/// An item of a file: one declaration.
#[derive(Drop)]
pub enum Item {
    /// A type variable.
    Type(TypeItem),
    /// Another word for a type.
    Alias(AliasItem),
    /// A kind of operand.
    Kind(KindItem),
    /// A format.
    Format(FormatItem),
    /// An instruction.
    Inst(InstItem),
    /// `group NAME`. The settings and presets below, up to the next group, belong to it.
    Group(Name),
    /// A boolean of a group.
    Bool(BoolItem),
    /// A number of a group.
    Num(NumItem),
    /// An enum of a group.
    Enum(EnumItem),
    /// A preset of a group.
    Preset(PresetItem),
}
