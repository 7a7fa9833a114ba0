use super::bytes::Bytes;
use super::docs::Docs;
use super::listed::Listed;
use super::name::Name;
use super::types::TypeExpr;

/// A value of an enum immediate: its name, and its name in Rust, such as `eq = Equal`.
#[derive(Drop)]
pub struct EnumValue {
    /// The name of the value.
    pub name: Name,
    /// The name of the value in Rust.
    pub rust: Name,
}

/// The sort of a kind of operands.
#[derive(Drop)]
pub enum Sort {
    /// `entity`: a reference to an entity of the function.
    Entity,
    /// `imm`: a number.
    Imm,
    /// `imm_enum(..)`: one of these values.
    ImmEnum(Listed<EnumValue>),
    /// `varargs`: any number of values.
    Varargs,
    /// `value(TYPE)`: a value of the type.
    Value(TypeExpr),
}

/// A kind of operands: `kind WORD: SORT "RUST"`. After these stands the name of its field, if it isn't the word.
#[derive(Drop)]
pub struct KindItem {
    /// The lines of documentation above the kind.
    pub docs: Docs,
    /// The word that names the kind.
    pub word: Bytes,
    /// The sort of the kind.
    pub sort: Sort,
    /// The type of the kind in Rust.
    pub rust: Bytes,
    /// The name of the kind's field. `None` if it is the word.
    pub field: Option<Name>,
}
