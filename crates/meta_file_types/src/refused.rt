ghost use Rattle.std.specs.Prelude.{◌≡◌};
ghost use Rattle.meta_file_types.specs.declared.refused.ItemError.TheVariants.{Memory};

use super::spelled::{Spelled, SpelledName};
use meta_file_syntax::Dimension;
use meta_types::DerivedFunc;
use std::alloc::{AllocError, AllocFailed};

/// What is wrong with an item, and what of the item it is about, as the item spells it. All places are from 0.
#[derive(Drop)]
pub enum Reason<'i> {
    /// A text of the item isn't UTF-8: a name, a comment or a line of documentation.
    NotText,
    /// Another word for a type, this one, has documentation.
    DocumentedAlias(Spelled<'i, u8>),
    /// A part of a set has this dimension, and so has an earlier one.
    PartTwice(Dimension),
    /// A part of this dimension can't have the number, which stands alone or at an end of a range.
    NoNumber(Dimension, u16),
    /// The low end of a range, the first number, is above the high end, the second.
    EmptyRange(u16, u16),
    /// A set has a part `dynamic` and no part `lanes`.
    DynamicAlone,
    /// The word after `like` stands for a derived type.
    LikeDerived(Spelled<'i, u8>),
    /// The word of a type or a kind isn't declared above.
    Unknown(Spelled<'i, u8>),
    /// The word of a type stands for a kind.
    NoType(Spelled<'i, u8>),
    /// The word of a kind stands for a type.
    NoKind(Spelled<'i, u8>),
    /// A function can't be applied to what follows it: further functions, and the word of a type.
    CannotDerive(DerivedFunc, Spelled<'i, DerivedFunc>, Spelled<'i, u8>),
    /// A function would be the 65th after the root of the type with this word.
    TooDeep(DerivedFunc, Spelled<'i, u8>),
    /// A function is applied to the type with this word, whose root has a name of more than 4,096 bytes.
    LongName(Spelled<'i, u8>),
    /// A value of an enum has this name, and so has an earlier one.
    ValueTwice(SpelledName<'i>),
    /// The word that the item declares has a meaning of its own.
    OwnMeaning(Spelled<'i, u8>),
    /// The word of a type or a kind that the item declares is declared by the item at this place.
    Declared(Spelled<'i, u8>, usize),
    /// The word of the format that the item declares is declared by the item at this place.
    FormatDeclared(Spelled<'i, u8>, usize),
    /// The slot at this place is a designated value, and so is an earlier one.
    TwoDesignated(usize),
    /// The word of an instruction's format isn't declared above.
    UnknownFormat(Spelled<'i, u8>),
    /// The mark at this place names a second control, and so does an earlier one.
    SecondTwice(usize),
    /// A setting or a preset stands before the first group.
    NoGroup,
    /// A name of a preset isn't that of a boolean or a preset above in its group.
    NoEntry(SpelledName<'i>),
}

/// Why an item, or a type or kind in it, doesn't declare anything.
#[derive(Drop)]
pub enum ItemError<'i> {
    /// Memory ran out.
    Memory,
    /// Something is wrong with the item.
    Wrong(Reason<'i>),
}

impl<'i> From<AllocError> for ItemError<'i> {
    ghost from_gives = { λ _ e. e ≡ Memory };

    fn from(_e: AllocError) -> ItemError<'i> {
        ItemError::Memory
    }
}

impl<'i, T: Drop> From<AllocFailed<T>> for ItemError<'i> {
    ghost from_gives = { λ _ e. e ≡ Memory };

    fn from(_e: AllocFailed<T>) -> ItemError<'i> {
        ItemError::Memory
    }
}
