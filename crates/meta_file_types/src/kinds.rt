ghost use Rattle.std.specs.Prelude.{◌≡◌, ◌==◌, length, IfOk, OnOk, [], is_some, true};
ghost use Rattle.meta_file_types.specs.Words.{sense_of, type_of, values_from, sort_of};
ghost use Rattle.meta_file_types.specs.Said.{Said, after_type, after_sort};
ghost use Rattle.meta_file_types.specs.Telling.{Tells};
ghost use Rattle.meta_file_types.specs.Texts.{value_texts, sort_texts, are_texts};
ghost use Rattle.meta_file_types.specs.Registered.{AreFieldsIn, Extends};
ghost use Rattle.meta_file_types.specs.Operands.{operand_of, after_operand, kind_named, kind_by_word, IsOperandKindIn, IsValueKindIn};
ghost use Rattle.meta_file_types.specs.Operands.{AreKindsIn, kind_in};
ghost use Rattle.meta_file_types.specs.Registered.{IsKindIn};
ghost use Rattle.meta_file_types.specs.Held.{registered, Holds};

use super::given::GivenKind;
use super::plain::plain_type;
use super::refused::{ItemError, Reason};
use super::spelled::{Spelled, SpelledName};
use super::texts::text_from;
use super::types::Types;
use super::words::Meaning;
use meta_file_syntax::{EnumValue, Sort, TypeExpr};
use meta_operands::{EnumValues, OperandKind, OperandKindFields};
use meta_types::DerivedFunc;
use std::alloc::{AllocError, Global};

#[tactic(auto, using(crate::proofs::TextParts::value_name, crate::proofs::TextParts::value_rust, crate::proofs::TextParts::values_after))]
fn enum_values(alloc: Global, values: &[EnumValue]) -> Result<EnumValues, ItemError<'_>>
    requires { are_texts (value_texts values.now) ≡ true }
    ensures { Tells (λ es v. v ≡ es) result (values_from [] values.now) }
{
    let mut known = EnumValues::new(alloc);
    for value in values {
        let name = text_from(alloc, value.name.as_slice())?;
        let rust = text_from(alloc, value.rust.as_slice())?;
        if known.insert(name, rust)?.is_some() {
            return Err(ItemError::Wrong(Reason::ValueTwice(SpelledName::of(&value.name))));
        }
    }
    Ok(known)
}

impl Types {
    #[tactic(auto, using(crate::proofs::Kinding::sort_entity, crate::proofs::Kinding::sort_imm, crate::proofs::Kinding::sort_varargs, crate::proofs::Kinding::sort_enum, crate::proofs::Kinding::sort_enum_fails, crate::proofs::Kinding::sort_value, crate::proofs::Kinding::sort_value_fails, crate::proofs::Kinding::sort_holds, crate::proofs::Kinding::sort_extends, crate::proofs::Staying::extends_same))]
    pub(crate) fn sort_of<'i>(
        &mut self,
        alloc: Global,
        sort: &'i Sort,
    ) -> Result<OperandKindFields, ItemError<'i>>
        ghost said: { Said }
        requires holds { Holds self.old said }
        requires texts { are_texts (sort_texts sort.now) ≡ true }
        ensures means { Tells (AreFieldsIn (registered self.new (after_sort said sort.now))) result (sort_of said.words sort.now) }
        ensures holds { OnOk result (Holds self.new (after_sort said sort.now)) }
        ensures extends { OnOk result (Extends (registered self.old said) (registered self.new (after_sort said sort.now))) }
    {
        match sort {
            Sort::Entity => Ok(OperandKindFields::EntityRef),
            Sort::Imm => Ok(OperandKindFields::ImmValue),
            Sort::ImmEnum(values) => Ok(OperandKindFields::ImmEnum(enum_values(
                alloc,
                values.as_slice(),
            )?)),
            Sort::Varargs => Ok(OperandKindFields::VariableArgs),
            Sort::Value(means) => Ok(OperandKindFields::TypeVar(self.type_var(alloc, means)?)),
        }
    }

    #[tactic(auto, using(crate::proofs::Kinding::plain_no_kind, crate::proofs::Kinding::given_is_kind, crate::proofs::Kinding::kept_is_kind, crate::proofs::Kinding::none_is_kind))]
    fn kind(&self, alloc: Global, word: &[u8]) -> Result<Option<OperandKind>, AllocError>
        ghost said: { Said }
        requires { Holds self.now said }
        ensures { IfOk result (AreKindsIn (registered self.now said) (kind_in (sense_of said.words word.now))) }
    {
        if plain_type(word).is_some() {
            return Ok(None);
        }
        if let Some(given) = GivenKind::of(word) {
            return Ok(Some(given.kind(alloc)?));
        }
        match self.words.get(word) {
            Some(kept) => kept.kind(alloc),
            None => Ok(None),
        }
    }

    fn is_known(&self, word: &[u8]) -> bool
        ghost said: { Said }
        requires { Holds self.now said }
        ensures { result ≡ is_some (sense_of said.words word.now) }
    {
        plain_type(word).is_some()
            || GivenKind::of(word).is_some()
            || self.words.get(word).is_some()
    }

    /// The kind of operands that a word stands for. The error is `Wrong` exactly if the word stands for a type or isn't declared above, and
    /// says which.
    #[tactic(auto, using(crate::proofs::Kinding::kind_found, crate::proofs::Kinding::kind_is_type, crate::proofs::Kinding::kind_unknown))]
    pub fn kind_named<'i>(
        &self,
        alloc: Global,
        word: &'i [u8],
    ) -> Result<OperandKind, ItemError<'i>>
        ghost said: { Said }
        requires { Holds self.now said }
        ensures { Tells (IsKindIn (registered self.now said)) result (kind_named said.words word.now) }
    {
        if let Some(kind) = self.kind(alloc, word)? {
            return Ok(kind);
        }
        if self.is_known(word) {
            return Err(ItemError::Wrong(Reason::NoKind(Spelled::of(word))));
        }
        Err(ItemError::Wrong(Reason::Unknown(Spelled::of(word))))
    }

    #[tactic(auto, using(crate::proofs::OperandKinds::no_functions, crate::proofs::OperandKinds::some_functions))]
    fn kind_by_word(
        &self,
        alloc: Global,
        means: &TypeExpr,
    ) -> Result<Option<OperandKind>, AllocError>
        ghost said: { Said }
        requires { Holds self.now said }
        ensures { IfOk result (AreKindsIn (registered self.now said) (kind_by_word said.words means.now)) }
    {
        if !has_none(means.functions.as_slice()) {
            return Ok(None);
        }
        self.kind(alloc, means.word.as_slice())
    }

    #[tactic(auto, using(crate::proofs::OperandKinds::value_kind))]
    fn value_kind<'i>(
        &mut self,
        alloc: Global,
        means: &'i TypeExpr,
    ) -> Result<OperandKind, ItemError<'i>>
        ghost said: { Said }
        requires { Holds self.old said }
        ensures means { Tells (IsValueKindIn (registered self.new (after_type said means.now))) result (type_of said.words means.now) }
        ensures holds { OnOk result (Holds self.new (after_type said means.now)) }
        ensures extends { OnOk result (Extends (registered self.old said) (registered self.new (after_type said means.now))) }
    {
        let variable = self.type_var(alloc, means)?;
        let kind = OperandKind::of(alloc, variable)?;
        Ok(kind)
    }

    /// The kind of an operand: one of the kinds, by its word, or the kind of values of a type. The error is `Wrong` exactly if something is
    /// wrong with the type, and says what, as `type_var` does.
    pub fn operand_kind<'i>(
        &mut self,
        alloc: Global,
        means: &'i TypeExpr,
    ) -> Result<OperandKind, ItemError<'i>>
        ghost said: { Said }
        requires { Holds self.old said }
        ensures means { Tells (IsOperandKindIn (registered self.new (after_operand said means.now))) result
            (operand_of said.words means.now) }
        ensures holds { OnOk result (Holds self.new (after_operand said means.now)) }
        ensures extends { OnOk result (Extends (registered self.old said) (registered self.new (after_operand said means.now))) }
    {
        match self.kind_by_word(alloc, means)? {
            Some(kind) => Ok(kind),
            None => self.value_kind(alloc, means),
        }
    }
}

fn has_none(functions: &[DerivedFunc]) -> bool
    ensures { result ≡ (length functions.now == 0) }
{
    functions.is_empty()
}
