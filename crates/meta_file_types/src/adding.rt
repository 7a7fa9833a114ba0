ghost use Rattle.std.specs.Prelude.{◌≡◌, ◌∷◌, ◌++◌, ◌<◌, ◌==◌, ◌^◌, ◌-◌, not, [], length, OnOk, IfOk, Ok, Err, None, Some, true};
ghost use Rattle.meta_file_types.specs.declared.refused.Reason.{Reason as spec_Reason};
ghost use Rattle.meta_file_types.specs.declared.refused.ItemError.TheVariants.{Wrong};
ghost use Rattle.meta_file_types.specs.Words.{wrong_word, type_named, set_like, set_of, entry_of};
ghost use Rattle.meta_file_types.specs.Said.{Said, mentioning, after_set, after_type, after_sort, root_with, root_of, alias_of, kind_of};
ghost use Rattle.meta_file_types.specs.Said.{with_root, with_alias, with_kind, after, wrong_with};
ghost use Rattle.meta_file_types.specs.Texts.{field_or, type_texts, kind_texts, are_texts};
ghost use Rattle.meta_file_syntax.specs.Named.{doc_text};
ghost use Rattle.meta_operands.specs.Kind.{doc_of_kind};
ghost use Rattle.meta_typevar.specs.Registry.{root_content};
ghost use Rattle.meta_file_types.specs.Telling.{Tells, Refuses, reason_in};
ghost use Rattle.meta_file_types.specs.Registered.{Extends};
ghost use Rattle.meta_file_types.specs.Held.{registered, Holds};

use super::given::has_own_meaning;
use super::refused::{ItemError, Reason};
use super::sets::{set_of_parts, wrong_parts};
use super::spelled::Spelled;
use super::texts::{
    doc_from, field_or, is_text_alias, is_text_kind, is_text_type, shown_or, text_from,
};
use super::types::Types;
use super::words::{Meaning, Word};
use meta_file_syntax::{AliasItem, Bytes, Docs, Item, KindItem, SetExpr, TypeItem};
use meta_operands::{OperandKind, OperandKindFields};
use meta_typevar::{TypeSet, TypeVar, TypeVars};
use std::alloc::{AllocError, Global};

impl Types {
    #[tactic(auto, using(crate::proofs::Deriving::like_root, crate::proofs::Deriving::like_derived, crate::proofs::Deriving::like_fails))]
    fn set_like<'i>(&mut self, alloc: Global, word: &'i [u8]) -> Result<TypeSet, ItemError<'i>>
        ghost said: { Said }
        requires { Holds self.old said }
        ensures means { Tells (λ s x. x ≡ s) result (set_like said.words word.now) }
        ensures holds { OnOk result (Holds self.new (mentioning said (type_named said.words word.now))) }
        ensures extends { OnOk result
            (Extends (registered self.old said) (registered self.new (mentioning said (type_named said.words word.now)))) }
    {
        let variable = self.type_named(word)?;
        if self.vars.content(variable).base.is_some() {
            return Err(ItemError::Wrong(Reason::LikeDerived(Spelled::of(word))));
        }
        Ok(variable.get_typeset(alloc, &self.vars)?)
    }

    #[tactic(auto, using(crate::proofs::Steps::set_wrong, crate::proofs::Steps::like_means, crate::proofs::Steps::like_holds, crate::proofs::Steps::like_extends, crate::proofs::Staying::extends_same))]
    fn set_of<'i>(&mut self, alloc: Global, set: &'i SetExpr) -> Result<TypeSet, ItemError<'i>>
        ghost said: { Said }
        requires { Holds self.old said }
        ensures means { Tells (λ s x. x ≡ s) result (set_of said.words set.now) }
        ensures holds { OnOk result (Holds self.new (after_set said set.now)) }
        ensures extends { OnOk result (Extends (registered self.old said) (registered self.new (after_set said set.now))) }
    {
        match set {
            SetExpr::Parts(parts) => match wrong_parts(parts.as_slice()) {
                Some(reason) => Err(ItemError::Wrong(reason)),
                None => Ok(set_of_parts(parts.as_slice())),
            },
            SetExpr::Like(word) => self.set_like(alloc, word.as_slice()),
        }
    }

    #[tactic(auto, using(crate::proofs::Checked::word_own, crate::proofs::Checked::word_known, crate::proofs::Checked::word_new))]
    fn wrong_word<'i>(&self, word: &'i [u8]) -> Option<Reason<'i>>
        ensures { (said : Said) → Holds self.now said → result ≡ wrong_word said.words word.now }
    {
        if has_own_meaning(word) {
            return Some(Reason::OwnMeaning(Spelled::of(word)));
        }
        let kept = self.words.get(word)?;
        Some(Reason::Declared(Spelled::of(word), kept.place))
    }

    fn check_word<'i>(&self, word: &'i Bytes) -> Result<(), ItemError<'i>>
        ensures { (said : Said) → Holds self.now said → Refuses result (wrong_word said.words word.now) }
    {
        match self.wrong_word(word.as_slice()) {
            Some(reason) => Err(ItemError::Wrong(reason)),
            None => Ok(()),
        }
    }

    fn declare_root(
        &mut self,
        alloc: Global,
        place: usize,
        item: &TypeItem,
        set: TypeSet,
    ) -> Result<(), AllocError>
        ghost said: { Said }
        requires held { Holds self.old said }
        requires new { entry_of said.words item.now.word ≡ None }
        requires texts { are_texts (type_texts item.now) ≡ true }
        ensures holds { OnOk result (Holds self.new (with_root said item.now.word place (Ok (root_with item.now set)))) }
        ensures extends { OnOk result (Extends (registered self.old said)
            (registered self.new (with_root said item.now.word place (Ok (root_with item.now set))))) }
    {
        self.check_room()?;
        let variable = new_root(alloc, &mut self.vars, item, set)?;
        let meaning = Meaning::Type(variable);
        self.words
            .insert(alloc, &item.word, Word { place, meaning })?;
        Ok(())
    }

    #[tactic(auto, using(crate::proofs::Steps::root_no_text, crate::proofs::Steps::root_fails))]
    fn add_type<'i>(
        &mut self,
        alloc: Global,
        place: usize,
        item: &'i TypeItem,
    ) -> Result<(), ItemError<'i>>
        ghost said: { Said }
        requires { Holds self.old said }
        ensures tells { Refuses result (reason_in (root_of said.words item.now)) }
        ensures added { OnOk result
            (Holds self.new (with_root (after_set said item.now.set) item.now.word place (root_of said.words item.now))) }
        ensures extends { OnOk result (Extends (registered self.old said)
            (registered self.new (with_root (after_set said item.now.set) item.now.word place (root_of said.words item.now)))) }
    {
        if !is_text_type(item) {
            return Err(ItemError::Wrong(Reason::NotText));
        }
        let set = self.set_of(alloc, &item.set)?;
        self.check_word(&item.word)?;
        self.declare_root(alloc, place, item, set)?;
        Ok(())
    }

    #[tactic(auto, using(crate::proofs::Steps::alias_no_text, crate::proofs::Steps::alias_docs, crate::proofs::Steps::alias_fails))]
    fn add_alias<'i>(
        &mut self,
        alloc: Global,
        place: usize,
        item: &'i AliasItem,
    ) -> Result<(), ItemError<'i>>
        ghost said: { Said }
        requires { Holds self.old said }
        ensures tells { Refuses result (reason_in (alias_of said.words item.now)) }
        ensures added { OnOk result
            (Holds self.new (with_alias (after_type said item.now.means) item.now.word place (alias_of said.words item.now))) }
        ensures extends { OnOk result (Extends (registered self.old said)
            (registered self.new (with_alias (after_type said item.now.means) item.now.word place (alias_of said.words item.now)))) }
    {
        if !is_text_alias(item) {
            return Err(ItemError::Wrong(Reason::NotText));
        }
        if has_docs(&item.docs) {
            return Err(ItemError::Wrong(Reason::DocumentedAlias(Spelled::of(
                item.word.as_slice(),
            ))));
        }
        let variable = self.type_var(alloc, &item.means)?;
        self.check_word(&item.word)?;
        let meaning = Meaning::Type(variable);
        self.words
            .insert(alloc, &item.word, Word { place, meaning })?;
        Ok(())
    }

    #[tactic(auto, using(crate::proofs::Steps::kind_no_text, crate::proofs::Steps::kind_fails))]
    fn add_kind<'i>(
        &mut self,
        alloc: Global,
        place: usize,
        item: &'i KindItem,
    ) -> Result<(), ItemError<'i>>
        ghost said: { Said }
        requires { Holds self.old said }
        ensures tells { Refuses result (reason_in (kind_of said.words item.now)) }
        ensures added { OnOk result
            (Holds self.new (with_kind (after_sort said item.now.sort) item.now.word place (kind_of said.words item.now))) }
        ensures extends { OnOk result (Extends (registered self.old said)
            (registered self.new (with_kind (after_sort said item.now.sort) item.now.word place (kind_of said.words item.now)))) }
    {
        if !is_text_kind(item) {
            return Err(ItemError::Wrong(Reason::NotText));
        }
        let fields = self.sort_of(alloc, &item.sort)?;
        self.check_word(&item.word)?;
        let meaning = Meaning::Kind(kind_with(alloc, item, fields)?);
        self.words
            .insert(alloc, &item.word, Word { place, meaning })?;
        Ok(())
    }

    /// Adds what an item declares of types and kinds. `place` is the place of the item among all items. A format, an instruction, a group
    /// or an entry declares nothing of these. The error is `Wrong` exactly if something is wrong with the item, and says what is wrong
    /// first.
    #[tactic(auto, using(crate::proofs::Checked::refuses_right, crate::proofs::Checked::refuses_wrong, crate::proofs::Staying::extends_same))]
    pub fn add<'i>(
        &mut self,
        alloc: Global,
        place: usize,
        item: &'i Item,
    ) -> Result<(), ItemError<'i>>
        ghost said: { Said }
        requires { Holds self.old said }
        // Nothing is wrong with the item, and what it declares is kept.
        ensures right { OnOk result (wrong_with said item.now ≡ None) }
        ensures added { OnOk result (Holds self.new (after said place item.now)) }
        ensures extends { OnOk result (Extends (registered self.old said) (registered self.new (after said place item.now))) }
        // The error says what is wrong with the item.
        ensures wrong { (reason : spec_Reason) → result ≡ Err (Wrong reason) → wrong_with said item.now ≡ Some reason }
    {
        match item {
            Item::Type(item) => self.add_type(alloc, place, item),
            Item::Alias(item) => self.add_alias(alloc, place, item),
            Item::Kind(item) => self.add_kind(alloc, place, item),
            Item::Format(_)
            | Item::Inst(_)
            | Item::Group(_)
            | Item::Bool(_)
            | Item::Num(_)
            | Item::Enum(_)
            | Item::Preset(_) => Ok(()),
        }
    }
}

fn has_docs(docs: &Docs) -> bool
    ensures { result ≡ not (length docs.now == 0) }
{
    !docs.as_slice().is_empty()
}

#[tactic(auto, using(crate::proofs::TextParts::type_shown, crate::proofs::TextParts::type_docs))]
fn new_root(
    alloc: Global,
    vars: &mut TypeVars,
    item: &TypeItem,
    set: TypeSet,
) -> Result<TypeVar, AllocError>
    requires room { length vars.old < 2 ^ 32 - 1 }
    requires texts { are_texts (type_texts item.now) ≡ true }
    ensures number { IfOk result (λ v. v ≡ length vars.old) }
    ensures added { let r = root_with item.now set in
        OnOk result (vars.new ≡ vars.old ++ root_content r.name r.doc r.set (length vars.old) ∷ []) }
{
    let name = text_from(alloc, shown_or(&item.word, &item.shown))?;
    let doc = doc_from(alloc, &item.docs)?;
    TypeVar::new(vars, name, doc, set)
}

#[tactic(auto, using(crate::proofs::TextParts::kind_field, crate::proofs::TextParts::kind_rust, crate::proofs::TextParts::kind_docs))]
fn kind_with(
    alloc: Global,
    item: &KindItem,
    fields: OperandKindFields,
) -> Result<OperandKind, AllocError>
    requires { are_texts (kind_texts item.now) ≡ true }
    ensures field { IfOk result (λ k. k.rust_field_name ≡ field_or item.now.word item.now.field) }
    ensures rust { IfOk result (λ k. k.rust_type ≡ item.now.rust) }
    ensures fields { IfOk result (λ k. k.fields ≡ fields) }
    ensures doc { IfOk result (λ k. doc_of_kind k ≡ Some (doc_text item.now.docs)) }
{
    let field = text_from(alloc, field_or(&item.word, &item.field))?;
    let rust = text_from(alloc, item.rust.as_slice())?;
    let doc = doc_from(alloc, &item.docs)?;
    Ok(OperandKind::new(field, rust, fields, doc))
}
