ghost use Rattle.std.specs.Prelude.{◌≡◌, IfOk, true};
ghost use Rattle.std.specs.Str.{is_utf8};
ghost use Rattle.meta_file_syntax.specs.Named.{doc_text};
ghost use Rattle.meta_file_types.specs.Texts.{shown_or, field_or, value_texts, sort_texts, type_texts, alias_texts, kind_texts, are_texts};

use meta_file_syntax::{AliasItem, Bytes, Docs, EnumValue, KindItem, Name, Sort, TypeItem};
use meta_types::Text;
use std::alloc::{AllocError, Global};
use std::str;

/// Whether the bytes are UTF-8.
#[tactic(auto, using(crate::proofs::Utf8::is_text, crate::proofs::Utf8::no_text))]
pub fn is_text(bytes: &[u8]) -> bool
    ensures { result ≡ is_utf8 bytes.now }
{
    match str::from_utf8(bytes) {
        Ok(_) => true,
        Err(_) => false,
    }
}

pub fn are_lines(lines: &[Bytes]) -> bool
    ensures { result ≡ are_texts lines.now }
{
    for line in lines {
        if !is_text(line.as_slice()) {
            return false;
        }
    }
    true
}

fn are_values(values: &[EnumValue]) -> bool
    ensures { result ≡ are_texts (value_texts values.now) }
{
    for value in values {
        if !is_text(value.name.as_slice()) || !is_text(value.rust.as_slice()) {
            return false;
        }
    }
    true
}

fn is_text_sort(sort: &Sort) -> bool
    ensures { result ≡ are_texts (sort_texts sort.now) }
{
    match sort {
        Sort::ImmEnum(values) => are_values(values.as_slice()),
        Sort::Entity | Sort::Imm | Sort::Varargs | Sort::Value(_) => true,
    }
}

/// The text that is shown for a word: the given one, or the word if it is left out.
pub fn shown_or<'a>(word: &'a Bytes, shown: &'a Option<Bytes>) -> &'a [u8]
    ensures { result.now ≡ shown_or word.now shown.now }
{
    match shown {
        Some(text) => text.as_slice(),
        None => word.as_slice(),
    }
}

pub(crate) fn field_or<'a>(word: &'a Bytes, field: &'a Option<Name>) -> &'a [u8]
    ensures { result.now ≡ field_or word.now field.now }
{
    match field {
        Some(name) => name.as_slice(),
        None => word.as_slice(),
    }
}

pub(crate) fn is_text_type(item: &TypeItem) -> bool
    ensures { result ≡ are_texts (type_texts item.now) }
{
    is_text(item.word.as_slice())
        && is_text(shown_or(&item.word, &item.shown))
        && are_lines(item.docs.as_slice())
}

pub(crate) fn is_text_alias(item: &AliasItem) -> bool
    ensures { result ≡ are_texts (alias_texts item.now) }
{
    is_text(item.word.as_slice()) && are_lines(item.docs.as_slice())
}

pub(crate) fn is_text_kind(item: &KindItem) -> bool
    ensures { result ≡ are_texts (kind_texts item.now) }
{
    is_text(item.word.as_slice())
        && is_text(item.rust.as_slice())
        && is_text(field_or(&item.word, &item.field))
        && are_lines(item.docs.as_slice())
        && is_text_sort(&item.sort)
}

#[tactic(auto, using(crate::proofs::Utf8::is_no_text))]
pub(crate) fn text_from(alloc: Global, bytes: &[u8]) -> Result<Text, AllocError>
    requires { is_utf8 bytes.now ≡ true }
    ensures { IfOk result (λ t. t ≡ bytes.now) }
{
    match str::from_utf8(bytes) {
        Ok(text) => Text::new(alloc, text),
        Err(_) => unreachable!(),
    }
}

/// The documentation as one text.
#[tactic(auto, using(crate::proofs::Utf8::doc_is_text))]
pub(crate) fn doc_from(alloc: Global, docs: &Docs) -> Result<Text, AllocError>
    requires { are_texts docs.now ≡ true }
    ensures { IfOk result (λ t. t ≡ doc_text docs.now) }
{
    let text = docs.text(alloc)?;
    text_from(alloc, &text)
}
