ghost use Rattle.std.specs.Prelude.{◌≡◌, ◌||◌, ◌++◌, ℕ, List, false, OnOk, IfOk, string_bytes};
ghost use Rattle.std.specs.Fmt.{decimal};
ghost use Rattle.std.specs.List.{list_any, range_with_len};
ghost use Rattle.std.specs.declared.alloc.Global.{Global};
ghost use Rattle.std.specs.declared.collections.BTreeSet.{BTreeSet};
ghost use Rattle.std.specs.declared.string.String.{String};
ghost use Rattle.meta_operands.specs.Texts.{same_text};
ghost use Rattle.meta_rust_names.specs.Forms.{has_form, is_named, is_numbered, meets, raw_form};
ghost use Rattle.meta_rust_names.specs.Known.{known};

use meta_lines::number_u32;
use std::alloc::{AllocError, Global};
use std::collections::BTreeSet;
use std::marker::Model;

/// A set of names. Each is found in the logarithm of their count.
#[derive(Drop)]
pub struct Names {
    texts: BTreeSet<String>,
}

impl Model for Names {
    ghost Value = { BTreeSet (String Global) Global };

    ghost view = { λ names. names.texts };
}

/// The name after `r#`.
fn raw_form(alloc: Global, name: &str) -> Result<String, AllocError>
    ensures { IfOk result (λ text. string_bytes text ≡ raw_form name.now) }
{
    format!(in alloc; "r#{name}")
}

impl Names {
    /// Makes an empty set.
    pub fn new(alloc: Global) -> Names
        ensures { (text : List ℕ) → known result text ≡ false }
    {
        Names {
            texts: BTreeSet::new(alloc),
        }
    }

    /// Whether the set has the name.
    pub fn has(&self, name: &str) -> bool
        ensures { result ≡ known self.now name.now }
    {
        self.texts.contains(name)
    }

    /// Adds a name.
    pub fn add(&mut self, name: String) -> Result<(), AllocError>
        ensures { OnOk result ((text : List ℕ) → known self.new text ≡ (same_text (string_bytes name) text || known self.old text)) }
    {
        self.texts.insert(name)?;
        Ok(())
    }

    /// Adds a name, as it is and after `r#`.
    pub fn add_forms(&mut self, alloc: Global, name: &str) -> Result<(), AllocError>
        ensures { OnOk result ((text : List ℕ) → known self.new text ≡ (has_form name.now text || known self.old text)) }
    {
        self.add(String::from_str(alloc, name)?)?;
        self.add(raw_form(alloc, name)?)
    }

    /// Whether the set has the name, as it is or after `r#`.
    pub fn meets(&self, alloc: Global, name: &str) -> Result<bool, AllocError>
        ensures { IfOk result (λ met. met ≡ meets (known self.now) name.now) }
    {
        if self.has(name) {
            return Ok(true);
        }
        let raw = raw_form(alloc, name)?;
        Ok(self.has(raw.as_str()))
    }
}

/// Whether the name is the word, as it is or after `r#`.
pub(crate) fn is_named(word: &[u8], name: &[u8]) -> bool
    ensures { result ≡ is_named word.now name.now }
{
    if word == name {
        return true;
    }
    match name.strip_prefix(b"r#".as_slice()) {
        Some(rest) => word == rest,
        None => false,
    }
}

/// Whether the digits are a number below the count.
fn is_number_below(count: u32, digits: &[u8]) -> bool
    ensures { result ≡ list_any (λ number. same_text (decimal number) digits.now) (range_with_len 0 count) }
{
    match number_u32(digits) {
        Some(number) => number < count,
        None => false,
    }
}

/// Whether the word is the stem and then a number below the count.
fn is_stem_numbered(stem: &[u8], count: u32, word: &[u8]) -> bool
    ensures { result ≡ list_any (λ number. same_text (stem.now ++ decimal number) word.now) (range_with_len 0 count) }
{
    match word.strip_prefix(stem) {
        Some(digits) => is_number_below(count, digits),
        None => false,
    }
}

/// Whether the name is the stem and then a number below the count, with or without `r#`.
pub(crate) fn is_numbered(stem: &[u8], count: u32, name: &[u8]) -> bool
    ensures { result ≡ is_numbered stem.now count name.now }
{
    if is_stem_numbered(stem, count, name) {
        return true;
    }
    match name.strip_prefix(b"r#".as_slice()) {
        Some(word) => is_stem_numbered(stem, count, word),
        None => false,
    }
}
