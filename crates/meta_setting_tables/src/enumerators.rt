ghost use Rattle.std.specs.Prelude.{◌≡◌, ◌+◌, ◌≤◌, ◌<◌, [], length, take, All, IfOk, OnOk};
ghost use Rattle.meta_unique.specs.Interning.{pointed_to, AreDifferent};
ghost use Rattle.meta_setting_tables.specs.EnumeratorList.{same_text, with_values, values_at, StandAt};
ghost use Rattle.meta_setting_tables.specs.NumberedTexts.{texts_numbered, AreNumbersOfTexts, KeepsNumbers};

use meta_types::Text;
use meta_unique::{UniqueSeqTable, UniqueTable};
use std::alloc::{AllocError, Global};
use std::marker::Model;

/// The one list of the values of enums. It keeps each text once, and lists of the numbers of texts, which are compared faster.
#[derive(Drop)]
pub(crate) struct Enumerators<'g> {
    texts: UniqueTable<'g, Text>,
    numbers: UniqueSeqTable<usize>,
}

impl<'g> Model for Enumerators<'g> {
    ghost use Rattle.std.specs.Prelude.{List, ℕ};
    ghost use Rattle.meta_setting_tables.specs.NumberedTexts.{texts_numbered, AreNumbered};

    ghost Value = { List (List ℕ) };

    ghost view = { λ e. texts_numbered e.texts e.numbers };

    ghost invariant = { λ e. AreNumbered e.texts e.numbers };
}

/// The numbers of the values. A value without a number gets one.
fn numbers_of<'g>(
    alloc: Global,
    texts: &mut UniqueTable<'g, Text>,
    values: &'g [Text],
) -> Result<Vec<usize>, AllocError>
    requires { AreDifferent same_text texts.old }
    ensures numbers { IfOk result (λ v. AreNumbersOfTexts texts.new values.now v.items) }
    ensures different { AreDifferent same_text texts.new }
    ensures kept { KeepsNumbers texts.old texts.new }
{
    let mut numbers = Vec::with_capacity(alloc, values.len())?;
    for value in values {
        numbers.push(texts.add(value)?)?;
    }
    Ok(numbers)
}

fn copied_texts(alloc: Global, texts: &[&Text], numbers: &[usize]) -> Result<Vec<Text>, AllocError>
    requires { All (λ number. number < length texts.now) numbers.now }
    ensures { IfOk result (λ v. v.items ≡ texts_numbered (pointed_to texts.now) numbers.now) }
{
    let mut copies = Vec::with_capacity(alloc, numbers.len())?;
    for number in numbers {
        copies.push(texts[*number].copy(alloc)?)?;
    }
    Ok(copies)
}

impl<'g> Enumerators<'g> {
    pub(crate) fn new(alloc: Global) -> Enumerators<'g>
        ensures { result ≡ [] }
    {
        Enumerators {
            texts: UniqueTable::new(alloc),
            numbers: UniqueSeqTable::new(alloc),
        }
    }

    /// Adds the values of an enum, and answers where they stand.
    pub(crate) fn add(&mut self, alloc: Global, values: &'g [Text]) -> Result<usize, AllocError>
        ensures added { OnOk result (self.new ≡ with_values self.old values.now) }
        ensures place { IfOk result (λ place. place ≡ values_at self.old values.now) }
        ensures inside { IfOk result (λ place. place ≤ length self.old) }
        ensures stand { IfOk result (λ place. StandAt self.new values.now place) }
        ensures kept { OnOk result (take (length self.old) self.new ≡ self.old) }
        ensures most { OnOk result (length self.new ≤ length self.old + length values.now) }
    {
        let numbers = numbers_of(alloc, &mut self.texts, values)?;
        self.numbers.add(numbers.as_slice())
    }

    pub(crate) fn copied(&self, alloc: Global) -> Result<Vec<Text>, AllocError>
        ensures { IfOk result (λ v. v.items ≡ self.now) }
    {
        copied_texts(
            alloc,
            self.texts.iter().as_slice(),
            self.numbers.iter().as_slice(),
        )
    }
}
