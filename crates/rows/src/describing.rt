use super::declared::loaded;
use meta_build::{Built, Declarations, build_all};
use meta_file_describe::{describe, is_described, is_description, write_description};
use meta_file_reader::{ReadError, read_items};
use meta_file_syntax::write_items;
use meta_gen::tables_of;
use meta_query::synth;
use rows_base::{Answer, Case, Trouble};
use std::alloc::Global;

fn text_of_items(alloc: Global, built: &Built<'_>) -> Result<Vec<u8>, Trouble> {
    match describe(alloc, built)? {
        Some(items) => Ok(write_items(alloc, &items)?),
        None => Err(Trouble::NoCase),
    }
}

/// The text that describes what is built. It has to be that of the items that describe it.
fn description(alloc: Global, built: &Built<'_>) -> Result<String, Trouble> {
    let written = text_of_items(alloc, built)?;
    match write_description(alloc, built)? {
        Some(text) if text.as_bytes() == written.as_slice() => Ok(text),
        _ => Err(Trouble::Differ),
    }
}

/// Whether both have the same tables, and the text describes the other one.
fn are_same(
    alloc: Global,
    built: &Built<'_>,
    other: &Built<'_>,
    text: &str,
) -> Result<bool, Trouble> {
    let tables = tables_of(alloc, built)?;
    Ok(tables_of(alloc, other)?.same(&tables) && description(alloc, other)?.as_str() == text)
}

/// Whether the text that describes what is built declares the same, and describes that too.
fn is_described_alike(alloc: Global, built: &Built<'_>) -> Result<bool, Trouble> {
    let text = description(alloc, built)?;
    let declarations = loaded(alloc, text.as_bytes())?;
    are_same(alloc, built, &build_all(alloc, &declarations)?, &text)
}

/// Whether the text that describes declarations makes declarations with the same tables, and describes these too.
fn comes_back(alloc: Global, declarations: &Declarations) -> Result<bool, Trouble> {
    is_described_alike(alloc, &build_all(alloc, declarations)?)
}

fn write_both(alloc: Global, built: &Built<'_>, text: &[u8], case: &mut Case<'_>) -> Answer {
    let do_items = match read_items(alloc, text) {
        Ok(read) => is_described(alloc, built, &read.items)?,
        Err(ReadError::Refused(_refusal)) => false,
        Err(ReadError::Memory) => return Err(Trouble::OutOfMemory),
    };
    case.text("items ");
    case.yes_or_no(do_items);
    case.text(", text ");
    case.yes_or_no(is_description(alloc, built, text)?);
    Ok(())
}

/// Writes what a word asks of the description of declarations, which must be valid: `described` whether it makes the same ones, and
/// describes these too; `describable` whether there is one; and `describes` whether the items of a text, and the text itself, are it.
pub(crate) fn ask_description(
    alloc: Global,
    declarations: &Declarations,
    text: &[u8],
    word: &str,
    case: &mut Case<'_>,
) -> Answer {
    if word == "described" {
        let is_same = comes_back(alloc, declarations)?;
        case.text(if is_same { "same" } else { "other" });
        return Ok(());
    }
    let built = build_all(alloc, declarations)?;
    if word == "describes" {
        return write_both(alloc, &built, text, case);
    }
    case.yes_or_no(write_description(alloc, &built)?.is_some());
    Ok(())
}

fn is_synth_described(alloc: Global, number: u32) -> Result<bool, Trouble> {
    comes_back(alloc, &synth(alloc, number)?)
}

/// Writes for how many of the numbers below the next one the declarations that are made from them come back in this way.
pub(crate) fn write_synths(alloc: Global, case: &mut Case<'_>) {
    let count: u32 = case.number();
    let mut described: u32 = 0;
    for number in 0..count {
        if let Ok(true) = is_synth_described(alloc, number) {
            described = described.saturating_add(1);
        }
    }
    case.shown(&described);
    case.field(" of ", &count);
}
