ghost use Rattle.std.specs.Prelude.{◌≡◌, ◌≢◌, IfOk, IfErr};
ghost use Rattle.meta_types.specs.DerivedFunc.{function_name, function_of as meant_by};
ghost use Rattle.meta_types.specs.TypeParts.{TypeParts, IsType, name_of};
ghost use Rattle.meta_types.specs.ValueTypes.{type_parts_of};

use super::escapes::decoded;
use super::trouble::Trouble;
use meta_types::{DERIVED_FUNCS, DerivedFunc, Text, ValueType};
use std::alloc::Global;
use std::hash::{DefaultHasher, Hash, Hasher};
use std::str::{self, FromStr};

/// What the word stands for in the table, by the last row that has it. `BadLine` if no row has it.
pub fn named<'t, T>(table: &'t [(&str, T)], word: &str) -> Result<&'t T, Trouble> {
    for row in table.iter().rev() {
        if row.0 == word {
            return Ok(&row.1);
        }
    }
    Err(Trouble::BadLine)
}

/// The same for a table of what can be copied.
pub fn found<T: Copy>(table: &[(&str, T)], word: &str) -> Result<T, Trouble> {
    match named(table, word) {
        Ok(meaning) => Ok(*meaning),
        Err(trouble) => Err(trouble),
    }
}

/// The word as a number. `BadLine` if it is no such number.
pub fn number<N: FromStr + Drop>(word: &str) -> Result<N, Trouble>
where
    N::Err: Drop,
    ensures { IfOk result (λ n. N.from_str_gives word.now (Ok n)) }
{
    match word.parse::<N>() {
        Ok(number) => Ok(number),
        Err(_) => Err(Trouble::BadLine),
    }
}

/// What stands before the first such character, and what stands after it. `BadLine` if there is no such character.
pub fn pair_of(words: &str, between: char) -> Result<(&str, &str), Trouble> {
    match words.split_once(between) {
        Some(pair) => Ok(pair),
        None => Err(Trouble::BadLine),
    }
}

/// The numbers of a list, which are separated by commas. The text `none` is the empty list.
pub fn numbers_of<N: FromStr + Drop>(
    alloc: Global,
    list: &str,
    none: &str,
) -> Result<Vec<N>, Trouble>
where
    N::Err: Drop,
{
    let mut numbers = Vec::new(alloc);
    if list != none {
        for item in list.split(',') {
            numbers.push(number::<N>(item)?)?;
        }
    }
    Ok(numbers)
}

/// The items of a list, which are separated by commas, as texts. The text `none` is the empty list.
pub fn texts_of(alloc: Global, list: &str, none: &str) -> Result<Vec<Text>, Trouble> {
    if list == none {
        return Ok(Vec::new(alloc));
    }
    let items: Vec<&str> = list.split(',').collect(alloc)?;
    texts_of_words(alloc, &items)
}

/// The texts that words stand for, which have escapes.
pub fn texts_of_words(alloc: Global, words: &[&str]) -> Result<Vec<Text>, Trouble> {
    let mut texts = Vec::new(alloc);
    for word in words {
        let bytes = decoded(alloc, word)?;
        let Ok(text) = str::from_utf8(&bytes) else {
            return Err(Trouble::NoCase);
        };
        texts.push(Text::new(alloc, text)?)?;
    }
    Ok(texts)
}

/// The derived function of this name.
pub fn function_named(name: &str) -> Result<DerivedFunc, Trouble>
    ensures { IfOk result (λ f. function_name (meant_by f) ≡ name.now) }
{
    for func in DERIVED_FUNCS {
        if func.name() == name {
            return Ok(func);
        }
    }
    Err(Trouble::BadLine)
}

/// The type of this name.
pub fn type_of(name: &str) -> Result<ValueType, Trouble>
    ensures found { IfOk result (λ t. name_of (type_parts_of t) ≡ name.now) }
    ensures none { IfErr result (λ e. (t : TypeParts) → IsType t → name_of t ≢ name.now) }
{
    match ValueType::parse(name.as_bytes()) {
        Some(value_type) => Ok(value_type),
        None => Err(Trouble::BadLine),
    }
}

/// The hash of a value.
pub fn hash_of<T: Hash>(value: &T) -> u64 {
    let mut state = DefaultHasher::new();
    value.hash(&mut state);
    state.finish()
}
