ghost use Rattle.std.specs.Prelude.{◌≡◌, ◌≢◌, true, false, List, map, length, All, IfOk};
ghost use Rattle.meta_types.specs.TypeParts.{TypeParts, IsType};
ghost use Rattle.meta_types.specs.TypeNumber.{type_with, IsTypeNumber};
ghost use Rattle.meta_lines.specs.TypeList.{types_text, AreFirstNamed, NamesNoneAt};

use super::pieces::Pieces;
use meta_types::type_number;
use std::alloc::AllocError;

/// Reads the types that a word lists, and replaces the list by their numbers: `-` for no types, or the names of types separated by commas.
/// It answers false exactly if the word has another form; the list then has the numbers of the names before the first that isn't a type's.
/// If memory runs out, the list has the numbers of the first names.
pub fn read_types(numbers: &mut Vec<u16>, word: &[u8]) -> Result<bool, AllocError>
    ensures known { All IsTypeNumber numbers.new.items }
    ensures found { IfOk result (λ read. read ≡ true → types_text (map type_with numbers.new.items) ≡ word.now) }
    ensures none { IfOk result (λ read. read ≡ false → (ts : List TypeParts) → All IsType ts → types_text ts ≢ word.now) }
    ensures front { AreFirstNamed numbers.new.items word.now }
    ensures stop { IfOk result (λ read. read ≡ false → NamesNoneAt (length numbers.new.items) word.now) }
{
    numbers.clear();
    if word == b"-".as_slice() {
        return Ok(true);
    }
    for name in Pieces::new(word, b',') {
        let Some(number) = type_number(name) else {
            return Ok(false);
        };
        numbers.push(number)?;
    }
    Ok(true)
}
