ghost use Rattle.std.specs.Prelude.{◌≡◌, ◌≢◌, ◌++◌, ◌==◌, ℕ, not, true, List, [], ◌∷◌, All, filter, Option, Some, None};
ghost use Rattle.std.specs.Prelude.{IfOk, IfSome, codes};
ghost use Rattle.std.specs.List.{join_with_byte};
ghost use Rattle.std.specs.Option.{option_map};
ghost use Rattle.meta_types.specs.TypeParts.{name_of};
ghost use Rattle.meta_types.specs.TypeNumber.{type_with, IsTypeNumber};
ghost use Rattle.meta_lines.specs.Control.{control_text};
ghost use Rattle.meta_verify.specs.Statement.{list_text};
ghost use Rattle.meta_asm.specs.Short.{values_written};

use meta_types::ValueType;
use std::alloc::{AllocError, Global};

/// The words after `line` of a line.
#[derive(Clone, Copy)]
pub(crate) struct Words<'a> {
    pub(crate) name: &'a [u8],
    pub(crate) control: &'a [u8],
    pub(crate) results: &'a [u8],
    pub(crate) values: &'a [u8],
}

pub(crate) fn line_of(alloc: Global, words: Words<'_>) -> Result<Vec<u8>, AllocError>
    ensures { IfOk result (λ line. line.items ≡ join_with_byte 32
        (codes "line" ∷ words.entry.name.now ∷ words.entry.control.now ∷ words.entry.results.now ∷ words.entry.values.now ∷ [])) }
{
    let mut line = Vec::new(alloc);
    line.extend_from_slice(b"line ")?;
    line.extend_from_slice(words.name)?;
    line.push(b' ')?;
    line.extend_from_slice(words.control)?;
    line.push(b' ')?;
    line.extend_from_slice(words.results)?;
    line.push(b' ')?;
    line.extend_from_slice(words.values)?;
    Ok(line)
}

fn without_spaces(alloc: Global, list: &[u8]) -> Result<Vec<u8>, AllocError>
    ensures { IfOk result (λ word. word.items ≡ filter (λ b. not (b == 32)) list.now) }
{
    let mut word = Vec::new(alloc);
    for byte in list {
        if *byte != b' ' {
            word.push(*byte)?;
        }
    }
    Ok(word)
}

/// The word for values: `-` if there are none, and else their list without its spaces.
pub(crate) fn values_word(alloc: Global, list: Option<&[u8]>) -> Result<Vec<u8>, AllocError>
    ensures { IfOk result (λ word. (texts : List (List ℕ)) → All (λ t. All (λ b. b ≢ 32) t) texts
        → option_map (λ t. t.now) list.entry ≡ values_written texts → word.items ≡ list_text texts) }
{
    match list {
        Some(list) => without_spaces(alloc, list),
        None => b"-".to_vec(alloc),
    }
}

/// Adds the name of the type with this number. The answer is whether there is one.
pub(crate) fn push_type(alloc: Global, word: &mut Vec<u8>, number: u16) -> Result<bool, AllocError>
    ensures { IfOk result (λ found. IsTypeNumber number
        → (found ≡ true) × (word.new.items ≡ word.old.items ++ name_of (type_with number))) }
{
    let Some(value_type) = ValueType::from_number(number) else {
        return Ok(false);
    };
    let name = value_type.to_string(alloc)?;
    word.extend_from_slice(name.as_bytes())?;
    Ok(true)
}

/// The word for the controlling types: as they are written, or else the one that is known, and `-` if none is.
pub(crate) fn control_word(
    alloc: Global,
    written: Option<&[u8]>,
    known: Option<u16>,
) -> Result<Vec<u8>, AllocError>
    ensures written { IfOk result (λ word. (text : List ℕ) → option_map (λ t. t.now) written.entry ≡ Some text → word.items ≡ text) }
    ensures known { IfOk result (λ word. option_map (λ t. t.now) written.entry ≡ None → IfSome known IsTypeNumber
        → word.items ≡ control_text (option_map type_with known) None) }
{
    if let Some(written) = written {
        return written.to_vec(alloc);
    }
    let mut word = Vec::new(alloc);
    match known {
        Some(number) => {
            push_type(alloc, &mut word, number)?;
        }
        None => word.push(b'-')?,
    }
    Ok(word)
}
