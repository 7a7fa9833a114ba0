ghost use Rattle.std.specs.Prelude.{◌≡◌, ◌≢◌, ℕ, true, false, List, Option, IfOk, IfSome, IfNone};
ghost use Rattle.meta_types.specs.TypeNumber.{IsTypeNumber};
ghost use Rattle.meta_query_lines.specs.Request.{sought_name, sought_text, AreSought};

use meta_lines::Pieces;
use meta_types::type_number;
use std::alloc::AllocError;

/// What a name asks for: the number of a type, or `Some(None)` for any type. `None` if the name is neither `?` nor that of a type.
fn sought_type(name: &[u8]) -> Option<Option<u16>>
    ensures named { IfSome result (λ o. sought_name o ≡ name.now) }
    ensures known { IfSome result (λ o. IfSome o IsTypeNumber) }
    ensures none { IfNone result ((o : Option ℕ) → IfSome o IsTypeNumber → sought_name o ≢ name.now) }
{
    if name == b"?".as_slice() {
        return Some(None);
    }
    match type_number(name) {
        Some(number) => Some(Some(number)),
        None => None,
    }
}

/// Reads the types that a word seeks, and replaces the list by them: `-` for no types, or names separated by commas, of which `?` stands
/// for any type. It answers false exactly if the word has another form.
pub(crate) fn read_sought(sought: &mut Vec<Option<u16>>, word: &[u8]) -> Result<bool, AllocError>
    ensures known { AreSought sought.new.items }
    ensures found { IfOk result (λ read. read ≡ true → sought_text sought.new.items ≡ word.now) }
    ensures none { IfOk result (λ read. read ≡ false → (os : List (Option ℕ)) → AreSought os → sought_text os ≢ word.now) }
{
    sought.clear();
    if word == b"-".as_slice() {
        return Ok(true);
    }
    for name in Pieces::new(word, b',') {
        let Some(number) = sought_type(name) else {
            return Ok(false);
        };
        sought.push(number)?;
    }
    Ok(true)
}
