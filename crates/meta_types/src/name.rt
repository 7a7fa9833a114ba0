ghost use Rattle.std.specs.Prelude.{◌≡◌, ◌↔◌, IfOk, IsTrue, All};
ghost use Rattle.meta_types.specs.CamelCase.{capital_at, camel_case_of};
ghost use Rattle.meta_types.specs.Name.{IsName};

use super::text::Text;
use std::alloc::{AllocError, Global};

/// Whether a text can be the name of a declaration: an ASCII letter followed by ASCII letters, digits or `_`.
pub fn is_name(text: &Text) -> bool
    ensures { IsTrue result ↔ IsName text.now }
{
    match text.as_bytes() {
        [] => false,
        [first, rest @ ..] => first.is_ascii_alphabetic()
            && rest.iter().all(|c| c.is_ascii_alphanumeric() || *c == b'_'),
    }
}

/// Whether each of the texts can be the name of a declaration. Two may be the same.
pub fn are_names(texts: &[Text]) -> bool
    ensures { IsTrue result ↔ All IsName texts.now }
{
    texts.iter().all(|text| is_name(text))
}

fn capital_at(at_start: bool, c: char) -> char
    ensures { result ≡ capital_at at_start c }
{
    if at_start { c.to_ascii_uppercase() } else { c }
}

/// The camel case of a name: each `_` is dropped, and a letter `a` to `z` becomes a capital if it is first or follows a `_`.
pub fn camel_case(alloc: Global, s: &Text) -> Result<Text, AllocError>
    ensures { IfOk result (λ t. t ≡ camel_case_of s.now) }
{
    let mut out = String::with_capacity(alloc, s.as_bytes().len())?;
    let mut at_start = true;
    for c in s.as_str().chars() {
        if c == '_' {
            at_start = true;
        } else {
            out.push(capital_at(at_start, c))?;
            at_start = false;
        }
    }
    Ok(Text::of(out))
}
