ghost use Rattle.std.specs.Prelude.{◌≡◌, ◌≢◌, ◌<◌, ℕ, List, [], ◌∷◌, length, IfSome, IfNone};
ghost use Rattle.meta_lines.specs.Words.{pieces_of};
ghost use Rattle.meta_query_lines.specs.Request.{Request, Requests};
ghost use Rattle.meta_query_lines.specs.RequestForm.{optional_word, IsNamed, form_words};

use super::form::setting_word;
use meta_lines::{Pieces, cut};

/// The words after `types`. The last can be empty.
#[derive(Clone, Copy)]
pub(crate) struct TypesWords<'a> {
    pub(crate) name: &'a [u8],
    pub(crate) control: Option<&'a [u8]>,
}

/// The words after `find`. Both can be empty.
#[derive(Clone, Copy)]
pub(crate) struct FindWords<'a> {
    pub(crate) results: &'a [u8],
    pub(crate) values: &'a [u8],
}

/// The form of a line that asks what only explaining answers, with the words after the first.
#[derive(Clone, Copy)]
pub(crate) enum RequestForm<'a> {
    Types(TypesWords<'a>),
    Find(FindWords<'a>),
    Names(Option<&'a [u8]>),
}

fn types_words(after: &[u8]) -> Option<TypesWords<'_>>
    ensures words { IfSome result (λ w. pieces_of 32 after.now ≡ w.name.now ∷ optional_word w.control) }
    ensures named { IfSome result (λ w. 0 < length w.name.now) }
    ensures none { IfNone result ((name : List ℕ) → 0 < length name → pieces_of 32 after.now ≢ name ∷ []) }
    ensures none_under { IfNone result ((name control : List ℕ) → 0 < length name → pieces_of 32 after.now ≢ name ∷ control ∷ []) }
{
    let mut words = Pieces::new(after, b' ');
    let name = words.next()?;
    if name.is_empty() {
        return None;
    }
    let Some(control) = words.next() else {
        return Some(TypesWords {
            name,
            control: None,
        });
    };
    if words.next().is_some() {
        return None;
    }
    Some(TypesWords {
        name,
        control: Some(control),
    })
}

fn find_words(after: &[u8]) -> Option<FindWords<'_>>
    ensures words { IfSome result (λ w. pieces_of 32 after.now ≡ w.results.now ∷ w.values.now ∷ []) }
    ensures none { IfNone result ((results values : List ℕ) → pieces_of 32 after.now ≢ results ∷ values ∷ []) }
{
    let mut words = Pieces::new(after, b' ');
    let results = words.next()?;
    let values = words.next()?;
    if words.next().is_some() {
        return None;
    }
    Some(FindWords { results, values })
}

/// The form of a line after its first word, if that is one of these and `after` what comes after it.
fn form_after<'a>(first: &[u8], after: &'a [u8]) -> Option<RequestForm<'a>>
    ensures words { IfSome result (λ form. first.now ∷ pieces_of 32 after.now ≡ form_words form) }
    ensures named { IfSome result IsNamed }
    ensures none { IfNone result ((line : List ℕ) (r : Request) → pieces_of 32 line ≡ first.now ∷ pieces_of 32 after.now
        → ¬ Requests line r) }
{
    if first == b"types".as_slice() {
        let types = types_words(after)?;
        return Some(RequestForm::Types(types));
    }
    if first == b"find".as_slice() {
        let find = find_words(after)?;
        return Some(RequestForm::Find(find));
    }
    if first == b"list".as_slice() {
        let name = setting_word(after)?;
        return Some(RequestForm::Names(Some(name)));
    }
    None
}

/// The form of the line. `None` only if the line makes no request. A line with a form makes one if its words name types.
pub(crate) fn request_form(line: &[u8]) -> Option<RequestForm<'_>>
    ensures words { IfSome result (λ form. pieces_of 32 line.now ≡ form_words form) }
    ensures named { IfSome result IsNamed }
    ensures none { IfNone result ((r : Request) → ¬ Requests line.now r) }
{
    let (first, rest) = cut(line, b' ');
    match rest {
        Some(after) => form_after(first, after),
        None if first == b"list".as_slice() => Some(RequestForm::Names(None)),
        None => None,
    }
}
