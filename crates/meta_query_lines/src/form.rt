ghost use Rattle.std.specs.Prelude.{◌≡◌, ◌≢◌, ◌<◌, ℕ, List, [], ◌∷◌, length, IfSome, IfNone};
ghost use Rattle.meta_lines.specs.Words.{pieces_of};
ghost use Rattle.meta_query_lines.specs.Query.{Asked, Asks};
ghost use Rattle.meta_query_lines.specs.Form.{command_named, words_in, name_in};

use meta_lines::{Pieces, cut};

/// The first word of a line that asks something.
#[derive(Clone, Copy)]
pub(crate) enum QueryWord {
    Accept,
    Infer,
    Setting,
}

/// The words after `accept`. The last three can be empty.
#[derive(Clone, Copy)]
pub(crate) struct AcceptWords<'a> {
    pub(crate) name: &'a [u8],
    pub(crate) control: &'a [u8],
    pub(crate) results: &'a [u8],
    pub(crate) values: &'a [u8],
}

/// The words after `infer`. The last can be empty.
#[derive(Clone, Copy)]
pub(crate) struct InferWords<'a> {
    pub(crate) name: &'a [u8],
    pub(crate) control: &'a [u8],
}

/// The form of a line that asks something, with the words after the first.
#[derive(Clone, Copy)]
pub(crate) enum QueryForm<'a> {
    Accept(AcceptWords<'a>),
    Infer(InferWords<'a>),
    Setting(&'a [u8]),
}

fn command_of(word: &[u8]) -> Option<QueryWord>
    ensures { result ≡ command_named word.now }
{
    match word {
        b"accept" => Some(QueryWord::Accept),
        b"infer" => Some(QueryWord::Infer),
        b"setting" => Some(QueryWord::Setting),
        _ => None,
    }
}

fn accept_words(after: &[u8]) -> Option<AcceptWords<'_>>
    ensures words { IfSome result (λ w. pieces_of 32 after.now ≡ w.name.now ∷ w.control.now ∷ w.results.now ∷ w.values.now ∷ []) }
    ensures named { IfSome result (λ w. 0 < length w.name.now) }
    ensures none { IfNone result ((name control results values : List ℕ) → 0 < length name
        → pieces_of 32 after.now ≢ name ∷ control ∷ results ∷ values ∷ []) }
{
    let mut words = Pieces::new(after, b' ');
    let name = words.next()?;
    if name.is_empty() {
        return None;
    }
    let control = words.next()?;
    let results = words.next()?;
    let values = words.next()?;
    if words.next().is_some() {
        return None;
    }
    Some(AcceptWords {
        name,
        control,
        results,
        values,
    })
}

fn infer_words(after: &[u8]) -> Option<InferWords<'_>>
    ensures words { IfSome result (λ w. pieces_of 32 after.now ≡ w.name.now ∷ w.control.now ∷ []) }
    ensures named { IfSome result (λ w. 0 < length w.name.now) }
    ensures none { IfNone result ((name control : List ℕ) → 0 < length name → pieces_of 32 after.now ≢ name ∷ control ∷ []) }
{
    let mut words = Pieces::new(after, b' ');
    let name = words.next()?;
    if name.is_empty() {
        return None;
    }
    let control = words.next()?;
    if words.next().is_some() {
        return None;
    }
    Some(InferWords { name, control })
}

pub(crate) fn setting_word(after: &[u8]) -> Option<&[u8]>
    ensures words { IfSome result (λ name. pieces_of 32 after.now ≡ name.now ∷ []) }
    ensures named { IfSome result (λ name. 0 < length name.now) }
    ensures none { IfNone result ((name : List ℕ) → 0 < length name → pieces_of 32 after.now ≢ name ∷ []) }
{
    let mut words = Pieces::new(after, b' ');
    let name = words.next()?;
    if name.is_empty() {
        return None;
    }
    if words.next().is_some() {
        return None;
    }
    Some(name)
}

/// The form of the line. `None` only if the line asks nothing. A line with a form asks something if its words name types.
pub(crate) fn form_of(line: &[u8]) -> Option<QueryForm<'_>>
    ensures words { IfSome result (λ form. pieces_of 32 line.now ≡ words_in form) }
    ensures named { IfSome result (λ form. 0 < length (name_in form)) }
    ensures none { IfNone result ((q : Asked) → ¬ Asks line.now q) }
{
    let (first, rest) = cut(line, b' ');
    let after = rest?;
    let command = command_of(first)?;
    match command {
        QueryWord::Accept => {
            let accept = accept_words(after)?;
            Some(QueryForm::Accept(accept))
        }
        QueryWord::Infer => {
            let infer = infer_words(after)?;
            Some(QueryForm::Infer(infer))
        }
        QueryWord::Setting => {
            let setting = setting_word(after)?;
            Some(QueryForm::Setting(setting))
        }
    }
}
