ghost use Rattle.std.specs.Prelude.{◌≡◌, ℕ, ◌<◌, List, length, IfOk, IfSome, IfNone};
ghost use Rattle.meta_lines.specs.Words.{pieces_of};
ghost use Rattle.meta_query_lines.specs.Question.{question_words};
ghost use Rattle.meta_query_lines.specs.Inference.{inference_words};
ghost use Rattle.meta_query_lines.specs.Query.{Asked, asked_by, Asks};

use super::form::{AcceptWords, InferWords, QueryForm, form_of};
use super::inference::Inference;
use super::question::Question;
use std::alloc::{AllocError, Global};

/// What a line asks.
#[derive(Drop)]
pub enum Query<'a> {
    /// Does an instruction accept types: `accept NAME CONTROL RESULTS VALUES`.
    Accept(Question<'a>),
    /// Which results does an instruction infer: `infer NAME CONTROL`.
    Infer(Inference<'a>),
    /// What is the entry of group 0 with this name: `setting NAME`.
    Setting(&'a [u8]),
}

impl<'a> Query<'a> {
    /// What the line asks. `None` exactly if it asks nothing.
    pub fn parse(alloc: Global, line: &'a [u8]) -> Result<Option<Query<'a>>, AllocError>
        ensures found { IfOk result (λ o. IfSome o (λ q. Asks line.now (asked_by q))) }
        ensures none { IfOk result (λ o. IfNone o ((q : Asked) → ¬ Asks line.now q)) }
    {
        let Some(form) = form_of(line) else {
            return Ok(None);
        };
        match form {
            QueryForm::Accept(words) => Query::accept(alloc, words),
            QueryForm::Infer(words) => Ok(Query::infer(words)),
            QueryForm::Setting(name) => Ok(Some(Query::Setting(name))),
        }
    }

    fn accept(alloc: Global, words: AcceptWords<'a>) -> Result<Option<Query<'a>>, AllocError>
        ensures found { IfOk result (λ o. (line : List ℕ)
            → pieces_of 32 line ≡ question_words words.entry.name.now words.entry.control.now words.entry.results.now
            words.entry.values.now → 0 < length words.entry.name.now → IfSome o (λ q. Asks line (asked_by q))) }
        ensures none { IfOk result (λ o. (line : List ℕ)
            → pieces_of 32 line ≡ question_words words.entry.name.now words.entry.control.now words.entry.results.now
            words.entry.values.now → IfNone o ((q : Asked) → ¬ Asks line q)) }
    {
        match Question::of(alloc, words)? {
            Some(question) => Ok(Some(Query::Accept(question))),
            None => Ok(None),
        }
    }

    fn infer(words: InferWords<'a>) -> Option<Query<'a>>
        ensures found { (line : List ℕ) → pieces_of 32 line
            ≡ inference_words words.entry.name.now words.entry.control.now → 0 < length words.entry.name.now
            → IfSome result (λ q. Asks line (asked_by q)) }
        ensures none { (line : List ℕ) → pieces_of 32 line
            ≡ inference_words words.entry.name.now words.entry.control.now → IfNone result ((q : Asked) → ¬ Asks line q) }
    {
        let inference = Inference::of(words)?;
        Some(Query::Infer(inference))
    }
}

/// A line asks at most one thing.
pub fn asks_one_query()
    ensures { (line : List ℕ) (q p : Asked) → Asks line q → Asks line p → q ≡ p }
{}
