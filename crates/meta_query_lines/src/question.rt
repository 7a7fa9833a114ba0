ghost use Rattle.std.specs.Prelude.{◌≡◌, ℕ, ◌<◌, ◌++◌, true, false, List, length, map, All, Option, IfOk, IfSome, IfNone};
ghost use Rattle.std.specs.Option.{option_map};
ghost use Rattle.meta_types.specs.TypeParts.{number_of};
ghost use Rattle.meta_types.specs.TypeNumber.{IsTypeNumber};
ghost use Rattle.meta_lines.specs.Words.{pieces_of};
ghost use Rattle.meta_gen.specs.Question.{Question};
ghost use Rattle.meta_query_lines.specs.Question.{IsQuestion, question_words};
ghost use Rattle.meta_query_lines.specs.Explanation.{asked_controls};

use super::form::{AcceptWords, QueryForm, form_of};
use meta_explain::ControlTypes;
use meta_lines::{parse_control, read_types};
use std::alloc::{AllocError, Global};
use std::marker::Model;

/// A question whether an instruction accepts types: `accept NAME CONTROL RESULTS VALUES`. CONTROL is `-`, the controlling type, or that and
/// the second one joined by `/`. The question has types by their numbers, as tables do.
#[derive(Drop)]
pub struct Question<'a> {
    name: &'a [u8],
    control: Option<u16>,
    second: Option<u16>,
    results: Vec<u16>,
    values: Vec<u16>,
}

impl<'a> Model for Question<'a> {
    ghost use Rattle.std.specs.Prelude.{map, All, IfSome};
    ghost use Rattle.std.specs.Option.{option_map};
    ghost use Rattle.meta_types.specs.TypeNumber.{type_with, IsTypeNumber};
    ghost use Rattle.meta_gen.specs.Question.{Question};

    ghost Value = { Question };

    ghost view = { λ q. record {
      name = q.name.now;
      control = option_map type_with q.control;
      second = option_map type_with q.second;
      results = map type_with q.results.items;
      values = map type_with q.values.items;
    } };

    ghost invariant = { λ q. IfSome q.control IsTypeNumber × All IsTypeNumber q.results.items
        × All IsTypeNumber q.values.items × IfSome q.second IsTypeNumber };
}

impl<'a> Question<'a> {
    /// Makes a question without types, as room to read others into.
    pub(crate) fn empty(alloc: Global) -> Self {
        Question {
            name: &[],
            control: None,
            second: None,
            results: Vec::new(alloc),
            values: Vec::new(alloc),
        }
    }

    /// Reads the question that a line with these words asks, in place of this one. It answers false if the words don't name types. The
    /// lists of this question are used again.
    pub(crate) fn read(&mut self, words: AcceptWords<'a>) -> Result<bool, AllocError>
        ensures found { IfOk result (λ read. read ≡ true → (line : List ℕ)
            → pieces_of 32 line ≡ question_words words.entry.name.now words.entry.control.now words.entry.results.now
            words.entry.values.now → 0 < length words.entry.name.now → IsQuestion line self.new) }
        ensures none { IfOk result (λ read. read ≡ false → (line : List ℕ)
            → pieces_of 32 line ≡ question_words words.entry.name.now words.entry.control.now words.entry.results.now
            words.entry.values.now → (q : Question) → ¬ IsQuestion line q) }
    {
        let Some(controls) = parse_control(words.control) else {
            return Ok(false);
        };
        if !read_types(&mut self.results, words.results)? {
            return Ok(false);
        }
        if !read_types(&mut self.values, words.values)? {
            return Ok(false);
        }
        self.name = words.name;
        self.control = controls.control;
        self.second = controls.second;
        Ok(true)
    }

    /// The question that a line with these words asks. `None` if they don't name types.
    pub(crate) fn of(
        alloc: Global,
        words: AcceptWords<'a>,
    ) -> Result<Option<Question<'a>>, AllocError>
        ensures found { IfOk result (λ o. (line : List ℕ)
            → pieces_of 32 line ≡ question_words words.entry.name.now words.entry.control.now words.entry.results.now
            words.entry.values.now → 0 < length words.entry.name.now → IfSome o (λ q. IsQuestion line q)) }
        ensures none { IfOk result (λ o. (line : List ℕ)
            → pieces_of 32 line ≡ question_words words.entry.name.now words.entry.control.now words.entry.results.now
            words.entry.values.now → IfNone o ((q : Question) → ¬ IsQuestion line q)) }
    {
        let mut question = Question::empty(alloc);
        if !question.read(words)? {
            return Ok(None);
        }
        Ok(Some(question))
    }

    /// The question that the line asks. `None` exactly if it doesn't ask whether an instruction accepts types.
    pub fn parse(alloc: Global, line: &'a [u8]) -> Result<Option<Question<'a>>, AllocError>
        ensures found { IfOk result (λ o. IfSome o (λ q. IsQuestion line.now q)) }
        ensures none { IfOk result (λ o. IfNone o ((q : Question) → ¬ IsQuestion line.now q)) }
    {
        let Some(form) = form_of(line) else {
            return Ok(None);
        };
        match form {
            QueryForm::Accept(words) => Question::of(alloc, words),
            QueryForm::Infer(_) => Ok(None),
            QueryForm::Setting(_) => Ok(None),
        }
    }

    /// The name of the instruction, as it stands in the line: any bytes but spaces.
    pub fn name(&self) -> &'a [u8]
        ensures { result.now ≡ self.now.name }
    {
        self.name
    }

    /// The number of the controlling type, if the line has one.
    pub fn control_number(&self) -> Option<u16>
        ensures { result ≡ option_map number_of self.now.control }
    {
        self.control
    }

    /// The number of the second controlling type, if the line has one.
    pub fn second_number(&self) -> Option<u16>
        ensures { result ≡ option_map number_of self.now.second }
    {
        self.second
    }

    pub(crate) fn results(&self) -> &[u16]
        ensures { result.now ≡ map number_of self.now.results }
    {
        &self.results
    }

    pub(crate) fn values(&self) -> &[u16]
        ensures { result.now ≡ map number_of self.now.values }
    {
        &self.values
    }

    /// The numbers of the controlling types. The types that a line names have numbers.
    pub(crate) fn controls(&self) -> ControlTypes
        ensures controls { result ≡ asked_controls self.now }
        ensures control_known { IfSome result.ctrl IsTypeNumber }
        ensures second_known { IfSome result.second IsTypeNumber }
        ensures operands_known { All IsTypeNumber (map number_of self.now.results ++ map number_of self.now.values) }
    {
        ControlTypes {
            ctrl: self.control,
            second: self.second,
        }
    }

    /// The numbers of the results' types, as a new list.
    pub fn result_numbers(&self, alloc: Global) -> Result<Vec<u16>, AllocError>
        ensures { IfOk result (λ v. v.items ≡ map number_of self.now.results) }
    {
        Vec::from_slice(alloc, self.results())
    }

    /// The numbers of the value operands' types, as a new list.
    pub fn value_numbers(&self, alloc: Global) -> Result<Vec<u16>, AllocError>
        ensures { IfOk result (λ v. v.items ≡ map number_of self.now.values) }
    {
        Vec::from_slice(alloc, self.values())
    }
}

/// A line asks at most one question.
pub fn asks_one_question()
    ensures { (line : List ℕ) (q p : Question) → IsQuestion line q → IsQuestion line p → q ≡ p }
{}
