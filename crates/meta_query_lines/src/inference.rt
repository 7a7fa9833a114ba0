ghost use Rattle.std.specs.Prelude.{◌≡◌, ℕ, ◌<◌, List, length, IfSome, IfNone};
ghost use Rattle.std.specs.Option.{option_map};
ghost use Rattle.meta_types.specs.TypeParts.{number_of};
ghost use Rattle.meta_lines.specs.Words.{pieces_of};
ghost use Rattle.meta_query_lines.specs.Inference.{Inference, IsInference, inference_words};

use super::form::{InferWords, QueryForm, form_of};
use meta_lines::parse_control;
use std::marker::Model;

/// A question which results an instruction infers from its controlling types: `infer NAME CONTROL`. It has types by their numbers, as
/// tables do.
#[derive(Drop)]
pub struct Inference<'a> {
    name: &'a [u8],
    control: Option<u16>,
    second: Option<u16>,
}

impl<'a> Model for Inference<'a> {
    ghost use Rattle.std.specs.Prelude.{IfSome};
    ghost use Rattle.std.specs.Option.{option_map};
    ghost use Rattle.meta_types.specs.TypeNumber.{type_with, IsTypeNumber};
    ghost use Rattle.meta_query_lines.specs.Inference.{Inference};

    ghost Value = { Inference };

    ghost view = { λ q. record { name = q.name.now; control = option_map type_with q.control; second = option_map type_with q.second } };

    ghost invariant = { λ q. IfSome q.control IsTypeNumber × IfSome q.second IsTypeNumber };
}

impl<'a> Inference<'a> {
    /// What a line with these words asks. `None` if the last word doesn't name controlling types.
    pub(crate) fn of(words: InferWords<'a>) -> Option<Inference<'a>>
        ensures found { (line : List ℕ) → pieces_of 32 line
            ≡ inference_words words.entry.name.now words.entry.control.now → 0 < length words.entry.name.now
            → IfSome result (λ q. IsInference line q) }
        ensures none { (line : List ℕ) → pieces_of 32 line
            ≡ inference_words words.entry.name.now words.entry.control.now → IfNone result ((q : Inference) → ¬ IsInference line q) }
    {
        let controls = parse_control(words.control)?;
        Some(Inference {
            name: words.name,
            control: controls.control,
            second: controls.second,
        })
    }

    /// What the line asks. `None` exactly if it doesn't ask for an inference.
    pub fn parse(line: &'a [u8]) -> Option<Inference<'a>>
        ensures found { IfSome result (λ q. IsInference line.now q) }
        ensures none { IfNone result ((q : Inference) → ¬ IsInference line.now q) }
    {
        let form = form_of(line)?;
        match form {
            QueryForm::Infer(words) => Inference::of(words),
            QueryForm::Accept(_) => None,
            QueryForm::Setting(_) => None,
        }
    }

    /// The name of the instruction, as it stands in the line: any bytes but spaces.
    pub fn name(&self) -> &'a [u8]
        ensures { result.now ≡ self.now.name }
    {
        self.name
    }

    /// The number of the controlling type, if the line has one.
    pub fn control_number(&self) -> Option<u16>
        ensures { result ≡ option_map number_of self.now.control }
    {
        self.control
    }

    /// The number of the second controlling type, if the line has one.
    pub fn second_number(&self) -> Option<u16>
        ensures { result ≡ option_map number_of self.now.second }
    {
        self.second
    }
}
