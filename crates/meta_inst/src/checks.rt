ghost use Rattle.std.specs.Prelude.{◌≡◌, ℕ, IfSome, IfNone};
ghost use Rattle.std.specs.List.{position};
ghost use Rattle.meta_inst.specs.InstructionFaults.{is_bad_output, AreTooMany};

use meta_operands::Operand;

/// The most value results, and the most value inputs, of an instruction: each count has three bits in the tables.
pub(crate) const MAX_OPERANDS: usize = 7;

/// The place of the first output that is neither a value nor varargs.
pub(crate) fn bad_output(outputs: &[Operand]) -> Option<usize>
    ensures { result ≡ position is_bad_output outputs.now }
{
    outputs
        .iter()
        .position(|o| !o.is_value() && !o.is_varargs())
}

/// The count of value results if it is too large, or else the count of value inputs if that is.
pub(crate) fn too_many(results: usize, values: usize) -> Option<usize>
    ensures found { IfSome result (AreTooMany results values) }
    ensures none { IfNone result ((count : ℕ) → AreTooMany results values count → ⊥) }
{
    if results > MAX_OPERANDS {
        return Some(results);
    }
    if values > MAX_OPERANDS {
        return Some(values);
    }
    None
}
