ghost use Rattle.std.specs.Prelude.{◌≡◌, ◌+◌, ◌<◌, ◌^◌, ◌||◌, false, if◌then◌else◌};
ghost use Rattle.meta_inst.specs.FormatMatch.{is_block_operand};
ghost use Rattle.meta_rust_text.specs.Operands.{is_converted};

use super::operands::is_converted;
use meta_operands::Operand;

/// The type parameters of the arguments for some operands, counted as the operands come.
#[derive(Clone, Copy)]
pub(crate) struct Numbering {
    /// How many of the operands are converted. Each has a type parameter.
    pub(crate) converted: usize,
    /// Whether one of them is a block, so that the lifetime is a parameter too.
    pub(crate) has_block: bool,
}

impl Numbering {
    /// That of no operands.
    pub(crate) fn new() -> Numbering
        ensures converted { result.converted ≡ 0 }
        ensures has_block { result.has_block ≡ false }
    {
        Numbering {
            converted: 0,
            has_block: false,
        }
    }

    /// The number of the next type parameter, from 1.
    pub(crate) fn next_number(self) -> usize
        requires { self.converted + 2 < 2 ^ 64 }
        ensures { result ≡ self.converted + (if self.has_block then 1 else 0) + 1 }
    {
        if self.has_block {
            return self.converted + 2;
        }
        self.converted + 1
    }

    fn converted_past(self, operand: &Operand) -> usize
        requires { self.converted + 1 < 2 ^ 64 }
        ensures { result ≡ self.converted + (if is_converted operand.now then 1 else 0) }
    {
        if is_converted(operand) {
            return self.converted + 1;
        }
        self.converted
    }

    fn has_block_past(self, operand: &Operand) -> bool
        ensures { result ≡ (self.has_block || is_block_operand operand.now) }
    {
        self.has_block || operand.kind.is_block()
    }

    /// That of the same operands and one more.
    pub(crate) fn past(self, operand: &Operand) -> Numbering
        requires { self.converted + 1 < 2 ^ 64 }
        ensures converted { result.converted ≡ self.converted + (if is_converted operand.now then 1 else 0) }
        ensures has_block { result.has_block ≡ (self.has_block || is_block_operand operand.now) }
    {
        Numbering {
            converted: self.converted_past(operand),
            has_block: self.has_block_past(operand),
        }
    }
}
