ghost use Rattle.std.specs.Prelude.{◌≡◌, IfOk};
ghost use Rattle.meta_operands.specs.Structure.{structure_of};

use super::field::FormatFields;
use super::structure::{FieldNames, FormatStructure};
use meta_types::Text;
use std::alloc::{AllocError, Global};
use std::fmt;

/// A format: the operands that its instructions store, as in the crate's `cdsl/formats.rs`.
#[derive(Drop)]
pub struct InstructionFormat {
    /// The name of the format.
    pub name: Text,
    /// The count of value inputs, below 2^32.
    pub num_value_operands: u32,
    /// Whether any number of values may follow (varargs).
    pub has_value_list: bool,
    /// The fields for immediates and for entity references other than blocks, in order.
    pub imm_fields: FormatFields,
    /// The count of blocks that take arguments, below 2^32.
    pub num_block_operands: u32,
    /// The count of blocks without arguments, below 2^32.
    pub num_raw_block_operands: u32,
    /// The place of the designated value among the value inputs, from 0, if there is one.
    pub typevar_operand: Option<usize>,
}

impl InstructionFormat {
    /// The structure of the format: what its instructions store. Two formats with the same structure can differ only by their names and
    /// designated values.
    pub fn structure(&self, alloc: Global) -> Result<FormatStructure, AllocError>
        ensures { IfOk result (λ s. s ≡ structure_of self.now) }
    {
        Ok(FormatStructure {
            num_value_operands: self.num_value_operands,
            has_value_list: self.has_value_list,
            num_block_operands: self.num_block_operands,
            num_raw_block_operands: self.num_raw_block_operands,
            imm_field_names: FieldNames::of(alloc, self.imm_fields.as_slice())?,
        })
    }
}

impl fmt::Display for InstructionFormat {
    ghost use Rattle.std.specs.Prelude.{Some};
    ghost use Rattle.meta_operands.specs.FormatText.{format_text};

    ghost output = { λ format. Some (format_text format) };

    fn fmt<W: fmt::Write>(&self, f: &mut fmt::Formatter<W>) -> fmt::Result {
        let name = self.name.as_str();
        let fields = &self.imm_fields;
        let values = self.num_value_operands;
        let blocks = self.num_block_operands;
        let raw_blocks = self.num_raw_block_operands;
        write!(
            f,
            "{name}(imms=({fields}), vals={values}, blocks={blocks}, raw_blocks={raw_blocks})"
        )
    }
}
