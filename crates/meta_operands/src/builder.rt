ghost use Rattle.std.specs.Prelude.{◌≡◌, ◌↔◌, ◌+◌, ◌<◌, ◌^◌, ◌++◌, ◌∷◌, [], IsTrue, true, IfOk, OnErr, length, Some, None};
ghost use Rattle.meta_operands.specs.Format.{empty_format, with_field, built_format, HasRoom, CanDesignate};

use super::field::FormatFields;
use super::format::InstructionFormat;
use super::kind::OperandKind;
use super::table::{FormatId, FormatTable};
use meta_types::Text;
use std::alloc::{AllocError, Global};
use std::marker::Model;

/// A format that is being declared, as in the crate's `cdsl/formats.rs`.
#[derive(Drop)]
pub struct InstructionFormatBuilder {
    format: InstructionFormat,
}

impl Model for InstructionFormatBuilder {
    ghost use Rattle.meta_operands.specs.declared.format.InstructionFormat.{InstructionFormat};

    ghost Value = { InstructionFormat };

    ghost view = { λ b. b.format };
}

impl InstructionFormatBuilder {
    /// Makes a format with this name and without operands.
    pub fn new(alloc: Global, name: Text) -> Self
        ensures { result ≡ empty_format name }
    {
        InstructionFormatBuilder {
            format: InstructionFormat {
                name,
                num_value_operands: 0,
                has_value_list: false,
                imm_fields: FormatFields::new(alloc),
                num_block_operands: 0,
                num_raw_block_operands: 0,
                typevar_operand: None,
            },
        }
    }

    /// Whether another operand can be counted: each of the three counts is below 2^32 - 1.
    pub fn has_room(&self) -> bool
        ensures { IsTrue result ↔ HasRoom self.now }
    {
        self.format.num_value_operands < 0xffff_ffff
            && self.format.num_block_operands < 0xffff_ffff
            && self.format.num_raw_block_operands < 0xffff_ffff
    }

    /// Adds a value input.
    pub fn value(mut self) -> Self
        requires { self.num_value_operands + 1 < 2 ^ 32 }
        ensures { result ≡ record self { num_value_operands = self.num_value_operands + 1 } }
    {
        self.format.num_value_operands += 1;
        self
    }

    /// Adds a block that takes arguments.
    pub fn block(mut self) -> Self
        requires { self.num_block_operands + 1 < 2 ^ 32 }
        ensures { result ≡ record self { num_block_operands = self.num_block_operands + 1 } }
    {
        self.format.num_block_operands += 1;
        self
    }

    /// Adds a block without arguments.
    pub fn raw_block(mut self) -> Self
        requires { self.num_raw_block_operands + 1 < 2 ^ 32 }
        ensures { result ≡ record self { num_raw_block_operands = self.num_raw_block_operands + 1 } }
    {
        self.format.num_raw_block_operands += 1;
        self
    }

    /// Lets any number of values follow (varargs).
    pub fn varargs(mut self) -> Self
        ensures { result ≡ record self { has_value_list = true } }
    {
        self.format.has_value_list = true;
        self
    }

    /// Adds a field, which holds an operand of this kind. The name of the field in `InstructionData` is the kind's field name.
    pub fn imm(mut self, operand_kind: &OperandKind) -> Result<Self, AllocError>
        ensures { IfOk result (λ b. b ≡ with_field self operand_kind.now) }
    {
        self.format.imm_fields.push(operand_kind)?;
        Ok(self)
    }

    /// Whether the value input at this place among the value inputs, from 0, can be made the designated value: there is such an input, and
    /// no value is designated yet.
    pub fn can_designate(&self, operand_index: usize) -> bool
        ensures { IsTrue result ↔ CanDesignate self.now operand_index }
    {
        self.format.typevar_operand.is_none()
            && operand_index < self.format.num_value_operands as usize
    }

    /// Makes the value input at this place among the value inputs, from 0, the designated value. Its type is tried first as the controlling
    /// type.
    pub fn typevar_operand(mut self, operand_index: usize) -> Self
        requires { CanDesignate self operand_index }
        ensures { result ≡ record self { typevar_operand = Some operand_index } }
    {
        self.format.typevar_operand = Some(operand_index);
        self
    }

    /// Adds the format to the table, and answers its number. Other formats keep their numbers. If the format has value inputs and no
    /// designated value, the first one is designated. After an error the table is as it was.
    pub fn build(mut self, table: &mut FormatTable) -> Result<FormatId, AllocError>
        requires { length table.old + 1 < 2 ^ 32 }
        ensures number { IfOk result (λ id. id ≡ length table.old) }
        ensures added { IfOk result (λ id. table.new ≡ table.old ++ built_format self ∷ []) }
        ensures unchanged { OnErr result (table.new ≡ table.old) }
    {
        if self.format.typevar_operand.is_none() && self.format.num_value_operands != 0 {
            self.format.typevar_operand = Some(0);
        }
        table.push(self.format)
    }
}
