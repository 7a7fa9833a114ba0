//! Operands and instruction formats, as in the crate's `cdsl/operands.rs` and `cdsl/formats.rs`.
#![tactic(auto)]

mod builder;
mod enum_values;
mod field;
mod format;
mod kind;
mod operand;
mod structure;
mod table;

pub use builder::InstructionFormatBuilder;
pub use enum_values::EnumValues;
pub use field::{FormatField, FormatFields};
pub use format::InstructionFormat;
pub use kind::{OperandKind, OperandKindFields};
pub use operand::Operand;
pub use structure::{FieldNames, FormatStructure};
pub use table::{FormatId, FormatTable};
