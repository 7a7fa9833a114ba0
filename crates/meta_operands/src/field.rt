ghost use Rattle.std.specs.Prelude.{◌≡◌, ◌<◌, [], ◌∷◌, ◌++◌, OnOk, OnErr, length, slice_get, Some};
ghost use Rattle.std.specs.Fmt.{DisplaysOnOk};
ghost use Rattle.meta_operands.specs.Format.{field_for};
ghost use Rattle.meta_operands.specs.FormatText.{more_fields_text};

use super::kind::OperandKind;
use meta_types::Text;
use std::alloc::{AllocError, Global};
use std::fmt;
use std::marker::Model;

/// A field of a format, which holds an immediate or an entity reference, as in the crate's `cdsl/formats.rs`.
#[derive(Drop)]
pub struct FormatField {
    /// The kind of the operand that the field holds.
    pub kind: OperandKind,
    /// The name of the field in `InstructionData`.
    pub member: Text,
}

impl fmt::Display for FormatField {
    ghost use Rattle.std.specs.Prelude.{Some};
    ghost use Rattle.meta_operands.specs.FormatText.{field_text};

    ghost output = { λ field. Some (field_text field) };

    fn fmt<W: fmt::Write>(&self, f: &mut fmt::Formatter<W>) -> fmt::Result {
        f.write_str(self.member.as_str())?;
        f.write_str(": ")?;
        f.write_str(self.kind.rust_type.as_str())
    }
}

/// The fields of a format, in order.
#[derive(Drop)]
pub struct FormatFields {
    fields: Vec<FormatField>,
}

impl Model for FormatFields {
    ghost use Rattle.std.specs.Prelude.{List};
    ghost use Rattle.meta_operands.specs.declared.field.FormatField.{FormatField};

    ghost Value = { List FormatField };

    ghost view = { λ f. f.fields.items };
}

impl FormatFields {
    pub(crate) fn new(alloc: Global) -> FormatFields
        ensures { result ≡ [] }
    {
        FormatFields {
            fields: Vec::new(alloc),
        }
    }

    /// The fields as a slice.
    pub fn as_slice(&self) -> &[FormatField]
        ensures { result.now ≡ self.now }
    {
        self.fields.as_slice()
    }

    /// How many fields there are.
    pub fn len(&self) -> usize
        ensures { result ≡ length self.now }
    {
        self.fields.len()
    }

    /// The field at a place, which must be below `len`.
    pub fn get(&self, index: usize) -> &FormatField
        requires { index < length self.now }
        ensures { slice_get self.now index ≡ Some result.now }
    {
        &self.fields[index]
    }

    pub(crate) fn push(&mut self, kind: &OperandKind) -> Result<(), AllocError>
        ensures added { OnOk result (self.new ≡ self.old ++ field_for kind.now ∷ []) }
        ensures unchanged { OnErr result (self.new ≡ self.old) }
    {
        let alloc = *self.fields.allocator();
        let kind = kind.copy(alloc)?;
        let member = kind.rust_field_name.copy(alloc)?;
        self.fields.push(FormatField { kind, member })?;
        Ok(())
    }
}

/// Writes the fields, separated by `, `.
impl fmt::Display for FormatFields {
    ghost use Rattle.std.specs.Prelude.{Some};
    ghost use Rattle.meta_operands.specs.FormatText.{fields_text};

    ghost output = { λ fields. Some (fields_text fields) };

    fn fmt<W: fmt::Write>(&self, f: &mut fmt::Formatter<W>) -> fmt::Result {
        let Some((first, rest)) = self.fields.split_first() else {
            return Ok(());
        };
        write!(f, "{first}")?;
        write_more(f, rest)
    }
}

fn write_more<W: fmt::Write>(f: &mut fmt::Formatter<W>, fields: &[FormatField]) -> fmt::Result
    ensures { DisplaysOnOk W.write_str_gives f.old result (Some (more_fields_text fields.now)) f.new }
{
    for field in fields {
        write!(f, ", {field}")?;
    }
    Ok(())
}
