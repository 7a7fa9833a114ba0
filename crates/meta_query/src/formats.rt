ghost use Rattle.std.specs.Prelude.{◌≡◌, ◌+◌, ◌<◌, ◌^◌, ◌∷◌, ◌++◌, [], IfOk, OnOk};
ghost use Rattle.meta_query.specs.Shapes.{AreNumbered, format_of, all_formats};

use super::shape::Shape;
use meta_operands::{FormatId, FormatTable, InstructionFormatBuilder};
use meta_types::Text;
use std::alloc::{AllocError, Global};

#[derive(Clone, Copy)]
pub(crate) struct Formats {
    pub(crate) null_ary: FormatId,
    pub(crate) unary: FormatId,
    pub(crate) binary: FormatId,
}

impl Formats {
    /// Adds the three formats to a table without formats.
    pub(crate) fn new(alloc: Global, table: &mut FormatTable) -> Result<Formats, AllocError>
        requires { table.old ≡ [] }
        ensures numbered { IfOk result AreNumbered }
        ensures added { OnOk result (table.new ≡ all_formats) }
    {
        let null_ary = InstructionFormatBuilder::new(alloc, Text::new(alloc, "NullAry")?);
        let null_ary = null_ary.build(table)?;
        let unary = InstructionFormatBuilder::new(alloc, Text::new(alloc, "Unary")?);
        let unary = unary.value().build(table)?;
        let binary = InstructionFormatBuilder::new(alloc, Text::new(alloc, "Binary")?);
        let binary = binary.value().value().build(table)?;
        Ok(Formats {
            null_ary,
            unary,
            binary,
        })
    }

    pub(crate) fn of(&self, shape: Shape) -> FormatId
        requires { AreNumbered self.now }
        ensures { result ≡ format_of shape }
    {
        match shape {
            Shape::Bare => self.null_ary,
            Shape::Copying | Shape::Widening => self.unary,
            Shape::Comparing => self.binary,
        }
    }
}
