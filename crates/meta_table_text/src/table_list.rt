ghost use Rattle.std.specs.Prelude.{◌≡◌, ◌++◌, OnOk, string_bytes};
ghost use Rattle.meta_table_text.specs.Lists.{title_of, head_of, list_text};

use std::alloc::AllocError;

/// A list in the text of tables. The first five are lists of the instruction set, the others of a group of settings.
#[derive(Clone, Copy, Debug, PartialEq, Eq)]
pub enum TableList {
    /// The formats of the opcodes.
    Formats,
    /// The slots of the names of opcodes.
    OpcodeSlots,
    /// The type sets.
    TypeSets,
    /// The operand constraints.
    Constraints,
    /// The four numbers of each opcode.
    Entries,
    /// The enumerators of a group.
    Enumerators,
    /// The descriptors of a group's entries.
    Descriptors,
    /// The slots of the names of a group's entries.
    SettingSlots,
    /// The presets of a group.
    Presets,
}

impl TableList {
    /// The line that stands before the list. It is empty if the list has no such line.
    pub fn title(self) -> &'static str
        ensures { result.now ≡ title_of self }
    {
        match self {
            TableList::TypeSets => "// Table of value type sets.\n",
            TableList::Constraints => "// Table of operand constraint sequences.\n",
            TableList::Entries => "// Table of opcode constraints.\n",
            TableList::Formats
            | TableList::OpcodeSlots
            | TableList::Enumerators
            | TableList::Descriptors
            | TableList::SettingSlots
            | TableList::Presets => "",
        }
    }

    /// What the first line of the list has before the count of elements: the name of the list and the type of an element.
    pub fn head(self) -> &'static str
        ensures { result.now ≡ head_of self }
    {
        match self {
            TableList::Formats => "const OPCODE_FORMAT: [InstructionFormat; ",
            TableList::OpcodeSlots => "const OPCODE_HASH_TABLE: [Option<Opcode>; ",
            TableList::TypeSets => "const TYPE_SETS: [ir::instructions::ValueTypeSet; ",
            TableList::Constraints => "const OPERAND_CONSTRAINTS: [OperandConstraint; ",
            TableList::Entries => "const OPCODE_CONSTRAINTS: [OpcodeConstraints; ",
            TableList::Enumerators => "static ENUMERATORS: [&str; ",
            TableList::Descriptors => "static DESCRIPTORS: [detail::Descriptor; ",
            TableList::SettingSlots => "static HASH_TABLE: [u16; ",
            TableList::Presets => "static PRESETS: [(u8, u8); ",
        }
    }
}

/// What the first line of a list has after the count of elements.
pub const AFTER_COUNT: &str = "] = [\n";

/// What comes after the last element of a list.
pub const LIST_END: &str = "];\n";

#[tactic(auto, unfolding(crate::specs::Lists::list_head))]
pub(crate) fn push_list(
    out: &mut String,
    list: TableList,
    count: usize,
    lines: &str,
) -> Result<(), AllocError>
    ensures { OnOk result (string_bytes out.new ≡ string_bytes out.old ++ list_text list count lines.now) }
{
    let (title, head) = (list.title(), list.head());
    write!(
        out,
        "{title}{head}{count}{}{lines}{}",
        AFTER_COUNT, LIST_END
    )
}
