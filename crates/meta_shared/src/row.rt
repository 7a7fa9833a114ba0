use super::format::Format;
use super::word::Word;

/// An operand in a row.
#[derive(Clone, Copy)]
pub struct OperandRow {
    /// The name of the operand.
    pub name: &'static str,
    /// What the operand is.
    pub word: Word,
    /// The documentation of the operand, if it has one of its own.
    pub doc: Option<&'static str>,
}

/// A mark of an instruction: what it may do beside giving its results, or that it gets a second builder method.
#[derive(Clone, Copy)]
pub enum Mark {
    /// The instruction branches to a block, and so ends its own block.
    Branch,
    /// The instruction ends its block.
    Terminator,
    /// The instruction calls a function.
    Call,
    /// The instruction returns from the function, and so ends its block.
    Return,
    /// The instruction may read memory.
    Load,
    /// The instruction may write memory.
    Store,
    /// The instruction may trap.
    Trap,
    /// The instruction has effects beside those of the other marks.
    OtherEffect,
    /// The effects of the instruction are idempotent: done twice they are the same as once.
    Idempotent,
    /// The written instruction builder has a method that takes an immediate for the last value input.
    ImmMethod,
}

/// A row of the tables of instructions.
#[derive(Clone, Copy)]
pub struct Row {
    /// The name of the instruction.
    pub name: &'static str,
    /// The documentation of the instruction.
    pub doc: &'static str,
    /// The format of the instruction.
    pub format: Format,
    /// The inputs of the instruction.
    pub inputs: &'static [OperandRow],
    /// The outputs of the instruction.
    pub outputs: &'static [OperandRow],
    /// The marks of the instruction.
    pub marks: &'static [Mark],
}

#[macro_export]
macro_rules! own_doc {
    () => { None };
    ($doc:literal) => { Some($doc) };
}

/// A table of instructions. Each row has the name, the format, the inputs, after an arrow the outputs, then the marks, and the
/// documentation. An operand is its name, what it is, and its own documentation if it has one.
#[macro_export]
macro_rules! rows {
    ($($name:ident: $format:ident(
        $($input:ident: $input_word:ident $(($input_root:ident))? $($input_doc:literal)?),*
        -> $($output:ident: $output_word:ident $(($output_root:ident))? $($output_doc:literal)?),*
    ) $($mark:ident)* $doc:literal;)*) => {
        [$($crate::Row {
            name: stringify!($name),
            doc: $doc,
            format: $crate::Format::$format,
            inputs: &[$($crate::OperandRow {
                name: stringify!($input),
                word: $crate::word!($input_word $($input_root)?),
                doc: $crate::own_doc!($($input_doc)?),
            }),*],
            outputs: &[$($crate::OperandRow {
                name: stringify!($output),
                word: $crate::word!($output_word $($output_root)?),
                doc: $crate::own_doc!($($output_doc)?),
            }),*],
            marks: &[$($crate::Mark::$mark),*],
        }),*]
    };
}
