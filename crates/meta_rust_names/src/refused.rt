ghost use Rattle.std.specs.Prelude.{◌≡◌, ◌++◌, OnOk};
ghost use Rattle.meta_rust_names.specs.Refused.{or_why, refused};

use meta_types::Place;
use std::alloc::AllocError;

/// Which name of an instruction, a format or a group is refused. Inputs, outputs, fields and values are counted from 0. Settings are
/// counted from 0 as the group is laid out: enums and numbers, then booleans, each in order of declaration.
#[derive(Clone, Copy, Debug, PartialEq, Eq)]
pub enum Part {
    /// The name of the instruction, of the format or of the group.
    Name,
    /// The name of an input.
    Input(u64),
    /// The Rust type of an input.
    InputType(u64),
    /// The documentation of an input: its own, or that of its variable or its kind. That of a block is printed only with the methods that
    /// take an immediate.
    InputDoc(u64),
    /// The name of an output.
    Output(u64),
    /// The documentation of an output: its own, or that of its variable.
    OutputDoc(u64),
    /// The documentation of the instruction.
    Doc,
    /// The name of the type variable that is the control.
    Control,
    /// The documentation of the control.
    ControlDoc,
    /// The name of a field.
    Field(u64),
    /// The Rust type of a field.
    FieldType(u64),
    /// The name of a setting.
    Setting(u64),
    /// The name of a setting in camel case, which is that of its enum.
    SettingType(u64),
    /// The name of a value of an enum. The numbers are those of the setting and the value.
    Value(u64, u64),
}

/// Why Rust refuses a name.
#[derive(Clone, Copy, Debug, PartialEq, Eq)]
pub enum Why {
    /// The name is a keyword.
    Keyword,
    /// The name isn't an identifier of ASCII letters, digits and `_`, with or without `r#`.
    NoIdentifier,
    /// A variant, a constant or a static in scope has the name, and a name here can't hide it.
    InScope,
    /// The camel case of the name is `Self`.
    SelfType,
    /// The camel case of the name is `Err`, which is the name of the type of errors beside it.
    ErrType,
    /// The camel case of the name is that of a type that is written or named beside it.
    TypeBeside,
    /// A method or a function that always exists has the name.
    FixedMethod,
    /// A format has the name.
    FormatName,
    /// A method that builds an instruction has the name.
    InstructionMethod,
    /// A method that takes an immediate for the last value has the name.
    ImmMethod,
    /// A block without arguments has a name other than `block`.
    NotBlock,
    /// The name is `ctrl_typevar`, and an operand controls.
    ControlLocal,
    /// A variable by which the method makes the list of values has the name.
    ListLocal,
    /// The name is `imm_ty`, and there are methods that take an immediate.
    ImmLocal,
    /// The input is a block, and there are methods that take an immediate. They pass it on as one argument, but two are needed.
    ImmBlock,
    /// The control is an argument, and there are methods that take an immediate, which have no argument for it.
    ImmControl,
    /// An argument for an earlier input has the name.
    EarlierInput,
    /// An argument for an input has the name.
    OfInput,
    /// The format itself has a member, a parameter or a variable with the name.
    OfFormat,
    /// An earlier field has the name.
    EarlierField,
    /// The name is that of a variant of its own type, an enum.
    OwnVariant,
    /// The name is `bvec`, a variable beside it.
    FixedLocal,
    /// The text isn't a type: it has only white space.
    NoType,
    /// The text is printed in a comment, and has a line break or a character that turns the direction of text.
    BreaksComment,
}

/// A name with which the texts of Rust don't compile.
#[derive(Clone, Copy, Debug)]
pub struct RefusedName {
    /// The instruction, the format or the group that has the name.
    pub place: Place,
    /// Which of its names it is.
    pub part: Part,
    /// Why the name is refused.
    pub why: Why,
}

pub(crate) fn or_why(first: Option<Why>, second: Option<Why>) -> Option<Why>
    ensures { result ≡ or_why first second }
{
    match first {
        Some(why) => Some(why),
        None => second,
    }
}

pub(crate) fn push_refused(
    out: &mut Vec<RefusedName>,
    place: Place,
    part: Part,
    why: Option<Why>,
) -> Result<(), AllocError>
    ensures { OnOk result (out.new.items ≡ out.old.items ++ refused place part why) }
{
    if let Some(why) = why {
        out.push(RefusedName { place, part, why })?;
    }
    Ok(())
}
