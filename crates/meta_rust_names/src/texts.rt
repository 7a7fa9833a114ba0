ghost use Rattle.std.specs.Prelude.{◌≡◌, ◌++◌, Some};
ghost use Rattle.std.specs.Fmt.{DisplaysOnOk, decimal};
ghost use Rattle.meta_rust_names.specs.Texts.{why_text};

use super::refused::{Part, RefusedName, Why};
use std::fmt;

fn write_numbered<W: fmt::Write>(f: &mut fmt::Formatter<W>, text: &str, n: u64) -> fmt::Result
    ensures { DisplaysOnOk W.write_str_gives f.old result (Some (text.now ++ decimal n)) f.new }
{
    f.write_str(text)?;
    write!(f, "{n}")
}

/// Writes which name it is, such as `input 0`.
impl fmt::Display for Part {
    ghost use Rattle.std.specs.Prelude.{Some};
    ghost use Rattle.meta_rust_names.specs.Texts.{part_text};

    ghost output = { λ p. Some (part_text p) };

    fn fmt<W: fmt::Write>(&self, f: &mut fmt::Formatter<W>) -> fmt::Result {
        match self {
            Part::Name => f.write_str("its name"),
            Part::Input(n) => write_numbered(f, "input ", *n),
            Part::InputType(n) => write_numbered(f, "the type of input ", *n),
            Part::InputDoc(n) => write_numbered(f, "the documentation of input ", *n),
            Part::Output(n) => write_numbered(f, "output ", *n),
            Part::OutputDoc(n) => write_numbered(f, "the documentation of output ", *n),
            Part::Doc => f.write_str("its documentation"),
            Part::Control => f.write_str("its control"),
            Part::ControlDoc => f.write_str("the documentation of its control"),
            Part::Field(n) => write_numbered(f, "field ", *n),
            Part::FieldType(n) => write_numbered(f, "the type of field ", *n),
            Part::Setting(n) => write_numbered(f, "setting ", *n),
            Part::SettingType(n) => write_numbered(f, "the enum of setting ", *n),
            Part::Value(setting, n) => {
                write_numbered(f, "setting ", *setting)?;
                write_numbered(f, " value ", *n)
            }
        }
    }
}

impl Why {
    fn text(&self) -> &'static str
        ensures { result.now ≡ why_text self.now }
    {
        match self {
            Why::Keyword => "is a keyword of Rust",
            Why::NoIdentifier => "is no identifier of Rust",
            Why::InScope => "is that of a variant, a constant or a static in scope",
            Why::SelfType => "is `Self` in camel case",
            Why::ErrType => "is `Err` in camel case, the name of a type beside it",
            Why::TypeBeside => "is a type beside it in camel case",
            Why::FixedMethod => "is that of a method beside it",
            Why::FormatName => "is that of a format",
            Why::InstructionMethod => "is that of an instruction's method",
            Why::ImmMethod => "is that of a method that takes an immediate",
            Why::NotBlock => "is a block without arguments, and isn't named `block`",
            Why::ControlLocal => "is `ctrl_typevar`, where an operand controls",
            Why::ListLocal => "is `vlist` or `pool`, beside a list of values",
            Why::ImmLocal => "is `imm_ty`, beside methods that take an immediate",
            Why::ImmBlock => "is a block, beside methods that take an immediate",
            Why::ImmControl => "is an argument, beside methods that take an immediate",
            Why::EarlierInput => "has a name of an earlier input",
            Why::OfInput => "has a name of an input",
            Why::OfFormat => "has a name that its format has itself",
            Why::EarlierField => "has the name of an earlier field",
            Why::OwnVariant => "is that of a variant of its own type",
            Why::FixedLocal => "is that of a variable beside it",
            Why::NoType => "is empty",
            Why::BreaksComment => "can't stand in a comment of Rust",
        }
    }
}

/// Writes why, in words, such as `is a keyword of Rust`.
impl fmt::Display for Why {
    ghost use Rattle.std.specs.Prelude.{Some};
    ghost use Rattle.meta_rust_names.specs.Texts.{why_text};

    ghost output = { λ w. Some (why_text w) };

    fn fmt<W: fmt::Write>(&self, f: &mut fmt::Formatter<W>) -> fmt::Result {
        f.write_str(self.text())
    }
}

/// Writes which name of its place is refused, and why, such as `input 0 is a keyword of Rust`.
impl fmt::Display for RefusedName {
    ghost use Rattle.std.specs.Prelude.{Some};
    ghost use Rattle.meta_rust_names.specs.Texts.{refused_text};

    ghost output = { λ n. Some (refused_text n) };

    fn fmt<W: fmt::Write>(&self, f: &mut fmt::Formatter<W>) -> fmt::Result {
        let (part, why) = (self.part, self.why);
        write!(f, "{part} {why}")
    }
}
