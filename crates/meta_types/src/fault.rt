ghost use Rattle.std.specs.Prelude.{◌≡◌, ◌++◌, IfOk, Some};
ghost use Rattle.std.specs.Fmt.{DisplaysOnOk, decimal};
ghost use Rattle.meta_types.specs.Fault.{line_of, fault_name, fault_detail_text};
ghost use Rattle.meta_types.specs.declared.fault.DefinitionError.TheVariants.{OutOfMemory};
ghost use Rattle.meta_types.specs.declared.fault.FaultDetail.TheVariants.{Two};

use super::text::Text;
use std::alloc::{AllocError, AllocFailed, Global};
use std::fmt;
use thiserror::Error;

/// A place in declarations. Instructions are numbered from 1; formats, groups and the entries of a group from 0.
#[derive(Clone, Copy, Debug)]
pub enum Place {
    Instruction(u64),
    Format(u64),
    /// A group of settings.
    Group(u64),
    /// An entry of a group: the number of the group, then that of the entry. Entries are the group's settings in order of declaration, then
    /// its presets.
    Entry(u64, u64),
}

/// A fault of declarations, for which they are refused. The crate panics at most of these places, or doesn't test them.
#[derive(Clone, Copy, Drop, Error)]
pub enum DefinitionError {
    /// The name at the place, or that of one of its enumerators, isn't an ASCII letter followed by ASCII letters, digits or `_`; or the
    /// description at the place has a double quote, a backslash or a byte outside 0x20 to 0x7e.
    BadName(Place),
    /// The name at the place, or its camel case, is that of an earlier declaration. The second number is that one's.
    DuplicateName(Place, u64),
    /// More than 4,095 instructions are declared. The number is their count.
    TooManyOpcodes(u64),
    /// An output of the instruction is neither a value nor varargs. The numbers are that of the instruction and the place of the output.
    BadOutput(u64, u64),
    /// The operands of the instruction with this number don't match its format.
    FormatMismatch(u64),
    /// The instruction with this number is polymorphic and has no control.
    NoControl(u64),
    /// The instruction with this number names a second control that is derived, or isn't the root of a value operand, or the instruction
    /// isn't polymorphic.
    BadSecond(u64),
    /// A value operand of the instruction has a bad derivation: it is derived, isn't fixed to one type, and isn't derived directly from the
    /// control or the second control. The numbers are that of the instruction and the place of the operand among value results and then
    /// value inputs.
    BadDerivation(u64, u64),
    /// The instruction has eight or more value results, or else value inputs. The numbers are that of the instruction and their count.
    TooManyOperands(u64, u64),
    /// The instruction with this number asks for an immediate method, which its format or its operands don't allow.
    BadImmMethod(u64),
    /// The format with this number is in use, and has more than two blocks or more than one block without arguments.
    BadFormat(u64),
    /// The format is in use, and has the name or the structure of a format that is used earlier. The second number is that one's.
    FormatClash(u64, u64),
    /// The instructions need more than 4,095 different type sets. The number is their count.
    TooManyTypeSets(u64),
    /// An enum has no value, more than 256, or two with the same name or camel case. The numbers are those of the group and the entry.
    BadEnum(u64, u64),
    /// A preset names a boolean that the group doesn't have, or a preset that isn't declared earlier. The numbers are those of the group
    /// and the entry.
    BadPreset(u64, u64),
    /// A group has more than 248 booleans, 255 setting bytes or 65,535 entries. The numbers are that of the group, and the three counts in
    /// this order.
    TooManySettings(u64, u64, u64, u64),
    /// Memory ran out.
    OutOfMemory,
}

impl From<AllocError> for DefinitionError {
    ghost from_gives = { λ _ e. e ≡ OutOfMemory };

    fn from(_e: AllocError) -> DefinitionError {
        DefinitionError::OutOfMemory
    }
}

impl<T: Drop> From<AllocFailed<T>> for DefinitionError {
    ghost from_gives = { λ _ e. e ≡ OutOfMemory };

    fn from(_e: AllocFailed<T>) -> DefinitionError {
        DefinitionError::OutOfMemory
    }
}

/// What the line of a fault has after its name.
#[derive(Clone, Copy)]
enum FaultDetail {
    Nothing,
    One(u64),
    Two(u64, u64),
    Four(u64, u64, u64, u64),
    At(Place),
    AtAndOne(Place, u64),
}

fn write_numbered<W: fmt::Write>(f: &mut fmt::Formatter<W>, text: &str, n: u64) -> fmt::Result
    ensures { DisplaysOnOk W.write_str_gives f.old result (Some (text.now ++ decimal n)) f.new }
{
    f.write_str(text)?;
    write!(f, "{n}")
}

/// Writes two numbers, each with a space before it.
fn write_two<W: fmt::Write>(f: &mut fmt::Formatter<W>, a: u64, b: u64) -> fmt::Result
    ensures { DisplaysOnOk W.write_str_gives f.old result (Some (fault_detail_text (Two a b))) f.new }
{
    write_numbered(f, " ", a)?;
    write_numbered(f, " ", b)
}

impl fmt::Display for Place {
    ghost use Rattle.std.specs.Prelude.{Some};
    ghost use Rattle.meta_types.specs.Fault.{place_text};

    ghost output = { λ p. Some (place_text p) };

    fn fmt<W: fmt::Write>(&self, f: &mut fmt::Formatter<W>) -> fmt::Result {
        match self {
            Place::Instruction(i) => write_numbered(f, "instruction ", *i),
            Place::Format(n) => write_numbered(f, "format ", *n),
            Place::Group(g) => write_numbered(f, "group ", *g),
            Place::Entry(g, e) => {
                write_numbered(f, "entry ", *g)?;
                write_numbered(f, " ", *e)
            }
        }
    }
}

/// Writes each number and each place after a space.
impl fmt::Display for FaultDetail {
    ghost use Rattle.std.specs.Prelude.{Some};
    ghost use Rattle.meta_types.specs.Fault.{fault_detail_text};

    ghost output = { λ d. Some (fault_detail_text d) };

    fn fmt<W: fmt::Write>(&self, f: &mut fmt::Formatter<W>) -> fmt::Result {
        match self {
            FaultDetail::Nothing => Ok(()),
            FaultDetail::One(a) => write_numbered(f, " ", *a),
            FaultDetail::Two(a, b) => write_two(f, *a, *b),
            FaultDetail::Four(a, b, c, d) => {
                write_two(f, *a, *b)?;
                write_two(f, *c, *d)
            }
            FaultDetail::At(p) => write!(f, " {p}"),
            FaultDetail::AtAndOne(p, a) => write!(f, " {p} {a}"),
        }
    }
}

/// Writes the name of the fault alone.
impl fmt::Display for DefinitionError {
    ghost use Rattle.std.specs.Prelude.{Some};
    ghost use Rattle.meta_types.specs.Fault.{fault_name};

    ghost output = { λ e. Some (fault_name e) };

    fn fmt<W: fmt::Write>(&self, f: &mut fmt::Formatter<W>) -> fmt::Result {
        f.write_str(self.name())
    }
}

/// Writes the fault's line, as `line` gives it.
impl fmt::Debug for DefinitionError {
    ghost use Rattle.std.specs.Prelude.{Some};
    ghost use Rattle.meta_types.specs.Fault.{line_of};

    ghost debug_output = { λ e. Some (line_of e) };

    fn fmt<W: fmt::Write>(&self, f: &mut fmt::Formatter<W>) -> fmt::Result {
        let (name, detail) = (self.name(), self.detail());
        write!(f, "{name}{detail}")
    }
}

impl DefinitionError {
    /// The fault in one line: its name, then its numbers, separated by single spaces, such as `FormatClash 1 0`.
    pub fn line(&self, alloc: Global) -> Result<Text, AllocError>
        ensures { IfOk result (λ t. t ≡ line_of self.now) }
    {
        let (name, detail) = (self.name(), self.detail());
        let line = format!(in alloc; "{name}{detail}")?;
        Ok(Text::of(line))
    }

    fn name(&self) -> &'static str
        ensures { result.now ≡ fault_name self.now }
    {
        match self {
            DefinitionError::BadName(_) => "BadName",
            DefinitionError::DuplicateName(_, _) => "DuplicateName",
            DefinitionError::TooManyOpcodes(_) => "TooManyOpcodes",
            DefinitionError::BadOutput(_, _) => "BadOutput",
            DefinitionError::FormatMismatch(_) => "FormatMismatch",
            DefinitionError::NoControl(_) => "NoControl",
            DefinitionError::BadSecond(_) => "BadSecond",
            DefinitionError::BadDerivation(_, _) => "BadDerivation",
            DefinitionError::TooManyOperands(_, _) => "TooManyOperands",
            DefinitionError::BadImmMethod(_) => "BadImmMethod",
            DefinitionError::BadFormat(_) => "BadFormat",
            DefinitionError::FormatClash(_, _) => "FormatClash",
            DefinitionError::TooManyTypeSets(_) => "TooManyTypeSets",
            DefinitionError::BadEnum(_, _) => "BadEnum",
            DefinitionError::BadPreset(_, _) => "BadPreset",
            DefinitionError::TooManySettings(_, _, _, _) => "TooManySettings",
            DefinitionError::OutOfMemory => "OutOfMemory",
        }
    }

    fn detail(&self) -> FaultDetail
        ensures { line_of self.now ≡ fault_name self.now ++ fault_detail_text result }
    {
        match self {
            DefinitionError::BadName(p) => FaultDetail::At(*p),
            DefinitionError::DuplicateName(p, earlier) => FaultDetail::AtAndOne(*p, *earlier),
            DefinitionError::TooManyOpcodes(n)
            | DefinitionError::FormatMismatch(n)
            | DefinitionError::NoControl(n)
            | DefinitionError::BadSecond(n)
            | DefinitionError::BadImmMethod(n)
            | DefinitionError::BadFormat(n)
            | DefinitionError::TooManyTypeSets(n) => FaultDetail::One(*n),
            DefinitionError::BadOutput(n, m)
            | DefinitionError::BadDerivation(n, m)
            | DefinitionError::TooManyOperands(n, m)
            | DefinitionError::FormatClash(n, m)
            | DefinitionError::BadEnum(n, m)
            | DefinitionError::BadPreset(n, m) => FaultDetail::Two(*n, *m),
            DefinitionError::TooManySettings(g, bools, bytes, entries) => FaultDetail::Four(
                *g, *bools, *bytes, *entries,
            ),
            DefinitionError::OutOfMemory => FaultDetail::Nothing,
        }
    }
}
