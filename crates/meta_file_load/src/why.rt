ghost use Rattle.std.specs.Prelude.{◌≡◌, IfOk};
ghost use Rattle.meta_file_load.specs.Why.{meaning_of, fault_why, located};

use meta_file_syntax::Bytes;
use meta_types::DefinitionError;
use std::alloc::{AllocError, Global};

fn meaning_of(fault: &DefinitionError) -> &'static str
    ensures { result.now ≡ meaning_of fault.now }
{
    match fault {
        DefinitionError::BadName(_) => {
            "a name is a letter followed by letters, digits or _, and a description has no quote, backslash or other than printed ASCII"
        }
        DefinitionError::DuplicateName(_, _) => {
            "the name, or the name in camel case, stands earlier"
        }
        DefinitionError::TooManyOpcodes(_) => "there are at most 4095 instructions",
        DefinitionError::BadOutput(_, _) => "an output is a value or varargs",
        DefinitionError::FormatMismatch(_) => "the inputs are not what the format stores",
        DefinitionError::NoControl(_) => "no operand decides the types of the others",
        DefinitionError::BadSecond(_) => {
            "the second control has to be an underived type of an operand"
        }
        DefinitionError::BadDerivation(_, _) => "the type is derived from another than a control",
        DefinitionError::TooManyOperands(_, _) => {
            "there are at most seven value results and seven value inputs"
        }
        DefinitionError::BadImmMethod(_) => {
            "imm_method asks for one result, two values or more, and no varargs"
        }
        DefinitionError::BadFormat(_) => "a format has at most two blocks and one raw block",
        DefinitionError::FormatClash(_, _) => {
            "an earlier format in use has the name or stores the same"
        }
        DefinitionError::TooManyTypeSets(_) => "there are at most 4095 distinct sets of types",
        DefinitionError::BadEnum(_, _) => "an enum has one to 256 values with different names",
        DefinitionError::BadPreset(_, _) => "a preset names what its group has not",
        DefinitionError::TooManySettings(_, _, _, _) => {
            "there are at most 248 booleans, 255 bytes and 65535 entries"
        }
        DefinitionError::OutOfMemory => "memory ran out",
    }
}

/// The name of a fault, and what it means, in words.
pub fn fault_why(alloc: Global, fault: &DefinitionError) -> Result<Vec<u8>, AllocError>
    ensures { IfOk result (λ v. v.items ≡ fault_why fault.now) }
{
    let line = fault.line(alloc)?;
    let mut out = Vec::new(alloc);
    out.extend_from_slice(line.as_bytes())?;
    out.extend_from_slice(b": ")?;
    out.extend_from_slice(meaning_of(fault).as_bytes())?;
    Ok(out)
}

/// The message: `PATH:LINE: WHY`.
pub fn located(alloc: Global, path: &[u8], line: usize, why: &[u8]) -> Result<Bytes, AllocError>
    ensures { IfOk result (λ message. message ≡ located path.now line why.now) }
{
    let number = format!(in alloc; "{line}")?;
    let mut out = Vec::new(alloc);
    out.extend_from_slice(path)?;
    out.extend_from_slice(b":")?;
    out.extend_from_slice(number.as_bytes())?;
    out.extend_from_slice(b": ")?;
    out.extend_from_slice(why)?;
    Ok(Bytes::of(out))
}
