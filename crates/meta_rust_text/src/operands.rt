ghost use Rattle.std.specs.Prelude.{◌≡◌, ◌<◌, ℕ, Some, length, slice_get};
ghost use Rattle.std.specs.List.{list_any};
ghost use Rattle.meta_inst.specs.FormatMatch.{is_block_operand};
ghost use Rattle.meta_inst.specs.InstructionSet.{AreOfRegistries};
ghost use Rattle.meta_operands.specs.Operand.{variable_of, doc_at};
ghost use Rattle.meta_rust_text.specs.MethodArguments.{asked_control};
ghost use Rattle.meta_rust_text.specs.Operands.{is_converted, is_mem_flags, variable_name, operand_doc};

use super::docs::first_line;
use meta_build::Declarations;
use meta_inst::PolymorphicInfo;
use meta_operands::Operand;
use meta_typevar::{TypeVar, TypeVars};

/// Whether the argument for the operand is converted to the operand's type: it is an immediate, and no block.
pub(crate) fn is_converted(operand: &Operand) -> bool
    ensures { result ≡ is_converted operand.now }
{
    !operand.kind.is_block() && (!operand.kind.is_raw_block() && operand.is_immediate())
}

/// Whether the operand is flags of a memory access, which are stored outside of the instruction.
pub(crate) fn is_mem_flags(operand: &Operand) -> bool
    ensures { result ≡ is_mem_flags operand.now }
{
    operand.kind.rust_type.as_str() == "ir::MemFlags"
}

pub(crate) fn has_block(operands: &[Operand]) -> bool
    ensures { result ≡ list_any is_block_operand operands.now }
{
    operands.iter().any(|o| o.kind.is_block())
}

pub(crate) fn has_mem_flags(operands: &[Operand]) -> bool
    ensures { result ≡ list_any is_mem_flags operands.now }
{
    operands.iter().any(|o| is_mem_flags(o))
}

/// The documentation of the operand, as it is printed. If the operand is a value, its variable must be of the registry.
#[tactic(auto, unfolding(crate::specs::Operands::operand_doc))]
pub(crate) fn operand_doc<'a>(vars: &'a TypeVars, operand: &'a Operand) -> &'a str
    requires { (tv : ℕ) → variable_of operand.now ≡ Some tv → tv < length vars.now }
    ensures { result.now ≡ operand_doc vars.now operand.now }
{
    first_line(operand.doc(vars))
}

/// The variable that controls an instruction, if the method that builds the instruction takes its type as an argument: if the type isn't
/// that of the designated operand.
pub fn asked_control(info: Option<PolymorphicInfo>) -> Option<TypeVar>
    ensures { result ≡ asked_control info }
{
    let info = info?;
    if info.use_typevar_operand {
        return None;
    }
    Some(info.ctrl_typevar)
}

/// The name of the variable. It is empty if the variable isn't of the registry.
pub fn variable_name(vars: &TypeVars, tv: TypeVar) -> &str
    ensures { result.now ≡ variable_name vars.now tv }
{
    if !vars.is_of(tv) {
        return "";
    }
    vars.content(tv).name.as_str()
}

/// The documentation of the variable. It is empty if the variable isn't of the registry.
pub fn variable_doc(vars: &TypeVars, tv: TypeVar) -> &str
    ensures { result.now ≡ doc_at (slice_get vars.now tv) }
{
    if !vars.is_of(tv) {
        return "";
    }
    vars.content(tv).doc.as_str()
}

/// The type variables of the declarations. The variables of the instructions' operands are of this registry.
pub fn variables(declarations: &Declarations) -> &TypeVars
    ensures vars { result.now ≡ declarations.now.set.vars }
    ensures fits { AreOfRegistries declarations.now.set.vars declarations.now.set.formats declarations.now.set.instructions }
{
    // by the contract of `instructions`, their variables are of the registry
    let _instructions = declarations.instructions();
    declarations.vars()
}
