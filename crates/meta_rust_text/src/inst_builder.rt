ghost use Rattle.std.specs.Prelude.{◌≡◌, ◌++◌, OnOk, string_bytes};
ghost use Rattle.meta_operands.specs.Operand.{variables_of};
ghost use Rattle.meta_inst.specs.Operands.{AreOf};
ghost use Rattle.meta_rust_text.specs.InstBuilder.{method_with, inst_builder_text};

use super::body::body;
use super::method_arguments::arguments;
use super::method_docs::push_method_docs;
use super::results::result_type;
use super::type_parameters::type_parameters;
use meta_inst::InstructionContent;
use meta_operands::InstructionFormat;
use meta_text::fill;
use meta_typevar::TypeVars;
use std::alloc::{AllocError, Global};

const METHOD: &str = "    #[allow(non_snake_case, reason = \"generated code\")]
    fn $name$$parameters$($arguments$) -> $result$ {
$body$    }
";

const METHOD_HOLES: [&str; 5] = ["name", "parameters", "arguments", "result", "body"];

#[tactic(auto, using(crate::proofs::Templates::method_same))]
fn push_whole(
    out: &mut String,
    name: &str,
    parameters: &str,
    arguments: &str,
    given: &str,
    body: &str,
) -> Result<(), AllocError>
    ensures { OnOk result (string_bytes out.new ≡ string_bytes out.old
        ++ method_with name.now parameters.now arguments.now given.now body.now) }
{
    fill(
        out,
        METHOD,
        &METHOD_HOLES,
        &[name, parameters, arguments, given, body],
    )
}

/// Adds the method that builds the instruction, which is of this format, as `gen_inst_builder` of the crate's `gen_inst.rs` writes it. The
/// variables of its operands must be of the registry.
///
/// An instruction that is built has a control of the registry, and an operand wherever its format designates one. If the control isn't of
/// the registry, or there is no such operand, no name is written.
#[tactic(auto, unfolding(crate::specs::InstBuilder::inst_builder_text))]
pub(crate) fn push_inst_builder(
    alloc: Global,
    out: &mut String,
    vars: &TypeVars,
    instruction: &InstructionContent,
    format: &InstructionFormat,
) -> Result<(), AllocError>
    requires inputs { AreOf vars.now (variables_of instruction.now.operands_in) }
    requires outputs { AreOf vars.now (variables_of instruction.now.operands_out) }
    ensures { OnOk result (string_bytes out.new ≡ string_bytes out.old ++ inst_builder_text vars.now instruction.now format.now) }
{
    push_method_docs(alloc, out, vars, instruction)?;
    let parameters = type_parameters(alloc, instruction.operands_in())?;
    let arguments = arguments(alloc, vars, instruction, format)?;
    let given = result_type(alloc, instruction.value_results().len())?;
    let body = body(alloc, vars, instruction, format)?;
    push_whole(
        out,
        instruction.snake_name(),
        parameters.as_str(),
        arguments.as_str(),
        given.as_str(),
        body.as_str(),
    )
}
