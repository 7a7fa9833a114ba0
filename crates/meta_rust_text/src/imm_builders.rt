ghost use Rattle.std.specs.Prelude.{◌≡◌, ◌++◌, IfOk, OnOk, string_bytes};
ghost use Rattle.meta_operands.specs.Operand.{variables_of};
ghost use Rattle.meta_inst.specs.Operands.{AreOf};
ghost use Rattle.meta_rust_text.specs.ImmBuilders.{suffix_of, extends_sign, extension_of, truth_of, mark_text};
ghost use Rattle.meta_rust_text.specs.ImmBuilders.{extending_text, imm_method_text, three_methods_text, was_signed};
ghost use Rattle.meta_rust_text.specs.ImmBuilders.{methods_of, imm_builders_text};

use super::imm_inputs::{input_arguments, input_docs, input_names};
use super::names::operand_name;
use meta_inst::InstructionContent;
use meta_text::{fill, push_gap};
use meta_typevar::TypeVars;
use std::alloc::{AllocError, Global};
use std::marker::Model;

/// A method that takes an immediate (`gen_one_imm_inst_builder`).
const IMM_METHOD: &str =
    "    /// Convenience method that is like [`$name$`][Self::$name$], but takes its trailing operand as an immediate integer constant which is materialized with an `iconst` and $extension$ to the controlling type.
    ///
    /// Inputs:
    ///
$docs$$mark$    #[allow(non_snake_case, reason = \"generated code\")]
    fn $name$$suffix$<T: Into<ir::immediates::Imm64>>(mut self$arguments$) -> Value {
        let $immediate$ = $immediate$.into();
        let imm_ty = self.data_flow_graph().value_type($control$);
        let $immediate$ = self.build_imm_const(imm_ty, $immediate$, $signed$);
        self.$name$($inputs$)
    }
";

const IMM_METHOD_HOLES: [&str; 10] = [
    "name",
    "control",
    "immediate",
    "docs",
    "arguments",
    "inputs",
    "mark",
    "suffix",
    "extension",
    "signed",
];

/// One of the methods of an instruction that take an immediate.
#[derive(Clone, Copy)]
pub(crate) enum Method {
    SignExtends,
    ZeroExtends,
    /// The method that does what an older form of the instruction did.
    Deprecated,
}

impl Method {
    /// What comes after the name of the instruction in the name of the method.
    fn suffix(self) -> &'static str
        ensures { result.now ≡ suffix_of self }
    {
        match self {
            Method::SignExtends => "_imm_s",
            Method::ZeroExtends => "_imm_u",
            Method::Deprecated => "_imm",
        }
    }

    /// Whether the method extends the sign. `was_signed` says whether the older form of the instruction did so.
    fn extends_sign(self, was_signed: bool) -> bool
        ensures { result ≡ extends_sign self was_signed }
    {
        match self {
            Method::SignExtends => true,
            Method::ZeroExtends => false,
            Method::Deprecated => was_signed,
        }
    }
}

/// How the immediate is extended, in words.
fn extension(extends_sign: bool) -> &'static str
    ensures { result.now ≡ extension_of extends_sign }
{
    if extends_sign {
        return "sign-extended";
    }
    "zero-extended"
}

/// Whether the sign is extended, as a word of the language.
fn truth(extends_sign: bool) -> &'static str
    ensures { result.now ≡ truth_of extends_sign }
{
    if extends_sign {
        return "true";
    }
    "false"
}

#[derive(Drop)]
struct ImmMethods<'i> {
    /// The name of the instruction in code.
    name: &'i str,
    /// Whether its older form extended the sign.
    signed: bool,
    /// The name of the first value input, which gives the type of the number.
    control: &'i str,
    /// The name of the last value input, which is taken as an immediate.
    immediate: &'i str,
    docs: String,
    /// The arguments for the inputs, each after a comma and a space.
    arguments: String,
    /// The names of the inputs, separated by a comma and a space.
    inputs: String,
}

impl<'i> Model for ImmMethods<'i> {
    ghost use Rattle.std.specs.Prelude.{string_bytes};
    ghost use Rattle.meta_rust_text.specs.ImmBuilders.{ImmMethods};

    ghost Value = { ImmMethods };

    ghost view = { λ m. record {
      name = m.name.now;
      signed = m.signed;
      control = m.control.now;
      immediate = m.immediate.now;
      docs = string_bytes m.docs;
      arguments = string_bytes m.arguments;
      inputs = string_bytes m.inputs;
    } };
}

#[tactic(auto, unfolding(crate::specs::ImmBuilders::mark_text))]
fn mark(alloc: Global, name: &str, method: Method) -> Result<String, AllocError>
    ensures { IfOk result (λ text. string_bytes text ≡ mark_text name.now method) }
{
    match method {
        Method::SignExtends | Method::ZeroExtends => Ok(String::new(alloc)),
        Method::Deprecated => format!(in alloc;
            "    #[deprecated(note = \"use `{name}_imm_s` (sign-extends the immediate) or `{name}_imm_u` (zero-extends the immediate) instead\")]\n"
        ),
    }
}

/// Adds a method with this mark, whose name ends in this suffix. It extends the immediate as the last two texts say.
fn push_extending<'x>(
    out: &mut String,
    methods: &'x ImmMethods<'x>,
    mark: &'x str,
    suffix: &'x str,
    extension: &'x str,
    signed: &'x str,
) -> Result<(), AllocError>
    ensures { OnOk result (string_bytes out.new ≡ string_bytes out.old
        ++ extending_text methods.now mark.now suffix.now extension.now signed.now) }
{
    fill(
        out,
        IMM_METHOD,
        &IMM_METHOD_HOLES,
        &[
            methods.name,
            methods.control,
            methods.immediate,
            methods.docs.as_str(),
            methods.arguments.as_str(),
            methods.inputs.as_str(),
            mark,
            suffix,
            extension,
            signed,
        ],
    )
}

/// Adds a method (`gen_one_imm_inst_builder` of `gen_inst.rs`).
#[tactic(auto, unfolding(crate::specs::ImmBuilders::imm_method_text))]
fn push_method(
    alloc: Global,
    out: &mut String,
    methods: &ImmMethods<'_>,
    method: Method,
) -> Result<(), AllocError>
    ensures { OnOk result (string_bytes out.new ≡ string_bytes out.old ++ imm_method_text methods.now method) }
{
    let mark = mark(alloc, methods.name, method)?;
    let extends_sign = method.extends_sign(methods.signed);
    push_extending(
        out,
        methods,
        mark.as_str(),
        method.suffix(),
        extension(extends_sign),
        truth(extends_sign),
    )
}

#[tactic(auto, unfolding(crate::specs::ImmBuilders::three_methods_text))]
fn push_methods(alloc: Global, out: &mut String, methods: &ImmMethods<'_>) -> Result<(), AllocError>
    ensures { OnOk result (string_bytes out.new ≡ string_bytes out.old ++ three_methods_text methods.now) }
{
    push_method(alloc, out, methods, Method::SignExtends)?;
    push_gap(out)?;
    push_method(alloc, out, methods, Method::ZeroExtends)?;
    push_gap(out)?;
    push_method(alloc, out, methods, Method::Deprecated)
}

/// Whether an instruction of this name had a form with an immediate that extended its sign.
fn was_signed(name: &str) -> bool
    ensures { result ≡ was_signed name.now }
{
    name == "iadd" || name == "imul" || name == "sdiv" || name == "srem" || name == "icmp"
}

fn methods_of<'i>(
    alloc: Global,
    vars: &TypeVars,
    instruction: &'i InstructionContent,
    first: usize,
    last: usize,
) -> Result<ImmMethods<'i>, AllocError>
    requires { AreOf vars.now (variables_of instruction.now.operands_in) }
    ensures { IfOk result (λ m. m ≡ methods_of vars.now instruction.now first last) }
{
    let inputs = instruction.operands_in();
    Ok(ImmMethods {
        name: instruction.snake_name(),
        signed: was_signed(instruction.name().as_str()),
        control: operand_name(inputs, first),
        immediate: operand_name(inputs, last),
        docs: input_docs(alloc, vars, inputs, last)?,
        arguments: input_arguments(alloc, inputs, last)?,
        inputs: input_names(alloc, inputs)?,
    })
}

/// Adds the three methods of an instruction that take its last value input as an immediate, as `gen_imm_inst_builder` of the crate's
/// `gen_inst.rs` writes them. There is an empty line between each two, and none around them. The variables of the inputs must be of the
/// registry.
///
/// Whether the instruction asks for the methods is given by its `inst_builder_imm_method`. An instruction that asks for them, and is built,
/// has the shape for them. For an instruction without value inputs nothing is written.
#[tactic(auto, unfolding(crate::specs::ImmBuilders::imm_builders_text))]
pub(crate) fn push_imm_builders(
    alloc: Global,
    out: &mut String,
    vars: &TypeVars,
    instruction: &InstructionContent,
) -> Result<(), AllocError>
    requires { AreOf vars.now (variables_of instruction.now.operands_in) }
    ensures { OnOk result (string_bytes out.new ≡ string_bytes out.old ++ imm_builders_text vars.now instruction.now) }
{
    let places = instruction.value_opnums();
    let Some(first) = places.first() else {
        return Ok(());
    };
    let Some(last) = places.last() else {
        return Ok(());
    };
    let methods = methods_of(alloc, vars, instruction, *first, *last)?;
    push_methods(alloc, out, &methods)
}
