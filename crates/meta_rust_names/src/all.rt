ghost use Rattle.std.specs.Prelude.{◌≡◌, ◌++◌, ℕ, List, IfOk, OnOk};
ghost use Rattle.meta_rust_names.specs.Known.{known};
ghost use Rattle.meta_rust_names.specs.Methods.{is_among, format_names, imm_methods};
ghost use Rattle.meta_rust_names.specs.Instructions.{instructions_refused};
ghost use Rattle.meta_rust_names.specs.Formats.{formats_refused};
ghost use Rattle.meta_rust_names.specs.AllRefused.{refused_names};

use super::formats::push_formats;
use super::groups::push_groups;
use super::instructions::{Others, push_instructions};
use super::methods::{format_names, imm_methods, instruction_methods};
use super::names::Names;
use super::refused::RefusedName;
use meta_build::Built;
use meta_rust_text::variables;
use std::alloc::{AllocError, Global};

/// The names that instructions can't have, since other methods have them.
fn others(alloc: Global, built: &Built<'_>) -> Result<Others, AllocError>
    ensures formats { IfOk result (λ others. (text : List ℕ) → known others.formats text
        ≡ is_among (format_names built.now.declared.set.formats built.now.formats) text) }
    ensures imm_methods { IfOk result (λ others. (text : List ℕ) → known others.imm_methods text
        ≡ is_among (imm_methods built.now.instructions) text) }
{
    Ok(Others {
        formats: format_names(alloc, built.declarations().formats(), built.formats())?,
        imm_methods: imm_methods(alloc, built.instructions())?,
    })
}

#[tactic(auto, unfolding(crate::specs::Instructions::instructions_refused))]
fn push_all_instructions(
    alloc: Global,
    out: &mut Vec<RefusedName>,
    built: &Built<'_>,
    others: &Others,
) -> Result<(), AllocError>
    requires formats { (text : List ℕ) → known others.now.formats text
        ≡ is_among (format_names built.now.declared.set.formats built.now.formats) text }
    requires imm_methods { (text : List ℕ) → known others.now.imm_methods text ≡ is_among (imm_methods built.now.instructions) text }
    ensures { OnOk result (out.new.items ≡ out.old.items ++ instructions_refused built.now) }
{
    let declarations = built.declarations();
    let (vars, formats) = (variables(declarations), declarations.formats());
    push_instructions(alloc, out, others, vars, formats, built.instructions())
}

#[tactic(auto, unfolding(crate::specs::Formats::formats_refused))]
fn push_all_formats(
    alloc: Global,
    out: &mut Vec<RefusedName>,
    built: &Built<'_>,
    imm: &Names,
) -> Result<(), AllocError>
    requires { (text : List ℕ) → known imm.now text ≡ is_among (imm_methods built.now.instructions) text }
    ensures { OnOk result (out.new.items ≡ out.old.items ++ formats_refused built.now) }
{
    let methods = instruction_methods(alloc, built.instructions())?;
    let formats = built.declarations().formats();
    push_formats(alloc, out, &methods, imm, formats, built.formats())
}

/// All names of the declarations with which the texts of Rust don't compile, in order, each with its first reason: names of instructions,
/// of the formats in use, and of groups of settings.
///
/// Texts of declarations without such a name compile if the crate that includes them has what they name, and if no variant, constant,
/// static or tuple structure in scope has the name of a parameter, a field or a variable. Some things aren't a matter of names
/// (`docs/USING.md`): no instruction at all; a Rust type that differs between an immediate and its field, or that a type parameter of a
/// method hides; flags of a memory access beside methods that take an immediate; two groups of settings in one module; a format with both
/// sorts of blocks; blocks and immediates in another order than the format's constructor has; and an operand whose one type is a vector of
/// more than 512 bits.
///
/// The cost is the length of the names and their documentation, and the logarithm of their count.
#[tactic(auto, unfolding(crate::specs::AllRefused::refused_names))]
pub fn refused_names(alloc: Global, built: &Built<'_>) -> Result<Vec<RefusedName>, AllocError>
    ensures { IfOk result (λ v. v.items ≡ refused_names built.now) }
{
    let others = others(alloc, built)?;
    let mut out = Vec::new(alloc);
    push_all_instructions(alloc, &mut out, built, &others)?;
    push_all_formats(alloc, &mut out, built, &others.imm_methods)?;
    push_groups(alloc, &mut out, built.groups())?;
    Ok(out)
}
