ghost use Rattle.std.specs.Prelude.{◌≡◌, ◌↔◌, List, IfOk, IsTrue};
ghost use Rattle.meta_file_syntax.specs.declared.items.Item.{Item as spec_Item};
ghost use Rattle.meta_build.specs.AllDeclared.{Declared};
ghost use Rattle.meta_file_declare.specs.AllItems.{Declares};
ghost use Rattle.meta_rust_text.specs.SettingsText.{settings_text};
ghost use Rattle.meta_rust_text.specs.BuilderText.{builder_text};
ghost use Rattle.meta_rust_text.specs.InstructionsText.{instructions_text};
ghost use Rattle.meta_file_describe.specs.Described.{HaveSameTables, HaveSameTexts, AreBuiltAlike, Describes};

use meta_build::{Built, Declarations, build_all, one_built, one_first_fault};
use meta_file_declare::{DeclareError, declare, items_say_one_thing, one_declaration};
use meta_file_syntax::Item;
use meta_gen::{one_table_of_declarations, tables_of};
use meta_rust_text::{builder_text, instructions_text, settings_text};
use meta_types::DefinitionError;
use std::alloc::{AllocError, Global};

pub(crate) fn are_same(one: &[u8], other: &[u8]) -> bool
    ensures { IsTrue result ↔ (one.now ≡ other.now) }
{
    one == other
}

#[tactic(auto, using(crate::proofs::Alike::same_tables, crate::proofs::Alike::tables_alike, crate::proofs::BuiltAlike::tables_stay))]
fn have_same_tables(alloc: Global, built: &Built<'_>, other: &Built<'_>) -> Result<bool, AllocError>
    ensures same { IfOk result (λ same. IsTrue same ↔ HaveSameTables built.now.declared other.now.declared) }
    ensures alike { AreBuiltAlike built.now.declared other.now.declared → IfOk result IsTrue }
{
    one_table_of_declarations();
    // Their clauses say that the variables have sets of types.
    let (_vars, _others) = (built.declarations().vars(), other.declarations().vars());
    let tables = tables_of(alloc, built)?;
    let others = tables_of(alloc, other)?;
    Ok(tables.same(&others))
}

fn have_same_settings(
    alloc: Global,
    built: &Built<'_>,
    other: &Built<'_>,
) -> Result<bool, AllocError>
    ensures { IfOk result (λ same. IsTrue same ↔ (settings_text built.now.groups ≡ settings_text other.now.groups)) }
{
    let text = settings_text(alloc, built.groups())?;
    let others = settings_text(alloc, other.groups())?;
    Ok(are_same(text.as_bytes(), others.as_bytes()))
}

fn have_same_instructions(
    alloc: Global,
    built: &Built<'_>,
    other: &Built<'_>,
) -> Result<bool, AllocError>
    ensures { IfOk result (λ same. IsTrue same ↔ (instructions_text built.now ≡ instructions_text other.now)) }
{
    let text = instructions_text(alloc, built)?;
    let others = instructions_text(alloc, other)?;
    Ok(are_same(text.as_bytes(), others.as_bytes()))
}

fn have_same_builder(
    alloc: Global,
    built: &Built<'_>,
    other: &Built<'_>,
) -> Result<bool, AllocError>
    ensures { IfOk result (λ same. IsTrue same ↔ (builder_text built.now ≡ builder_text other.now)) }
{
    let text = builder_text(alloc, built)?;
    let others = builder_text(alloc, other)?;
    Ok(are_same(text.as_bytes(), others.as_bytes()))
}

#[tactic(auto, using(crate::proofs::Alike::same_texts, crate::proofs::Alike::texts_alike, crate::proofs::BuiltAlike::texts_of_both))]
fn have_same_texts(alloc: Global, built: &Built<'_>, other: &Built<'_>) -> Result<bool, AllocError>
    ensures same { IfOk result (λ same. IsTrue same ↔ HaveSameTexts built.now.declared other.now.declared) }
    ensures alike { AreBuiltAlike built.now.declared other.now.declared → IfOk result IsTrue }
{
    one_built();
    // Their clauses say that the parts are what is built of the declarations.
    let (_declarations, _others) = (built.declarations(), other.declarations());
    let settings = have_same_settings(alloc, built, other)?;
    let instructions = have_same_instructions(alloc, built, other)?;
    let builder = have_same_builder(alloc, built, other)?;
    Ok(settings && instructions && builder)
}

fn are_alike(alloc: Global, built: &Built<'_>, other: &Built<'_>) -> Result<bool, AllocError>
    ensures same { let d = built.now.declared in let e = other.now.declared in
        IfOk result (λ same. IsTrue same ↔ (HaveSameTables d e × HaveSameTexts d e)) }
    ensures alike { AreBuiltAlike built.now.declared other.now.declared → IfOk result IsTrue }
{
    let tables = have_same_tables(alloc, built, other)?;
    let texts = have_same_texts(alloc, built, other)?;
    Ok(tables && texts)
}

#[tactic(auto, using(crate::proofs::Alike::describes, crate::proofs::Alike::described))]
fn are_declared_alike(
    alloc: Global,
    built: &Built<'_>,
    declarations: &Declarations,
) -> Result<bool, AllocError>
    ensures describes { (items : List spec_Item) → Declares items declarations.now
        → IfOk result (λ alike. IsTrue alike ↔ Describes items built.now.declared) }
    ensures alike { AreBuiltAlike built.now.declared declarations.now → IfOk result IsTrue }
{
    one_declaration();
    one_first_fault();
    match build_all(alloc, declarations) {
        Ok(other) => are_alike(alloc, built, &other),
        Err(DefinitionError::OutOfMemory) => Err(AllocError),
        Err(_) => Ok(false),
    }
}

/// Whether the items describe the declarations, of which `built` is built: nothing is wrong with them, and what they declare has the same
/// tables and the same texts of Rust source.
pub fn is_described(alloc: Global, built: &Built<'_>, items: &[Item]) -> Result<bool, AllocError>
    ensures describes { IfOk result (λ described. IsTrue described ↔ Describes items.now built.now.declared) }
    // Items that declare something of which the same is built describe them.
    ensures alike { (e : Declared) → Declares items.now e → AreBuiltAlike built.now.declared e → IfOk result IsTrue }
{
    items_say_one_thing();
    one_declaration();
    match declare(alloc, items) {
        Ok(declarations) => are_declared_alike(alloc, built, &declarations),
        Err(DeclareError::Memory) => Err(AllocError),
        Err(DeclareError::Refused(_, _)) => Ok(false),
    }
}
