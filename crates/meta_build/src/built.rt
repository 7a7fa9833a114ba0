ghost use Rattle.std.specs.Prelude.{◌≡◌, ◌≢◌, ◌<◌, ◌≤◌, ℕ, IfOk, IfErr, OnOk, length, map};
ghost use Rattle.meta_types.specs.declared.fault.DefinitionError.TheVariants.{OutOfMemory};
ghost use Rattle.meta_inst.specs.Faults.{FormatNameRule, OfFormat, OfTypeSets, IsFirstFault, IsValid};
ghost use Rattle.meta_settings.specs.LaidOut.{built_of};
ghost use Rattle.meta_build.specs.AllDeclared.{HasFirstFault, AreValid, AreValidGroups, IsFirstOfGroups};
ghost use Rattle.meta_build.specs.BuiltDeclarations.{AreBuilt};
ghost use Rattle.meta_build.specs.BuiltInstructions.{AreInstructionsOf};
ghost use Rattle.meta_build.specs.FormatsUsed.{AreUsedBefore, AreApart, AreOfTable};
ghost use Rattle.meta_build.specs.FormatsByName.{AreFormatsByName};
ghost use Rattle.meta_build.specs.Needed.{AreSetsByNeed};
ghost use Rattle.meta_build.specs.Searched.{IsCleanBefore};

use super::declarations::Declarations;
use super::declared_set::DeclaredSet;
use super::formats::{UsedFormat, by_name, used_formats};
use super::instructions::built_instructions;
use super::needed::needed_sets;
use meta_inst::InstructionContent;
use meta_operands::FormatId;
use meta_settings::{SettingGroup, SettingGroupBuilder};
use meta_types::DefinitionError;
use meta_typevar::TypeSet;
use meta_unique::UniqueTable;
use std::alloc::Global;
use std::marker::Model;

/// The most instructions that can be declared: opcodes are the numbers 1 to 4,095.
pub const MAX_OPCODES: usize = 4095;

/// The most type sets that instructions can need. Their places in tables have 16 bits, and 65,535 says that there is no type set.
pub const MAX_TYPE_SETS: usize = 4095;

/// What is built of an instruction set: its instructions, the formats that they use, and the type sets that they need.
#[derive(Drop)]
struct BuiltSet<'d> {
    instructions: Vec<InstructionContent>,
    formats: Vec<FormatId>,
    type_sets: UniqueTable<'d, TypeSet>,
}

fn checked_formats(alloc: Global, set: &DeclaredSet) -> Result<Vec<UsedFormat>, DefinitionError>
    requires { IsCleanBefore set.now (OfFormat 0 FormatNameRule) }
    ensures refused { IfErr result (λ e. e ≢ OutOfMemory → IsFirstFault set.now e) }
    ensures clean { OnOk result (IsCleanBefore set.now OfTypeSets) }
    ensures used { IfOk result (λ v. AreUsedBefore set.now (length set.now.instructions) v.items) }
    ensures of_table { IfOk result (λ v. AreOfTable set.now.formats v.items) }
    ensures apart { IfOk result (λ v. AreApart set.now.formats v.items) }
{
    used_formats(alloc, set.formats(), set.instructions())
}

fn formats_by_name(alloc: Global, set: &DeclaredSet) -> Result<Vec<FormatId>, DefinitionError>
    requires { IsCleanBefore set.now (OfFormat 0 FormatNameRule) }
    ensures refused { IfErr result (λ e. e ≢ OutOfMemory → IsFirstFault set.now e) }
    ensures clean { OnOk result (IsCleanBefore set.now OfTypeSets) }
    ensures formats { IfOk result (λ v. AreFormatsByName set.now v.items) }
{
    let used = checked_formats(alloc, set)?;
    Ok(by_name(alloc, set.formats(), &used)?)
}

fn build_set<'d>(alloc: Global, set: &'d DeclaredSet) -> Result<BuiltSet<'d>, DefinitionError>
    ensures refused { IfErr result (λ e. e ≢ OutOfMemory → IsFirstFault set.now e) }
    ensures valid { OnOk result (IsValid set.now) }
    ensures instructions { IfOk result (λ b. AreInstructionsOf set.now b.instructions.items) }
    ensures formats { IfOk result (λ b. AreFormatsByName set.now b.formats.items) }
    ensures type_sets { IfOk result (λ b. AreSetsByNeed set.now b.type_sets) }
    ensures few { IfOk result (λ b. length b.type_sets ≤ 4095) }
{
    let count = set.instructions().len();
    if count > MAX_OPCODES {
        return Err(DefinitionError::TooManyOpcodes(count as u64));
    }
    let instructions = built_instructions(alloc, set)?;
    let formats = formats_by_name(alloc, set)?;
    let type_sets = needed_sets(alloc, set, &instructions)?;
    if type_sets.len() > MAX_TYPE_SETS {
        return Err(DefinitionError::TooManyTypeSets(type_sets.len() as u64));
    }
    Ok(BuiltSet {
        instructions,
        formats,
        type_sets,
    })
}

fn build_groups(
    alloc: Global,
    groups: &[SettingGroupBuilder],
) -> Result<Vec<SettingGroup>, DefinitionError>
    ensures refused { IfErr result (λ e. e ≢ OutOfMemory → IsFirstOfGroups groups.now e) }
    ensures valid { OnOk result (AreValidGroups groups.now) }
    ensures built { IfOk result (λ v. v.items ≡ map built_of groups.now) }
{
    let mut built = Vec::with_capacity(alloc, groups.len())?;
    for (number, group) in groups.iter().enumerate() {
        built.push(group.build(alloc, number as u64)?)?;
    }
    Ok(built)
}

/// What is built of declarations, which it borrows: the instructions and the groups of settings, in order; the formats in use, sorted by
/// their names; and the type sets that the instructions need. Only `build_all` makes one.
#[derive(Drop)]
pub struct Built<'d> {
    declarations: &'d Declarations,
    set: BuiltSet<'d>,
    groups: Vec<SettingGroup>,
}

impl<'d> Model for Built<'d> {
    ghost use Rattle.meta_build.specs.BuiltDeclarations.{BuiltDeclarations, AreBuilt};

    ghost Value = { BuiltDeclarations };

    ghost view = { λ b. record {
      declared = b.declarations.now;
      instructions = b.set.instructions.items;
      formats = b.set.formats.items;
      groups = b.groups.items;
      type_sets = b.set.type_sets;
    } };

    ghost invariant = { λ b. AreBuilt (record {
      declared = b.declarations.now;
      instructions = b.set.instructions.items;
      formats = b.set.formats.items;
      groups = b.groups.items;
      type_sets = b.set.type_sets;
    }) };
}

impl<'d> Built<'d> {
    /// The declarations that were given. They are valid.
    pub fn declarations(&self) -> &'d Declarations
        ensures declarations { result.now ≡ self.now.declared }
        ensures valid { AreValid self.now.declared }
        ensures built { AreBuilt self.now }
    {
        self.declarations
    }

    /// The built instructions, in order.
    pub fn instructions(&self) -> &[InstructionContent]
        ensures instructions { result.now ≡ self.now.instructions }
        ensures built { AreInstructionsOf self.now.declared.set self.now.instructions }
    {
        &self.set.instructions
    }

    /// The formats in use, sorted by their names.
    pub fn formats(&self) -> &[FormatId]
        ensures formats { result.now ≡ self.now.formats }
        ensures by_name { AreFormatsByName self.now.declared.set self.now.formats }
    {
        &self.set.formats
    }

    /// The built groups of settings, in order.
    pub fn groups(&self) -> &[SettingGroup]
        ensures groups { result.now ≡ self.now.groups }
        ensures built { self.now.groups ≡ map built_of self.now.declared.groups }
    {
        &self.groups
    }

    /// The type sets that the instructions need, each once, in the order in which they are first needed. There are at most 4,095.
    pub fn type_sets(&self) -> &UniqueTable<'d, TypeSet>
        ensures type_sets { result.now ≡ self.now.type_sets }
        ensures needed { AreSetsByNeed self.now.declared.set self.now.type_sets }
        ensures few { length self.now.type_sets ≤ 4095 }
    {
        &self.set.type_sets
    }
}

/// Builds the declarations. Those with a fault are refused, and no others: the error is their first fault, with its numbers. `OutOfMemory`
/// may come in any case.
pub fn build_all<'d>(
    alloc: Global,
    declarations: &'d Declarations,
) -> Result<Built<'d>, DefinitionError>
    ensures refused { IfErr result (λ e. e ≢ OutOfMemory → HasFirstFault declarations.now e) }
    ensures valid { OnOk result (AreValid declarations.now) }
    ensures declarations { IfOk result (λ b. b.declared ≡ declarations.now) }
{
    // The clauses of these calls say that the instructions are of the variables, which are a registry, and of the formats.
    let _vars = declarations.vars();
    let _instructions = declarations.instructions();
    let set = build_set(alloc, declarations.set())?;
    let groups = build_groups(alloc, declarations.groups())?;
    Ok(Built {
        declarations,
        set,
        groups,
    })
}
