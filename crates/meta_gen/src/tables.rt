ghost use Rattle.std.specs.Prelude.{◌≡◌, ◌≢◌, ◌↔◌, ◌≤◌, ◌+◌, ◌<◌, ℕ, List, Option, All, IsTrue, IsSome, IfSome, IfNone, length, map, take};
ghost use Rattle.std.specs.Prelude.{drop, slice_get, slice_index_or, None, Some, false};
ghost use Rattle.std.specs.Option.{option_map};
ghost use Rattle.meta_lists.specs.First.{IsFirst};
ghost use Rattle.meta_typevar.specs.Registry.{HoldTypeSets};
ghost use Rattle.meta_inst.specs.InstructionSet.{InstructionSet};
ghost use Rattle.meta_settings.specs.Layout.{Layout};
ghost use Rattle.meta_inst.specs.Tables.{at_opcode, Allows};
ghost use Rattle.meta_gen.specs.TablesOf.{AreTablesOf, AcceptsOpcode};
ghost use Rattle.meta_gen.specs.Constraint.{number_constraint_of, entry_of};
ghost use Rattle.meta_gen.specs.Contents.{IsOpcode, IsOpcodeNamed};
ghost use Rattle.meta_gen.specs.Found.{IsDeclaredAs, FindsName};
ghost use Rattle.meta_gen.specs.Inferred.{InfersControl, HasControlType};
ghost use Rattle.meta_gen.specs.InfersResults.{InfersResults};
ghost use Rattle.meta_setting_tables.specs.declared.descriptor.Descriptor.{Descriptor};
ghost use Rattle.meta_setting_tables.specs.Descriptor.{DescribesEntry};
ghost use Rattle.meta_unique.specs.NameSlots.{AreNameSlots, IsNameLookup};
ghost use Rattle.meta_setting_tables.specs.FoundSetting.{laid_entry_count, FindsEntry};
ghost use Rattle.meta_setting_tables.specs.PresetMasks.{AreJoined};
ghost use Rattle.meta_setting_tables.specs.GroupTables.{names_in, IsPresetIn, AreTablesOfGroup, default_in, AnswersDefault, Applies};
ghost use Rattle.meta_build.specs.AllDeclared.{Declared};
ghost use Rattle.meta_gen.specs.WellFormedOpcodes.{IsWellFormedOpcodes};
ghost use Rattle.meta_setting_tables.specs.WellFormed.{IsWellFormedGroup};
ghost use Rattle.meta_gen.specs.WellFormed.{IsWellFormed};
ghost use Rattle.meta_gen.specs.WholeTables.{OfGroup, HasNoGroup, part_in, AreWholeTablesOf, FindsSetting};

use super::constraint::{Constraint, OpcodeConstraints};
use super::opcode_tables::OpcodeTables;
use super::same::same_groups;
use meta_setting_tables::{Descriptor, GroupTables};
use meta_types::Text;
use meta_typevar::Masks;
use meta_unique::Steps;
use std::marker::Model;
use std::sync::ledger::Ledger;

/// The tables of declarations.
///
/// For each opcode, from 1, they have its name, the name of its format and its constraints. Beside these they have the type sets and the
/// one list of operand constraints, which the constraints refer to, and the slots by which a name is looked up. For each group of settings,
/// from 0, they have its entries, from 0, and what a look-up of an entry needs. They are well-formed: no reference points to something that
/// is missing.
#[derive(Debug, Drop)]
pub struct Tables {
    opcodes: OpcodeTables,
    groups: Vec<GroupTables>,
}

impl Model for Tables {
    ghost use Rattle.meta_gen.specs.WholeTables.{WholeTables};
    ghost use Rattle.meta_gen.specs.WellFormed.{IsWellFormed};

    ghost Value = { WholeTables };

    ghost view = { λ t. record { opcodes = t.opcodes; groups = t.groups.items } };

    ghost invariant = { λ t. IsWellFormed (record { opcodes = t.opcodes; groups = t.groups.items }) };
}

impl Tables {
    pub(crate) fn new(opcodes: OpcodeTables, groups: Vec<GroupTables>) -> Tables
        requires opcodes { IsWellFormedOpcodes opcodes }
        requires groups { All IsWellFormedGroup groups.items }
        ensures { result ≡ record { opcodes = opcodes; groups = groups.items } }
    {
        Tables { opcodes, groups }
    }

    /// The tables of the opcodes.
    pub fn opcodes(&self) -> &OpcodeTables
        ensures { result.now ≡ self.now.opcodes }
    {
        &self.opcodes
    }

    /// How many opcodes there are, at most 4,095. They are the numbers from 1 to this count.
    pub fn opcode_count(&self) -> u16
        ensures count { result ≡ length self.now.opcodes.entries }
        ensures named { length self.now.opcodes.names ≡ length self.now.opcodes.entries }
        ensures few { length self.now.opcodes.entries ≤ 4095 }
        ensures well_formed { IsWellFormed self.now }
    {
        self.opcodes.opcode_count()
    }

    /// How many groups of settings there are. Their numbers begin with 0.
    pub fn group_count(&self) -> usize
        ensures { result ≡ length self.now.groups }
    {
        self.groups.len()
    }

    /// Whether these tables and the others are equal in all parts.
    pub fn same(&self, other: &Tables) -> bool
        ensures { IsTrue result ↔ (self.now ≡ other.now) }
    {
        self.opcodes.same(&other.opcodes) && same_groups(&self.groups, &other.groups)
    }

    /// The type sets. Constraints name them by their places here.
    pub fn type_sets(&self) -> &[Masks]
        ensures { result.now ≡ self.now.opcodes.type_sets }
    {
        self.opcodes.type_sets()
    }

    /// The one list of operand constraints. The constraints of an opcode say where its own begin.
    pub fn operand_constraints(&self) -> &[Constraint]
        ensures { map number_constraint_of result.now ≡ self.now.opcodes.operand_constraints }
    {
        self.opcodes.operand_constraints()
    }

    /// The constraints of an opcode. `None` exactly if `opcode` isn't 1 to `opcode_count`.
    pub fn constraints(&self, opcode: u16) -> Option<OpcodeConstraints>
        ensures opcode { IsSome result ↔ IsOpcode self.now.opcodes opcode }
        ensures entry { IfSome result (λ e. at_opcode self.now.opcodes.entries opcode ≡ Some (entry_of e)) }
        ensures meaning { (d : InstructionSet) → AreTablesOf d self.now.opcodes
            → IfSome result (λ e. IsDeclaredAs d self.now.opcodes opcode (entry_of e)) }
    {
        self.opcodes.constraints(opcode)
    }

    /// The name of an opcode. `None` exactly if `opcode` isn't 1 to `opcode_count`.
    pub fn opcode_name(&self, opcode: u16) -> Option<&Text>
        ensures opcode { IsSome result ↔ IsOpcode self.now.opcodes opcode }
        ensures name { IfSome result (λ name. at_opcode self.now.opcodes.names opcode ≡ Some name.now) }
        ensures none { IfNone result (at_opcode self.now.opcodes.names opcode ≡ None) }
    {
        self.opcodes.opcode_name(opcode)
    }

    /// The name of the format of an opcode. `None` exactly if `opcode` isn't 1 to `opcode_count`.
    pub fn opcode_format(&self, opcode: u16) -> Option<&Text>
        ensures opcode { IsSome result ↔ IsOpcode self.now.opcodes opcode }
        ensures format { IfSome result (λ name. at_opcode self.now.opcodes.formats opcode ≡ Some name.now) }
        ensures none { IfNone result (at_opcode self.now.opcodes.formats opcode ≡ None) }
    {
        self.opcodes.opcode_format(opcode)
    }

    /// The slots that a look-up of a name probes. The place of each opcode follows from the hash of its name and from the opcodes before
    /// it.
    pub fn opcode_slots(&self) -> &[Option<u16>]
        ensures slots { result.now ≡ self.now.opcodes.opcode_slots }
        ensures names { AreNameSlots 1 self.now.opcodes.names self.now.opcodes.opcode_slots }
    {
        self.opcodes.opcode_slots()
    }

    /// The opcode that has the name, of which there is at most one. `None` exactly if no opcode has it. The cost is the length of the name,
    /// and that of the look-up in the slots.
    pub fn find_opcode(&self, name: &[u8]) -> Option<u16>
        ensures found { IfSome result (IsFirst (IsOpcodeNamed self.now.opcodes.names name.now)) }
        ensures finds { (op : ℕ) → at_opcode self.now.opcodes.names op ≡ Some name.now → result ≡ Some op }
        ensures none { IfNone result ((k : ℕ) → at_opcode self.now.opcodes.names k ≢ Some name.now) }
        ensures findings { (d : InstructionSet) → AreTablesOf d self.now.opcodes → FindsName d name.now result }
    {
        self.opcodes.find_opcode(name)
    }

    /// Finds an opcode as `find_opcode` does. `steps` rises by the number of slots that were looked at.
    pub fn find_opcode_counted<L: Ledger>(&self, name: &[u8], steps: &mut Steps<L>) -> Option<u16>
        ensures found { IfSome result (IsFirst (IsOpcodeNamed self.now.opcodes.names name.now)) }
        ensures finds { (op : ℕ) → at_opcode self.now.opcodes.names op ≡ Some name.now → result ≡ Some op }
        ensures none { IfNone result ((k : ℕ) → at_opcode self.now.opcodes.names k ≢ Some name.now) }
        ensures findings { (d : InstructionSet) → AreTablesOf d self.now.opcodes → FindsName d name.now result }
        ensures steps { (last : ℕ) × IsNameLookup 1 self.now.opcodes.names self.now.opcodes.opcode_slots name.now
            result last × (steps.new ≡ steps.old + (last + 1)) }
        ensures most { steps.new ≤ steps.old + length self.now.opcodes.opcode_slots }
    {
        self.opcodes.find_opcode_counted(name, steps)
    }

    /// Whether the opcode accepts these types, given by their numbers: `ctrl` is the controlling type, `results` and `values` the types of
    /// the value results and value inputs. There is no second controlling type. The answer is false if a number isn't that of a type, or
    /// `opcode` isn't an opcode.
    pub fn accepts(&self, opcode: u16, ctrl: Option<u16>, results: &[u16], values: &[u16]) -> bool
        ensures decoding { IsTrue result ↔ Allows self.now.opcodes opcode ctrl None results.now values.now }
        ensures meaning { (d : InstructionSet) → HoldTypeSets d.vars → AreTablesOf d self.now.opcodes
            → (IsTrue result ↔ AcceptsOpcode d opcode ctrl None results.now values.now) }
    {
        self.opcodes.accepts(opcode, ctrl, results, values)
    }

    /// Whether the opcode accepts these types, as `accepts`, with `second` as the number of the second controlling type. An opcode with a
    /// second control needs one, and any other has none.
    pub fn accepts2(
        &self,
        opcode: u16,
        ctrl: Option<u16>,
        second: Option<u16>,
        results: &[u16],
        values: &[u16],
    ) -> bool
        ensures decoding { IsTrue result ↔ Allows self.now.opcodes opcode ctrl second results.now values.now }
        ensures meaning { (d : InstructionSet) → HoldTypeSets d.vars → AreTablesOf d self.now.opcodes
            → (IsTrue result ↔ AcceptsOpcode d opcode ctrl second results.now values.now) }
    {
        self.opcodes.accepts2(opcode, ctrl, second, results, values)
    }

    /// The controlling type, if it can be read off the designated value: `value` itself, the number of that value's type. It is `None`
    /// unless the designated value's variable is the control of the opcode and its type set contains the type.
    pub fn infer_control(&self, opcode: u16, value: u16) -> Option<u16>
        ensures value { IfSome result (λ n. n ≡ value) }
        ensures some { IsSome result ↔ InfersControl self.now.opcodes opcode value }
        ensures meaning { (d : InstructionSet) → HoldTypeSets d.vars → AreTablesOf d self.now.opcodes
            → IfSome result (λ n. (c e : Option ℕ) (rs vs : List ℕ) → Allows self.now.opcodes opcode c e rs vs
            → HasControlType d opcode c vs) }
    {
        self.opcodes.infer_control(opcode, value)
    }

    /// Infers the types of the results, as `infer_results2`, without a second controlling type.
    pub fn infer_results(&self, opcode: u16, ctrl: Option<u16>, out: &mut [u16; 7]) -> Option<usize>
        ensures { InfersResults self.now.opcodes opcode ctrl None out.old result out.new }
    {
        self.opcodes.infer_results(opcode, ctrl, out)
    }

    /// Infers the types of an opcode's results from the numbers of its controlling types. It answers how many results there are, and writes
    /// the number of each one's type to the front of `out`: 0 if a result can have several types. `None` if the opcode can't have these
    /// controlling types, or some result can have no type under them. Then no types are accepted with them.
    pub fn infer_results2(
        &self,
        opcode: u16,
        ctrl: Option<u16>,
        second: Option<u16>,
        out: &mut [u16; 7],
    ) -> Option<usize>
        ensures { InfersResults self.now.opcodes opcode ctrl second out.old result out.new }
    {
        self.opcodes.infer_results2(opcode, ctrl, second, out)
    }

    /// The name of a group. `None` exactly if there is no such group.
    pub fn group_name(&self, group: usize) -> Option<&Text>
        ensures { option_map (λ name. name.now) result ≡ part_in self.now group (λ t. t.name) }
    {
        let tables = self.group(group)?;
        Some(tables.name())
    }

    /// How many bytes the settings of a group take. `None` exactly if there is no such group.
    pub fn settings_size(&self, group: usize) -> Option<u8>
        ensures size { result ≡ part_in self.now group (λ t. length t.defaults) }
        ensures meaning { OfGroup self.now group (λ t. (g : Layout) → AreTablesOfGroup g t → result ≡ Some g.settings_size) }
    {
        let tables = self.group(group)?;
        Some(tables.settings_size())
    }

    /// The names of the values of all enums of a group, in one list. The descriptor of an enum says where its own begin. `None` exactly if
    /// there is no such group.
    pub fn enumerators(&self, group: usize) -> Option<&[Text]>
        ensures { option_map (λ list. list.now) result ≡ part_in self.now group (λ t. t.enumerators) }
    {
        let tables = self.group(group)?;
        Some(tables.enumerators())
    }

    /// The default bytes of a group, one for each setting byte. Declared defaults of booleans are joined in a byte. `None` exactly if there
    /// is no such group.
    pub fn defaults(&self, group: usize) -> Option<&[u8]>
        ensures { option_map (λ bytes. bytes.now) result ≡ part_in self.now group (λ t. t.defaults) }
    {
        let tables = self.group(group)?;
        Some(tables.defaults())
    }

    /// The masks of the presets of a group, preset after preset, each with one mask for each setting byte. `None` exactly if there is no
    /// such group.
    pub fn preset_masks(&self, group: usize) -> Option<&[u8]>
        ensures { option_map (λ masks. masks.now) result ≡ part_in self.now group (λ t. t.preset_masks) }
    {
        let tables = self.group(group)?;
        Some(tables.preset_masks())
    }

    /// The slots of the names of a group's entries. `None` exactly if there is no such group.
    pub fn setting_slots(&self, group: usize) -> Option<&[Option<u16>]>
        ensures slots { option_map (λ slots. slots.now) result ≡ part_in self.now group (λ t. t.slots) }
        ensures names { OfGroup self.now group (λ t. AreNameSlots 0 (names_in t.descriptors) t.slots) }
    {
        let tables = self.group(group)?;
        Some(tables.setting_slots())
    }

    /// The entries of a group, by their numbers from 0. There are at most 65,535. `None` exactly if there is no such group.
    pub fn descriptors(&self, group: usize) -> Option<&[Descriptor]>
        ensures entries { option_map (λ list. list.now) result ≡ part_in self.now group (λ t. t.descriptors) }
        ensures few { IfSome result (λ list. length list.now ≤ 65535) }
    {
        let tables = self.group(group)?;
        Some(tables.descriptors())
    }

    /// The entry of a group with the number `index`, from 0. `None` exactly if there is no such group or entry.
    pub fn descriptor(&self, group: usize, index: u16) -> Option<&Descriptor>
        ensures entry { OfGroup self.now group (λ t. option_map (λ d. d.now) result ≡ slice_get t.descriptors index) }
        ensures no_group { HasNoGroup self.now group → result ≡ None }
        ensures none { OfGroup self.now group (λ t. (g : Layout) → AreTablesOfGroup g t → (IsSome result ↔ (index < laid_entry_count g))) }
        ensures meaning { OfGroup self.now group (λ t. (g : Layout) → AreTablesOfGroup g t
            → IfSome result (λ d. DescribesEntry g t.enumerators index d.now)) }
    {
        let tables = self.group(group)?;
        tables.descriptor(index)
    }

    /// The default of the setting of a group with the number `index`: 0 or 1 for a boolean, 0 for an enum, which is its first value, and
    /// the declared number. `None` exactly if the entry is a preset, or there is no such group or entry.
    pub fn default_value(&self, group: usize, index: u16) -> Option<u8>
        ensures entry { OfGroup self.now group (λ t. (d : Descriptor) → slice_get t.descriptors index ≡ Some d
            → result ≡ default_in (slice_index_or t.defaults d.offset 0) d.detail) }
        ensures absent { OfGroup self.now group (λ t. slice_get t.descriptors index ≡ None → result ≡ None) }
        ensures no_group { HasNoGroup self.now group → result ≡ None }
        ensures meaning { OfGroup self.now group (λ t. (g : Layout) → AreTablesOfGroup g t → AnswersDefault g index result) }
    {
        let tables = self.group(group)?;
        tables.default_value(index)
    }

    /// The tables of a group, which answer all about it. `None` exactly if there is no such group.
    pub fn group(&self, group: usize) -> Option<&GroupTables>
        ensures { option_map (λ t. t.now) result ≡ slice_get self.now.groups group }
    {
        self.groups.get(group)
    }

    /// The number of the entry of a group that has the name. `None` exactly if no entry has it, or there is no such group. The cost is the
    /// length of the name, and that of the look-up in the slots.
    pub fn find_setting(&self, group: usize, name: &[u8]) -> Option<u16>
        ensures found { OfGroup self.now group (λ t. FindsEntry (names_in t.descriptors) name.now result) }
        ensures no_group { HasNoGroup self.now group → result ≡ None }
        ensures findings { (d : Declared) → AreWholeTablesOf d self.now → FindsSetting d group name.now result }
    {
        let tables = self.group(group)?;
        tables.find_setting(name)
    }

    /// Finds an entry as `find_setting` does. `steps` rises by the number of slots that were looked at, and not at all if there is no such
    /// group.
    pub fn find_setting_counted<L: Ledger>(
        &self,
        group: usize,
        name: &[u8],
        steps: &mut Steps<L>,
    ) -> Option<u16>
        ensures found { OfGroup self.now group (λ t. FindsEntry (names_in t.descriptors) name.now result) }
        ensures no_group { HasNoGroup self.now group → (result ≡ None) × (steps.new ≡ steps.old) }
        ensures findings { (d : Declared) → AreWholeTablesOf d self.now → FindsSetting d group name.now result }
        ensures counted { OfGroup self.now group
            (λ t. (last : ℕ) × IsNameLookup 0 (names_in t.descriptors) t.slots name.now result last
            × (steps.new ≡ steps.old + (last + 1))) }
        ensures most { OfGroup self.now group (λ t. steps.new ≤ steps.old + length t.slots) }
    {
        let tables = self.group(group)?;
        tables.find_setting_counted(name, steps)
    }

    /// Turns on the bits of a preset in the setting bytes of a group. `preset` is the number of its entry. It answers false, and changes
    /// nothing, exactly if that entry isn't a preset of the group, there is no such group, or the length of `bytes` isn't `settings_size`.
    pub fn apply_preset(&self, group: usize, preset: u16, bytes: &mut [u8]) -> bool
        ensures answer { OfGroup self.now group
            (λ t. (IsTrue result ↔ (((d : Descriptor) × IsPresetIn t.descriptors preset d) × (length bytes.old ≡ length t.defaults)))) }
        ensures joined { OfGroup self.now group (λ t. IsTrue result → (d : Descriptor)
            → IsPresetIn t.descriptors preset d → AreJoined bytes.old (take (length t.defaults) (drop d.offset t.preset_masks)) bytes.new) }
        ensures no_group { HasNoGroup self.now group → result ≡ false }
        ensures unchanged { result ≡ false → bytes.new ≡ bytes.old }
        ensures meaning { OfGroup self.now group (λ t. (g : Layout) → AreTablesOfGroup g t → Applies g preset bytes.old bytes.new result) }
    {
        match self.group(group) {
            Some(tables) => tables.apply_preset(preset, bytes),
            None => false,
        }
    }
}
