ghost use Rattle.std.specs.Prelude.{◌≡◌, ◌↔◌, ℕ, List, Option, Some, IsTrue};
ghost use Rattle.meta_typevar.specs.Registry.{HoldTypeSets};
ghost use Rattle.meta_inst.specs.InstructionSet.{InstructionSet};
ghost use Rattle.meta_typevar.specs.declared.masks.Masks.{Masks};
ghost use Rattle.meta_inst.specs.Faults.{IsValid};
ghost use Rattle.meta_inst.specs.Tables.{TableContents, OpcodeNumbers, at_opcode, SaysDesignated, Allows};
ghost use Rattle.meta_gen.specs.TablesOf.{AreTablesOf, AcceptsOpcode};
ghost use Rattle.meta_gen.specs.Inferred.{HasDesignatedControl, HasControlType};
ghost use Rattle.meta_gen.specs.ConstraintLists.{same_constraint};
ghost use Rattle.meta_gen.specs.WellFormedOpcodes.{IsWellFormedOpcodes, HaveParts};
ghost use Rattle.meta_gen.specs.declared.constraint.Constraint.{Constraint};
ghost use Rattle.meta_gen.specs.declared.constraint.OpcodeConstraints.{OpcodeConstraints};

/// Tables mean what the declarations mean. Of declarations whose type variables have type sets, the decoding allows exactly the numbers
/// that the declarations accept.
pub fn tables_mean_the_declarations()
    ensures { (d : InstructionSet) (tables : TableContents) (op : ℕ) (c e : Option ℕ) (rs vs : List ℕ)
        → HoldTypeSets d.vars → AreTablesOf d tables → (Allows tables op c e rs vs ↔ AcceptsOpcode d op c e rs vs) }
{}

/// Two operand constraints compare as equal exactly if they are the same.
pub fn equal_constraints()
    ensures { (x y : Constraint) → (IsTrue (same_constraint x y) ↔ x ≡ y) }
{}

/// Tables of valid declarations are well-formed, if the type variables have type sets.
pub fn tables_of_valid_declarations_are_well_formed()
    ensures { (d : InstructionSet) (tables : TableContents) → IsValid d → HoldTypeSets d.vars → AreTablesOf d tables
        → IsWellFormedOpcodes tables }
{}

/// Parts determine well-formed tables: at most one has these parts, since slots follow from names.
pub fn one_table_has_the_parts()
    ensures { (names formats : List (List ℕ)) (type_sets : List Masks) (operand_constraints : List Constraint)
        (constraints : List OpcodeConstraints) (one other : TableContents) → IsWellFormedOpcodes one
        → IsWellFormedOpcodes other → HaveParts one names formats type_sets operand_constraints constraints
        → HaveParts other names formats type_sets operand_constraints constraints → one ≡ other }
{}

/// Declarations determine their tables, if the type variables have type sets: each part of the tables follows. Without this premise two
/// type sets could have the same masks, and the place of a type set could be either of two.
pub fn one_table_of_an_instruction_set()
    ensures { (d : InstructionSet) (one other : TableContents) → HoldTypeSets d.vars → AreTablesOf d one
        → AreTablesOf d other → one ≡ other }
{}

/// If the designated value's variable is the control, which bit 3 of the flags says, the designated value has the controlling type. This
/// holds of all types that tables of declarations allow, and of all that valid declarations accept.
pub fn designated_values_have_the_controlling_type()
    ensures tables { (d : InstructionSet) (tables : TableContents) (op : ℕ) (entry : OpcodeNumbers) (c e : Option ℕ)
        (rs vs : List ℕ) → HoldTypeSets d.vars → AreTablesOf d tables → at_opcode tables.entries op ≡ Some entry
        → SaysDesignated entry.flags → Allows tables op c e rs vs → HasControlType d op c vs }
    ensures declarations { (d : InstructionSet) (op : ℕ) (c e : Option ℕ) (rs vs : List ℕ) → IsValid d
        → HasDesignatedControl d op → AcceptsOpcode d op c e rs vs → HasControlType d op c vs }
{}
