ghost use Rattle.std.specs.Prelude.{◌≡◌, ◌≢◌, ℕ, ◌↔◌, List, [], ◌∷◌, ◌++◌, slice_get, Option, None, Some};
ghost use Rattle.meta_types.specs.TypeParts.{TypeParts, IsType, number_of, name_of};
ghost use Rattle.meta_types.specs.Function.{Function, StepsTypes};
ghost use Rattle.meta_typevar.specs.TypeSetParts.{TypeSetParts, IsMember, IsTypeSet};
ghost use Rattle.meta_typevar.specs.Masks.{ContainsNumber, AreMasksOf};
ghost use Rattle.meta_typevar.specs.declared.masks.Masks.{Masks};
ghost use Rattle.meta_typevar.specs.Chain.{Agrees};
ghost use Rattle.meta_typevar.specs.Variable.{Variable, Sets};
ghost use Rattle.meta_inst.specs.Which.{Which, both};
ghost use Rattle.meta_inst.specs.Instruction.{Instruction, IsOperand, controls_of};
ghost use Rattle.meta_inst.specs.Control.{IsControl, HasNoControl, HasBadSecond, HasBadDerivation};
ghost use Rattle.meta_inst.specs.Acceptance.{Accepts, AcceptsNumbers};
ghost use Rattle.meta_inst.specs.Constraint.{TypeConstraint, IsConstraint, ControlFits, Admits};
ghost use Rattle.meta_inst.specs.Inference.{EndsInRelation, IsInferred, InfersNumbers, GivesResults};
ghost use Rattle.meta_inst.specs.OneControl.{IsControlAlone, AcceptsAlone};
ghost use Rattle.meta_inst.specs.Tables.{TableContents, OpcodeNumbers, at_opcode, Allows, DesignatedControls, AreOpcodeNumbersOf};

/// One test for each operand is the same as one joint choice. If an instruction has this control and no operand with a bad derivation, the
/// tests of its operands, each by itself, pass exactly the types for which there is one choice of a type for every root.
pub fn one_test_an_operand()
    ensures { (sets : Sets) (i : Instruction) (control : Option Variable) (c d : Option TypeParts)
        (rs vs : List TypeParts) → IsControl sets i control → (HasBadSecond sets i → ⊥)
        → ((k : ℕ) → HasBadDerivation sets i control k → ⊥) → (Admits sets i control c d rs vs ↔ Accepts sets i control c d rs vs) }
{}

/// Tables mean what their instruction means. If they hold it as the entry of an opcode, the decoding allows exactly the numbers of the
/// types that the instruction accepts, and no other numbers.
pub fn tables_mean_the_instruction()
    ensures { (sets : Sets) (i : Instruction) (control : Option Variable) (tables : TableContents) (op : ℕ)
        (entry : OpcodeNumbers) (c d : Option ℕ) (rs vs : List ℕ)
        → ((k : ℕ) (w : Variable) → IsOperand i k w → IsTypeSet (sets w.root)) → IsControl sets i control
        → (HasBadSecond sets i → ⊥) → AreOpcodeNumbersOf sets i control tables entry
        → at_opcode tables.entries op ≡ Some entry → (Allows tables op c d rs vs ↔ AcceptsNumbers sets i control c d rs vs) }
{}

/// An instruction has at most one control. It has none if the fault `NoControl` applies to it.
pub fn one_control()
    ensures same { (sets : Sets) (i : Instruction) (a b : Option Variable) → IsControl sets i a → IsControl sets i b → a ≡ b }
    ensures no_fault { (sets : Sets) (i : Instruction) (a : Option Variable) → IsControl sets i a → HasNoControl sets i → ⊥ }
{}

/// An operand has at most one constraint. It has one exactly if it has no bad derivation.
pub fn one_constraint()
    ensures same { (sets : Sets) (i : Instruction) (control : Option Variable) → IsControl sets i control
        → (HasBadSecond sets i → ⊥) → (w : Variable) (x y : TypeConstraint)
        → IsConstraint sets (controls_of i control) w x → IsConstraint sets (controls_of i control) w y → x ≡ y }
    ensures no_fault { (sets : Sets) (i : Instruction) (control : Option Variable) (k : ℕ) (w : Variable)
        (x : TypeConstraint) → IsControl sets i control → (HasBadSecond sets i → ⊥) → IsOperand i k w
        → IsConstraint sets (controls_of i control) w x → HasBadDerivation sets i control k → ⊥ }
    ensures some { (sets : Sets) (i : Instruction) (control : Option Variable) → IsControl sets i control
        → (HasBadSecond sets i → ⊥) → ((k : ℕ) → HasBadDerivation sets i control k → ⊥) → (k : ℕ) (w : Variable)
        → IsOperand i k w → (x : TypeConstraint) × IsConstraint sets (controls_of i control) w x }
{}

/// The controlling types determine the results. In types that are accepted, each result whose chain doesn't end in a relation has the type
/// that is inferred. Each operand whose variable is a control has the type of that control, and the controlling types fit.
pub fn results_are_inferred()
    ensures inferred { (sets : Sets) (i : Instruction) (control : Option Variable) (c d : Option TypeParts)
        (rs vs : List TypeParts) → IsControl sets i control → (HasBadSecond sets i → ⊥)
        → Accepts sets i control c d rs vs → (k : ℕ) (w : Variable) (t : TypeParts) → slice_get i.results k ≡ Some w
        → slice_get rs k ≡ Some t → IsInferred sets (controls_of i control) (both c d) w t }
    ensures only { (sets : Sets) (i : Instruction) (control : Option Variable) (c d : Option TypeParts)
        → IsControl sets i control → (HasBadSecond sets i → ⊥) → ((k : ℕ) → HasBadDerivation sets i control k → ⊥)
        → (k : ℕ) (w : Variable) → slice_get i.results k ≡ Some w → (EndsInRelation w → ⊥) → (t u : TypeParts)
        → IsInferred sets (controls_of i control) (both c d) w t → IsInferred sets (controls_of i control) (both c d) w u → t ≡ u }
    ensures controls { (sets : Sets) (i : Instruction) (control : Option Variable) (c d : Option TypeParts)
        (rs vs : List TypeParts) → IsControl sets i control → (HasBadSecond sets i → ⊥)
        → Accepts sets i control c d rs vs → (k : ℕ) (a : Which) (w : Variable) (t : TypeParts)
        → slice_get i.values k ≡ Some w → slice_get vs k ≡ Some t → controls_of i control a ≡ Some w → both c d a ≡ Some t }
    ensures fit { (sets : Sets) (i : Instruction) (control : Option Variable) (c d : Option TypeParts)
        (rs vs : List TypeParts) → IsControl sets i control → (HasBadSecond sets i → ⊥)
        → Accepts sets i control c d rs vs → (a : Which) → ControlFits sets (controls_of i control a) (both c d a) }
{}

/// If the designated value's variable is the control, the designated value has the controlling type in all types that are accepted.
pub fn designated_value_has_the_controlling_type()
    ensures { (sets : Sets) (i : Instruction) (control : Option Variable) (c d : Option TypeParts)
        (rs vs : List TypeParts) → IsControl sets i control → (HasBadSecond sets i → ⊥)
        → Accepts sets i control c d rs vs → DesignatedControls i control → (place : ℕ) → i.designated ≡ Some place
        → (t : TypeParts) × (slice_get vs place ≡ Some t) × (c ≡ Some t) }
{}

/// Tables infer what their instruction infers. For the entry of an instruction, the numbers that tables give for the results under
/// controlling numbers are those that the instruction infers from the controlling types. In any tables, if something is allowed under these
/// numbers, the tables give numbers, and each that isn't 0 is the number of that result.
pub fn tables_infer_the_results()
    ensures meaning { (sets : Sets) (i : Instruction) (control : Option Variable) (tables : TableContents) (op : ℕ)
        (entry : OpcodeNumbers) (c d : Option ℕ) (numbers : List ℕ)
        → ((k : ℕ) (w : Variable) → IsOperand i k w → IsTypeSet (sets w.root)) → IsControl sets i control
        → (HasBadSecond sets i → ⊥) → AreOpcodeNumbersOf sets i control tables entry
        → at_opcode tables.entries op ≡ Some entry → (GivesResults tables op c d numbers ↔ InfersNumbers sets i control c d numbers) }
    ensures some { (tables : TableContents) (op : ℕ) (c d : Option ℕ) (rs vs : List ℕ) → Allows tables op c d rs vs
        → (numbers : List ℕ) × GivesResults tables op c d numbers }
    ensures same { (tables : TableContents) (op : ℕ) (c d : Option ℕ) (rs vs numbers : List ℕ)
        → Allows tables op c d rs vs → GivesResults tables op c d numbers → (k m n : ℕ) → slice_get numbers k ≡ Some n
        → n ≢ 0 → slice_get rs k ≡ Some m → m ≡ n }
{}

/// Without a second control, all is as for one control: which variable is the control, and what is accepted. There is then no second
/// controlling type.
pub fn without_a_second_control()
    ensures control { (sets : Sets) (i : Instruction) (control : Option Variable) → i.second ≡ None
        → (IsControl sets i control ↔ IsControlAlone sets i control) }
    ensures accepts { (sets : Sets) (i : Instruction) (control : Option Variable) (c d : Option TypeParts)
        (rs vs : List TypeParts) → i.second ≡ None
        → (Accepts sets i control c d rs vs ↔ (AcceptsAlone sets i control c rs vs × (d ≡ None))) }
    ensures no_fault { (sets : Sets) (i : Instruction) → i.second ≡ None → HasBadSecond sets i → ⊥ }
    ensures needs_control { (sets : Sets) (i : Instruction) → IsControl sets i None → (HasBadSecond sets i → ⊥) → i.second ≡ None }
{}

/// The masks of a type set contain exactly the numbers of its types. Different types have different numbers and different names.
pub fn masks_contain_the_members()
    ensures members { (s : TypeSetParts) (m : Masks) (n : ℕ) → IsTypeSet s → AreMasksOf s m
        → (ContainsNumber m n ↔ ((t : TypeParts) × IsMember s t × (number_of t ≡ n))) }
    ensures numbers { (a b : TypeParts) → IsType a → IsType b → number_of a ≡ number_of b → a ≡ b }
    ensures names { (a b : TypeParts) → IsType a → IsType b → name_of a ≡ name_of b → a ≡ b }
{}

/// A chain leads to a type exactly if all of it but its last function leads to some type, and the last function leads from there to the
/// type.
pub fn chain_end()
    ensures { (fs : List Function) (f : Function) (r t : TypeParts)
        → (Agrees (fs ++ f ∷ []) r t ↔ ((u : TypeParts) × Agrees fs r u × StepsTypes f u t)) }
{}
