ghost use Rattle.std.specs.Prelude.{◌≡◌, ◌↔◌, ◌<◌, ◌+◌, ℕ, true, List, ◌++◌, slice_get, Some, IfSome, All, Contains};
ghost use Rattle.meta_types.specs.TypeParts.{TypeParts};
ghost use Rattle.meta_types.specs.TypeNumber.{type_with, IsTypeNumber};
ghost use Rattle.meta_typevar.specs.TypeSetParts.{TypeSetParts, IsMember};
ghost use Rattle.meta_inst.specs.Tables.{TableContents, ControlNumberFits, PassesAt};
ghost use Rattle.meta_gen.specs.WellFormedOpcodes.{IsWellFormedOpcodes};
ghost use Rattle.meta_explain.specs.Parts.{numbers_of, Accepts, order_of, FailsFirst, AreReplaced};
ghost use Rattle.meta_explain.specs.Operands.{AcceptsSome, MayBe, HasCounts};
ghost use Rattle.meta_explain.specs.Wanted.{IsExplained};
ghost use Rattle.meta_explain.specs.Sets.{least_set, is_one_set};
ghost use Rattle.meta_explain.specs.Listed.{Rising};
ghost use Rattle.meta_explain.specs.Texts.{alternatives_text, set_text, wants_text};
ghost use Rattle.meta_explain.specs.declared.control_types.ControlTypes.{ControlTypes};
ghost use Rattle.meta_explain.specs.declared.part.Part.{Part};
ghost use Rattle.meta_explain.specs.declared.part.Part.TheVariants.{Control, Second, Operand};
ghost use Rattle.meta_explain.specs.declared.explained.Wanted.{Wanted};
ghost use Rattle.meta_explain.specs.declared.explained.Explained.TheVariants.{Refuse};

/// Where a part is the first that fails, the types aren't accepted; and at most one part is the first that fails.
pub fn a_refusal_fails()
    ensures refused { (tables : TableContents) (op : ℕ) (c : ControlTypes) (rs vs : List ℕ) (p : Part)
        → FailsFirst tables op c rs vs p → Accepts tables op c rs vs → ⊥ }
    ensures one { (tables : TableContents) (op : ℕ) (c : ControlTypes) (rs vs : List ℕ) (p q : Part)
        → FailsFirst tables op c rs vs p → FailsFirst tables op c rs vs q → p ≡ q }
{}

/// If the first part that fails is made what it has to be, and all else stays, the first part that fails comes later. The part is an
/// operand, the control or the second control.
pub fn what_is_wanted_lets_the_part_pass()
    ensures operand { (tables : TableContents) (op : ℕ) (c : ControlTypes) (rs vs new_rs new_vs : List ℕ) (k n : ℕ) (p : Part)
        → (f : FailsFirst tables op c rs vs (Operand k)) → PassesAt tables (numbers_of c) (f.entry.constraint_offset + k) n
        → AreReplaced rs vs k n new_rs new_vs → FailsFirst tables op c new_rs new_vs p → order_of (Operand k) < order_of p }
    ensures control { (tables : TableContents) (op : ℕ) (c d : ControlTypes) (rs vs : List ℕ) (p : Part)
        → (f : FailsFirst tables op c rs vs Control) → ControlNumberFits tables f.entry.typeset_offset d.ctrl
        → FailsFirst tables op d rs vs p → order_of Control < order_of p }
    ensures second { (tables : TableContents) (op : ℕ) (c d : ControlTypes) (rs vs : List ℕ) (p : Part)
        → (f : FailsFirst tables op c rs vs Second) → c.ctrl ≡ d.ctrl → ControlNumberFits tables f.entry.second_offset d.second
        → FailsFirst tables op d rs vs p → order_of Second < order_of p }
{}

/// Under controls with which anything is accepted, the operands are independent: types are accepted exactly if there are as many as the
/// opcode has, and each is one that its operand may have.
pub fn operands_are_a_product()
    ensures { (tables : TableContents) (op : ℕ) (c : ControlTypes) (rs vs : List ℕ) → AcceptsSome tables op c
        → (Accepts tables op c rs vs ↔ (HasCounts tables op rs vs
        × ((k n : ℕ) → slice_get (rs ++ vs) k ≡ Some n → MayBe tables op c k n))) }
{}

/// All that is told is a type: what well-formed tables accept, what fits a control, and what passes where an operand is the first part that
/// fails.
pub fn types_alone_pass()
    ensures accepted { (tables : TableContents) (op : ℕ) (c : ControlTypes) (rs vs : List ℕ) → IsWellFormedOpcodes tables
        → Accepts tables op c rs vs → IfSome c.ctrl IsTypeNumber × IfSome c.second IsTypeNumber × All IsTypeNumber (rs ++ vs) }
    ensures control { (tables : TableContents) (offset n : ℕ) → ControlNumberFits tables offset (Some n) → IsTypeNumber n }
    ensures operand { (tables : TableContents) (op : ℕ) (c : ControlTypes) (rs vs : List ℕ) (k n : ℕ) → IsWellFormedOpcodes tables
        → (f : FailsFirst tables op c rs vs (Operand k)) → PassesAt tables (numbers_of c) (f.entry.constraint_offset + k) n
        → IsTypeNumber n }
{}

/// Why types aren't accepted is told in one way: the part, and the text of what it has to be.
pub fn one_explanation()
    ensures { (tables : TableContents) (op : ℕ) (c : ControlTypes) (rs vs : List ℕ) (p q : Part) (w u : Wanted)
        → IsExplained tables op c rs vs (Refuse p w) → IsExplained tables op c rs vs (Refuse q u)
        → (p ≡ q) × (wants_text w ≡ wants_text u) }
{}

/// The set by which `push_set` goes is the least one: it has all the types, and each type of it is in any other set that has them. Types
/// are exactly one set exactly if the least set has no other type.
pub fn sets_are_the_least()
    ensures all { (ns : List ℕ) (n : ℕ) → All IsTypeNumber ns → Contains ns n → IsMember (least_set ns) (type_with n) }
    ensures least { (ns : List ℕ) (s : TypeSetParts) (t : TypeParts) → ((n : ℕ) → Contains ns n → IsMember s (type_with n))
        → IsMember (least_set ns) t → IsMember s t }
    ensures exactly { (ns : List ℕ) → All IsTypeNumber ns
        → (is_one_set ns ≡ true ↔ ((n : ℕ) → (Contains ns n ↔ (IsTypeNumber n × IsMember (least_set ns) (type_with n))))) }
{}

/// A text tells which types it is of: rising lists of types that are written alike, as a set or by their names, are one.
pub fn texts_tell_the_types()
    ensures sets { (ns ms : List ℕ) → All IsTypeNumber ns → All IsTypeNumber ms → Rising ns → Rising ms → set_text ns ≡ set_text ms
        → ns ≡ ms }
    ensures names { (ns ms : List ℕ) → All IsTypeNumber ns → All IsTypeNumber ms → alternatives_text ns ≡ alternatives_text ms → ns ≡ ms }
{}
