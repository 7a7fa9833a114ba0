ghost use Rattle.std.specs.Prelude.{◌≡◌, ◌↔◌, ℕ, List, Some, length, Contains};
ghost use Rattle.std.specs.List.{slice_get};
ghost use Rattle.meta_types.specs.AllTypes.{all_types};
ghost use Rattle.meta_types.specs.TypeParts.{TypeParts, IsType, number_of, name_of};
ghost use Rattle.meta_types.specs.SharedNames.{AreDistinct, AreDifferentNames};
ghost use Rattle.meta_types.specs.ValueTypes.{type_parts_of};
ghost use Rattle.meta_types.specs.declared.value_type.ValueType.{ValueType};

/// No two types have the same number.
pub fn numbers_differ()
    ensures { (a b : TypeParts) → IsType a → IsType b → number_of a ≡ number_of b → a ≡ b }
{}

/// No two types have the same name.
pub fn names_differ()
    ensures { (a b : TypeParts) → IsType a → IsType b → name_of a ≡ name_of b → a ≡ b }
{}

/// Each type of the definitions is one `ValueType`, and each `ValueType` is such a type.
pub fn each_type_is_one_value()
    ensures is_type { (t : ValueType) → IsType (type_parts_of t) }
    ensures every { (s : TypeParts) → IsType s → (t : ValueType) × (type_parts_of t ≡ s) }
    ensures one { (t u : ValueType) → type_parts_of t ≡ type_parts_of u → t ≡ u }
{}

/// There are 153 types, and `all_types` lists each of them once.
pub fn there_are_153_types()
    ensures listed { (t : TypeParts) → (IsType t ↔ Contains all_types t) }
    ensures once { (j k : ℕ) (t : TypeParts) → slice_get all_types j ≡ Some t → slice_get all_types k ≡ Some t → j ≡ k }
    ensures count { length all_types ≡ 153 }
{}

/// Names are different if none is the same as an earlier one or has its camel case.
pub fn distinct_names_differ()
    ensures { (names : List (List ℕ)) → AreDistinct names → AreDifferentNames names }
{}
