ghost use Rattle.std.specs.Prelude.{◌≡◌, ◌<◌, ◌↔◌, ℕ, List, length, IsTrue};
ghost use Rattle.meta_typevar.specs.TypeSetParts.{TypeSetParts, IsTypeSet};
ghost use Rattle.meta_typevar.specs.Compared.{are_equal};
ghost use Rattle.meta_typevar.specs.Registry.{variable_at, IsRegistry};
ghost use Rattle.meta_typevar.specs.declared.content.TypeVarContent.{TypeVarContent};

/// Two type sets compare as equal exactly if their lane counts, dynamic lane counts, integer widths and float widths are the same.
pub fn equal_sets()
    ensures { (s t : TypeSetParts) → IsTypeSet s → IsTypeSet t → (IsTrue (are_equal s t) ↔ s ≡ t) }
{}

/// Two type variables of one registry are equal exactly if they have the same root and the same chain.
pub fn equal_variables()
    ensures { (vars : List TypeVarContent) (n m : ℕ) → IsRegistry vars → n < length vars → m < length vars
        → (n ≡ m ↔ variable_at vars n ≡ variable_at vars m) }
{}
