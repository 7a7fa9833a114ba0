ghost use Rattle.std.specs.Prelude.{◌≡◌, ℕ, List};
ghost use Rattle.meta_settings.specs.GroupDeclaration.{GroupDeclaration};
ghost use Rattle.meta_settings.specs.LaidOut.{built_of};
ghost use Rattle.meta_setting_tables.specs.GroupTables.{GroupContents, AreTablesOfGroup};
ghost use Rattle.meta_build.specs.AllDeclared.{Declared};
ghost use Rattle.meta_flags.specs.Served.{served_in, served_of};
ghost use Rattle.meta_flags.specs.FlagsOutput.{IsFlagsOutput};

/// The tables of a declared group serve what is declared: the same names, the same default values, and presets that turn on the same
/// booleans, by themselves or by the presets that they name.
pub fn tables_serve_what_is_declared()
    ensures { (g : GroupDeclaration) (t : GroupContents) → AreTablesOfGroup (built_of g) t → served_in t ≡ served_of (built_of g) }
{}

/// An input has at most one output over declarations: each line has at most one change and one answer.
pub fn one_flags_output()
    ensures { (d : Declared) (input out other : List ℕ) → IsFlagsOutput d input out → IsFlagsOutput d input other → out ≡ other }
{}
