ghost use Rattle.std.specs.Prelude.{◌≡◌, ◌↔◌, ◌+◌, ◌/◌, ℕ, List, Some, slice_get};
ghost use Rattle.meta_types.specs.declared.fault.DefinitionError.{DefinitionError};
ghost use Rattle.meta_settings.specs.GroupDeclaration.{SettingDeclaration, PresetDeclaration, GroupDeclaration, booleans_among};
ghost use Rattle.meta_settings.specs.GroupDeclaration.{others_among, start_of};
ghost use Rattle.meta_settings.specs.GroupFaults.{IsFirstGroupFault, IsValidGroup};
ghost use Rattle.meta_settings.specs.TurnedOn.{booleans_at, built_presets};
ghost use Rattle.meta_settings.specs.LaidOut.{placed_at, laid_out};
ghost use Rattle.meta_settings.specs.Laws.{TurnsOn, IsNamedIn, IsEachOnce};

/// Each setting has its place. The enums and numbers have a byte each, in order of declaration: the one at place j has byte j. The booleans
/// come after these bytes, eight to a byte: the one at place k has the bit k % 8 of byte k / 8 after them.
pub fn settings_have_their_places()
    ensures bytes { (d : GroupDeclaration) (j : ℕ) (s : SettingDeclaration)
        → slice_get (others_among d.settings) j ≡ Some s → slice_get (laid_out d) j ≡ Some (placed_at s j 0) }
    ensures bits { (d : GroupDeclaration) (k : ℕ) (s : SettingDeclaration)
        → slice_get (booleans_among d.settings) k ≡ Some s
        → slice_get (laid_out d) (start_of d + k) ≡ Some (placed_at s (start_of d + k / 8) k) }
{}

/// A preset turns on exactly the booleans that it names and those that the earlier presets that it names turn on, each once.
pub fn presets_turn_on_what_they_name()
    ensures named { (presets : List PresetDeclaration) (k b : ℕ) (p : PresetDeclaration)
        → slice_get presets k ≡ Some p → (TurnsOn presets k b ↔ IsNamedIn presets k p b) }
    ensures once { (presets : List PresetDeclaration) (k : ℕ) (p : PresetDeclaration) → slice_get presets k ≡ Some p
        → IsEachOnce (booleans_at (built_presets presets) k) }
{}

/// A group has at most one first fault, and none if it is valid.
pub fn one_group_fault()
    ensures same { (d : GroupDeclaration) (g : ℕ) (e f : DefinitionError) → IsFirstGroupFault d g e → IsFirstGroupFault d g f → e ≡ f }
    ensures valid { (d : GroupDeclaration) (g : ℕ) (e : DefinitionError) → IsValidGroup d → IsFirstGroupFault d g e → ⊥ }
{}
