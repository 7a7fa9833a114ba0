ghost use Rattle.std.specs.Prelude.{◌≡◌, ℕ, List, [], length, Some, map, take, slice_get};
ghost use Rattle.meta_types.specs.declared.fault.DefinitionError.{DefinitionError};
ghost use Rattle.meta_build.specs.AllDeclared.{Declared, HasFirstFault};
ghost use Rattle.meta_file_syntax.specs.declared.items.PresetItem.{PresetItem};
ghost use Rattle.meta_file_syntax.specs.declared.items.Item.{Item};
ghost use Rattle.meta_file_syntax.specs.declared.items.Item.TheVariants.{Preset};
ghost use Rattle.meta_file_declare.specs.Texts.{names_in};
ghost use Rattle.meta_file_declare.specs.Named.{Known, meant};
ghost use Rattle.meta_file_declare.specs.Places.{AreOfGroups};
ghost use Rattle.meta_file_declare.specs.Wrong.{known_after};
ghost use Rattle.meta_file_declare.specs.Said.{preset_of};
ghost use Rattle.meta_file_declare.specs.AllItems.{AllRight, IsFirstWrong, Declares};
ghost use Rattle.meta_file_declare.specs.Faults.{HasItsItem};
ghost use Rattle.meta_file_types.specs.declared.refused.Reason.{Reason as spec_Reason};

/// If an item is wrong, the items don't make declarations. At most one item is the first that is wrong, and one thing is wrong with it.
pub fn items_say_one_thing()
    ensures right { (items : List Item) (d : Declared) (place : ℕ) (reason : spec_Reason) → Declares items d
        → IsFirstWrong items place reason → ⊥ }
    ensures first { (items : List Item) (p q : ℕ) (r s : spec_Reason) → IsFirstWrong items p r → IsFirstWrong items q s
        → (p ≡ q) × (r ≡ s) }
{}

/// Items make the same declarations each time.
pub fn one_declaration()
    ensures { (items : List Item) (d e : Declared) → Declares items d → Declares items e → d ≡ e }
{}

/// If no item is wrong, the items make declarations.
pub fn right_items_declare()
    ensures { (items : List Item) → AllRight items (length items) → (d : Declared) × Declares items d }
{}

/// Groups and their entries alone declare no instruction set.
pub fn settings_stand_alone()
    ensures { (items : List Item) (d : Declared) → Declares items d → AreOfGroups items
        → d.set ≡ record { vars = []; formats = []; instructions = [] } }
{}

/// If items make declarations, each name in a preset stands for an entry above it, and that entry is the argument at its place.
pub fn each_name_has_its_argument()
    ensures { (items : List Item) (d : Declared) (k : ℕ) (i : PresetItem) (known : Known) → Declares items d
        → slice_get items k ≡ Some (Preset i) → known_after (take k items) ≡ Some known
        → map (λ a. Some a) (preset_of known i).args ≡ map (meant known) (names_in i.args) }
{}

/// The first fault of the declarations of items has an item: `place_of_fault` finds it, and it declares what the fault names.
pub fn faults_have_their_items()
    ensures { (items : List Item) (d : Declared) (e : DefinitionError) → Declares items d → HasFirstFault d e → HasItsItem items d e }
{}
