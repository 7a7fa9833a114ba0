ghost use Rattle.std.specs.Prelude.{◌≡◌};
ghost use Rattle.meta_types.specs.declared.fault.DefinitionError.{DefinitionError};
ghost use Rattle.meta_build.specs.AllDeclared.{Declared, HasFirstFault, AreValid};
ghost use Rattle.meta_build.specs.BuiltDeclarations.{BuiltDeclarations, AreBuilt};

use meta_settings::one_group_fault;

/// Declarations have at most one first fault, and none if they are valid.
pub fn one_first_fault()
    ensures same { (d : Declared) (e f : DefinitionError) → HasFirstFault d e → HasFirstFault d f → e ≡ f }
    ensures valid { (d : Declared) (e : DefinitionError) → AreValid d → HasFirstFault d e → ⊥ }
{
    one_group_fault();
}

/// Declarations determine what is built of them.
pub fn one_built()
    ensures { (a b : BuiltDeclarations) → AreBuilt a → AreBuilt b → a.declared ≡ b.declared → a ≡ b }
{}
