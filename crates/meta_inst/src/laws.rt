ghost use Rattle.std.specs.Prelude.{◌≡◌, ℕ, List};
ghost use Rattle.meta_types.specs.declared.fault.DefinitionError.{DefinitionError};
ghost use Rattle.meta_typevar.specs.declared.content.TypeVarContent.{TypeVarContent};
ghost use Rattle.meta_operands.specs.declared.format.InstructionFormat.{InstructionFormat};
ghost use Rattle.meta_inst.specs.Builder.{Builder};
ghost use Rattle.meta_inst.specs.InstructionFaults.{IsFirstOwnFault, IsWellMade};

/// An instruction has at most one first fault by itself, and none if it is well made.
pub fn one_own_fault()
    ensures same { (vars : List TypeVarContent) (formats : List InstructionFormat) (b : Builder) (n : ℕ)
        (e f : DefinitionError) → IsFirstOwnFault vars formats b n e → IsFirstOwnFault vars formats b n f → e ≡ f }
    ensures well_made { (vars : List TypeVarContent) (formats : List InstructionFormat) (b : Builder) (n : ℕ)
        (e : DefinitionError) → IsWellMade vars formats b → IsFirstOwnFault vars formats b n e → ⊥ }
{}
