ghost use Rattle.std.specs.Prelude.{◌≡◌, ◌↔◌, IsTrue};
ghost use Rattle.meta_typevar.specs.Registry.{HoldTypeSets, IsRegistry};
ghost use Rattle.meta_inst.specs.InstructionSet.{AreOfRegistries};

use meta_inst::AllInstructions;
use meta_operands::FormatTable;
use meta_typevar::TypeVars;
use std::marker::Model;

/// A declared instruction set: its type variables, formats and instructions. The format of each instruction is one of the formats, and the
/// variable of each of its value operands is one of the variables.
#[derive(Drop)]
pub(crate) struct DeclaredSet {
    vars: TypeVars,
    formats: FormatTable,
    instructions: AllInstructions,
}

impl Model for DeclaredSet {
    ghost use Rattle.meta_inst.specs.InstructionSet.{InstructionSet, AreOfRegistries};

    ghost Value = { InstructionSet };

    ghost view = { λ d. record { vars = d.vars; formats = d.formats; instructions = d.instructions } };

    ghost invariant = { λ d. AreOfRegistries d.vars d.formats d.instructions };
}

impl DeclaredSet {
    /// Whether the format of each instruction is one of the formats, and the variable of each of its value operands and its second control
    /// are among the variables.
    pub(crate) fn fits(
        vars: &TypeVars,
        formats: &FormatTable,
        instructions: &AllInstructions,
    ) -> bool
        ensures { IsTrue result ↔ AreOfRegistries vars.now formats.now instructions.now }
    {
        for k in 0..instructions.len() {
            if !instructions.get(k).fits(vars, formats) {
                return false;
            }
        }
        true
    }

    pub(crate) fn new(
        vars: TypeVars,
        formats: FormatTable,
        instructions: AllInstructions,
    ) -> DeclaredSet
        requires { AreOfRegistries vars formats instructions }
        ensures { result ≡ record { vars = vars; formats = formats; instructions = instructions } }
    {
        DeclaredSet {
            vars,
            formats,
            instructions,
        }
    }

    pub(crate) fn vars(&self) -> &TypeVars
        ensures vars { result.now ≡ self.now.vars }
        ensures sets { HoldTypeSets self.now.vars }
        ensures registry { IsRegistry self.now.vars }
    {
        // the clause of this call says what a registry keeps
        let _count = self.vars.len();
        &self.vars
    }

    pub(crate) fn formats(&self) -> &FormatTable
        ensures formats { result.now ≡ self.now.formats }
    {
        &self.formats
    }

    pub(crate) fn instructions(&self) -> &AllInstructions
        ensures instructions { result.now ≡ self.now.instructions }
        ensures fits { AreOfRegistries self.now.vars self.now.formats self.now.instructions }
    {
        &self.instructions
    }
}
