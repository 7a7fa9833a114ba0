ghost use Rattle.std.specs.Prelude.{◌≡◌, ◌↔◌, IsTrue};
ghost use Rattle.meta_typevar.specs.Registry.{HoldTypeSets, IsRegistry};
ghost use Rattle.meta_inst.specs.InstructionSet.{AreOfRegistries};

use super::declared_set::DeclaredSet;
use meta_inst::AllInstructions;
use meta_operands::FormatTable;
use meta_settings::SettingGroupBuilder;
use meta_typevar::TypeVars;
use std::marker::Model;

/// Declarations: an instruction set, which is its type variables, formats and instructions, and groups of settings. The format of each
/// instruction is one of the formats, and the variable of each of its value operands is one of the variables.
#[derive(Drop)]
pub struct Declarations {
    set: DeclaredSet,
    groups: Vec<SettingGroupBuilder>,
}

impl Model for Declarations {
    ghost use Rattle.meta_build.specs.AllDeclared.{Declared};

    ghost Value = { Declared };

    ghost view = { λ d. record { set = d.set; groups = d.groups.items } };
}

impl Declarations {
    /// Whether the format of each instruction is one of the formats, and the variable of each of its value operands and its second control
    /// are among the variables.
    pub fn fits(vars: &TypeVars, formats: &FormatTable, instructions: &AllInstructions) -> bool
        ensures { IsTrue result ↔ AreOfRegistries vars.now formats.now instructions.now }
    {
        DeclaredSet::fits(vars, formats, instructions)
    }

    /// Makes declarations of these parts. The instructions must be of the variables and formats, which `fits` tests. Groups are numbered
    /// from 0, in this order.
    pub fn new(
        vars: TypeVars,
        formats: FormatTable,
        instructions: AllInstructions,
        groups: Vec<SettingGroupBuilder>,
    ) -> Declarations
        requires { AreOfRegistries vars formats instructions }
        ensures { result ≡ record { set = record { vars = vars; formats = formats; instructions = instructions }; groups = groups.items } }
    {
        Declarations {
            set: DeclaredSet::new(vars, formats, instructions),
            groups,
        }
    }

    pub(crate) fn set(&self) -> &DeclaredSet
        ensures { result.now ≡ self.now.set }
    {
        &self.set
    }

    /// The type variables. Their type sets are sets of types.
    pub fn vars(&self) -> &TypeVars
        ensures vars { result.now ≡ self.now.set.vars }
        ensures sets { HoldTypeSets self.now.set.vars }
        ensures registry { IsRegistry self.now.set.vars }
    {
        self.set.vars()
    }

    /// The formats.
    pub fn formats(&self) -> &FormatTable
        ensures formats { result.now ≡ self.now.set.formats }
    {
        self.set.formats()
    }

    /// The instructions. Each is of the variables and formats.
    pub fn instructions(&self) -> &AllInstructions
        ensures instructions { result.now ≡ self.now.set.instructions }
        ensures fits { AreOfRegistries self.now.set.vars self.now.set.formats self.now.set.instructions }
    {
        self.set.instructions()
    }

    /// The groups of settings, in order.
    pub fn groups(&self) -> &[SettingGroupBuilder]
        ensures { result.now ≡ self.now.groups }
    {
        &self.groups
    }
}
