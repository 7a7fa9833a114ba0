ghost use Rattle.std.specs.Prelude.{◌≡◌, ◌↔◌, ℕ, List};
ghost use Rattle.meta_inst.specs.InstructionSet.{InstructionSet};
ghost use Rattle.meta_inst.specs.Faults.{IsValid};
ghost use Rattle.meta_inst.specs.Tables.{TableContents};
ghost use Rattle.meta_gen.specs.WellFormedOpcodes.{IsWellFormedOpcodes};
ghost use Rattle.meta_verify.specs.Environment.{Environment, HasNamedTypes};
ghost use Rattle.meta_asm.specs.Short.{Manner};
ghost use Rattle.meta_asm.specs.Manners.{IsMannerIn, IsMannerDeclared};
ghost use Rattle.meta_asm.specs.Made.{AreMade};
ghost use Rattle.meta_asm.specs.Reading.{IsShortIn, ReadsIn, IsShortDeclared, ReadsDeclared};

use meta_verify::mistakes_mean;

/// In one environment a text reads as at most one line. This holds by well-formed tables, and as valid declarations mean.
pub fn one_line_reads()
    ensures tables { (tables : TableContents) → IsWellFormedOpcodes tables → (env : Environment) (text a b : List ℕ)
        → ReadsIn tables env text a → ReadsIn tables env text b → a ≡ b }
    ensures declared { (d : InstructionSet) → IsValid d → (env : Environment) (text a b : List ℕ)
        → ReadsDeclared d env text a → ReadsDeclared d env text b → a ≡ b }
{}

/// A text that `print_line` writes for a line reads as that line, and as no other. This holds by well-formed tables, and as valid
/// declarations mean.
pub fn printed_lines_read()
    ensures tables { (tables : TableContents) → IsWellFormedOpcodes tables → (env : Environment) (line text : List ℕ)
        → IsShortIn tables env line text
        → ReadsIn tables env text line × ((other : List ℕ) → ReadsIn tables env text other → other ≡ line) }
    ensures declared { (d : InstructionSet) → IsValid d → (env : Environment) (line text : List ℕ)
        → IsShortDeclared d env line text
        → ReadsDeclared d env text line × ((other : List ℕ) → ReadsDeclared d env text other → other ≡ line) }
{}

/// In one environment a line has at most one short form, and an instruction leaves out types in one way. This holds by tables, and as valid
/// declarations mean.
pub fn one_short_form()
    ensures tables { (tables : TableContents) (env : Environment) (line a b : List ℕ)
        → IsShortIn tables env line a → IsShortIn tables env line b → a ≡ b }
    ensures declared { (d : InstructionSet) → IsValid d → (env : Environment) (line a b : List ℕ)
        → IsShortDeclared d env line a → IsShortDeclared d env line b → a ≡ b }
    ensures manner_in_tables { (tables : TableContents) (name : List ℕ) (m n : Manner)
        → IsMannerIn tables name m → IsMannerIn tables name n → m ≡ n }
    ensures manner_declared { (d : InstructionSet) → IsValid d → (name : List ℕ) (m n : Manner)
        → IsMannerDeclared d name m → IsMannerDeclared d name n → m ≡ n }
{}

/// Tables of declarations mean what the declarations mean. They leave out the same types in the lines of an opcode, and give the same short
/// form of a line.
pub fn short_forms_mean()
    ensures manner { (d : InstructionSet) (tables : TableContents) → AreMade d tables → (name : List ℕ) (m : Manner)
        → (IsMannerIn tables name m ↔ IsMannerDeclared d name m) }
    ensures short { (d : InstructionSet) (tables : TableContents) → AreMade d tables → (env : Environment) → HasNamedTypes env
        → (line text : List ℕ) → (IsShortIn tables env line text ↔ IsShortDeclared d env line text) }
{
    mistakes_mean();
}
