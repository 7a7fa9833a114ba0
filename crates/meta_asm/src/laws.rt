ghost use Rattle.std.specs.Prelude.{◌≡◌, ◌↔◌, ℕ, List, Bool, true, false};
ghost use Rattle.meta_typevar.specs.Registry.{HoldTypeSets};
ghost use Rattle.meta_inst.specs.InstructionSet.{InstructionSet};
ghost use Rattle.meta_inst.specs.Faults.{IsValid};
ghost use Rattle.meta_inst.specs.Tables.{TableContents};
ghost use Rattle.meta_gen.specs.WellFormedOpcodes.{IsWellFormedOpcodes};
ghost use Rattle.meta_build.specs.AllDeclared.{Declared, AreValid};
ghost use Rattle.meta_lines.specs.Lines.{lines_of};
ghost use Rattle.meta_gen.specs.Reply.{AllowedReply, AcceptedReply};
ghost use Rattle.meta_verify.specs.Why.{TellsMore};
ghost use Rattle.meta_asm.specs.Manners.{IsMannerIn, IsMannerDeclared};
ghost use Rattle.meta_asm.specs.Listing.{text_of_lines, filled, IsShortened, IsSpelled};
ghost use Rattle.meta_asm.specs.Form.{words_for, written_in};
ghost use Rattle.meta_asm.specs.Why.{explained_in};
ghost use Rattle.meta_asm.specs.declared.form.Form.{Form};

use super::short_laws::{one_line_reads, one_short_form};
use meta_verify::{explained_verdicts_are_verdicts, one_answer, one_statement, one_verdict};

/// The short forms of a list, as a text, are written back as the list itself, and as nothing else: its lines but the empty ones, without
/// the CRs that were dropped, each with LF, and no rejection. This holds by well-formed tables, and as valid declarations mean.
pub fn lists_are_written_back()
    ensures tables { (tables : TableContents) → IsWellFormedOpcodes tables → (input out : List ℕ)
        → IsShortened (AllowedReply tables) (IsMannerIn tables) input false out → (is_rejection : Bool) (text : List ℕ)
        → (IsSpelled (AllowedReply tables) (IsMannerIn tables) out is_rejection text
        ↔ ((is_rejection ≡ false) × (text ≡ text_of_lines (filled (lines_of input))))) }
    ensures declared { (d : InstructionSet) → IsValid d → (input out : List ℕ)
        → IsShortened (AcceptedReply d) (IsMannerDeclared d) input false out → (is_rejection : Bool) (text : List ℕ)
        → (IsSpelled (AcceptedReply d) (IsMannerDeclared d) out is_rejection text
        ↔ ((is_rejection ≡ false) × (text ≡ text_of_lines (filled (lines_of input))))) }
{}

/// Words ask for at most one form.
pub fn one_form()
    ensures { (words : List (List ℕ)) (a b : Form) → words ≡ words_for a → words ≡ words_for b → a ≡ b }
{}

/// An input is written in a form in at most one way: by tables, which for the explicit form must be well-formed, and as valid declarations
/// mean. The same holds where it is told why a line is refused.
pub fn one_output_of_a_form()
    ensures short { (tables : TableContents) (input : List ℕ) (a b : Bool) (s t : List ℕ)
        → IsShortened (AllowedReply tables) (IsMannerIn tables) input a s
        → IsShortened (AllowedReply tables) (IsMannerIn tables) input b t → (a ≡ b) × (s ≡ t) }
    ensures explicit { (tables : TableContents) → IsWellFormedOpcodes tables → (input : List ℕ) (a b : Bool) (s t : List ℕ)
        → IsSpelled (AllowedReply tables) (IsMannerIn tables) input a s
        → IsSpelled (AllowedReply tables) (IsMannerIn tables) input b t → (a ≡ b) × (s ≡ t) }
    ensures declared { (d : Declared) (form : Form) (input : List ℕ) (a b : Bool) (s t : List ℕ) → AreValid d
        → written_in form d input a s → written_in form d input b t → (a ≡ b) × (s ≡ t) }
    ensures explained { (d : Declared) (form : Form) (input : List ℕ) (a b : Bool) (s t : List ℕ) → AreValid d → HoldTypeSets d.set.vars
        → explained_in form d input a s → explained_in form d input b t → (a ≡ b) × (s ≡ t) }
{
    one_statement();
    one_answer();
    one_verdict();
    one_short_form();
    one_line_reads();
}

/// What is told of a refusal stands after the plain text: an input is written whole exactly where it is without, and in the same way, and
/// else the text is the plain one, with more after `refused`.
pub fn explained_forms_are_forms()
    ensures written { (d : Declared) (form : Form) (input text : List ℕ)
        → (explained_in form d input false text ↔ written_in form d input false text) }
    ensures rejected { (d : Declared) (form : Form) (input text : List ℕ) → explained_in form d input true text
        → (plain : List ℕ) × written_in form d input true plain × TellsMore plain text }
{
    explained_verdicts_are_verdicts();
}
