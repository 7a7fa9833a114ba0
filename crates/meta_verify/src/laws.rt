ghost use Rattle.std.specs.Prelude.{◌≡◌, ◌↔◌, ℕ, List, Bool, true, false, Option};
ghost use Rattle.meta_typevar.specs.Registry.{HoldTypeSets};
ghost use Rattle.meta_inst.specs.Faults.{IsValid};
ghost use Rattle.meta_inst.specs.InstructionSet.{InstructionSet};
ghost use Rattle.meta_inst.specs.Tables.{TableContents, Allows};
ghost use Rattle.meta_gen.specs.TablesOf.{AreTablesOf, AcceptsOpcode};
ghost use Rattle.meta_build.specs.AllDeclared.{Declared, AreValid};
ghost use Rattle.meta_gen.specs.Reply.{AllowedReply, AcceptedReply};
ghost use Rattle.meta_verify.specs.declared.reason.Reason.{Reason};
ghost use Rattle.meta_verify.specs.Environment.{Environment, nothing_defined, HasNamedTypes};
ghost use Rattle.meta_verify.specs.declared.statement.Statement.{Statement};
ghost use Rattle.meta_verify.specs.Numbers.{stated, HasTypeNumbers};
ghost use Rattle.meta_verify.specs.Statement as spec;
ghost use Rattle.meta_verify.specs.Verdict.{LeadTo, IsAnsweredAt, IsVerdict};
ghost use Rattle.meta_verify.specs.Verifier.{verdicts};
ghost use Rattle.meta_verify.specs.Why.{IsExplainedVerdict, explained_verdicts, TellsMore};
ghost use Rattle.meta_verify.specs.Wrong.{IsMistake, IsFaultless, Feeds};

use meta_explain::one_explanation;
use meta_gen::one_table_of_an_instruction_set;

/// Checking by the tables of declarations gives what the declarations mean, if the decoding of the tables allows what the declarations
/// accept, as for tables that `generate` makes. This holds for the answer to a line after any lines before it. If the declarations are
/// valid, it also holds for the text on a whole input, and tables and declarations answer a line alike and lead to one environment, after
/// any lines that define values of types that can be named.
pub fn verdicts_mean()
    ensures line { (d : InstructionSet) (t : TableContents) → AreTablesOf d t
        → ((op : ℕ) (c e : Option ℕ) (rs vs : List ℕ) → (Allows t op c e rs vs ↔ AcceptsOpcode d op c e rs vs))
        → (lines : List (List ℕ)) (n : ℕ) (answer : Option Reason)
        → IsAnsweredAt (AllowedReply t) lines n answer → IsAnsweredAt (AcceptedReply d) lines n answer }
    ensures verdict { (d : Declared) (t : TableContents) → AreValid d → AreTablesOf d.set t
        → ((op : ℕ) (c e : Option ℕ) (rs vs : List ℕ) → (Allows t op c e rs vs ↔ AcceptsOpcode d.set op c e rs vs))
        → (input : List ℕ) (is_rejection : Bool) (text : List ℕ)
        → IsVerdict (AllowedReply t) input is_rejection text → verdicts d input is_rejection text }
    ensures explained { (d : Declared) (t : TableContents) → AreValid d → AreTablesOf d.set t
        → ((op : ℕ) (c e : Option ℕ) (rs vs : List ℕ) → (Allows t op c e rs vs ↔ AcceptsOpcode d.set op c e rs vs))
        → (input : List ℕ) (is_rejection : Bool) (text : List ℕ)
        → IsExplainedVerdict (AllowedReply t) t input is_rejection text → explained_verdicts d input is_rejection text }
    ensures fed { (d : InstructionSet) (t : TableContents) → IsValid d → AreTablesOf d t
        → ((op : ℕ) (c e : Option ℕ) (rs vs : List ℕ) → (Allows t op c e rs vs ↔ AcceptsOpcode d op c e rs vs))
        → (env : Environment) → HasNamedTypes env → (line : List ℕ) (answer : Option Reason) (after : Environment)
        → (Feeds (AllowedReply t) env line answer after ↔ Feeds (AcceptedReply d) env line answer after) }
    ensures led { (d : InstructionSet) (t : TableContents) → IsValid d → AreTablesOf d t
        → ((op : ℕ) (c e : Option ℕ) (rs vs : List ℕ) → (Allows t op c e rs vs ↔ AcceptsOpcode d op c e rs vs))
        → (env : Environment) → HasNamedTypes env → (lines : List (List ℕ)) (after : Environment)
        → (LeadTo (AllowedReply t) env lines after ↔ LeadTo (AcceptedReply d) env lines after) }
{}

/// By tables of valid declarations, what is stated is right, or wrong for a reason, exactly if it is by what the declarations mean. The
/// lines before must define values of types that can be named, and the types that are stated must have names, as those of each statement
/// that `Checker::mistake` takes.
pub fn mistakes_mean()
    ensures types { (s : Statement) → HasTypeNumbers s → spec.GivesTypes (stated s) }
    ensures mistake { (d : InstructionSet) (t : TableContents) → IsValid d → AreTablesOf d t
        → ((op : ℕ) (c e : Option ℕ) (rs vs : List ℕ) → (Allows t op c e rs vs ↔ AcceptsOpcode d op c e rs vs))
        → (env : Environment) → HasNamedTypes env → (s : spec.Statement) → spec.GivesTypes s → (reason : Reason)
        → (IsMistake (AllowedReply t) env s reason ↔ IsMistake (AcceptedReply d) env s reason) }
    ensures right { (d : InstructionSet) (t : TableContents) → IsValid d → AreTablesOf d t
        → ((op : ℕ) (c e : Option ℕ) (rs vs : List ℕ) → (Allows t op c e rs vs ↔ AcceptsOpcode d op c e rs vs))
        → (env : Environment) → HasNamedTypes env → (s : spec.Statement) → spec.GivesTypes s
        → (IsFaultless (AllowedReply t) env s ↔ IsFaultless (AcceptedReply d) env s) }
{}

/// If the type of each value can be named, it still can after any lines. If no value is defined, all types can be named.
pub fn types_stay_named()
    ensures nothing { HasNamedTypes nothing_defined }
    ensures tables { (t : TableContents) (env after : Environment) (lines : List (List ℕ)) → HasNamedTypes env
        → LeadTo (AllowedReply t) env lines after → HasNamedTypes after }
    ensures declared { (d : InstructionSet) (env after : Environment) (lines : List (List ℕ)) → HasNamedTypes env
        → LeadTo (AcceptedReply d) env lines after → HasNamedTypes after }
{}

/// A line states at most one thing.
pub fn one_statement()
    ensures { (line : List ℕ) (s t : spec.Statement) → spec.IsStatement line s → spec.IsStatement line t → s ≡ t }
{}

/// What is stated is wrong for at most one reason, and for none if it is right: by tables, and as valid declarations mean.
pub fn one_mistake()
    ensures tables { (t : TableContents) (env : Environment) (s : spec.Statement) (a b : Reason)
        → IsMistake (AllowedReply t) env s a → IsMistake (AllowedReply t) env s b → a ≡ b }
    ensures right_in_tables { (t : TableContents) (env : Environment) (s : spec.Statement) (a : Reason)
        → IsFaultless (AllowedReply t) env s → IsMistake (AllowedReply t) env s a → ⊥ }
    ensures declared { (d : InstructionSet) → IsValid d → (env : Environment) (s : spec.Statement) (a b : Reason)
        → IsMistake (AcceptedReply d) env s a → IsMistake (AcceptedReply d) env s b → a ≡ b }
    ensures right_declared { (d : InstructionSet) → IsValid d → (env : Environment) (s : spec.Statement) (a : Reason)
        → IsFaultless (AcceptedReply d) env s → IsMistake (AcceptedReply d) env s a → ⊥ }
{}

/// A line has at most one answer, and leads to at most one environment: by tables, and as valid declarations mean. So it is never both
/// right and wrong.
pub fn one_answer()
    ensures tables { (t : TableContents) (env e f : Environment) (line : List ℕ) (a b : Option Reason)
        → Feeds (AllowedReply t) env line a e → Feeds (AllowedReply t) env line b f → (a ≡ b) × (e ≡ f) }
    ensures declared { (d : InstructionSet) → IsValid d → (env e f : Environment) (line : List ℕ) (a b : Option Reason)
        → Feeds (AcceptedReply d) env line a e → Feeds (AcceptedReply d) env line b f → (a ≡ b) × (e ≡ f) }
{}

/// An input has at most one verdict, and at most one that tells why a line is refused: by tables, and as valid declarations mean.
pub fn one_verdict()
    ensures tables { (tables : TableContents) (input : List ℕ) (a b : Bool) (s t : List ℕ)
        → IsVerdict (AllowedReply tables) input a s → IsVerdict (AllowedReply tables) input b t → (a ≡ b) × (s ≡ t) }
    ensures declared { (d : Declared) (input : List ℕ) (a b : Bool) (s t : List ℕ) → AreValid d
        → verdicts d input a s → verdicts d input b t → (a ≡ b) × (s ≡ t) }
    ensures explained_in_tables { (tables : TableContents) (input : List ℕ) (a b : Bool) (s t : List ℕ)
        → IsExplainedVerdict (AllowedReply tables) tables input a s
        → IsExplainedVerdict (AllowedReply tables) tables input b t → (a ≡ b) × (s ≡ t) }
    ensures explained_declared { (d : Declared) (input : List ℕ) (a b : Bool) (s t : List ℕ) → AreValid d → HoldTypeSets d.set.vars
        → explained_verdicts d input a s → explained_verdicts d input b t → (a ≡ b) × (s ≡ t) }
{
    one_explanation();
    one_table_of_an_instruction_set();
}

/// What is told of a refusal stands after the plain text: an input is accepted, by `ok`, exactly where it is without, and else the text is
/// the plain one, with more after `refused`.
pub fn explained_verdicts_are_verdicts()
    ensures accepted { (d : Declared) (input text : List ℕ)
        → (explained_verdicts d input false text ↔ verdicts d input false text) }
    ensures rejected { (d : Declared) (input text : List ℕ) → explained_verdicts d input true text
        → (plain : List ℕ) × verdicts d input true plain × TellsMore plain text }
{}
