ghost use Rattle.std.specs.Prelude.{◌≡◌, ◌↔◌, ℕ, List, Option, codes};
ghost use Rattle.meta_build.specs.AllDeclared.{Declared, AreValid};
ghost use Rattle.meta_gen.specs.WholeTables.{WholeTables, AreWholeTablesOf};
ghost use Rattle.meta_inst.specs.Tables.{Allows};
ghost use Rattle.meta_inst.specs.Inference.{GivesResults};
ghost use Rattle.meta_gen.specs.TablesOf.{AcceptsOpcode};
ghost use Rattle.meta_gen.specs.Inferred.{InfersOpcode};
ghost use Rattle.meta_lines.specs.Lines.{lines_of};
ghost use Rattle.meta_query_lines.specs.Answer.{IsTableReply, AreWrittenAnswers, IsReply, IsOutput};
ghost use Rattle.meta_gen.specs.declared.reply.Reply.{Reply};
ghost use Rattle.meta_inst.specs.Built.{BuiltInstruction};
ghost use Rattle.meta_query_lines.specs.Query.{Asked, Asks};
ghost use Rattle.meta_gen.specs.Question.{Question};
ghost use Rattle.meta_gen.specs.Reply.{AllowedReply};
ghost use Rattle.meta_gen.specs.declared.reply.Reply.TheVariants as reply;
ghost use Rattle.meta_query_lines.specs.Question.{IsQuestion};
ghost use Rattle.meta_query_lines.specs.Request.{Request, Requests};
ghost use Rattle.meta_query_lines.specs.Explanation.{IsExplanation};
ghost use Rattle.meta_query_lines.specs.Explained.{AreExplained, IsExplainedOutput};

use meta_build::one_built;
use meta_explain::{a_refusal_fails, one_explanation};
use meta_gen::{built_groups_have_tables, one_table_of_declarations};

/// Valid declarations answer an input with at most one output, and any tables answer lines with at most one text.
pub fn one_output()
    ensures declared { (d : Declared) (input a b : List ℕ) → AreValid d → IsOutput d input a → IsOutput d input b → a ≡ b }
    ensures tables { (t : WholeTables) (lines : List (List ℕ)) (a b : List ℕ) → AreWrittenAnswers (IsTableReply t) lines a
        → AreWrittenAnswers (IsTableReply t) lines b → a ≡ b }
{
    built_groups_have_tables();
}

/// What the tables of declarations answer to an input is what the declarations mean, and so is what they reply to a line. It holds of all
/// tables whose decoding allows what the declarations accept and gives what they infer, as that of their own tables does.
pub fn answers_mean()
    ensures input { (d : Declared) (t : WholeTables) (input answers : List ℕ) → AreWholeTablesOf d t
        → ((op : ℕ) (c e : Option ℕ) (rs vs : List ℕ) → (Allows t.opcodes op c e rs vs ↔ AcceptsOpcode d.set op c e rs vs))
        → ((op : ℕ) (c e : Option ℕ) (numbers : List ℕ) → (GivesResults t.opcodes op c e numbers ↔ InfersOpcode d.set op c e numbers))
        → AreWrittenAnswers (IsTableReply t) (lines_of input) answers → IsOutput d input answers }
    ensures line { (d : Declared) (t : WholeTables) → AreWholeTablesOf d t
        → ((op : ℕ) (c e : Option ℕ) (rs vs : List ℕ) → (Allows t.opcodes op c e rs vs ↔ AcceptsOpcode d.set op c e rs vs))
        → ((op : ℕ) (c e : Option ℕ) (numbers : List ℕ) → (GivesResults t.opcodes op c e numbers ↔ InfersOpcode d.set op c e numbers))
        → (line : List ℕ) (reply : Reply) → IsTableReply t line reply → IsReply d line reply }
{}

/// A line makes at most one request, and none if it asks something of `query`.
pub fn one_request()
    ensures one { (line : List ℕ) (r p : Request) → Requests line r → Requests line p → r ≡ p }
    ensures apart { (line : List ℕ) (q : Asked) (r : Request) → Asks line q → Requests line r → ⊥ }
{}

/// Declarations explain an input with at most one output, and any tables explain lines with at most one text.
pub fn one_explained_output()
    ensures declared { (d : Declared) (input a b : List ℕ) → IsExplainedOutput d input a → IsExplainedOutput d input b → a ≡ b }
    ensures tables { (t : WholeTables) (told : Option (List BuiltInstruction)) (lines : List (List ℕ)) (a b : List ℕ)
        → AreExplained t told lines a → AreExplained t told lines b → a ≡ b }
{
    a_refusal_fails();
    one_explanation();
    one_built();
    one_table_of_declarations();
}

/// A line of `accept` is explained by `accept` exactly if the decoding allows what it asks. For tables of declarations that is what the
/// instruction accepts, as `answers_mean` says.
pub fn accepted_as_query()
    ensures { (t : WholeTables) (told : Option (List BuiltInstruction)) (line : List ℕ) (q : Question) → IsQuestion line q
        → (IsExplanation t told line (codes "accept") ↔ AllowedReply t.opcodes q reply.Accept) }
{}
