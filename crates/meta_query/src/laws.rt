ghost use Rattle.std.specs.Prelude.{◌≡◌, ◌++◌, ℕ, List, []};
ghost use Rattle.meta_typevar.specs.Registry.{HoldTypeSets};
ghost use Rattle.meta_build.specs.AllDeclared.{Declared, AreValid};
ghost use Rattle.meta_gen.specs.WholeTables.{WholeTables};
ghost use Rattle.meta_gen.specs.WellFormed.{IsWellFormed};
ghost use Rattle.meta_table_text.specs.TableText.{table_text};
ghost use Rattle.meta_table_text.specs.declared.version.Version.{Version};
ghost use Rattle.meta_query.specs.Command.{AreWordsOf};
ghost use Rattle.meta_query.specs.Recheck.{mark, IsCut};
ghost use Rattle.meta_query.specs.Run.{IsOutputOf};
ghost use Rattle.meta_query.specs.declared.command.Command.{Command};
ghost use Rattle.meta_inst.specs.InstructionSet.{InstructionSet};
ghost use Rattle.meta_inst.specs.Tables.{TableContents};
ghost use Rattle.meta_query.specs.Synth.{IsSynth};
ghost use Rattle.meta_query.specs.Summary.{IsSummaryOf};

use meta_build::one_built;
use meta_gen::one_table_of_declarations;
use meta_query_lines::one_output;
use meta_table_reader::a_text_reads_as_one;

/// Words are those of at most one command.
pub fn one_command()
    ensures { (c d : Command) (words : List (List ℕ)) → AreWordsOf c words → AreWordsOf d words → c ≡ d }
{}

/// A command answers an input over valid declarations with at most one output, since declarations determine their tables and what is built
/// of them. The type variables must have type sets, as those of `Declarations` always do.
pub fn one_output_of_a_command()
    ensures { (d : Declared) (c : Command) (input a b : List ℕ) → AreValid d → HoldTypeSets d.set.vars
        → IsOutputOf c d input a → IsOutputOf c d input b → a ≡ b }
{
    one_output();
    a_text_reads_as_one();
    one_table_of_declarations();
    one_built();
    one_synth();
    one_summary();
}

/// An input of `recheck` is cut in one way: it has one text and one list of queries.
pub fn one_cut()
    ensures { (input text queries other_text other_queries : List ℕ) → IsCut input text queries → IsCut input other_text other_queries
        → (text ≡ other_text) × (queries ≡ other_queries) }
{}

/// No line of the text of well-formed tables, in any version, is the line before the queries. So an input of that text, the line and
/// queries is cut there, and the text alone has no queries.
pub fn text_of_tables_stays_whole()
    ensures after { (v : Version) (t : WholeTables) (queries : List ℕ) → IsWellFormed t
        → IsCut (table_text v t ++ (mark ++ queries)) (table_text v t) queries }
    ensures alone { (v : Version) (t : WholeTables) → IsWellFormed t → IsCut (table_text v t) (table_text v t) [] }
{}

/// The declarations of every number are valid.
pub fn synth_is_valid()
    ensures { (n : ℕ) (d : Declared) → IsSynth n d → AreValid d }
{}

/// A number determines its declarations.
pub fn one_synth()
    ensures { (n : ℕ) (d e : Declared) → IsSynth n d → IsSynth n e → d ≡ e }
{}

/// A number determines the line on the tables of its declarations.
pub fn one_summary()
    ensures { (n : ℕ) (d : InstructionSet) (t : TableContents) (line other : List ℕ) → IsSummaryOf n d t line
        → IsSummaryOf n d t other → line ≡ other }
{}
