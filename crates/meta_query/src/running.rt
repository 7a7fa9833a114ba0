ghost use Rattle.std.specs.Prelude.{◌≢◌, true, false};
ghost use Rattle.meta_run.specs.Run.{never_rejecting, IsRun, Runs, WritesOutput};
ghost use Rattle.meta_query.specs.Command.{AreWordsOf};
ghost use Rattle.meta_query.specs.declared.command.Command.{Command};
ghost use Rattle.meta_query.specs.Run.{IsOutputOf, has_input, HasInput, WritesText};

use super::command::Command;
use meta_gen::{Declarations, one_first_fault};
use meta_run::{Ending, run_answerer};
use meta_text::{Sink, Source};
use meta_types::Text;
use std::alloc::Global;

fn run_words<S: Source, K: Sink>(
    alloc: Global,
    words: &[Text],
    declarations: &Declarations,
    source: &mut S,
    sink: &mut K,
) -> Ending
    ensures { IsRun S.left S.faults K.taken K.faults declarations.now source.old source.new sink.old sink.new
        (λ command. AreWordsOf command words.now) has_input (λ command. never_rejecting (IsOutputOf command)) result }
{
    let Some(command) = Command::parse(words) else {
        return Ending::Usage;
    };
    run_answerer(alloc, &command, declarations, source, sink)
}

/// Runs a command over declarations: reads the source, and writes to the sink. The words are those after the program's name. `query`
/// answers each line of the input as the declarations mean. `recheck` reads the text of tables, says whether they are those of the
/// declarations, and answers the queries after it by the tables that were read. `tables` writes the text of the tables, `types` that of the
/// types, `settings` that of the groups of settings, `instructions` that of the instructions, and `builder` that of their builder. `synth
/// N` writes what the tables of the declarations hold that are made from the number N.
///
/// The order is: the words; the declarations, which are refused by their first fault if they have one; for `query` and `recheck` the whole
/// input; the whole answer, in memory; the writes. The answer says how the run ended, and `OutOfMemory` may come in any case but `Usage`.
pub fn run<S: Source, K: Sink>(
    alloc: Global,
    words: &[Text],
    declarations: &Declarations,
    source: &mut S,
    sink: &mut K,
) -> Ending
    // Over valid declarations each query is answered as they mean. Each table text is compared with their tables, and its queries are
    // answered by the tables that it reads as. The texts of the declarations are written.
    ensures headline { (command : Command) → HasInput command → AreWordsOf command words.now
        → WritesOutput S.left S.faults K.taken K.faults declarations.now source.old source.new sink.old sink.new true
        (IsOutputOf command) result }
    ensures texts { (command : Command) → WritesText command → AreWordsOf command words.now
        → WritesOutput S.left S.faults K.taken K.faults declarations.now source.old source.new sink.old sink.new false
        (IsOutputOf command) result }

    // What was read and written, by how the run ended, and what is done where nothing fails. Each field is a fact of the call. No input is
    // rejected.
    ensures runs { Runs S.left S.faults K.taken K.faults declarations.now source.old source.new sink.old sink.new
        (λ command. AreWordsOf command words.now) has_input (λ command. never_rejecting (IsOutputOf command)) result }
    ensures never_rejected { result ≢ Ending.Rejected }
{
    one_first_fault();
    run_words(alloc, words, declarations, source, sink)
}
