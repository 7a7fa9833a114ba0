ghost use Rattle.std.specs.Prelude.{◌≡◌, ◌≢◌, true, []};
ghost use Rattle.meta_run.specs.Run.{never_rejecting, IsWordlessRun, RunsWordless, WritesOutput};
ghost use Rattle.meta_audit.specs.AuditLine.{IsAuditLine};

use super::answering::Auditor;
use meta_gen::{Declarations, one_first_fault};
use meta_run::{Ending, run_answerer};
use meta_text::{Sink, Source};
use meta_types::Text;
use std::alloc::Global;

/// Audits the text, if there are no words.
fn run_words<S: Source, K: Sink>(
    alloc: Global,
    words: &[Text],
    declarations: &Declarations,
    source: &mut S,
    sink: &mut K,
) -> Ending
    ensures { IsWordlessRun S.left S.faults K.taken K.faults declarations.now source.old source.new sink.old sink.new words.now
        (never_rejecting IsAuditLine) result }
{
    if !words.is_empty() {
        return Ending::Usage;
    }
    run_answerer(alloc, &Auditor, declarations, source, sink)
}

/// Reads the text of tables from the source, compares the tables with declarations, and writes one line to the sink. It is `refused` if the
/// text reads as no tables, and else the verdict: `yes`, `opcodes`, `opcode I` or `group G`. There must be no words.
///
/// The order is: the words; the declarations, which are refused by their first fault if they have one; the whole text; the line, in memory;
/// the writes. The answer says how the run ended, and `OutOfMemory` may come in any case but `Usage`.
pub fn audit_run<S: Source, K: Sink>(
    alloc: Global,
    words: &[Text],
    declarations: &Declarations,
    source: &mut S,
    sink: &mut K,
) -> Ending
    // Over valid declarations the text of tables gets its line.
    ensures headline { words.now ≡ []
        → WritesOutput S.left S.faults K.taken K.faults declarations.now source.old source.new sink.old sink.new true IsAuditLine result }

    // What was read and written, by how the run ended, and what is done where nothing fails. Each field is a fact of the call. No input is
    // rejected.
    ensures runs { RunsWordless S.left S.faults K.taken K.faults declarations.now source.old source.new sink.old sink.new words.now
        (never_rejecting IsAuditLine) result }
    ensures never_rejected { result ≢ Ending.Rejected }
{
    one_first_fault();
    run_words(alloc, words, declarations, source, sink)
}
