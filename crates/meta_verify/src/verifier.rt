ghost use Rattle.meta_run.specs.Run.{IsWordlessRun, RunsWordless};
ghost use Rattle.meta_verify.specs.Verifier.{verdicts, ChecksLines};

use super::laws::verdicts_mean;
use super::verdict::{explained_verdict, verdict};
use meta_build::{Built, Declarations, one_first_fault};
use meta_gen::tables_of;
use meta_run::{Answer, Answerer, Ending, run_answerer};
use meta_text::{Sink, Source};
use meta_types::Text;
use std::alloc::{AllocError, Global};

/// The answerer of `verify`: it answers an input by what is said of its lines.
#[derive(Clone, Copy)]
pub struct Verifier;

impl Answerer for Verifier {
    ghost use Rattle.std.specs.Prelude.{true};
    ghost use Rattle.meta_verify.specs.Verifier.{verdicts};

    ghost reads = { λ _. true };

    ghost texts = { λ _. verdicts };

    fn has_input(&self) -> bool {
        true
    }

    fn answer(&self, alloc: Global, built: &Built<'_>, input: &[u8]) -> Result<Answer, AllocError> {
        verdicts_mean();
        let _declarations = built.declarations();
        let tables = tables_of(alloc, built)?;
        verdict(alloc, &tables, input)
    }
}

/// The answerer of `verify` that also tells why a line is refused: it answers an input as `Verifier` does, but for what it tells after
/// `refused`.
#[derive(Clone, Copy)]
pub struct Explaining;

impl Answerer for Explaining {
    ghost use Rattle.std.specs.Prelude.{true};
    ghost use Rattle.meta_verify.specs.Why.{explained_verdicts};

    ghost reads = { λ _. true };

    ghost texts = { λ _. explained_verdicts };

    fn has_input(&self) -> bool {
        true
    }

    fn answer(&self, alloc: Global, built: &Built<'_>, input: &[u8]) -> Result<Answer, AllocError> {
        verdicts_mean();
        let _declarations = built.declarations();
        let tables = tables_of(alloc, built)?;
        explained_verdict(alloc, &tables, input)
    }
}

/// Checks the lines of the input, if there are no words.
fn check<S: Source, K: Sink>(
    alloc: Global,
    words: &[Text],
    declarations: &Declarations,
    source: &mut S,
    sink: &mut K,
) -> Ending
    ensures { IsWordlessRun S.left S.faults K.taken K.faults declarations.now source.old source.new sink.old sink.new
        words.now verdicts result }
{
    if !words.is_empty() {
        return Ending::Usage;
    }
    run_answerer(alloc, &Verifier, declarations, source, sink)
}

/// Checks a list of lines over declarations. The sink takes `ok` if each line is right, or empty. Otherwise it takes `line N: REASON` for
/// the first wrong line, whose number N counts from 1. There must be no words.
///
/// The order is: the words; the declarations, which are refused by their first fault if they have one; the whole input; what is said of it,
/// in memory; the writes. The answer says how the run ended, and `OutOfMemory` may come in any case but `Usage`.
pub fn verify<S: Source, K: Sink>(
    alloc: Global,
    words: &[Text],
    declarations: &Declarations,
    source: &mut S,
    sink: &mut K,
) -> Ending
    // Over valid declarations, `ok` is said exactly if no line is wrong, and otherwise which is the first wrong one, and why.
    ensures headline { ChecksLines S.left S.faults K.taken K.faults declarations.now source.old source.new sink.old
        sink.new words.now result }

    // What was read and written, by how the run ended, and what is done where nothing fails. Each field is a fact of the call.
    ensures runs { RunsWordless S.left S.faults K.taken K.faults declarations.now source.old source.new sink.old sink.new
        words.now verdicts result }
{
    one_first_fault();
    check(alloc, words, declarations, source, sink)
}
