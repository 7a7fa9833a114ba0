ghost use Rattle.std.specs.Prelude.{◌≡◌, ◌≢◌, true, []};
ghost use Rattle.meta_run.specs.Run.{never_rejecting, IsWordlessRun, RunsWordless, WritesOutput};
ghost use Rattle.meta_flags.specs.FlagsOutput.{IsFlagsOutput};

use super::answering::answers;
use super::held::Flags;
use super::laws::tables_serve_what_is_declared;
use meta_gen::{Built, Declarations, one_first_fault, tables_of};
use meta_run::{Answer, Answerer, Ending, run_answerer};
use meta_text::{Sink, Source};
use meta_types::Text;
use std::alloc::{AllocError, Global};

/// The answerer of `flags`: it answers the lines of an input by the first group of declarations.
#[derive(Clone, Copy)]
pub struct Service;

impl Answerer for Service {
    ghost use Rattle.std.specs.Prelude.{true};
    ghost use Rattle.meta_run.specs.Run.{never_rejecting};
    ghost use Rattle.meta_flags.specs.FlagsOutput.{IsFlagsOutput};

    ghost reads = { λ _. true };

    ghost texts = { λ _. never_rejecting IsFlagsOutput };

    /// There is always an input.
    fn has_input(&self) -> bool {
        true
    }

    fn answer(&self, alloc: Global, built: &Built<'_>, input: &[u8]) -> Result<Answer, AllocError> {
        tables_serve_what_is_declared();
        let tables = tables_of(alloc, built)?;
        let flags = Flags::new(alloc, &tables, 0)?;
        Ok(Answer {
            text: answers(alloc, flags, input)?,
            is_rejection: false,
        })
    }
}

/// Answers the lines of the input, if there are no words.
fn run_words<S: Source, K: Sink>(
    alloc: Global,
    words: &[Text],
    declarations: &Declarations,
    source: &mut S,
    sink: &mut K,
) -> Ending
    ensures { IsWordlessRun S.left S.faults K.taken K.faults declarations.now source.old source.new sink.old sink.new
        words.now (never_rejecting IsFlagsOutput) result }
{
    if !words.is_empty() {
        return Ending::Usage;
    }
    run_answerer(alloc, &Service, declarations, source, sink)
}

/// Answers the lines of the source by the first group of settings of declarations. Each line is answered from the values that the line
/// before it left, and the first from the declared defaults. There must be no words. A line is one of these:
///
/// - `set NAME VALUE` gives the setting the value, and the answer is `ok`; or `unknown` if no entry has the name, `kind` if it is a
///   preset's, and `value` if VALUE is no value of the setting;
/// - `enable NAME` makes the boolean true, or each that the preset turns on, and the answer is `ok`; or `unknown`, and `kind` if it is a
///   number's or an enum's;
/// - `get NAME` is answered by the value; or by `unknown`, and `kind` if it is a preset's;
/// - `toml` is answered by the text of `Flags::toml`, and by no line if there is no group.
///
/// Any other line is answered by `bad`, and an empty one isn't answered. After an answer other than `ok` the values are as before.
///
/// The order is: the words; the declarations, which are refused by their first fault if they have one; the whole input; all answers, in
/// memory; the writes. The answer of the call says how the run ended, and `OutOfMemory` may come in any case but `Usage`.
pub fn flags<S: Source, K: Sink>(
    alloc: Global,
    words: &[Text],
    declarations: &Declarations,
    source: &mut S,
    sink: &mut K,
) -> Ending
    // Over valid declarations the lines get their answers.
    ensures headline { words.now ≡ [] → WritesOutput S.left S.faults K.taken K.faults declarations.now source.old
        source.new sink.old sink.new true IsFlagsOutput result }

    // What was read and written, by how the run ended, and what is done where nothing fails. Each field is a fact of the call. No input is
    // rejected.
    ensures runs { RunsWordless S.left S.faults K.taken K.faults declarations.now source.old source.new sink.old sink.new
        words.now (never_rejecting IsFlagsOutput) result }
    ensures never_rejected { result ≢ Ending.Rejected }
{
    one_first_fault();
    run_words(alloc, words, declarations, source, sink)
}
